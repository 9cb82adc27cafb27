//! Components of small graphs.
use components::{side_by_side, strong_components};
use std::test::Fail;

/// 0 and 1 lead to the ring 3, 5, 4, which is entered at 5, and 2 stands alone.
#[test]
fn names_each_component(rt: HostRuntime) -> Result<(), Fail> {
    let targets = [1, 5, 0, 5, 2, 0, 5, 5, 3, 4, 4, 4];
    let labels = strong_components(rt.alloc(), 6, 2, &targets)?;
    assert_eq!(rt; labels.as_slice(), [0, 0, 2, 3, 3, 3].as_slice());
    Ok(())
}

/// 1 -> 2 in the first graph, 2 -> 1 in the second, and 0 -> 1, 3 -> 0.
#[test]
fn joins_two_graphs(rt: HostRuntime) -> Result<(), Fail> {
    let both = side_by_side(rt.alloc(), 4, 1, &[1, 2, 2, 3], 1, &[0, 1, 1, 0])?;
    assert_eq!(rt; both.as_slice(), [1, 0, 2, 1, 2, 1, 3, 0].as_slice());
    let labels = strong_components(rt.alloc(), 4, 2, both.as_slice())?;
    assert_eq!(rt; labels.as_slice(), [0, 1, 1, 3].as_slice());
    Ok(())
}
