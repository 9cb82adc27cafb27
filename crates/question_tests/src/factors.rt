//! The widths of levels of prefixes, suffixes and factors. Whole answers are tested by runs of the program's top call.
use factor_keys::Factors;
use level_search::{BeginFault, Quotient};

#[test]
fn widths(rt: HostRuntime) {
    let mut quotient = Factors::new(rt.alloc());
    assert_eq!(rt; quotient.begin(3, 9), Ok(0));
    assert_eq!(rt; quotient.len(), 1);
    assert_eq!(rt; quotient.begin(3, 10), Err(BeginFault::Wide));
    assert_eq!(rt; quotient.len(), 0);
}
