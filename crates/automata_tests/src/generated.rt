//! The generated file of a size.
use generated_file::generate_text;
use std::test::Fail;

#[test]
fn the_least_file_has_four_steps(rt: HostRuntime) -> Result<(), Fail> {
    let text = generate_text(rt.alloc(), 2)?;
    assert_eq!(&rt;
        text.as_slice(),
        b"synmon 1\nalphabet ab\nnfa 2\ninitial 0\nfinal 0\n0 a 1\n0 b 0\n1 a 0\n1 b 0\n".as_slice()
    );
    Ok(())
}
