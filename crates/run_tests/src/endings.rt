//! What is told of each ending, over a sink in memory.

use report_outcome::{Ending, Stop, Verdict, tell};
use std::test::Fail;
use syn_outside::MemSink;

/// Each ending, its status and its line.
const ENDINGS: [(Ending, u8, &str); 9] = [
    (Ending::Decided(Verdict::Said { limited: false }), 0, ""),
    (Ending::BadLine, 2, "synmon: bad command line\n"),
    (Ending::CannotRead, 3, "synmon: cannot read\n"),
    (
        Ending::Decided(Verdict::Refused { line: 12, code: 7 }),
        4,
        "synmon: line 12 code 7\n",
    ),
    (
        Ending::Decided(Verdict::Stopped(Stop::Subsets(16))),
        5,
        "synmon: limit subsets 16\n",
    ),
    (
        Ending::Decided(Verdict::Stopped(Stop::Elements(500))),
        5,
        "synmon: limit elements 500\n",
    ),
    (Ending::Decided(Verdict::Said { limited: true }), 5, ""),
    (Ending::CannotWrite, 6, "synmon: cannot write\n"),
    (Ending::NoMemory, 7, "synmon: out of memory\n"),
];

#[test]
fn each_ending_has_its_status_and_its_line(rt: HostRuntime) -> Result<(), Fail> {
    for (ending, status, line) in ENDINGS {
        let mut errs = MemSink::new(rt.alloc(), 64, 10, &[])?;
        tell(&mut errs, ending);
        assert_eq!(rt; ending.status(), status);
        assert_eq!(rt; errs.bytes(), line.as_bytes());
    }
    Ok(())
}
