//! Lines and what they ask for.
use command_line::{Command, LineFault, read_line};
use std::alloc::Global;
use std::process::Abort;
use std::test::Fail;

/// The numbers of a line without options.
const USUAL: [u32; 7] = [2_000, 10_000, 2_000, 200_000, 6, 20_000, 1];

/// The numbers of a line that sets the limit of elements to 6.
const SIX_ELEMENTS: [u32; 7] = [2_000, 6, 2_000, 200_000, 6, 20_000, 1];

/// A line about the file `f`, its command, and the numbers of its options.
const LINES: [(&[&str], Command, [u32; 7]); 8] = [
    (&["automaton", "f"], Command::Automaton, USUAL),
    (
        &["monoid", "--elements", "6", "f"],
        Command::Monoid,
        SIX_ELEMENTS,
    ),
    (
        &["monoid", "--elements=6", "f"],
        Command::Monoid,
        SIX_ELEMENTS,
    ),
    (
        &["--elements", "6", "monoid", "f"],
        Command::Monoid,
        SIX_ELEMENTS,
    ),
    (
        &["monoid", "f", "--elements", "6"],
        Command::Monoid,
        SIX_ELEMENTS,
    ),
    (&["automaton", "--", "f"], Command::Automaton, USUAL),
    (
        &[
            "automaton",
            "--subsets",
            "1",
            "--elements",
            "1",
            "--table",
            "1",
            "--nodes",
            "1",
            "--level",
            "1",
            "--pairs",
            "1",
            "--workers",
            "1",
            "f",
        ],
        Command::Automaton,
        [1, 1, 1, 1, 1, 1, 1],
    ),
    (
        &[
            "automaton",
            "--subsets",
            "4096",
            "--elements",
            "50000",
            "--table",
            "8000",
            "--nodes",
            "1000000",
            "--level",
            "12",
            "--pairs",
            "100000",
            "--workers",
            "64",
            "f",
        ],
        Command::Automaton,
        [4_096, 50_000, 8_000, 1_000_000, 12, 100_000, 64],
    ),
];

/// Words that are no line, and the first fault.
const FAULTS: [(&[&str], LineFault); 36] = [
    (&[], LineFault::Words),
    (&["monoid"], LineFault::Words),
    (&["monoid", "f", "g"], LineFault::Words),
    (&["monoid", "--colour", "1", "f"], LineFault::Words),
    (&["automaton", "--subsets", "f"], LineFault::Words),
    (&["automaton", "f", "--subsets"], LineFault::Words),
    (
        &["automaton", "--subsets", "5", "--subsets", "5", "f"],
        LineFault::Words,
    ),
    (&["automaton", "-s", "5", "f"], LineFault::Words),
    (&["automaton", "--sub", "5", "f"], LineFault::Words),
    (&["automaton", "-f"], LineFault::Words),
    (&["--help"], LineFault::Words),
    (&["words", "--colour", "1", "f"], LineFault::Words),
    (&["words", "f"], LineFault::Command),
    (&["Automaton", "f"], LineFault::Command),
    (&["words", "--nodes", "x", "f"], LineFault::Command),
    (
        &["automaton", "--subsets", "0", "f"],
        LineFault::Number { option: 0 },
    ),
    (
        &["automaton", "--subsets", "4097", "f"],
        LineFault::Number { option: 0 },
    ),
    (
        &["automaton", "--elements", "50001", "f"],
        LineFault::Number { option: 1 },
    ),
    (
        &["automaton", "--table", "8001", "f"],
        LineFault::Number { option: 2 },
    ),
    (
        &["monoid", "--nodes", "x", "f"],
        LineFault::Number { option: 3 },
    ),
    (
        &["automaton", "--nodes", "1000001", "f"],
        LineFault::Number { option: 3 },
    ),
    (
        &["automaton", "--level", "13", "f"],
        LineFault::Number { option: 4 },
    ),
    (
        &["automaton", "--pairs=", "f"],
        LineFault::Number { option: 5 },
    ),
    (
        &["automaton", "--pairs", "100001", "f"],
        LineFault::Number { option: 5 },
    ),
    (
        &["monoid", "--workers", "0", "f"],
        LineFault::Number { option: 6 },
    ),
    (
        &["monoid", "--workers", "65", "f"],
        LineFault::Number { option: 6 },
    ),
    (
        &["monoid", "--workers", "01", "f"],
        LineFault::Number { option: 6 },
    ),
    (
        &["automaton", "--workers", "0", "--level", "0", "f"],
        LineFault::Number { option: 4 },
    ),
    (&["generate"], LineFault::Words),
    (&["Generate", "1"], LineFault::Command),
    (
        &["generate", "--workers", "0", "1"],
        LineFault::Number { option: 6 },
    ),
    (&["generate", "1"], LineFault::Size),
    (&["generate", "1001"], LineFault::Size),
    (&["generate", "02"], LineFault::Size),
    (&["generate", "4294967298"], LineFault::Size),
    (&["generate", "f"], LineFault::Size),
];

fn listed(alloc: Global, words: &[&str]) -> Result<Vec<String>, Fail> {
    let mut list = Vec::new(alloc);
    for word in words {
        list.push(String::from_str(alloc, word)?)?;
    }
    Ok(list)
}

/// Holds that the words ask for the command on this file with these numbers.
fn is_line<R: Abort + AllocGlobal>(
    rt: &R,
    words: &[&str],
    command: Command,
    operand: &str,
    numbers: [u32; 7],
) -> Result<(), Fail> {
    let list = listed(rt.alloc(), words)?;
    let request = read_line(rt.alloc(), list.as_slice())?;
    assert_eq!(rt; request.command, command);
    assert_eq!(rt; request.operand.text(), operand);
    assert_eq!(rt;
        [
            request.subsets,
            request.elements,
            request.table,
            request.nodes,
            request.level,
            request.pairs,
            request.workers,
        ],
        numbers
    );
    Ok(())
}

#[test]
fn lines_ask_for_requests(rt: HostRuntime) -> Result<(), Fail> {
    for (words, command, numbers) in LINES {
        is_line(&rt, words, command, "f", numbers)?;
    }
    is_line(
        &rt,
        &["automaton", "--", "-f"],
        Command::Automaton,
        "-f",
        USUAL,
    )?;
    is_line(&rt, &["automaton", "-"], Command::Automaton, "-", USUAL)
}

#[test]
fn other_words_have_a_first_fault(rt: HostRuntime) -> Result<(), Fail> {
    for (words, fault) in FAULTS {
        let list = listed(rt.alloc(), words)?;
        assert_eq!(&rt; read_line(rt.alloc(), list.as_slice()).err(), Some(fault));
    }
    Ok(())
}

#[test]
fn generate_takes_a_size(rt: HostRuntime) -> Result<(), Fail> {
    let rows: [(&[&str], Command, u32); 5] = [
        (&["generate", "2"], Command::Generate, 2),
        (&["generate", "1000"], Command::Generate, 1_000),
        (&["generate", "--workers", "7", "17"], Command::Generate, 17),
        (&["automaton", "2"], Command::Automaton, 0),
        (&["table", "f"], Command::Table, 0),
    ];
    for (words, command, size) in rows {
        let list = listed(rt.alloc(), words)?;
        let request = read_line(rt.alloc(), list.as_slice())?;
        assert_eq!(&rt; (request.command, request.size), (command, size));
    }
    Ok(())
}
