//! Files that spell a source.
use automata::Nfa;
use automaton_file::{FileFault, LineGot, Refusal, body_nfa, next_line, read_file};
use std::alloc::Global;
use std::test::Fail;
use syn_words::Memory;

/// Texts that are refused, with the line and the code.
const REFUSED: [(&[u8], u32, u8); 37] = [
    (b"", 1, 7),
    (b"synmon 1\n", 2, 7),
    (b"synmon 3\n", 1, 1),
    (b"synmon\n", 1, 1),
    (b"synmon 1 1\n", 1, 1),
    (b"synmon 1\nalphabet aba\n", 2, 2),
    (b"synmon 1\nalphabet\n", 2, 2),
    (b"synmon 1\nalphabet aB\n", 2, 2),
    (b"synmon 1\nletters ab\n", 2, 2),
    (b"synmon 1\nalphabet ab\nregex a\n", 3, 3),
    (b"synmon 1\nalphabet ab\nexpr(a)\n", 3, 3),
    (b"synmon 1\nalphabet ab\nnfa 0\n", 3, 4),
    (b"synmon 1\nalphabet ab\nnfa 1001\n", 3, 4),
    (b"synmon 1\nalphabet ab\nnfa 01\n", 3, 4),
    (b"synmon 1\nalphabet ab\nnfa\n", 3, 4),
    (b"synmon 1\nalphabet ab\nnfa 2 2\n", 3, 4),
    (b"synmon 1\nalphabet ab\nnfa 2\ninitial 2\n", 4, 5),
    (b"synmon 1\nalphabet ab\nnfa 2\ninitial 00\n", 4, 5),
    (b"synmon 1\nalphabet ab\nnfa 2\nfinal 0\n", 4, 7),
    (b"synmon 1\nalphabet ab\nnfa 2\ninitial 0\nfi", 5, 7),
    (b"synmon 1\nalphabet ab\nnfa 2\ninitial 0\n\n", 6, 7),
    (
        b"synmon 1\nalphabet ab\nnfa 2\ninitial 0\nfinal 0\n0 c 1\n",
        6,
        6,
    ),
    (
        b"synmon 1\nalphabet ab\nnfa 2\ninitial 0\nfinal 0\n2 c 2\n",
        6,
        5,
    ),
    (
        b"synmon 1\nalphabet ab\nnfa 2\ninitial 0\nfinal 0\n0 a 2\n",
        6,
        5,
    ),
    (
        b"synmon 1\nalphabet ab\nnfa 2\ninitial 0\nfinal 0\n0 a",
        6,
        9,
    ),
    (b"synmon 1\nalphabet ab\nexpr a\nexpr b\n", 4, 9),
    (b"synmon 1\nalphabet ab\nexpr (ac)*\n", 3, 8),
    (b"synmon 1\nalphabet ab\nexpr\n", 3, 8),
    (b"synmon 1\nalphabet ab\nexpr expr a\n", 3, 8),
    (b"synmon 1\nalphabet ab\nexpr a)\n0 a 0\n", 3, 8),
    (b"synmon 1\nalphabet ab\nexpr a\n\n# b\nnfa 1\n", 6, 9),
    (b"synmon 1\nalphabet ab\nexpr a\n# \xff\nnfa 1\n", 4, 10),
    (b"synmon 1\nalphabet ab\nexpr a\x00", 3, 10),
    (b"synmon 1\nalphabet ab\nexpr a\n\r", 4, 10),
    (b"# caf\xc3\xa9", 1, 10),
    (
        b"synmon 1\nalphabet a\nnfa 1\ninitial 0\nfinal\n0 a\r 0\n",
        6,
        10,
    ),
    (
        b"synmon 1\nalphabet a\nnfa 1\ninitial 0\nfinal\n0 a 0\r",
        6,
        10,
    ),
];

/// Texts that spell a source, with the counts of states and of steps of its automaton.
const TAKEN: [(&[u8], u32, usize); 8] = [
    (
        b"synmon 1\nalphabet ab\nnfa 3\ninitial 0\nfinal 0\n0 a 1\n0 b 2\n1 a 2\n1 b 0\n2 a 2\n2 b 2\n",
        3,
        6,
    ),
    (b"synmon 1\nalphabet ab\nnfa 1\ninitial\nfinal", 1, 0),
    (
        b"synmon 1\r\nalphabet a\r\nnfa 2\r\ninitial 0 1\r\nfinal\r\n0 a 0\r\n0 a 1",
        2,
        2,
    ),
    (
        b"\n# one state\n  synmon\t1\nalphabet b a\nnfa 1\n\ninitial 0 0\nfinal 0\n#\n0 a 0\n 0 b 0 \n0 a 0\n",
        1,
        2,
    ),
    (
        b"synmon 1\nalphabet a\nnfa 1000\ninitial 999\nfinal 0\n999 a 999\n",
        1000,
        1,
    ),
    (
        b"\r\n# c\r\nsynmon 1\r\nalphabet a b\r\n\r\nexpr (a b)*",
        3,
        3,
    ),
    (b"synmon 1\nalphabet ab\n\texpr\ta0|b\n\n", 3, 1),
    (b"synmon 1\nalphabet ab\nexpr 0\n", 1, 0),
];

#[test]
fn refuses_with_line_and_code(rt: HostRuntime) -> Result<(), Fail> {
    for (text, line, code) in &REFUSED {
        match read_file(rt.alloc(), text) {
            Ok(_) => assert!(rt; false, "line {line} code {code}"),
            Err(fault) => assert_eq!(rt;
                fault,
                FileFault::Refused(Refusal {
                    line: *line,
                    code: *code
                })
            ),
        }
    }
    Ok(())
}

#[test]
fn refuses_what_is_too_long(rt: HostRuntime) -> Result<(), Fail> {
    let mut text = vec![in rt.alloc(); b'\n'; 1_048_576]?;
    match read_file(rt.alloc(), &text) {
        Ok(_) => assert!(rt; false),
        Err(fault) => assert_eq!(rt;
            fault,
            FileFault::Refused(Refusal {
                line: 1_048_577,
                code: 7
            })
        ),
    }
    text.push(b'\n')?;
    match read_file(rt.alloc(), &text) {
        Ok(_) => assert!(rt; false),
        Err(fault) => assert_eq!(rt; fault, FileFault::Refused(Refusal { line: 0, code: 11 })),
    }
    Ok(())
}

/// The steps of an automaton: from, letter and to.
fn steps_of(alloc: Global, nfa: &Nfa) -> Result<Vec<(u32, u8, u32)>, Memory> {
    let mut steps = Vec::new(alloc);
    for from in 0..nfa.states() {
        for letter in 0..nfa.letters() as u8 {
            for to in 0..nfa.states() {
                if nfa.has_step(from, letter, to) {
                    steps.push((from, letter, to))?;
                }
            }
        }
    }
    Ok(steps)
}

#[test]
fn reads_sources(rt: HostRuntime) -> Result<(), Fail> {
    for (text, states, steps) in &TAKEN {
        let source = read_file(rt.alloc(), text)?;
        let nfa = body_nfa(rt.alloc(), &source)?;
        assert_eq!(rt; nfa.states(), *states);
        assert_eq!(rt; steps_of(rt.alloc(), &nfa)?.len(), *steps);
    }
    Ok(())
}

#[test]
fn reads_the_source(rt: HostRuntime) -> Result<(), Fail> {
    let (text, _, _) = TAKEN[0];
    let source = read_file(rt.alloc(), text)?;
    assert_eq!(rt; source.alphabet.letters(), b"ab".as_slice());
    let nfa = body_nfa(rt.alloc(), &source)?;
    assert!(rt; nfa.has_step(1, 1, 0) && !nfa.has_step(1, 1, 2));
    Ok(())
}

#[test]
fn finds_the_next_line(rt: HostRuntime) -> Result<(), Fail> {
    let text = b"# c\r\n\n  a b\r\n\x7f".as_slice();
    let line = LineGot::Line {
        number: 3,
        from: 6,
        to: 11,
        next: 13,
    };
    assert_eq!(rt; next_line(text, 0, 1), line);
    assert_eq!(rt; next_line(text, 13, 4), LineGot::BadByte { number: 4 });
    assert_eq!(rt; next_line(text, 14, 5), LineGot::End { lines: 4 });
    Ok(())
}
