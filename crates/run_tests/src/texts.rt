//! A long text in pieces, and a section.
ghost use Rattle.std.specs.Prelude.{◌≡◌, false};

use automata::Nfa;
use report_text::{Buffer, SayFault, flush, say, say_automaton};
use std::alloc::Global;
use std::test::Fail;
use subset_minimal::minimal;
use syn_outside::MemSink;
use syn_words::Alphabet;

/// A text of 50,000 bytes.
fn long_text(alloc: Global) -> Result<Vec<u8>, Fail> {
    let mut text = Vec::with_capacity(alloc, 50_000)?;
    for i in 0..50_000u32 {
        text.push((i % 251) as u8)?;
    }
    Ok(text)
}

/// Says the text three times, and then writes what is held.
fn say_thrice(sink: &mut MemSink, buffer: &mut Buffer, text: &[u8]) -> Result<(), SayFault>
    requires { buffer.old.broken ≡ false }
{
    say(sink, buffer, text)?;
    say(sink, buffer, text)?;
    say(sink, buffer, text)?;
    flush(sink, buffer)
}

#[test]
fn a_long_text_is_written_in_pieces(rt: HostRuntime) -> Result<(), Fail> {
    let alloc = rt.alloc();
    let text = long_text(alloc)?;
    // For each list of failing calls: the fault, and how many bytes the sink has in the end.
    let rows: [(&[u64], Option<SayFault>, usize); 4] = [
        (&[], None, 150_000),
        (&[0], Some(SayFault::Write), 0),
        (&[1], Some(SayFault::Write), 65_536),
        (&[2], Some(SayFault::Write), 131_072),
    ];
    for (failing, fault, written) in rows {
        let mut sink = MemSink::new(alloc, 200_000, 65_536, failing)?;
        let mut buffer = Buffer::new(alloc)?;
        assert_eq!(&rt;
            say_thrice(&mut sink, &mut buffer, text.as_slice()).err(),
            fault
        );
        assert_eq!(&rt; sink.bytes().len(), written);
        for (place, byte) in sink.bytes().iter().enumerate() {
            assert_eq!(&rt; *byte, (place % 50_000 % 251) as u8);
        }
    }
    Ok(())
}

#[test]
fn a_buffer_holds_what_is_not_yet_written(rt: HostRuntime) -> Result<(), Fail> {
    let alloc = rt.alloc();
    let text = long_text(alloc)?;
    let mut sink = MemSink::new(alloc, 200_000, 1_000, &[])?;
    let mut buffer = Buffer::new(alloc)?;
    say(&mut sink, &mut buffer, text.as_slice())?;
    assert_eq!(&rt; buffer.held(), 50_000);
    let (part, _) = text.as_slice().split_at(15_535.min(text.len()));
    say(&mut sink, &mut buffer, part)?;
    assert_eq!(&rt; buffer.held(), 65_535);
    say(&mut sink, &mut buffer, b"a")?;
    assert_eq!(&rt; buffer.held(), 0);
    assert_eq!(&rt; sink.bytes().len(), 65_536);
    Ok(())
}

#[test]
fn says_the_section_of_one_word(rt: HostRuntime) -> Result<(), Fail> {
    let alloc = rt.alloc();
    let alphabet = Alphabet::from_text(alloc, b"ba")?;
    // The word ba alone: a leads nowhere from the start.
    let mut nfa = Nfa::new(alloc, 3, 2)?;
    nfa.set_initial(0);
    nfa.set_final(2);
    nfa.add_step(0, 0, 1)?;
    nfa.add_step(1, 1, 2)?;
    let dfa = minimal(alloc, &nfa, 10)?;
    let mut sink = MemSink::new(alloc, 1_000, 7, &[])?;
    let mut buffer = Buffer::new(alloc)?;
    say_automaton(alloc, &mut sink, &mut buffer, &alphabet, &dfa)?;
    flush(&mut sink, &mut buffer)?;
    assert_eq!(&rt;
        sink.bytes(),
        b"automaton\nalphabet ba\nstates 4\n0 1 out 1 2\n1 b out 2 3\n2 a out 2 2\n3 ba in 2 2\n".as_slice()
    );
    Ok(())
}
