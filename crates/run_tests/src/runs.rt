//! Runs over devices in memory, and over the files of the system.

use crate::running::{Devices, NEVER, line_of, run_on, status_of_run};
use std::alloc::Global;
use std::fs;
use std::process::Abort;
use std::test::Fail;
use std::thread::Threads;
use syn_outside::{MemSink, OpenGate, RealFiles, RealSink, put_all};

/// The language `(ab)*`.
const AB_STAR: &str =
    "synmon 1\nalphabet ab\nnfa 3\ninitial 0\nfinal 0\n0 a 1\n0 b 2\n1 a 2\n1 b 0\n2 a 2\n2 b 2\n";

const AB_STAR_TEXT: &str =
    "automaton\nalphabet ab\nstates 3\n0 1 in 1 2\n1 a out 2 0\n2 b out 2 2\n";

const AB_STAR_MONOID: &str =
    "monoid\nelements 6\n0 1 in right 1 2 left 1 2\n1 a out right 3 4 left 3 5\n2 b out right 5 3 left 4 3\n3 aa out right 3 3 left 3 3\n4 ab in right 1 3 left 3 2\n5 ba out right 3 2 left 1 3\nrules 6\nbb aa\naaa aa\naab aa\naba a\nbaa aa\nbab b\n";

const AB_STAR_GREEN: &str =
    "green\nboxes 3\nbox 0 rows 1 columns 1 size 1\n1*\nbox 1 rows 2 columns 2 size 1\na | ab*\nba* | b\nbox 2 rows 1 columns 1 size 1\naa*\nidempotents 4\n";

const AB_STAR_LIST: &str =
    "starfree yes\nnodes 24\n0 none\n1 not 0\n2 eps\n3 letter a\n4 letter b\n5 cat 1 3\n6 cat 5 1\n7 not 6\n8 cat 7 4\n9 cat 8 4\n10 cat 3 1\n11 or 10 2\n12 cat 3 4\n13 cat 3 9\n14 cat 11 3\n15 cat 14 11\n16 not 15\n17 and 11 16\n18 cat 17 13\n19 cat 18 17\n20 not 19\n21 and 17 20\n22 cat 21 12\n23 or 2 22\nroot 23\n";

/// The sections of `report`.
const AB_STAR_REPORT: &str =
    "automaton\nalphabet ab\nstates 3\n0 1 in 1 2\n1 a out 2 0\n2 b out 2 2\nmonoid\nelements 6\n0 1 in right 1 2 left 1 2\n1 a out right 3 4 left 3 5\n2 b out right 5 3 left 4 3\n3 aa out right 3 3 left 3 3\n4 ab in right 1 3 left 3 2\n5 ba out right 3 2 left 1 3\nrules 6\nbb aa\naaa aa\naab aa\naba a\nbaa aa\nbab b\ngreen\nboxes 3\nbox 0 rows 1 columns 1 size 1\n1*\nbox 1 rows 2 columns 2 size 1\na | ab*\nba* | b\nbox 2 rows 1 columns 1 size 1\naa*\nidempotents 4\nstarfree yes\nnodes 24\n0 none\n1 not 0\n2 eps\n3 letter a\n4 letter b\n5 cat 1 3\n6 cat 5 1\n7 not 6\n8 cat 7 4\n9 cat 8 4\n10 cat 3 1\n11 or 10 2\n12 cat 3 4\n13 cat 3 9\n14 cat 11 3\n15 cat 14 11\n16 not 15\n17 and 11 16\n18 cat 17 13\n19 cat 18 17\n20 not 19\n21 and 17 20\n22 cat 21 12\n23 or 2 22\nroot 23\npiecewise no right\nu 1\ns a\nletter b\ny a\nv 1\nfirst out\nlocal yes 2\nrtrivial no\nu 1\ns a\nletter b\ny a\nv 1\nfirst out\ncommutative no\nletters a b\nu 1\nv 1\nfirst in\n";

/// The counts of the words of a whose length 1,000 divides, over ab, and the first lines of their answers.
const GENERATED_1000: &str =
    "generate 1000\nstates 1000\nelements 2000\nrules 3\nboxes 2\nidempotents 1001\nstarfree no\npiecewise no right\nlocal no repeat\nrtrivial no\ncommutative no\n";

const AB_STAR_TABLE: &str =
    "table 6\n0 1 2 3 4 5\n1 3 4 3 3 1\n2 5 3 3 2 3\n3 3 3 3 3 3\n4 1 3 3 4 3\n5 3 2 3 3 5\n";

/// The words with an even number of a, by four states that fold in pairs, and one that no word leads to.
const EVEN_AS: &str =
    "synmon 1\nalphabet ba\nnfa 5\ninitial 2\nfinal 0 2 4\n0 a 1\n0 b 2\n1 a 0\n1 b 3\n2 a 3\n2 b 0\n3 a 2\n3 b 1\n4 a 4\n4 b 4\n";

const EVEN_AS_TEXT: &str = "automaton\nalphabet ba\nstates 2\n0 1 in 0 1\n1 a out 1 0\n";

const EVEN_AS_MONOID: &str =
    "monoid\nelements 2\n0 1 in right 0 1 left 0 1\n1 a out right 1 0 left 1 0\nrules 2\nb 1\naa 1\n";

/// No word, by a final state that no word leads to.
const NO_WORD: &str = "synmon 1\nalphabet a\nnfa 2\ninitial 1\nfinal 0\n0 a 1\n1 a 1\n";

/// The words with a subword ab.
const A_BEFORE_B: &str = "synmon 1\nalphabet ab\nexpr (a|b)*a(a|b)*b(a|b)*\n";

/// No word over two letters.
const NO_WORD_OF_TWO: &str = "synmon 1\nalphabet ab\nexpr 0\n";

/// The empty word alone.
const EMPTY_WORD: &str = "synmon 1\nalphabet a\nexpr 1\n";

/// The language `(ab)*` by two initial states, of which words lead to five sets of states.
const FIVE_SETS: &str =
    "synmon 1\nalphabet ab\nnfa 5\ninitial 0 1\nfinal 0\n0 a 2\n1 a 2\n2 b 0\n2 a 4\n3 a 0\n";

/// The words whose fourth letter from the end is a: 16 states, and 17 sets of positions.
const FOURTH_LAST_A: &str = "synmon 1\nalphabet ab\nexpr (a|b)*a(a|b)(a|b)(a|b)\n";

const FOURTH_LAST_A_TEXT: &str =
    "automaton\nalphabet ab\nstates 16\n0 1 out 1 0\n1 a out 2 3\n2 aa out 4 5\n3 ab out 6 7\n4 aaa out 8 9\n5 aab out 10 11\n6 aba out 12 13\n7 abb out 14 15\n8 aaaa in 8 9\n9 aaab in 10 11\n10 aaba in 12 13\n11 aabb in 14 15\n12 abaa in 4 5\n13 abab in 6 7\n14 abba in 2 3\n15 abbb in 1 0\n";

/// An expression whose first sign stands in no word, so that words lead to three sets of positions.
const DEAD_SIGN: &str = "synmon 1\nalphabet ab\nexpr a0|b\n";

const WHOLE_LINE: u32 = 64;

/// A run on the words over these devices, and what is wanted.
#[derive(Clone, Copy)]
struct Row {
    words: &'static [&'static str],
    file: &'static str,
    failing_read: u8,
    out_room: u32,
    failing_write: u8,
    errs_room: u32,
    status: u8,
    out: &'static str,
    errs: &'static str,
}

const GOOD: Row = Row {
    words: &["automaton", "name"],
    file: AB_STAR,
    failing_read: NEVER,
    out_room: 1_000,
    failing_write: NEVER,
    errs_room: WHOLE_LINE,
    status: 0,
    out: AB_STAR_TEXT,
    errs: "",
};

const REFUSED: Row = Row {
    status: 4,
    out: "",
    ..GOOD
};

const BAD_LINE: Row = Row {
    status: 2,
    out: "",
    errs: "synmon: bad command line\n",
    ..GOOD
};

const CANNOT_READ: Row = Row {
    status: 3,
    out: "",
    errs: "synmon: cannot read\n",
    ..GOOD
};

const CANNOT_WRITE: Row = Row {
    status: 6,
    errs: "synmon: cannot write\n",
    ..GOOD
};

const STOPPED: Row = Row {
    status: 5,
    out: "",
    ..GOOD
};

/// Runs that write the whole text.
const TEXTS: [Row; 35] = [
    Row {
        words: &["starfree", "--nodes", "60", "name"],
        out: AB_STAR_LIST,
        ..GOOD
    },
    Row {
        words: &["starfree", "name"],
        file: EVEN_AS,
        out: "starfree no\nu 1\nx a\nv 1\nindex 0\nperiod 2\nfirst in\n",
        ..GOOD
    },
    Row {
        words: &["generate", "1000"],
        out: GENERATED_1000,
        ..GOOD
    },
    Row {
        words: &["generate", "1000", "--workers", "7"],
        out: GENERATED_1000,
        ..GOOD
    },
    Row {
        words: &["generate", "2"],
        out: "generate 2\nstates 2\nelements 4\nrules 3\nboxes 2\nidempotents 3\nstarfree no\npiecewise no right\nlocal no repeat\nrtrivial no\ncommutative no\n",
        ..GOOD
    },
    Row {
        words: &["piecewise", "name"],
        out: "piecewise no right\nu 1\ns a\nletter b\ny a\nv 1\nfirst out\n",
        ..GOOD
    },
    Row {
        words: &["local", "name"],
        out: "local yes 2\n",
        ..GOOD
    },
    Row {
        words: &["local", "name"],
        file: EVEN_AS,
        out: "local no repeat\nu 1\nx b\ny a\nv 1\nfirst out\n",
        ..GOOD
    },
    Row {
        words: &["rtrivial", "name"],
        file: EVEN_AS,
        out: "rtrivial no\nu 1\ns 1\nletter a\ny a\nv 1\nfirst in\n",
        ..GOOD
    },
    Row {
        words: &["commutative", "name"],
        out: "commutative no\nletters a b\nu 1\nv 1\nfirst in\n",
        ..GOOD
    },
    Row {
        words: &["commutative", "name"],
        file: EVEN_AS,
        out: "commutative yes\n",
        ..GOOD
    },
    Row {
        words: &["bound", "name"],
        out: "bound\nchain 3\n1\na\naa\nlevel none\n",
        ..GOOD
    },
    Row {
        words: &["bound", "name"],
        file: A_BEFORE_B,
        out: "bound\nchain 4\n1\na\nba\nab\nlevel 7\n",
        ..GOOD
    },
    Row {
        words: &["piecewise", "--level", "7", "name"],
        file: A_BEFORE_B,
        out: "piecewise yes 2\n",
        ..GOOD
    },
    Row {
        words: &["bound", "name"],
        file: NO_WORD_OF_TWO,
        out: "bound\nchain 1\n1\nlevel 1\n",
        ..GOOD
    },
    Row {
        words: &["bound", "name"],
        file: EMPTY_WORD,
        out: "bound\nchain 2\n1\na\nlevel 3\n",
        ..GOOD
    },
    Row {
        words: &["green", "name"],
        out: AB_STAR_GREEN,
        ..GOOD
    },
    Row {
        words: &["green", "name"],
        file: EVEN_AS,
        out: "green\nboxes 1\nbox 0 rows 1 columns 1 size 2\n1* a\nidempotents 1\n",
        ..GOOD
    },
    Row {
        words: &["table", "--table", "6", "name"],
        out: AB_STAR_TABLE,
        ..GOOD
    },
    Row {
        words: &["table", "--workers", "64", "name"],
        file: FIVE_SETS,
        out: AB_STAR_TABLE,
        ..GOOD
    },
    GOOD,
    Row {
        file: EVEN_AS,
        out: EVEN_AS_TEXT,
        ..GOOD
    },
    Row {
        file: NO_WORD,
        out: "automaton\nalphabet a\nstates 1\n0 1 out 0\n",
        ..GOOD
    },
    Row {
        file: FIVE_SETS,
        ..GOOD
    },
    Row {
        file: "synmon 1\nalphabet ab\nexpr (ab)*\n",
        ..GOOD
    },
    Row {
        file: "synmon 1\nalphabet ab\nexpr 0\n",
        out: "automaton\nalphabet ab\nstates 1\n0 1 out 0 0\n",
        ..GOOD
    },
    Row {
        words: &["automaton", "--subsets", "3", "name"],
        file: DEAD_SIGN,
        out: "automaton\nalphabet ab\nstates 3\n0 1 out 1 2\n1 a out 1 1\n2 b in 1 1\n",
        ..GOOD
    },
    Row {
        words: &["automaton", "--subsets", "17", "name"],
        file: FOURTH_LAST_A,
        out: FOURTH_LAST_A_TEXT,
        ..GOOD
    },
    Row {
        words: &["automaton", "--subsets", "5", "name"],
        file: FIVE_SETS,
        ..GOOD
    },
    Row {
        words: &["automaton", "--subsets", "4096", "name"],
        file: FIVE_SETS,
        ..GOOD
    },
    Row {
        words: &["automaton", "--subsets=5", "name"],
        file: FIVE_SETS,
        ..GOOD
    },
    Row {
        words: &["--workers", "64", "automaton", "name", "--level", "12"],
        ..GOOD
    },
    Row {
        words: &["monoid", "name"],
        out: AB_STAR_MONOID,
        ..GOOD
    },
    Row {
        words: &["monoid", "--elements", "6", "--workers", "7", "name"],
        file: FIVE_SETS,
        out: AB_STAR_MONOID,
        ..GOOD
    },
    Row {
        words: &["monoid", "name"],
        file: EVEN_AS,
        out: EVEN_AS_MONOID,
        ..GOOD
    },
];

/// Runs of all sections but the table.
const REPORTS: [Row; 2] = [
    Row {
        words: &["report", "name"],
        out: AB_STAR_REPORT,
        ..GOOD
    },
    Row {
        words: &["report", "--workers", "7", "name"],
        file: FIVE_SETS,
        out: AB_STAR_REPORT,
        ..GOOD
    },
];

/// Runs that pass a limit, before a section is made or in one.
const STOPS: [Row; 13] = [
    Row {
        words: &["starfree", "--nodes", "59", "name"],
        out: "starfree limit nodes 59\n",
        ..STOPPED
    },
    Row {
        words: &["starfree", "--table", "5", "name"],
        out: "starfree limit table 5\n",
        ..STOPPED
    },
    Row {
        words: &["generate", "--table", "3", "2"],
        out: "generate 2\nstates 2\nelements 4\nrules 3\nboxes 2\nidempotents 3\nstarfree no\npiecewise no right\nlocal limit table 3\nrtrivial no\ncommutative no\n",
        ..STOPPED
    },
    Row {
        words: &["local", "--table", "5", "name"],
        out: "local limit table 5\n",
        ..STOPPED
    },
    Row {
        words: &["local", "--level", "1", "name"],
        out: "local limit level 1\n",
        ..STOPPED
    },
    Row {
        words: &["piecewise", "--pairs", "1", "name"],
        file: "synmon 1\nalphabet a\nexpr 1\n",
        out: "piecewise limit pairs 0\n",
        ..STOPPED
    },
    Row {
        words: &["table", "--table", "5", "name"],
        out: "table limit 5\n",
        ..STOPPED
    },
    Row {
        words: &["table", "--table", "5", "--elements", "5", "name"],
        errs: "synmon: limit elements 5\n",
        ..STOPPED
    },
    Row {
        words: &["automaton", "--subsets", "2", "name"],
        file: DEAD_SIGN,
        errs: "synmon: limit subsets 2\n",
        ..STOPPED
    },
    Row {
        words: &["automaton", "--subsets", "16", "name"],
        file: FOURTH_LAST_A,
        errs: "synmon: limit subsets 16\n",
        ..STOPPED
    },
    Row {
        words: &["automaton", "--subsets", "4", "name"],
        file: FIVE_SETS,
        errs: "synmon: limit subsets 4\n",
        ..STOPPED
    },
    Row {
        words: &["monoid", "--elements", "5", "name"],
        errs: "synmon: limit elements 5\n",
        ..STOPPED
    },
    Row {
        words: &["monoid", "--subsets", "4", "--elements", "5", "name"],
        file: FIVE_SETS,
        errs: "synmon: limit subsets 4\n",
        ..STOPPED
    },
];

/// Runs on words that are no line.
const BAD_LINES: [Row; 16] = [
    Row {
        words: &["generate", "1"],
        ..BAD_LINE
    },
    Row {
        words: &["generate", "1001"],
        ..BAD_LINE
    },
    Row {
        words: &[],
        ..BAD_LINE
    },
    Row {
        words: &["automaton"],
        ..BAD_LINE
    },
    Row {
        words: &["automata", "name"],
        ..BAD_LINE
    },
    Row {
        words: &["automaton", "name", "name"],
        ..BAD_LINE
    },
    Row {
        words: &["automaton", "--subsets", "0", "name"],
        ..BAD_LINE
    },
    Row {
        words: &["automaton", "--subsets", "4097", "name"],
        ..BAD_LINE
    },
    Row {
        words: &["automaton", "--subsets", "01", "name"],
        ..BAD_LINE
    },
    Row {
        words: &["automaton", "--subsets", "+5", "name"],
        ..BAD_LINE
    },
    Row {
        words: &["automaton", "--subsets", "5", "--subsets", "5", "name"],
        ..BAD_LINE
    },
    Row {
        words: &["automaton", "--colour", "1", "name"],
        ..BAD_LINE
    },
    Row {
        words: &["automaton", "--subsets", "5"],
        ..BAD_LINE
    },
    Row {
        words: &["automaton", "--subsets"],
        ..BAD_LINE
    },
    Row {
        words: &["automaton", "--nodes", "x", "name"],
        ..BAD_LINE
    },
    Row {
        words: &["automaton", "--workers", "65", "name"],
        ..BAD_LINE
    },
];

/// Runs that a file or a device ends.
const FAULTS: [Row; 11] = [
    Row {
        words: &["automaton", "--", "-name"],
        ..CANNOT_READ
    },
    Row {
        words: &["automaton", "other"],
        ..CANNOT_READ
    },
    Row {
        failing_read: 2,
        ..CANNOT_READ
    },
    Row {
        file: "",
        errs: "synmon: line 1 code 7\n",
        ..REFUSED
    },
    Row {
        file: "synmon 1",
        errs: "synmon: line 2 code 7\n",
        ..REFUSED
    },
    Row {
        file: "synmon 1\nalphabet ab\nnfa 2\ninitial 0\nfi",
        errs: "synmon: line 5 code 7\n",
        ..REFUSED
    },
    Row {
        file: "synmon 1\nalphabet ab\nexpr (ac)*\n",
        errs: "synmon: line 3 code 8\n",
        ..REFUSED
    },
    Row {
        file: "synmon 1\nalphabet ab\nexpr a\nexpr b\n",
        errs: "synmon: line 4 code 9\n",
        ..REFUSED
    },
    Row {
        failing_write: 1,
        out: "automaton\n",
        ..CANNOT_WRITE
    },
    Row {
        out_room: 10,
        out: "automaton\n",
        ..CANNOT_WRITE
    },
    Row {
        file: "",
        errs_room: 12,
        errs: "synmon: line",
        ..REFUSED
    },
];

fn check<R: Threads + Sync + Abort + AllocGlobal>(rt: &R, row: Row) -> Result<(), Fail> {
    let devices = Devices {
        file: row.file,
        failing_read: row.failing_read,
        out_room: row.out_room,
        out_step: 10,
        failing_write: row.failing_write,
        errs_room: row.errs_room,
    };
    let told = run_on(rt, rt.alloc(), row.words, &devices, &OpenGate)?;
    assert_eq!(rt; told.status, row.status);
    assert_eq!(rt; told.out.bytes(), row.out.as_bytes());
    assert_eq!(rt; told.errs.bytes(), row.errs.as_bytes());
    Ok(())
}

fn check_all<R: Threads + Sync + Abort + AllocGlobal>(rt: &R, rows: &[Row]) -> Result<(), Fail> {
    for row in rows {
        check(rt, *row)?;
    }
    Ok(())
}

#[test]
fn whole_texts_are_written(rt: HostRuntime) -> Result<(), Fail> {
    check_all(&rt, &TEXTS)
}

#[test]
fn report_succeeds_with_memory(rt: HostRuntime) -> Result<(), Fail> {
    check_all(&rt, &REPORTS)
}

#[test]
fn counts_stop_runs(rt: HostRuntime) -> Result<(), Fail> {
    check_all(&rt, &STOPS)
}

#[test]
fn other_words_are_bad_lines(rt: HostRuntime) -> Result<(), Fail> {
    check_all(&rt, &BAD_LINES)
}

#[test]
fn files_and_devices_end_runs(rt: HostRuntime) -> Result<(), Fail> {
    check_all(&rt, &FAULTS)
}

/// Whether a run on these words, over the files of the system, has this status, text and line.
fn is_run_over_files<R: Threads + Sync + std::rt::Files>(
    rt: &R,
    alloc: Global,
    words: &[&str],
    status: u8,
    text: &str,
    line: &str,
) -> Result<bool, Fail> {
    let words = line_of(alloc, words)?;
    let mut files = RealFiles::new(rt);
    let mut out = MemSink::new(alloc, 1_000, 1_000, &[])?;
    let mut errs = MemSink::new(alloc, WHOLE_LINE, 100, &[])?;
    let got = status_of_run(
        rt,
        alloc,
        words.as_slice(),
        &mut files,
        &mut out,
        &mut errs,
        &OpenGate,
    );
    Ok(got == status && out.bytes() == text.as_bytes() && errs.bytes() == line.as_bytes())
}

#[test]
fn a_run_over_real_files_reads_the_named_file(rt: HostRuntime) -> Result<(), Fail> {
    let name = "synmon_top.test";
    let mut writer = RealSink::new(fs::create(&rt, name)?);
    let is_written = put_all(&mut writer, AB_STAR.as_bytes());
    let alloc = rt.alloc();
    let is_read = is_run_over_files(&rt, alloc, &["report", name], 0, AB_STAR_REPORT, "")?;
    let line = "synmon: cannot read\n";
    let absent = ["automaton", "no_such_file.test"];
    let is_absent = is_run_over_files(&rt, alloc, &absent, 3, "", line)?;
    fs::remove_file(&rt, name)?;
    assert!(rt; is_written);
    assert!(rt; is_read);
    assert!(rt; is_absent);
    Ok(())
}

/// The file that spells the word of 398 letters a.
fn long_word(alloc: Global) -> Result<String, Fail> {
    let mut text = String::from_str(alloc, "synmon 1\nalphabet a\nexpr ")?;
    for _ in 0..398 {
        text.push_str("a")?;
    }
    Ok(text)
}

/// A run of a command on the word of 398 letters a, over an output that takes 65,536 bytes at a time and fails one call:
/// the status, and what the output has.
fn run_long<R: Threads + Sync>(
    rt: &R,
    alloc: Global,
    command: &str,
    failing_write: u8,
) -> Result<(u8, MemSink), Fail> {
    let text = long_word(alloc)?;
    let devices = Devices {
        file: text.as_str(),
        failing_read: NEVER,
        out_room: 1_000_000,
        out_step: 65_536,
        failing_write,
        errs_room: WHOLE_LINE,
    };
    let told = run_on(rt, alloc, &[command, "name"], &devices, &OpenGate)?;
    Ok((told.status, told.out))
}

/// Whether the text of a command on that word has so many bytes, and is cut where a write fails.
fn check_cuts<R: Threads + Sync + Abort + AllocGlobal>(
    rt: &R,
    command: &str,
    len: usize,
) -> Result<(), Fail> {
    let (status, whole) = run_long(rt, rt.alloc(), command, NEVER)?;
    assert_eq!(rt; status, 0);
    assert_eq!(rt; whole.bytes().len(), len);
    let (status, nothing) = run_long(rt, rt.alloc(), command, 0)?;
    assert_eq!(rt; status, 6);
    assert_eq!(rt; nothing.bytes().len(), 0);
    let (status, begun) = run_long(rt, rt.alloc(), command, 1)?;
    assert_eq!(rt; status, 6);
    assert_eq!(rt; begun.bytes().len(), 65_536);
    assert!(rt; whole.bytes().starts_with(begun.bytes()));
    Ok(())
}

#[test]
fn a_long_text_is_cut_where_a_write_fails(rt: HostRuntime) -> Result<(), Fail> {
    // A line for each of the 400 states, of which 399 have a least word of letters a; and a square of 400 elements, of
    // which i by j is the least of i + j and 399.
    for (command, len) in [("automaton", 84_814usize), ("table", 634905)] {
        check_cuts(&rt, command, len)?;
    }
    Ok(())
}
