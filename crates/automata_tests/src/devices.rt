//! Whole files and whole pieces over devices in memory and of the system.
use std::fs;
use std::io::{self, ErrorKind, Write};
use std::test::Fail;
use syn_outside::{
    Files, Got, MemFiles, MemSink, Opened, ReadFault, RealFiles, RealSink, put_all, read_all,
};

const TEXT: &str = "twenty-six bytes of a text";

/// A fault as a word, so that rows can be compared.
fn sign(fault: ReadFault) -> &'static str {
    match fault {
        ReadFault::Missing => "missing",
        ReadFault::Failed => "failed",
        ReadFault::Memory => "memory",
    }
}

#[test]
fn reads_files_in_memory(rt: HostRuntime) -> Result<(), Fail> {
    // The calls are a start and three reads of at most ten bytes, and one that finds the end.
    let rows = [
        ("text", 100u32, 9u8, Ok(TEXT)),
        ("text", 26, 9, Ok(TEXT)),
        ("text", 25, 9, Ok(TEXT)),
        ("text", 24, 9, Ok("twenty-six bytes of a tex")),
        ("text", 0, 9, Ok("t")),
        ("other", 100, 9, Err("missing")),
        ("other", 100, 0, Err("failed")),
        ("text", 100, 0, Err("failed")),
        ("text", 100, 3, Err("failed")),
        ("text", 100, 4, Err("failed")),
        ("text", 100, 5, Ok(TEXT)),
        ("text", 25, 4, Ok(TEXT)),
    ];
    for (name, max, failing, want) in rows {
        let failing = [u64::from(failing)];
        let mut files = MemFiles::new(rt.alloc(), "text", TEXT.as_bytes(), 10, &failing)?;
        let read = read_all(rt.alloc(), &mut files, name, max);
        match (read, want) {
            (Ok(bytes), Ok(text)) => assert_eq!(rt; bytes.as_slice(), text.as_bytes()),
            (Err(fault), Err(text)) => assert_eq!(rt; sign(fault), text),
            _ => assert!(rt; false, "{name} up to {max}"),
        }
    }
    Ok(())
}

#[test]
fn writes_to_a_sink_in_memory(rt: HostRuntime) -> Result<(), Fail> {
    // The sink has room for ten bytes and takes four at a time.
    let rows = [
        ("ten bytes!", 9u8, true, "ten bytes!"),
        ("eleven byte", 9, false, "eleven byt"),
        ("", 0, true, ""),
        ("four", 0, false, ""),
        ("ten bytes!", 1, false, "ten "),
        ("ten bytes!", 2, false, "ten byte"),
        ("ten bytes!", 3, true, "ten bytes!"),
    ];
    for (piece, failing, whole, want) in rows {
        let failing = [u64::from(failing)];
        let mut sink = MemSink::new(rt.alloc(), 10, 4, &failing)?;
        assert_eq!(rt; put_all(&mut sink, piece.as_bytes()), whole, "at {piece}");
        assert_eq!(rt; sink.bytes(), want.as_bytes(), "at {piece}");
    }
    Ok(())
}

#[test]
fn writes_and_reads_a_file_of_the_system(rt: HostRuntime) -> Result<(), Fail> {
    let name = "syn_outside.test";
    let mut sink = RealSink::new(fs::create(&rt, name)?);
    let put = put_all(&mut sink, TEXT.as_bytes());
    let mut files = RealFiles::new(&rt);
    let whole = read_all(rt.alloc(), &mut files, name, 100);
    let prefix = read_all(rt.alloc(), &mut files, name, 9);
    let mut shut = RealSink::new(fs::open(&rt, name)?);
    let refused = put_all(&mut shut, TEXT.as_bytes());
    fs::remove_file(&rt, name)?;
    assert!(rt; put);
    assert_eq!(rt; whole?.as_slice(), TEXT.as_bytes());
    assert_eq!(rt; prefix?.as_slice(), b"twenty-six".as_slice());
    assert!(rt; !refused);
    Ok(())
}

#[test]
fn fails_at_a_name_that_is_not_there(rt: HostRuntime) {
    let mut files = RealFiles::new(&rt);
    match read_all(rt.alloc(), &mut files, "no_such_file.test", 100) {
        Ok(_) => assert!(rt; false, "a file that is not there was read"),
        Err(fault) => assert_eq!(rt; sign(fault), "failed"),
    }
}

#[test]
fn a_read_that_fails_is_no_end(rt: HostRuntime) {
    // A folder can be opened like a file, and the system refuses to read from it.
    let mut files = RealFiles::new(&rt);
    let mut piece = [0u8; 16];
    match files.start(".") {
        Opened::Ready => assert_eq!(rt; files.read(&mut piece), Got::Failed),
        _ => assert!(rt; false, "a folder was not opened"),
    }
}

/// A writer that takes all bytes, and fails to hand them on.
#[derive(Drop)]
struct Unflushed;

impl Write for Unflushed {
    fn write(&mut self, piece: &[u8]) -> io::Result<usize> {
        Ok(piece.len())
    }

    fn flush(&mut self) -> io::Result<()> {
        Err(io::Error::from(ErrorKind::StorageFull))
    }
}

#[test]
fn a_flush_that_fails_is_a_fault(rt: HostRuntime) {
    let mut sink = RealSink::new(Unflushed);
    assert!(rt; !put_all(&mut sink, TEXT.as_bytes()));
}
