//! A place in a file.

ghost use Rattle.std.specs.Prelude.{◌≤◌, ◌+◌, length};
ghost use Rattle.automaton_file.specs.FileText.{most_bytes};

/// The bytes of a file, the place where a line may begin, and the number that it has there.
#[derive(Clone, Copy)]
pub struct Cursor<'a> {
    pub bytes: &'a [u8],
    pub at: u32,
    pub number: u32,
    ghost short: { length bytes.now ≤ most_bytes },
    ghost within: { at ≤ length bytes.now },
    ghost some: { 1 ≤ number },
    ghost counted: { number ≤ at + 1 },
}
