//! The fields of a line, and the numbers that they spell.

ghost use Rattle.std.specs.Prelude.{◌≡◌, ◌<◌, ◌≤◌, not, [], ◌∷◌, length, IfSome, MatchOption};
ghost use Rattle.std.specs.List.{list_all, position, position_or_len};
ghost use Rattle.automaton_file.specs.LineText.{is_blank, is_digit, is_number, fields, behind_first, number_below};

/// A field, and what stands behind it on its line.
#[derive(Clone, Copy)]
pub struct Field<'a> {
    pub bytes: &'a [u8],
    pub rest: &'a [u8],
}

/// Whether the byte is a space or a tab.
fn is_blank(byte: u8) -> bool
    ensures { result ≡ is_blank byte }
{
    byte == b' ' || byte == b'\t'
}

/// The place of the first byte of a field.
fn field_start(text: &[u8]) -> Option<usize>
    ensures { result ≡ position (λ b. not (is_blank b)) text.now }
{
    text.iter().position(|b| !is_blank(*b))
}

/// The place of the first space or tab.
fn field_end(text: &[u8]) -> Option<usize>
    ensures { result ≡ position is_blank text.now }
{
    text.iter().position(|b| is_blank(*b))
}

/// The length of the longest prefix without spaces and tabs.
fn run_len(text: &[u8]) -> usize
    ensures { result ≡ position_or_len is_blank text.now }
{
    match field_end(text) {
        Some(end) => end,
        None => text.len(),
    }
}

/// The first field of a line.
pub fn first_field(text: &[u8]) -> Option<Field<'_>>
    ensures cut { MatchOption result (fields text.now ≡ [])
        (λ f. fields text.now ≡ f.bytes.now ∷ fields f.rest.now) }
    ensures behind { IfSome result (λ f. f.rest.now ≡ behind_first text.now) }
    ensures some { IfSome result (λ f. 0 < length f.bytes.now) }
    ensures shorter { IfSome result (λ f. length f.rest.now < length text.now) }
{
    match field_start(text) {
        Some(start) => {
            let (_, begun) = text.split_at(start);
            let (bytes, rest) = begun.split_at(run_len(begun));
            Some(Field { bytes, rest })
        }
        None => None,
    }
}

/// Whether all bytes are digits.
fn are_digits(field: &[u8]) -> bool
    ensures { result ≡ list_all is_digit field.now }
{
    field.iter().all(|b| b.is_ascii_digit())
}

/// Whether the field is `0`, or digits of which the first isn't 0.
fn is_number(field: &[u8]) -> bool
    ensures { result ≡ is_number field.now }
{
    match field {
        [] => false,
        [digit] => digit.is_ascii_digit(),
        [first, ..] => *first != b'0' && are_digits(field),
    }
}

/// The number that a field spells, if it spells one below `limit`.
pub fn number_below(limit: u32, field: &[u8]) -> Option<u32>
    requires some { 1 ≤ limit }
    requires small { limit ≤ 10000 }
    ensures { result ≡ number_below limit field.now }
{
    if !is_number(field) {
        return None;
    }
    let mut value = 0;
    for digit in field {
        value = value * 10 + u32::from(*digit - b'0');
        if value >= limit {
            return None;
        }
    }
    Some(value)
}
