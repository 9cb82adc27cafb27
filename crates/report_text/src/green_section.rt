//! The section `green` of a report.
ghost use Rattle.std.specs.Prelude.{◌≡◌, ◌<◌, ◌++◌, length, false, All, OnOk};
ghost use Rattle.green_relations.specs.EggBoxes.{box_at, row_at};
ghost use Rattle.report_buffer.specs.Saying.{Says, channel};
ghost use Rattle.report_text.specs.GreenSection.{AreBoxesToSay, marked, green_text, boxes_text, boxes_head, box_text, box_head};
ghost use Rattle.report_text.specs.GreenSection.{row_text, cells_text, cell_text, member_text, star_text, marks_below};

use crate::lines::say_number_line;
use cayley_tables::Cayley;
use green_relations::{Boxes, Green};
use report_buffer::{
    Buffer, SayFault, push_bytes, push_count, push_gap, push_number, push_number_line, push_word,
    say_rendered,
};
use std::alloc::Global;
use syn_outside::Sink;
use syn_words::{Alphabet, Memory};

/// Says the section `green`: the boxes, a line for each of their rows, and the number of idempotents.
///
/// Conditions: the monoid has a letter for each of the alphabet's, the classes and the boxes are those of the monoid,
/// and the buffer is not broken. `Write` comes only where the sink's count of faults rose in this call.
pub fn say_green<S: Sink>(
    alloc: Global,
    sink: &mut S,
    buffer: &mut Buffer,
    alphabet: &Alphabet,
    cayley: &Cayley,
    green: &Green,
    boxes: &Boxes,
) -> Result<(), SayFault>
    requires boxes { AreBoxesToSay alphabet.now cayley.now green.now boxes.now }
    requires whole { buffer.old.broken ≡ false }
    ensures { Says (channel (S.written sink.old) (S.faults sink.old) buffer.old) result
        (channel (S.written sink.new) (S.faults sink.new) buffer.new)
        (green_text alphabet.now (marked cayley.now.words green.now.idempotents) boxes.now) }
{
    say_boxes(alloc, sink, buffer, alphabet, cayley, green, boxes)?;
    say_number_line(alloc, sink, buffer, b"idempotents", idempotents_of(green))
}

/// Says the number of boxes, and each box. Conditions as for the section.
fn say_boxes<S: Sink>(
    alloc: Global,
    sink: &mut S,
    buffer: &mut Buffer,
    alphabet: &Alphabet,
    cayley: &Cayley,
    green: &Green,
    boxes: &Boxes,
) -> Result<(), SayFault>
    requires boxes { AreBoxesToSay alphabet.now cayley.now green.now boxes.now }
    requires whole { buffer.old.broken ≡ false }
    ensures { Says (channel (S.written sink.old) (S.faults sink.old) buffer.old) result
        (channel (S.written sink.new) (S.faults sink.new) buffer.new)
        (boxes_text alphabet.now (marked cayley.now.words green.now.idempotents) boxes.now) }
{
    let mut line = Vec::new(alloc);
    let head = push_boxes_head(&mut line, boxes);
    say_rendered(sink, buffer, head, &mut line)?;
    for index in 0..boxes.len() {
        say_box(alloc, sink, buffer, alphabet, cayley, green, boxes, index)?;
    }
    Ok(())
}

/// Says a box: its head, and a line for each row. Conditions as for the section, and the box is in range.
fn say_box<S: Sink>(
    alloc: Global,
    sink: &mut S,
    buffer: &mut Buffer,
    alphabet: &Alphabet,
    cayley: &Cayley,
    green: &Green,
    boxes: &Boxes,
    index: u32,
) -> Result<(), SayFault>
    requires boxes { AreBoxesToSay alphabet.now cayley.now green.now boxes.now }
    requires index { index < length boxes.now }
    requires whole { buffer.old.broken ≡ false }
    ensures { Says (channel (S.written sink.old) (S.faults sink.old) buffer.old) result
        (channel (S.written sink.new) (S.faults sink.new) buffer.new)
        (box_text alphabet.now (marked cayley.now.words green.now.idempotents) boxes.now index) }
{
    let mut line = Vec::new(alloc);
    let head = push_box_head(&mut line, boxes, index);
    say_rendered(sink, buffer, head, &mut line)?;
    for row in 0..boxes.rows(index) {
        let rendered = push_row(alloc, &mut line, alphabet, cayley, green, boxes, index, row);
        say_rendered(sink, buffer, rendered, &mut line)?;
    }
    Ok(())
}

/// The number of idempotents.
pub fn idempotents_of(green: &Green) -> u32
    ensures { result ≡ marks_below green.now.idempotents (length green.now.r) }
{
    let mut count = 0;
    for element in 0..green.len() {
        if green.is_idempotent(element) {
            count += 1;
        }
    }
    count
}

/// Puts the head of the section behind a text.
fn push_boxes_head(text: &mut Vec<u8>, boxes: &Boxes) -> Result<(), Memory>
    ensures { OnOk result (text.new.items ≡ text.old.items ++ boxes_head boxes.now) }
{
    push_bytes(text, b"green\n")?;
    push_number_line(text, b"boxes", boxes.len())
}

/// Puts the head of a box behind a text.
fn push_box_head(text: &mut Vec<u8>, boxes: &Boxes, index: u32) -> Result<(), Memory>
    requires { index < length boxes.now }
    ensures { OnOk result
        (text.new.items ≡ text.old.items ++ box_head index (box_at boxes.now index)) }
{
    let rows = boxes.rows(index);
    let columns = boxes.columns(index);
    let size = boxes.cell(index, 0, 0).len();
    push_bytes(text, b"box ")?;
    push_number(text, index)?;
    push_bytes(text, b" rows ")?;
    push_number(text, rows)?;
    push_bytes(text, b" columns ")?;
    push_number(text, columns)?;
    push_bytes(text, b" size ")?;
    push_count(text, size)?;
    push_bytes(text, b"\n")
}

/// Puts the line of a row behind a text.
fn push_row(
    alloc: Global,
    text: &mut Vec<u8>,
    alphabet: &Alphabet,
    cayley: &Cayley,
    green: &Green,
    boxes: &Boxes,
    index: u32,
    row: u32,
) -> Result<(), Memory>
    requires boxes { AreBoxesToSay alphabet.now cayley.now green.now boxes.now }
    requires index { index < length boxes.now }
    requires row { row < length (box_at boxes.now index) }
    ensures { OnOk result (text.new.items ≡ text.old.items
        ++ row_text alphabet.now (marked cayley.now.words green.now.idempotents)
        (row_at (box_at boxes.now index) row)) }
{
    push_cells(alloc, text, alphabet, cayley, green, boxes, index, row)?;
    push_bytes(text, b"\n")
}

/// Puts the cells of a row behind a text, with a bar between each two.
fn push_cells(
    alloc: Global,
    text: &mut Vec<u8>,
    alphabet: &Alphabet,
    cayley: &Cayley,
    green: &Green,
    boxes: &Boxes,
    index: u32,
    row: u32,
) -> Result<(), Memory>
    requires boxes { AreBoxesToSay alphabet.now cayley.now green.now boxes.now }
    requires index { index < length boxes.now }
    requires row { row < length (box_at boxes.now index) }
    ensures { OnOk result (text.new.items ≡ text.old.items
        ++ cells_text alphabet.now (marked cayley.now.words green.now.idempotents)
        (row_at (box_at boxes.now index) row)) }
{
    for column in 0..boxes.columns(index) {
        push_gap(text, b" | ", column as usize)?;
        let cell = boxes.cell(index, row, column);
        push_cell(alloc, text, alphabet, cayley, green, cell)?;
    }
    Ok(())
}

/// Puts the elements of a cell behind a text, with a blank between each two.
fn push_cell(
    alloc: Global,
    text: &mut Vec<u8>,
    alphabet: &Alphabet,
    cayley: &Cayley,
    green: &Green,
    cell: &[u32],
) -> Result<(), Memory>
    requires letters { cayley.now.right.letters ≡ length alphabet.now }
    requires size { length green.now.r ≡ length cayley.now.words }
    requires members { All (λ i. i < length cayley.now.words) cell.now }
    ensures { OnOk result (text.new.items ≡ text.old.items
        ++ cell_text alphabet.now (marked cayley.now.words green.now.idempotents) cell.now) }
{
    for place in 0..cell.len() {
        push_gap(text, b" ", place)?;
        push_member(alloc, text, alphabet, cayley, green, cell[place])?;
    }
    Ok(())
}

/// Puts the least word of an element behind a text, and a star where it is idempotent.
fn push_member(
    alloc: Global,
    text: &mut Vec<u8>,
    alphabet: &Alphabet,
    cayley: &Cayley,
    green: &Green,
    element: u32,
) -> Result<(), Memory>
    requires letters { cayley.now.right.letters ≡ length alphabet.now }
    requires size { length green.now.r ≡ length cayley.now.words }
    requires element { element < length cayley.now.words }
    ensures { OnOk result (text.new.items ≡ text.old.items
        ++ member_text alphabet.now (marked cayley.now.words green.now.idempotents) element) }
{
    let word = cayley.word(element)?;
    push_word(text, alphabet, &word)?;
    push_star(text, green.is_idempotent(element))
}

/// Puts a star behind a text where an element is idempotent.
fn push_star(text: &mut Vec<u8>, is_idempotent: bool) -> Result<(), Memory>
    ensures { OnOk result (text.new.items ≡ text.old.items ++ star_text is_idempotent) }
{
    push_bytes(text, if is_idempotent { b"*" } else { b"" })
}
