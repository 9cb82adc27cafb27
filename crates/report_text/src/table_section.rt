//! The section `table` of a report.
ghost use Rattle.std.specs.Prelude.{◌≡◌, ◌<◌, ◌++◌, false, codes, decimal, option_map, OnOk};
ghost use Rattle.parallel_table.specs.ProductTables.{cell};
ghost use Rattle.report_buffer.specs.Saying.{Says, channel};
ghost use Rattle.report_buffer.specs.Texts.{separated};
ghost use Rattle.report_text.specs.TableSection.{section_text, table_text, table_head, products_text};

use crate::lines::say_number_line;
use parallel_table::Table;
use report_buffer::{
    Buffer, SayFault, push_bytes, push_gap, push_number, push_number_line, say_rendered,
};
use std::alloc::Global;
use syn_outside::Sink;
use syn_words::Memory;

/// Says the section `table`: a line for each element with its products, or, where there is no table, that there are
/// more elements than the limit.
///
/// Condition: the buffer is not broken. `Write` comes only where the sink's count of faults rose in this call.
pub fn say_table<S: Sink>(
    alloc: Global,
    sink: &mut S,
    buffer: &mut Buffer,
    table: Option<&Table>,
    max_table: u32,
) -> Result<(), SayFault>
    requires whole { buffer.old.broken ≡ false }
    ensures { Says (channel (S.written sink.old) (S.faults sink.old) buffer.old) result
        (channel (S.written sink.new) (S.faults sink.new) buffer.new)
        (section_text (option_map (λ t. t.now) table.entry) max_table) }
{
    match table {
        Some(table) => say_products(alloc, sink, buffer, table),
        None => say_number_line(alloc, sink, buffer, b"table limit", max_table),
    }
}

/// Says the number of elements, and a line for each. Condition: the buffer is not broken.
fn say_products<S: Sink>(
    alloc: Global,
    sink: &mut S,
    buffer: &mut Buffer,
    table: &Table,
) -> Result<(), SayFault>
    requires whole { buffer.old.broken ≡ false }
    ensures { Says (channel (S.written sink.old) (S.faults sink.old) buffer.old) result
        (channel (S.written sink.new) (S.faults sink.new) buffer.new) (table_text table.now) }
{
    let mut line = Vec::new(alloc);
    let head = push_table_head(&mut line, table);
    say_rendered(sink, buffer, head, &mut line)?;
    for element in 0..table.side() {
        let rendered = push_products(&mut line, table, element);
        say_rendered(sink, buffer, rendered, &mut line)?;
    }
    Ok(())
}

/// Puts the head of the table behind a text.
fn push_table_head(text: &mut Vec<u8>, table: &Table) -> Result<(), Memory>
    ensures { OnOk result (text.new.items ≡ text.old.items ++ table_head table.now) }
{
    push_number_line(text, b"table", table.side())
}

/// Puts the line of an element behind a text: its products with each element.
fn push_products(text: &mut Vec<u8>, table: &Table, element: u32) -> Result<(), Memory>
    requires { element < table.now.side }
    ensures { OnOk result (text.new.items ≡ text.old.items ++ products_text table.now element) }
{
    push_row(text, table, element)?;
    push_bytes(text, b"\n")
}

/// Puts the products of an element behind a text, with a blank between each two.
fn push_row(text: &mut Vec<u8>, table: &Table, element: u32) -> Result<(), Memory>
    requires { element < table.now.side }
    ensures { OnOk result (text.new.items ≡ text.old.items
        ++ separated (codes " ") (λ j. decimal (cell table.now element j)) table.now.side) }
{
    for other in 0..table.side() {
        push_gap(text, b" ", other as usize)?;
        push_number(text, table.at(element, other))?;
    }
    Ok(())
}
