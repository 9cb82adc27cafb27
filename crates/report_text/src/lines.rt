//! Lines that several sections say.
ghost use Rattle.std.specs.Prelude.{◌≡◌, false};
ghost use Rattle.report_buffer.specs.Saying.{Says, channel};
ghost use Rattle.report_buffer.specs.Texts.{number_line};

use report_buffer::{Buffer, SayFault, push_number_line, say_rendered};
use std::alloc::Global;
use syn_outside::Sink;

/// Says a line with a name and a number. Condition: the buffer is not broken.
pub(crate) fn say_number_line<S: Sink>(
    alloc: Global,
    sink: &mut S,
    buffer: &mut Buffer,
    name: &[u8],
    number: u32,
) -> Result<(), SayFault>
    requires whole { buffer.old.broken ≡ false }
    ensures { Says (channel (S.written sink.old) (S.faults sink.old) buffer.old) result
        (channel (S.written sink.new) (S.faults sink.new) buffer.new)
        (number_line name.now number) }
{
    let mut line = Vec::new(alloc);
    let rendered = push_number_line(&mut line, name, number);
    say_rendered(sink, buffer, rendered, &mut line)
}
