//! A drill: the lines of an input, one after another.

ghost use Rattle.std.specs.Prelude.{◌≡◌, IfOk, OnOk, OnErr};
ghost use Rattle.outside_words.specs.Faults.{HasCause, HidesNoFault};
ghost use Rattle.outside_io.specs.declared.sink.StreamFail.TheVariants.{Failed};
ghost use Rattle.outside_io.specs.Sink as sinks;
ghost use Rattle.outside_io.specs.Source as sources;
ghost use Rattle.notary_book.specs.Books.{book_limits};
ghost use Rattle.timeline_model.specs.Scene.{nothing_yet};
ghost use Rattle.drill_core.specs.declared.fail.DrillFail.TheVariants.{ReadFault, WriteFault};
ghost use Rattle.drill_core.specs.Drilled.{Drills};
ghost use Rattle.drill_core.specs.Taken.{text_of, is_refused};

use crate::fail::DrillFail;
use crate::machine::Drill;
use line_input::LineReader;
use notary_book::BOOK_LIMITS;
use outside_io::{Sink, Source, StreamFail, write_whole};
use std::alloc::Global;
use store_world::Answered;

/// Writes a reply, if there is one, and answers whether it is a refusal.
fn write_reply<O: Sink>(out: &mut O, answered: Option<Answered>) -> Result<bool, StreamFail>
    ensures value { IfOk result (λ refused. refused ≡ is_refused answered) }
    ensures ok { OnOk result (sinks.IsOut (text_of answered) (O.state out.old) (O.state out.new)) }
    ensures err { OnErr result (sinks.FrontIsOut (text_of answered) (O.state out.old) (O.state out.new)) }
    ensures frame { sinks.GoesOn (O.state out.old) (O.state out.new) }
    ensures cause { HasCause Failed (O.state out.old).faults (O.state out.new).faults result }
    ensures counted { HidesNoFault (O.state out.old).faults (O.state out.new).faults result }
{
    match answered {
        Some(answered) => {
            write_whole(out, answered.text.as_slice())?;
            Ok(answered.refused)
        }
        None => Ok(false),
    }
}

/// Takes the lines of the input, over an empty disk, an empty notary and a clock at 0, and writes the reply
/// to each. Whether some reply is a refusal. Where the output fails, less than a piece was read beyond the
/// lines that were taken, or no line end more.
pub fn drill<I: Source, O: Sink>(
    alloc: Global,
    input: &mut I,
    out: &mut O,
) -> Result<bool, DrillFail>
    ensures told { Drills (nothing_yet book_limits) result
        (I.state input.old) (I.state input.new) (O.state out.old) (O.state out.new) }
    ensures input_frame { sources.GoesOn (I.state input.old) (I.state input.new) }
    ensures out_frame { sinks.GoesOn (O.state out.old) (O.state out.new) }
    ensures read_cause { HasCause ReadFault (I.state input.old).faults (I.state input.new).faults result }
    ensures write_cause { HasCause WriteFault (O.state out.old).faults (O.state out.new).faults result }
    ensures read_counted { HidesNoFault (I.state input.old).faults (I.state input.new).faults result }
    ensures write_counted { HidesNoFault (O.state out.old).faults (O.state out.new).faults result }
{
    let mut drill = Drill::new(alloc, BOOK_LIMITS);
    let mut reader = LineReader::new(alloc);
    let mut refused = false;
    'lines: while reader.read_line(input)? {
        let answered = drill.answer(reader.line())?;
        refused |= write_reply(out, answered)?;
    }
    Ok(refused)
}
