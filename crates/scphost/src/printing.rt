//! Answers are printed.

ghost use Rattle.std.specs.Prelude.{OnOk, string_bytes};
ghost use Rattle.std.specs.Io.KnownBytes.{Appends};
ghost use Rattle.scphost.specs.Printing.{IsPrinted};

use crate::outputs::Outputs;
use crate::perform::print_stop;
use line_run::Answer;
use line_script::Stop;
use std::io;
use std::io::Write;

/// Prints an answer, and says whether two scripts differ.
pub fn print_answer<W: Write, E: Write>(
    answer: &Answer,
    outputs: &mut Outputs<W, E>,
) -> Result<bool, Stop>
    ensures { IsPrinted answer.now (W.contents outputs.old.out) (W.contents outputs.new.out) result }
{
    if write_text(&answer.text, &mut outputs.out).is_err() {
        return print_stop(Stop::CannotWrite, "", &mut outputs.err);
    }
    Ok(answer.differs)
}

/// Writes the whole text, and flushes it.
pub fn write_text<W: Write>(text: &String, out: &mut W) -> io::Result<()>
    ensures { OnOk result (Appends (W.contents out.old) (W.contents out.new) (string_bytes text.now)) }
{
    let text = text.as_str();
    write!(out, "{text}")?;
    out.flush()
}
