//! Writing the line of a fault. Nothing is allocated, since a failed allocation may be the fault.
ghost use Rattle.std.specs.Prelude.{◌≡◌, ◌∷◌, ◌++◌, []};
ghost use Rattle.dmc_tool.specs.Faults.{status_of};
ghost use Rattle.dmc_tool.specs.FaultLine.{number_text, line_of, Sends, WritesFault};

use crate::fault::{Fault, FaultText};
use dmc_text::send::{send, send_all};
use dmc_text::watched::Watched;
use itoa::Buffer;
use std::io::Write;

/// Writes a fault's text as one line, and returns its exit status. If the writer fails, a first part of the line is written,
/// and the status is the same.
pub fn write_fault<W: Write>(fault: Fault, fault_writer: &mut Watched<W>) -> u8
    ensures status { result ≡ status_of fault }
    ensures text { WritesFault W.contents fault fault_writer.old fault_writer.new }
{
    let _ = send_text(&fault.text(), fault_writer);
    fault.status()
}

/// Sends the line of the parts of a text. Returns false if the writer fails.
pub(crate) fn send_text<W: Write>(text: &FaultText<'_>, writer: &mut Watched<W>) -> bool
    ensures { Sends W.contents (line_of text.now) writer.old writer.new result }
{
    if !send_part(text.head.as_bytes(), writer) {
        return false;
    }
    send_behind(text.number, text.tail, writer)
}

/// Sends the number of a text, if it has one, and its tail as the end of the line.
fn send_behind<W: Write>(number: Option<u64>, tail: &str, writer: &mut Watched<W>) -> bool
    ensures { Sends W.contents (number_text number ++ (tail.now ++ 10 ∷ [])) writer.old writer.new result }
{
    if !send_number(number, writer) {
        return false;
    }
    send_last(tail.as_bytes(), writer)
}

/// Sends the digits of a number, if there is one.
fn send_number<W: Write>(number: Option<u64>, writer: &mut Watched<W>) -> bool
    ensures { Sends W.contents (number_text number) writer.old writer.new result }
{
    match number {
        None => true,
        Some(number) => send_part(Buffer::new().format(number).as_bytes(), writer),
    }
}

/// Sends the last bytes of a line, and its LF.
fn send_last<W: Write>(bytes: &[u8], writer: &mut Watched<W>) -> bool
    ensures { Sends W.contents (bytes.now ++ 10 ∷ []) writer.old writer.new result }
{
    if !send_part(bytes, writer) {
        return false;
    }
    send(b"\n", writer)
}

/// Sends bytes.
fn send_part<W: Write>(bytes: &[u8], writer: &mut Watched<W>) -> bool
    ensures { Sends W.contents bytes.now writer.old writer.new result }
{
    send_all(bytes, writer).is_ok()
}
