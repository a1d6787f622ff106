//! The lines that explain faults.
ghost use Rattle.std.specs.List.{list_any};
ghost use Rattle.std.specs.Prelude.{◌≡◌, ◌++◌, IfOk, codes, map, option_map, slice_get};
ghost use Rattle.std.specs.Str.{bytes_eq};
ghost use Rattle.dmc_text.specs.Texts.{with_line_end};
ghost use Rattle.dmc_tool.specs.Explanations.{explanation, line_if_any, word_explanation};
ghost use Rattle.dmc_tool.specs.FaultLine.{Sends, WritesLines, fault_text, line_of};
ghost use Rattle.dmc_tool.specs.Faults.{status_of};
ghost use Rattle.dmc_tool.specs.Remarks.{WritesRemarks};
ghost use Rattle.dmc_tool.specs.Words.{IsLongestPart};

use crate::fault::{Fault, FaultText};
use crate::fault_line::send_text;
use crate::words::{WRITTEN, WordsFault, read_words};
use dmc_text::send::send;
use dmc_text::watched::Watched;
use std::alloc::{AllocError, Global};
use std::convert::AsStr;
use std::io::Write;

/// Whether the words ask for an explanation, whatever else they say.
pub(crate) fn has_explain<S: AsStr>(words: &[S]) -> bool
    ensures { result ≡ list_any (λ word. bytes_eq (S.text word) (codes "--explain")) words.now }
{
    words.iter().any(|word| word.as_str() == "--explain")
}

/// How many of the first words, but not all of them, ask for something: the most that do, or 0. The word behind them is the first
/// that is not as in the usage.
pub(crate) fn longest_part<S: AsStr>(alloc: Global, words: &[S]) -> Result<usize, AllocError>
    ensures { IfOk result (λ count. IsLongestPart WRITTEN (map S.text words.now) count) }
{
    let mut count = words.len();
    while count > 1 {
        count -= 1;
        match read_words(alloc, &words[..count]) {
            Ok(_) => return Ok(count),
            Err(WordsFault::Memory) => return Err(AllocError),
            Err(WordsFault::Usage) => {}
        }
    }
    Ok(0)
}

/// The word at a place.
pub(crate) fn word_at<S: AsStr>(words: &[S], place: usize) -> Option<&str>
    ensures { option_map (λ w. w.now) result ≡ slice_get (map S.text words.now) place }
{
    match words.get(place) {
        Some(word) => Some(word.as_str()),
        None => None,
    }
}

/// Writes a fault's text as one line, what explains it, if it has an explanation, as a second, and then the remarks. Returns the
/// exit status. If the writer fails, a first part is written, and the status is the same.
pub(crate) fn write_explained<W: Write>(
    fault: Fault,
    remarks: &str,
    fault_writer: &mut Watched<W>,
) -> u8
    ensures status { result ≡ status_of fault }
    ensures text { WritesLines W.contents ((with_line_end (fault_text fault) ++ explanation fault) ++ remarks.now) fault_writer.old fault_writer.new }
{
    if !send_lines(&fault.text(), fault.explanation(), fault_writer) {
        return fault.status();
    }
    write_remarks(remarks, fault_writer);
    fault.status()
}

/// Writes the remarks, if there are any. If the writer fails, a first part is written.
pub(crate) fn write_remarks<W: Write>(remarks: &str, fault_writer: &mut Watched<W>)
    ensures { WritesRemarks W.contents remarks.now fault_writer.old fault_writer.new }
{
    if remarks.is_empty() {
        return;
    }
    let _ = send(remarks.as_bytes(), fault_writer);
}

/// The same of a usage fault, which is explained by the first word that is not as in the usage, if there is one.
pub(crate) fn write_usage<W: Write>(word: Option<&str>, fault_writer: &mut Watched<W>) -> u8
    ensures status { result ≡ status_of Fault.Usage }
    ensures text { WritesLines W.contents (with_line_end (fault_text Fault.Usage) ++ word_explanation (option_map (λ w. w.now) word.entry)) fault_writer.old fault_writer.new }
{
    let _ = send_lines(&Fault::Usage.text(), unlike_usage(word), fault_writer);
    Fault::Usage.status()
}

/// The text that explains a usage fault.
fn unlike_usage(word: Option<&str>) -> Option<FaultText<'_>>
    ensures { line_if_any result ≡ word_explanation (option_map (λ w. w.now) word.entry) }
{
    Some(FaultText {
        head: "dmclock: unlike the usage from the word ",
        number: None,
        tail: word?,
    })
}

/// Sends a line, and then another, if there is one. Returns false if the writer fails.
fn send_lines<W: Write>(
    first: &FaultText<'_>,
    second: Option<FaultText<'_>>,
    writer: &mut Watched<W>,
) -> bool
    ensures { Sends W.contents (line_of first.now ++ line_if_any second.entry) writer.old writer.new result }
{
    if !send_text(first, writer) {
        return false;
    }
    send_if_any(second, writer)
}

/// Sends a line, if there is one.
fn send_if_any<W: Write>(text: Option<FaultText<'_>>, writer: &mut Watched<W>) -> bool
    ensures { Sends W.contents (line_if_any text.entry) writer.old writer.new result }
{
    match text {
        None => true,
        Some(text) => send_text(&text, writer),
    }
}
