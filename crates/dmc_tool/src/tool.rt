//! One run of the program, over any streams.
ghost use Rattle.std.specs.Prelude.{◌≡◌, ◌≤◌, Some, map, string_bytes};
ghost use Rattle.dmc_text.specs.Watching.{stream_of};
ghost use Rattle.dmc_tool.specs.Notes.{CheckNoted, CommandNoted, ScriptNoted};
ghost use Rattle.dmc_tool.specs.Faults.{status_of};
ghost use Rattle.dmc_tool.specs.Progress.{ShowsProgress, WritesProgress};
ghost use Rattle.dmc_tool.specs.Remarks.{CommandRemarks};
ghost use Rattle.dmc_tool.specs.Runs.{Reports, RunsAsked, RunsCommand, RunsOnFile, RunsProgram};
ghost use Rattle.dmc_tool.specs.internal.Reported.{RefusesWords, RunsReported};
ghost use Rattle.dmc_tool.specs.Words.{asked, asked_by_words, shown_command};
ghost use Rattle.dmc_tool.specs.declared.words.ToolCommand.TheVariants.{Check, Script};

use crate::explain::{
    has_explain, longest_part, word_at, write_explained, write_remarks, write_usage,
};
use crate::fault::Fault;
use crate::fault_line::write_fault;
use crate::inputs::Inputs;
use crate::outcome::Outcome;
use crate::progress::{Progress, write_progress};
use crate::version::write_version;
use crate::words::{Request, Tool, ToolCommand, WRITTEN, WordsFault, read_words};
use crate::{check, run, script, sim};
use dmc_text::watched::Watched;
use dmc_types::config::TagKind;
use std::alloc::Global;
use std::convert::AsStr;
use std::io::{Read, Write};
use std::sync::Wait;
use std::thread::{Threads, join_mut};

/// Runs what the words ask for: a tool, on the reader or on the file that they name, or the version, which is written. Replies and
/// verdicts go to the writer, a fault's text to the fault writer as one line. If the words ask for an explanation, a second line
/// explains the fault, and behind that, at a fault or not, is a line for each key of a scene that is ignored. If the words ask for
/// progress, another thread writes the lines of what is counted in `progress` to the fault writer while the command runs. The words
/// are those after the program's name. A file that can't be opened is reported as `Read`. It returns the exit status: 0 if all is
/// done, 1 at a fault, 2 if the words ask for nothing, 3 if events do not replay, 4 if a simulation or a run ended early.
pub fn run_tool<
    T: AllocGlobal + Threads + Wait + Sync,
    I: Inputs,
    S: AsStr,
    R: Read,
    W: Write,
    E: Write + Send,
>(
    rt: &T,
    inputs: &I,
    words: &[S],
    progress: &Progress,
    reader: &mut Watched<R>,
    writer: &mut Watched<W>,
    fault_writer: &mut Watched<E>,
) -> u8
    ensures runs { RunsProgram (record { is_opened = I.is_opened inputs.now; is_refused = I.is_refused inputs.now }) I.Input.remaining R.remaining W.contents E.contents WRITTEN (map S.text words.now) (asked_by_words WRITTEN (map S.text words.now))
        reader.old reader.new writer.old writer.new fault_writer.old fault_writer.new result }
    ensures status { result ≤ 4 }
{
    match read_words(rt.alloc(), words) {
        Ok(request) => run_reported(rt, inputs, request, progress, reader, writer, fault_writer),
        Err(WordsFault::Usage) => refuse_words(rt.alloc(), words, fault_writer),
        Err(WordsFault::Memory) => write_fault(Fault::Memory, fault_writer),
    }
}

/// Reports words that ask for nothing, and returns the exit status.
fn refuse_words<S: AsStr, E: Write>(alloc: Global, words: &[S], fault_writer: &mut Watched<E>) -> u8
    ensures { RefusesWords E.contents WRITTEN (map S.text words.now) fault_writer.old fault_writer.new result }
{
    if !has_explain(words) {
        return write_fault(Fault::Usage, fault_writer);
    }
    match longest_part(alloc, words) {
        Ok(count) => write_usage(word_at(words, count), fault_writer),
        Err(_) => write_fault(Fault::Memory, fault_writer),
    }
}

/// Runs what is asked for, shows its progress if that is asked for, reports its fault, and returns the exit status.
fn run_reported<
    T: AllocGlobal + Threads + Wait + Sync,
    I: Inputs,
    R: Read,
    W: Write,
    E: Write + Send,
>(
    rt: &T,
    inputs: &I,
    request: Request<'_>,
    progress: &Progress,
    reader: &mut Watched<R>,
    writer: &mut Watched<W>,
    fault_writer: &mut Watched<E>,
) -> u8
    ensures { RunsReported (record { is_opened = I.is_opened inputs.now; is_refused = I.is_refused inputs.now }) I.Input.remaining R.remaining W.contents E.contents (asked request.entry)
        reader.old reader.new writer.old writer.new fault_writer.old fault_writer.new result }
{
    let is_explained = request.is_explained();
    let mut remarks = String::new(rt.alloc());
    let end = run_shown(
        rt,
        inputs,
        request,
        progress,
        reader,
        writer,
        fault_writer,
        &mut remarks,
    );
    let remarks = remarks.as_str();
    match end {
        Ok(outcome) => {
            write_remarks(remarks, fault_writer);
            outcome.status()
        }
        Err(fault) => report(fault, is_explained, remarks, fault_writer),
    }
}

/// Runs what is asked for, and shows its progress if that is asked for.
fn run_shown<T: AllocGlobal + Threads + Wait + Sync, I: Inputs, R: Read, W: Write, E: Write + Send>(
    rt: &T,
    inputs: &I,
    request: Request<'_>,
    progress: &Progress,
    reader: &mut Watched<R>,
    writer: &mut Watched<W>,
    fault_writer: &mut Watched<E>,
    remarks: &mut String,
) -> Result<Outcome, Fault>
    ensures runs { RunsAsked (record { is_opened = I.is_opened inputs.now; is_refused = I.is_refused inputs.now }) I.Input.remaining R.remaining W.contents (Some (asked request.entry))
        reader.old reader.new writer.old writer.new result (string_bytes remarks.old) (string_bytes remarks.new) }
    ensures shows { ShowsProgress E.contents (shown_command (asked request.entry)) fault_writer.old fault_writer.new }
{
    match request.shown_command() {
        None => run_request(rt, inputs, request, progress, reader, writer, remarks),
        Some(command) => run_beside(
            rt,
            inputs,
            request,
            command,
            progress,
            reader,
            writer,
            fault_writer,
            remarks,
        ),
    }
}

/// Runs what is asked for in this thread, and writes the progress of the command in another one.
fn run_beside<
    T: AllocGlobal + Threads + Wait + Sync,
    I: Inputs,
    R: Read,
    W: Write,
    E: Write + Send,
>(
    rt: &T,
    inputs: &I,
    request: Request<'_>,
    command: ToolCommand,
    progress: &Progress,
    reader: &mut Watched<R>,
    writer: &mut Watched<W>,
    fault_writer: &mut Watched<E>,
    remarks: &mut String,
) -> Result<Outcome, Fault>
    ensures runs { RunsAsked (record { is_opened = I.is_opened inputs.now; is_refused = I.is_refused inputs.now }) I.Input.remaining R.remaining W.contents (Some (asked request.entry))
        reader.old reader.new writer.old writer.new result (string_bytes remarks.old) (string_bytes remarks.new) }
    ensures shows { WritesProgress E.contents command fault_writer.old fault_writer.new }
{
    let mut write = ||
        ensures { WritesProgress E.contents command fault_writer.entry.now fault_writer.exit.now }
    { write_progress(rt, command, progress, fault_writer) };
    let mut run = || -> Result<Outcome, Fault>
        ensures { RunsAsked (record { is_opened = I.is_opened inputs.entry.now; is_refused = I.is_refused inputs.entry.now }) I.Input.remaining R.remaining W.contents (Some (asked request.entry))
            reader.entry.now reader.exit.now writer.entry.now writer.exit.now result (string_bytes remarks.entry.now) (string_bytes remarks.exit.now) }
    { run_to_end(rt, inputs, request, progress, reader, writer, remarks) };
    let ((), end) = join_mut(rt, &mut write, &mut run);
    end
}

/// Runs what is asked for, and then ends its progress.
fn run_to_end<T: AllocGlobal + Threads + Wait + Sync, I: Inputs, R: Read, W: Write>(
    rt: &T,
    inputs: &I,
    request: Request<'_>,
    progress: &Progress,
    reader: &mut Watched<R>,
    writer: &mut Watched<W>,
    remarks: &mut String,
) -> Result<Outcome, Fault>
    ensures { RunsAsked (record { is_opened = I.is_opened inputs.now; is_refused = I.is_refused inputs.now }) I.Input.remaining R.remaining W.contents (Some (asked request.entry))
        reader.old reader.new writer.old writer.new result (string_bytes remarks.old) (string_bytes remarks.new) }
{
    let end = run_request(rt, inputs, request, progress, reader, writer, remarks);
    progress.end();
    end
}

/// Reports a fault, and if that is asked for, explains it, before the remarks. Returns the exit status.
fn report<E: Write>(
    fault: Fault,
    is_explained: bool,
    remarks: &str,
    fault_writer: &mut Watched<E>,
) -> u8
    ensures status { result ≡ status_of fault }
    ensures text { Reports E.contents is_explained fault remarks.now fault_writer.old fault_writer.new }
{
    if is_explained {
        write_explained(fault, remarks, fault_writer)
    } else {
        write_fault(fault, fault_writer)
    }
}

/// Runs what is asked for.
fn run_request<T: AllocGlobal + Threads + Wait + Sync, I: Inputs, R: Read, W: Write>(
    rt: &T,
    inputs: &I,
    request: Request<'_>,
    progress: &Progress,
    reader: &mut Watched<R>,
    writer: &mut Watched<W>,
    remarks: &mut String,
) -> Result<Outcome, Fault>
    ensures { RunsAsked (record { is_opened = I.is_opened inputs.now; is_refused = I.is_refused inputs.now }) I.Input.remaining R.remaining W.contents (Some (asked request.entry))
        reader.old reader.new writer.old writer.new result (string_bytes remarks.old) (string_bytes remarks.new) }
{
    match request {
        Request::Version => write_version(writer),
        Request::Tool {
            tool,
            file: None,
            is_explained,
            ..
        } => run_command(rt, tool, is_explained, progress, reader, writer, remarks),
        Request::Tool {
            tool,
            file: Some(name),
            is_explained,
            ..
        } => run_on_file(
            rt,
            inputs,
            tool,
            is_explained,
            name,
            progress,
            writer,
            remarks,
        ),
    }
}

/// Runs the command of a tool on the file of this name.
fn run_on_file<T: AllocGlobal + Threads + Wait + Sync, I: Inputs, W: Write>(
    rt: &T,
    inputs: &I,
    tool: Tool,
    is_explained: bool,
    name: &str,
    progress: &Progress,
    writer: &mut Watched<W>,
    remarks: &mut String,
) -> Result<Outcome, Fault>
    ensures { RunsOnFile (record { is_opened = I.is_opened inputs.now; is_refused = I.is_refused inputs.now }) I.Input.remaining W.contents tool is_explained name.now writer.old writer.new result
        (string_bytes remarks.old) (string_bytes remarks.new) }
{
    let Ok(input) = inputs.open(name) else {
        return Err(Fault::Read);
    };
    let mut reader = Watched::new(input);
    run_command(
        rt,
        tool,
        is_explained,
        progress,
        &mut reader,
        writer,
        remarks,
    )
}

/// Runs the command of a tool.
fn run_command<T: AllocGlobal + Threads + Wait + Sync, R: Read, W: Write>(
    rt: &T,
    tool: Tool,
    is_explained: bool,
    progress: &Progress,
    reader: &mut Watched<R>,
    writer: &mut Watched<W>,
    remarks: &mut String,
) -> Result<Outcome, Fault>
    ensures bytes { RunsCommand tool.command tool.tags
        (R.remaining (stream_of reader.old)) (R.remaining (stream_of reader.new)) (W.contents (stream_of writer.old)) (W.contents (stream_of writer.new)) result }
    ensures notes { CommandNoted R.remaining tool.command reader.old reader.new writer.old writer.new result }
    ensures remarks { CommandRemarks tool.command is_explained (R.remaining (stream_of reader.old)) (R.remaining (stream_of reader.new)) result (string_bytes remarks.old) (string_bytes remarks.new) }
{
    let alloc = rt.alloc();
    match tool.command {
        ToolCommand::Script => run_script(alloc, tool.tags, reader, writer),
        ToolCommand::Check => check_events(alloc, tool.tags, reader, writer),
        ToolCommand::Sim => sim::simulate_on(
            alloc,
            is_explained,
            progress,
            reader,
            writer,
            remarks,
        ),
        ToolCommand::Run => run::run_on(rt, alloc, is_explained, progress, reader, writer, remarks),
    }
}

/// Runs a script on tags of this kind.
fn run_script<R: Read, W: Write>(
    alloc: Global,
    tags: TagKind,
    reader: &mut Watched<R>,
    writer: &mut Watched<W>,
) -> Result<Outcome, Fault>
    ensures bytes { RunsCommand Script tags (R.remaining (stream_of reader.old)) (R.remaining (stream_of reader.new)) (W.contents (stream_of writer.old)) (W.contents (stream_of writer.new)) result }
    ensures notes { ScriptNoted R.remaining reader.old reader.new writer.old writer.new result }
{
    script::run_on(alloc, tags, reader, writer)?;
    Ok(Outcome::Done)
}

/// Checks an event text whose tags are of this kind.
fn check_events<R: Read, W: Write>(
    alloc: Global,
    tags: TagKind,
    reader: &mut Watched<R>,
    writer: &mut Watched<W>,
) -> Result<Outcome, Fault>
    ensures bytes { RunsCommand Check tags (R.remaining (stream_of reader.old)) (R.remaining (stream_of reader.new)) (W.contents (stream_of writer.old)) (W.contents (stream_of writer.new)) result }
    ensures notes { CheckNoted R.remaining reader.old reader.new writer.old writer.new result }
{
    let verdict = check::check_on(alloc, tags, reader, writer)?;
    Ok(verdict.into())
}
