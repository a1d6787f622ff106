//! The lines of scripts and event texts, written.
ghost use Rattle.std.specs.Prelude.{◌≡◌, [], ◌∷◌, ◌++◌, ◌<◌, ◌^◌, true, false, Some, Ok, OnOk, IfSome};
ghost use Rattle.std.specs.Fmt.{decimal};
ghost use Rattle.std.specs.List.{join_with_byte};
ghost use Rattle.std.specs.Io.KnownBytes.{Appends};
ghost use Rattle.dmc_text.specs.declared.event_line.EventLine.TheVariants as event_lines;
ghost use Rattle.dmc_text.specs.declared.line.Line.TheVariants.{Ask};
ghost use Rattle.dmc_text.specs.declared.line.LineKind.TheVariants as kinds;
ghost use Rattle.dmc_types.specs.declared.command.Command.TheVariants.{Add, Pull, Remove, Cancel, Clean};
ghost use Rattle.dmc_text.specs.EventLines.{event_of};
ghost use Rattle.dmc_text.specs.Lines.{kind_of, line_of};
ghost use Rattle.dmc_text.specs.Replies.{IsWritable, tag_text};
ghost use Rattle.dmc_text.specs.RoundTrip.{IsAskedAgain, IsHeaderAgain};
ghost use Rattle.dmc_text.specs.internal.RoundTrip.{IsInfoAgain};
ghost use Rattle.dmc_text.specs.Texts.{with_line_end};
ghost use Rattle.dmc_text.specs.Written.{command_text, config_text, event_text, header_text, info_words, rate_word as word_of};

use crate::tag::TagText;
use crate::write::write_reply;
use dmc_tag::event::Event;
use dmc_types::command::Command;
use dmc_types::config::{AtLimit, Counting, QueueConfig, Shares};
use dmc_types::ids::{ClientId, ServerId, Token, WorkerId};
use dmc_types::info::ClientInfo;
use dmc_types::moment::Moment;
use dmc_types::params::ReqParams;
use std::{fmt, io};

/// Writes the `hz` line of a configuration, with both ages and its LF: the first line of a script or of an event text. If the
/// writer fails, a part of it may have been written.
pub fn write_config<W: io::Write>(config: QueueConfig, out: &mut W) -> io::Result<()>
    ensures text { OnOk result (Appends (W.contents out.old) (W.contents out.new) (with_line_end (config_text config))) }
    ensures again { kind_of false (config_text config) ≡ Ok (kinds.Config config) }
{
    let hz = config.hz();
    let idle = config.idle_age();
    let erase = config.erase_age();
    match (config.at_limit(), config.shares()) {
        (AtLimit::Wait, Shares::Clock) => write!(out, "hz {hz} {idle} {erase}\n"),
        (AtLimit::Wait, Shares::Virtual) => write!(out, "hz {hz} {idle} {erase} virtual\n"),
        (AtLimit::Allow, Shares::Clock) => write!(out, "hz {hz} {idle} {erase} allow\n"),
        (AtLimit::Allow, Shares::Virtual) => {
            write!(out, "hz {hz} {idle} {erase} allow virtual\n")
        }
        (AtLimit::Reject { threshold }, Shares::Clock) => {
            write!(out, "hz {hz} {idle} {erase} reject {threshold}\n")
        }
        (AtLimit::Reject { threshold }, Shares::Virtual) => {
            write!(out, "hz {hz} {idle} {erase} reject {threshold} virtual\n")
        }
    }
}

/// A rate, or `-` if it is absent.
#[derive(Clone, Copy)]
struct RateWord(Option<u32>);

impl fmt::Display for RateWord {
    ghost output = { λ w. Some (word_of w.0) };

    fn fmt<W: fmt::Write>(&self, f: &mut fmt::Formatter<W>) -> fmt::Result {
        match self.0 {
            None => f.write_str("-"),
            Some(rate) => write!(f, "{rate}"),
        }
    }
}

/// The word of a rate.
fn rate_word(rate: Option<u32>) -> RateWord
    ensures shown { result.0 ≡ rate }
    ensures fits { IfSome rate (λ q. q < 2 ^ 32) }
{
    match rate {
        None => RateWord(None),
        Some(rate) => RateWord(Some(rate)),
    }
}

/// Writes the word of a command, and then a client, its rates and a moment.
fn write_info<W: io::Write>(
    name: &str,
    client: ClientId,
    info: ClientInfo,
    at: Moment,
    out: &mut W,
) -> io::Result<()>
    ensures text { OnOk result (Appends (W.contents out.old) (W.contents out.new) (join_with_byte 32 (name.now ∷ info_words client info at))) }
    ensures again { IsInfoAgain client info at }
{
    let reservation = rate_word(info.reservation());
    let weight = info.weight();
    let limit = rate_word(info.limit());
    let ticks = at.ticks();
    write!(
        out,
        "{name} {} {reservation} {weight} {limit} {ticks}",
        client.0
    )
}

/// Writes an add.
fn write_add<W: io::Write>(
    client: ClientId,
    token: Token,
    params: ReqParams,
    at: Moment,
    out: &mut W,
) -> io::Result<()>
    ensures text { OnOk result (Appends (W.contents out.old) (W.contents out.new) (command_text (Add client token params at))) }
    ensures again { IsAskedAgain (Add client token params at) }
{
    let delta = params.delta();
    let rho = params.rho();
    let ticks = at.ticks();
    let units = params.cost().units();
    if units == 1 {
        return write!(out, "add {} {} {delta} {rho} {ticks}", client.0, token.0);
    }
    write!(
        out,
        "add {} {} {delta} {rho} {ticks} cost {units}",
        client.0, token.0
    )
}

/// Writes a pull.
fn write_pull<W: io::Write>(at: Moment, out: &mut W) -> io::Result<()>
    ensures text { OnOk result (Appends (W.contents out.old) (W.contents out.new) (command_text (Pull at))) }
    ensures again { IsAskedAgain (Pull at) }
{
    let ticks = at.ticks();
    write!(out, "pull {ticks}")
}

/// Writes a removal of a client's requests.
fn write_drop<W: io::Write>(client: ClientId, out: &mut W) -> io::Result<()>
    ensures text { OnOk result (Appends (W.contents out.old) (W.contents out.new) (command_text (Remove client))) }
    ensures again { IsAskedAgain (Remove client) }
{
    write!(out, "drop {}", client.0)
}

/// Writes a cancel.
fn write_cancel<W: io::Write>(
    client: ClientId,
    token: Token,
    counting: Counting,
    out: &mut W,
) -> io::Result<()>
    ensures text { OnOk result (Appends (W.contents out.old) (W.contents out.new) (command_text (Cancel client token counting))) }
    ensures again { IsAskedAgain (Cancel client token counting) }
{
    match counting {
        Counting::All => write!(out, "cancel {} {} all", client.0, token.0),
        Counting::Others => write!(out, "cancel {} {} others", client.0, token.0),
    }
}

/// Writes a clean.
fn write_clean<W: io::Write>(at: Moment, out: &mut W) -> io::Result<()>
    ensures text { OnOk result (Appends (W.contents out.old) (W.contents out.new) (command_text (Clean at))) }
    ensures again { IsAskedAgain (Clean at) }
{
    let ticks = at.ticks();
    write!(out, "clean {ticks}")
}

/// Writes a command as a line of a script has it, without its LF. If the writer fails, a part of it may have been written.
pub fn write_command<W: io::Write>(command: &Command, out: &mut W) -> io::Result<()>
    ensures text { OnOk result (Appends (W.contents out.old) (W.contents out.new) (command_text command.now)) }
    ensures again { IsAskedAgain command.now }
    ensures line { line_of true (command_text command.now) ≡ Ok (Ask command.now) }
{
    match *command {
        Command::Register { client, info, at } => write_info("client", client, info, at, out),
        Command::Update { client, info, at } => write_info("update", client, info, at, out),
        Command::Add {
            client,
            token,
            params,
            at,
        } => write_add(client, token, params, at, out),
        Command::Pull { at } => write_pull(at, out),
        Command::Remove { client } => write_drop(client, out),
        Command::Cancel {
            client,
            token,
            counting,
        } => write_cancel(client, token, counting, out),
        Command::Clean { at } => write_clean(at, out),
    }
}

/// Writes a worker, and a space.
fn write_worker<W: io::Write>(worker: WorkerId, out: &mut W) -> io::Result<()>
    ensures text { OnOk result (Appends (W.contents out.old) (W.contents out.new) (decimal worker.0 ++ 32 ∷ [])) }
    ensures fits { worker.0 < 2 ^ 32 }
{
    write!(out, "{} ", worker.0)
}

/// Writes the line of an event, with its LF. If the writer fails, a part of it may have been written.
///
/// A grant by reservation is never beyond its limit. One that says so is written without it.
pub fn write_event<T: TagText, W: io::Write>(event: &Event<T>, out: &mut W) -> io::Result<()>
    ensures text { OnOk result (Appends (W.contents out.old) (W.contents out.new) (with_line_end (event_text (tag_text T.numerator T.denominator) event.now))) }
    ensures again { OnOk result (IsWritable event.now.reply →
        event_of T.made true (event_text (tag_text T.numerator T.denominator) event.now) ≡ Ok (event_lines.Event event.now)) }
{
    write_worker(event.worker, out)?;
    write_command(&event.command, out)?;
    out.write_all(b" = ")?;
    write_reply(&event.reply, out)?;
    out.write_all(b"\n")
}

/// Writes the header of a segment, with its LF: whose queue it is, and the number of the segment's first event. If the writer
/// fails, a part of it may have been written.
pub fn write_header<W: io::Write>(server: ServerId, first: u64, out: &mut W) -> io::Result<()>
    ensures text { OnOk result (Appends (W.contents out.old) (W.contents out.new) (with_line_end (header_text server.0 first))) }
    ensures again { IsHeaderAgain server first }
{
    write!(out, "# server {} first {first}\n", server.0)
}
