//! The lines of a script.
ghost use Rattle.std.specs.Prelude.{◌≡◌};
ghost use Rattle.std.specs.List.{list_all};
ghost use Rattle.dmc_text.specs.Words.{words};
ghost use Rattle.dmc_text.specs.Commands.{command, seen};
ghost use Rattle.dmc_text.specs.Answers.{Gives};
ghost use Rattle.dmc_text.specs.Lines.{are_ages, is_line_byte, modes_of, rejecting, shares_of, with_modes, is_clean, heading, figure, ages_of, configured, setting, line_of_command, line_of_words, is_comment, kind_of, line_of};
ghost use Rattle.dmc_text.specs.internal.Lines.{seen_ages, seen_heading};

use crate::cause::LineCause;
use crate::command::{CommandFault, CommandWords, command_words, next_word, read_command};
use crate::number::read_u64;
use crate::word::{first_word, spells};
use dmc_types::command::Command;
use dmc_types::config::{AtLimit, QueueConfig, Shares};
use dmc_types::limits::MAX_AGE;
use dmc_types::refusal::ValueFault;

/// The meaning of a line.
#[derive(Clone, Copy, Debug, PartialEq, Eq)]
pub enum Line {
    /// It is ignored: it has no word, or its first begins with `#`.
    Skip,
    /// The configuration of the queue.
    Config(QueueConfig),
    /// A command.
    Ask(Command),
    /// A command with a value out of its limits.
    Value(ValueFault),
}

/// The kind of a line, before a command is read from it.
#[derive(Clone, Copy, Debug, PartialEq, Eq)]
pub enum LineKind {
    /// It is ignored: it has no word, or its first begins with `#`.
    Skip,
    /// The configuration of the queue.
    Config(QueueConfig),
    /// It has to be a command.
    Command,
}

/// The greatest length of a line in bytes, without its LF.
pub(crate) const MAX_LINE_BYTES: usize = 256;

/// The words after `hz`.
#[derive(Clone, Copy)]
struct ConfigWords<'a> {
    hz: &'a [u8],
    ages: Option<(&'a [u8], &'a [u8])>,
    at_limit: AtLimit,
    shares: Shares,
}

/// Whether a line may have this byte.
fn is_line_byte(byte: u8) -> bool
    ensures { result ≡ is_line_byte byte }
{
    32 <= byte && byte <= 126
}

/// Whether a line may have each of these bytes.
fn are_line_bytes(line: &[u8]) -> bool
    ensures { result ≡ list_all is_line_byte line.now }
{
    line.iter().all(|byte| is_line_byte(*byte))
}

/// Whether a line is not too long, and may have each of its bytes.
#[tactic(auto, unfolding(crate::specs::Lines::is_clean))]
fn is_clean(line: &[u8]) -> bool
    ensures { result ≡ is_clean line.now }
{
    line.len() <= MAX_LINE_BYTES && are_line_bytes(line)
}

/// Whether a line's first word makes it a comment.
fn is_comment(word: &[u8]) -> bool
    ensures { result ≡ is_comment word.now }
{
    matches!(word, [b'#', ..])
}

/// A number of 64 bits.
#[tactic(auto, unfolding(crate::specs::Lines::figure))]
fn figure(word: &[u8]) -> Result<u64, LineCause>
    ensures { result ≡ figure word.now }
{
    read_u64(word).ok_or(LineCause::Number)
}

/// A configuration within its limits.
#[tactic(auto, unfolding(crate::specs::Lines::configured))]
fn configured(
    hz: u64,
    idle_age: u64,
    erase_age: u64,
    at_limit: AtLimit,
    shares: Shares,
) -> Result<QueueConfig, LineCause>
    ensures { result ≡ configured hz idle_age erase_age at_limit shares }
{
    match QueueConfig::new(hz, idle_age, erase_age, at_limit) {
        Ok(config) => Ok(config.with_shares(shares)),
        Err(_) => Err(LineCause::Hz),
    }
}

/// The line of a command's words.
fn to_line(words: CommandWords<'_>) -> Result<Line, LineCause>
    ensures { result ≡ line_of_command (command (seen words.entry)) }
{
    match read_command(words) {
        Ok(command) => Ok(Line::Ask(command)),
        Err(CommandFault::Value(fault)) => Ok(Line::Value(fault)),
        Err(CommandFault::Number) => Err(LineCause::Number),
    }
}

/// The one command of a line.
#[tactic(auto, unfolding(crate::specs::Lines::line_of_words))]
fn parse_command(line: &[u8]) -> Result<Line, LineCause>
    ensures { result ≡ line_of_words (words line.now) }
{
    let (command, rest) = command_words(line)?;
    if first_word(rest).is_some() {
        return Err(LineCause::Words);
    }
    to_line(command)
}

/// Whether an `hz` line ends with `virtual`, which is then all that is left of it.
fn shares(text: &[u8]) -> Result<Shares, LineCause>
    ensures { result ≡ shares_of (words text.now) }
{
    let Some((last, rest)) = first_word(text) else {
        return Ok(Shares::Clock);
    };
    if !spells(last, b"virtual") || first_word(rest).is_some() {
        return Err(LineCause::Words);
    }
    Ok(Shares::Virtual)
}

/// The last words of an `hz` line: what is done at the limit, and in which time shares are compared.
fn modes(text: &[u8]) -> Result<(AtLimit, Shares), LineCause>
    ensures { result ≡ modes_of (words text.now) }
{
    let Some((word, rest)) = first_word(text) else {
        return Ok((AtLimit::Wait, Shares::Clock));
    };
    if spells(word, b"allow") {
        return Ok((AtLimit::Allow, shares(rest)?));
    }
    if spells(word, b"reject") {
        return rejecting(rest);
    }
    Ok((AtLimit::Wait, shares(text)?))
}

/// The words behind `reject`: the threshold, and in which time shares are compared.
fn rejecting(text: &[u8]) -> Result<(AtLimit, Shares), LineCause>
    ensures { result ≡ rejecting (words text.now) }
{
    let (threshold, rest) = next_word(text)?;
    let shares = shares(rest)?;
    let threshold = figure(threshold)?;
    Ok((AtLimit::Reject { threshold }, shares))
}

/// The words of an `hz` line without its modes, and the modes in the text behind them.
fn with_modes<'a>(
    hz: &'a [u8],
    ages: Option<(&'a [u8], &'a [u8])>,
    text: &[u8],
) -> Result<ConfigWords<'a>, LineCause>
    ensures { Gives seen_heading result (with_modes hz.now (seen_ages ages.entry) (words text.now)) }
{
    let (at_limit, shares) = modes(text)?;
    Ok(ConfigWords {
        hz,
        ages,
        at_limit,
        shares,
    })
}

/// Whether two words are the ages: the first is not `reject`, and the second is not the last word and `virtual`.
fn are_ages(first: &[u8], second: &[u8], behind: &[u8]) -> bool
    ensures { result ≡ are_ages first.now second.now (words behind.now) }
{
    if spells(first, b"reject") {
        return false;
    }
    first_word(behind).is_some() || !spells(second, b"virtual")
}

/// The words after `hz`.
#[tactic(auto, unfolding(crate::specs::Lines::heading))]
fn config_words(text: &[u8]) -> Result<ConfigWords<'_>, LineCause>
    ensures { Gives seen_heading result (heading (words text.now)) }
{
    let (hz, rest) = next_word(text)?;
    let Some((idle, behind)) = first_word(rest) else {
        return with_modes(hz, None, rest);
    };
    let Some((erase, behind)) = first_word(behind) else {
        return with_modes(hz, None, rest);
    };
    if !are_ages(idle, erase, behind) {
        return with_modes(hz, None, rest);
    }
    with_modes(hz, Some((idle, erase)), behind)
}

/// The ages that are given, or otherwise the greatest.
fn ages_of(ages: Option<(&[u8], &[u8])>) -> Result<(u64, u64), LineCause>
    ensures { result ≡ ages_of (seen_ages ages.entry) }
{
    let Some((idle, erase)) = ages else {
        return Ok((MAX_AGE, MAX_AGE));
    };
    Ok((figure(idle)?, figure(erase)?))
}

/// The configuration of words.
#[tactic(auto, unfolding(crate::specs::Lines::setting))]
fn read_config(words: ConfigWords<'_>) -> Result<QueueConfig, LineCause>
    ensures { result ≡ setting (seen_heading words.entry) }
{
    let hz = figure(words.hz)?;
    let (idle_age, erase_age) = ages_of(words.ages)?;
    configured(hz, idle_age, erase_age, words.at_limit, words.shares)
}

/// The kind of a line, without its LF. `has_config`: an `hz` line was read before.
pub fn read_kind(line: &[u8], has_config: bool) -> Result<LineKind, LineCause>
    ensures { result ≡ kind_of has_config line.now }
{
    if !is_clean(line) {
        return Err(LineCause::Bytes);
    }
    let Some((name, rest)) = first_word(line) else {
        return Ok(LineKind::Skip);
    };
    if is_comment(name) {
        return Ok(LineKind::Skip);
    }
    let is_hz_line = spells(name, b"hz");
    if is_hz_line == has_config {
        return Err(LineCause::Hz);
    }
    if has_config {
        return Ok(LineKind::Command);
    }
    Ok(LineKind::Config(read_config(config_words(rest)?)?))
}

/// The meaning of a line of a script, without its LF. `has_config`: an `hz` line was read before.
pub fn read_line(line: &[u8], has_config: bool) -> Result<Line, LineCause>
    ensures { result ≡ line_of has_config line.now }
{
    match read_kind(line, has_config)? {
        LineKind::Skip => Ok(Line::Skip),
        LineKind::Config(config) => Ok(Line::Config(config)),
        LineKind::Command => parse_command(line),
    }
}
