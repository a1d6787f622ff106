//! The words of the command line: which command is asked for, and on which tags.
ghost use Rattle.std.specs.Prelude.{◌≡◌, IfErr, IfOk, None, Some, codes, false, find, if◌then◌else◌, is_some, map, ok_or, option_map};
ghost use Rattle.std.specs.Str.{bytes_eq};
ghost use Rattle.clap.specs.Words.{app_of, found_of, kind_of, new_app, rows_of, rule_of, subcommand_rows_of, with_rule, with_subcommand};
ghost use Rattle.clap.specs.declared.builder.command.Command.TheViews.{out-Command as fields_of};
ghost use Rattle.dmc_tool.specs.Words.{ask_version, asked, asked_by_words, asked_in, bare, command_in, explains, fault_at, plain_app, flag_in, flag_rule, kind_named, name_of, program_app, shown_command, tagged_app, tags_in, tool_in};
ghost use Rattle.dmc_tool.specs.declared.words.WordsFault.TheVariants.{Memory, Usage};

use clap::error::ErrorKind;
use clap::{Arg, ArgAction, ArgMatches, Command, Error};
use dmc_types::config::TagKind;
use std::alloc::{AllocError, Global};
use std::convert::AsStr;

/// A command of the program.
#[derive(Clone, Copy, Debug, PartialEq, Eq)]
pub enum ToolCommand {
    /// Runs the commands of a script on a queue and writes its replies.
    Script,
    /// Says whether events replay.
    Check,
    /// Simulates a scene.
    Sim,
    /// Runs a scene in threads.
    Run,
}

/// The commands of the program. Any other is a usage fault.
pub const WRITTEN: [ToolCommand; 4] = [
    ToolCommand::Script,
    ToolCommand::Check,
    ToolCommand::Sim,
    ToolCommand::Run,
];

/// A command, and the tags that it runs on.
#[derive(Clone, Copy, Debug, PartialEq, Eq)]
pub struct Tool {
    pub command: ToolCommand,
    /// The tags to run on. `sim` and `run` take those of the scene and leave this at ticks.
    pub tags: TagKind,
}

/// What the command line asks for.
#[derive(Clone, Copy, Debug, PartialEq, Eq)]
pub enum Request<'a> {
    /// The version of the program.
    Version,
    /// A tool, the name of the file that it reads, if that is not standard input, whether a fault is explained, and whether
    /// progress is shown.
    Tool {
        tool: Tool,
        file: Option<&'a str>,
        is_explained: bool,
        shows_progress: bool,
    },
}

/// The reason why the words ask for nothing.
#[derive(Clone, Copy, Debug, PartialEq, Eq)]
pub enum WordsFault {
    /// The usage does not have these words. A call for help is one of these.
    Usage,
    /// An allocation failed.
    Memory,
}

impl From<AllocError> for WordsFault {
    ghost from_gives = { λ _ fault. fault ≡ Memory };

    fn from(_: AllocError) -> WordsFault {
        WordsFault::Memory
    }
}

impl From<Error> for WordsFault {
    ghost from_gives = { λ error fault. fault ≡ fault_at (kind_of error) };

    fn from(error: Error) -> WordsFault {
        match error.kind() {
            ErrorKind::OutOfMemory => WordsFault::Memory,
            _ => WordsFault::Usage,
        }
    }
}

impl Request<'_> {
    /// Whether a fault is explained.
    pub fn is_explained(&self) -> bool
        ensures { result ≡ explains (asked self.now) }
    {
        match self {
            Request::Version => false,
            Request::Tool { is_explained, .. } => *is_explained,
        }
    }

    /// The command whose progress is shown, if that is asked for.
    pub fn shown_command(&self) -> Option<ToolCommand>
        ensures { result ≡ shown_command (asked self.now) }
    {
        match self {
            Request::Tool {
                tool,
                shows_progress: true,
                ..
            } => Some(tool.command),
            _ => None,
        }
    }
}

impl ToolCommand {
    /// The word that asks for the command.
    pub fn name<'a>(self) -> &'a str
        ensures { result.now ≡ name_of self }
    {
        match self {
            ToolCommand::Script => "script",
            ToolCommand::Check => "check",
            ToolCommand::Sim => "sim",
            ToolCommand::Run => "run",
        }
    }
}

/// What the words ask for, as clap matches them. They are the arguments after the program's name. Without the option `--tags` the
/// tags are ticks. `Usage`: the words ask for nothing. `Memory`: an allocation failed, whatever the words ask for. Clap's
/// contract lets it report that at any time, so no clause here says when.
pub fn read_words<'a, S: AsStr>(alloc: Global, words: &'a [S]) -> Result<Request<'a>, WordsFault>
    ensures ok { IfOk result (λ request. asked_by_words WRITTEN (map S.text words.now) ≡ Some (asked request)) }
    ensures usage { result ≡ Err WordsFault.Usage → asked_by_words WRITTEN (map S.text words.now) ≡ None }
{
    let matches = program(alloc)?.try_get_matches_from(words)?;
    named_request(&matches)
}

// What a match asks for. One that asks for nothing is reported as `Usage`, and never as `Memory`.
fn named_request<'a>(matches: &ArgMatches<'a>) -> Result<Request<'a>, WordsFault>
    ensures ok { IfOk result (λ request. asked_in WRITTEN (rows_of (found_of matches.now), subcommand_rows_of matches.now) ≡ Some (asked request)) }
    ensures err { IfErr result (λ fault. (fault ≡ WordsFault.Usage) × (asked_in WRITTEN (rows_of (found_of matches.now), subcommand_rows_of matches.now) ≡ None)) }
{
    request_of(matches).ok_or(WordsFault::Usage)
}

// The command line, as clap gets it.
fn program<'a>(alloc: Global) -> Result<Command<'a>, AllocError>
    ensures { IfOk result (λ command. app_of command ≡ program_app) }
{
    let command = with_version(alloc, bare_program(alloc))?;
    let command = with_tagged(alloc, command, ToolCommand::Script)?;
    let command = with_tagged(alloc, command, ToolCommand::Check)?;
    let command = with_plain(alloc, command, ToolCommand::Sim)?;
    with_plain(alloc, command, ToolCommand::Run)
}

// A command line with no commands yet, and no help.
fn bare_program<'a>(alloc: Global) -> Command<'a>
    ensures { app_of result ≡ bare (new_app (codes "dmclock")) }
{
    Command::new(alloc, "dmclock")
        .no_binary_name(true)
        .disable_help_flag(true)
        .disable_help_subcommand(true)
}

// The command line with the flag `--version`.
fn with_version<'a>(alloc: Global, program: Command<'a>) -> Result<Command<'a>, AllocError>
    ensures { IfOk result (λ c. app_of c ≡ with_rule (app_of program.entry) (flag_rule (codes "version"))) }
{
    program.arg(flag(alloc, "version"))
}

// A flag of this name.
fn flag<'a>(alloc: Global, name: &'a str) -> Arg<'a>
    ensures rule { rule_of result ≡ flag_rule name.entry.now }
    ensures local { result.global ≡ false }
{
    Arg::new(alloc, name).long(name).action(ArgAction::SetTrue)
}

// The command line with one more command, which takes the option `--tags`.
fn with_tagged<'a>(
    alloc: Global,
    program: Command<'a>,
    command: ToolCommand,
) -> Result<Command<'a>, AllocError>
    ensures { IfOk result (λ c. app_of c ≡ with_subcommand (app_of program.entry) (tagged_app (name_of command)).top) }
{
    program.subcommand(tagged(alloc, command)?)
}

// The command line with one more command, which does not take the option `--tags`.
fn with_plain<'a>(
    alloc: Global,
    program: Command<'a>,
    command: ToolCommand,
) -> Result<Command<'a>, AllocError>
    ensures { IfOk result (λ c. app_of c ≡ with_subcommand (app_of program.entry) (plain_app (name_of command)).top) }
{
    program.subcommand(plain(alloc, command)?)
}

// A command that takes a file's name and the flags `--explain` and `--progress`.
fn plain<'a>(alloc: Global, command: ToolCommand) -> Result<Command<'a>, AllocError>
    ensures app { IfOk result (λ c. app_of c ≡ plain_app (name_of command)) }
    ensures local { IfOk result (λ c. (fields_of c).has_globals ≡ false) }
{
    let command = Command::new(alloc, command.name()).arg(Arg::new(alloc, "file"))?;
    let command = command.arg(flag(alloc, "explain"))?;
    command.arg(flag(alloc, "progress"))
}

// A command that takes the option `--tags` too.
fn tagged<'a>(alloc: Global, command: ToolCommand) -> Result<Command<'a>, AllocError>
    ensures app { IfOk result (λ c. app_of c ≡ tagged_app (name_of command)) }
    ensures local { IfOk result (λ c. (fields_of c).has_globals ≡ false) }
{
    plain(alloc, command)?.arg(Arg::new(alloc, "tags").long("tags"))
}

// What a match asks for. The version is asked for alone.
fn request_of<'a>(matches: &ArgMatches<'a>) -> Option<Request<'a>>
    ensures { option_map asked result ≡ asked_in WRITTEN (rows_of (found_of matches.now), subcommand_rows_of matches.now) }
{
    if is_given("version", matches) {
        return version_alone(matches);
    }
    let (name, options) = matches.subcommand()?;
    command_of(name, options)
}

// The version, if no command is named beside it.
fn version_alone<'a>(matches: &ArgMatches<'_>) -> Option<Request<'a>>
    ensures { option_map asked result ≡ (if is_some (subcommand_rows_of matches.now) then None else Some ask_version) }
{
    match matches.subcommand() {
        Some(_) => None,
        None => Some(Request::Version),
    }
}

// What the command of this name asks for.
fn command_of<'a>(name: &str, options: &ArgMatches<'a>) -> Option<Request<'a>>
    ensures { option_map asked result ≡ command_in WRITTEN (name.now, rows_of (found_of options.now)) }
{
    let tool = tool_of(name, options)?;
    Some(Request::Tool {
        tool,
        file: options.get_str("file"),
        is_explained: is_given("explain", options),
        shows_progress: is_given("progress", options),
    })
}

// The tool of the command of this name.
fn tool_of(name: &str, options: &ArgMatches<'_>) -> Option<Tool>
    ensures { result ≡ tool_in WRITTEN (name.now, rows_of (found_of options.now)) }
{
    let command = command_named(name)?;
    let tags = tags_of(options)?;
    Some(Tool { command, tags })
}

// Whether a flag is given.
fn is_given(name: &str, options: &ArgMatches<'_>) -> bool
    ensures { result ≡ flag_in name.now (rows_of (found_of options.now)) }
{
    match options.get_str(name) {
        Some(word) => word == "true",
        None => false,
    }
}

// The tags that a command's options name, ticks if they name none.
fn tags_of(options: &ArgMatches<'_>) -> Option<TagKind>
    ensures { result ≡ tags_in (rows_of (found_of options.now)) }
{
    match options.get_str("tags") {
        Some(word) => tags_named(word),
        None => Some(TagKind::Tick),
    }
}

// The command that has this name.
fn command_named(word: &str) -> Option<ToolCommand>
    ensures { result ≡ find (λ command. bytes_eq (name_of command) word.now) WRITTEN }
{
    if ToolCommand::Script.name() == word {
        Some(ToolCommand::Script)
    } else if ToolCommand::Check.name() == word {
        Some(ToolCommand::Check)
    } else if ToolCommand::Sim.name() == word {
        Some(ToolCommand::Sim)
    } else if ToolCommand::Run.name() == word {
        Some(ToolCommand::Run)
    } else {
        None
    }
}

// The tags that have this name.
fn tags_named(word: &str) -> Option<TagKind>
    ensures { result ≡ kind_named word.now }
{
    match word {
        "tick" => Some(TagKind::Tick),
        "ratio" => Some(TagKind::Ratio),
        _ => None,
    }
}
