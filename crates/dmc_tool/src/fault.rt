//! The faults of the program.
ghost use Rattle.std.specs.Prelude.{◌≡◌, ◌++◌, codes};
ghost use Rattle.dmc_scene.specs.Keys.{name_of};
ghost use Rattle.dmc_text.specs.Texts.{with_line_end};
ghost use Rattle.dmc_tool.specs.Faults.{cause_word, fault_of_words, status_of};
ghost use Rattle.dmc_tool.specs.FaultLine.{fault_text, line_of};
ghost use Rattle.dmc_tool.specs.Explanations.{expected_of_key, expected_of_line, explanation, line_if_any, place_text};

use crate::words::WordsFault;
use dmc_scene::key::Key;
use dmc_text::cause::LineCause;

/// The reason why the program does not end with status 0. Its text goes to standard error as one line. Beside a scene's key is the
/// place of the client in whose table it is, counted from 1, if it is in one.
#[derive(Clone, Copy, Debug, PartialEq, Eq)]
pub enum Fault {
    /// The usage does not have these words.
    Usage,
    /// A line of a script or of events is refused; lines count from 1.
    Line { number: u64, cause: LineCause },
    /// Standard input can't be read, or is longer than a script may be.
    Read,
    /// Standard output can't be written.
    Write,
    /// An allocation failed.
    Memory,
    /// Standard input is no scene: it has too many bytes, or is no TOML.
    SceneText,
    /// A scene lacks the key.
    SceneMissing(Key, Option<u64>),
    /// The value of a scene's key is of another kind.
    SceneKind(Key, Option<u64>),
    /// The value of a scene's key is out of its limits.
    SceneValue(Key, Option<u64>),
    /// After `run`, what it set up and what came back are parts of different set-ups.
    Torn,
    /// A simulated queue refused an arrival or a pull: a sum is no value of the tag type.
    Range,
    /// The round limit was reached before all requests were completed.
    TurnsOut,
    /// A worker stopped before all requests were completed.
    Stopped,
}

/// The text of a line in parts: a head, then a number if it has one, then a tail, which may be empty.
#[derive(Clone, Copy)]
pub(crate) struct FaultText<'a> {
    pub(crate) head: &'static str,
    pub(crate) number: Option<u64>,
    pub(crate) tail: &'a str,
}

impl Fault {
    /// The text of the fault.
    pub(crate) fn text(&self) -> FaultText<'static>
        ensures { line_of result ≡ with_line_end (fault_text self.now) }
    {
        match self {
            Fault::Usage => plain("usage: dmclock script|check [--tags tick|ratio] | sim | run"),
            Fault::Line { number, cause } => FaultText {
                head: "dmclock: line ",
                number: Some(*number),
                tail: cause_text(*cause),
            },
            Fault::Read => plain("dmclock: read"),
            Fault::Write => plain("dmclock: write"),
            Fault::Memory => plain("dmclock: memory"),
            Fault::SceneText => plain("dmclock: scene text"),
            Fault::SceneMissing(key, _) => of_key("dmclock: scene missing ", *key),
            Fault::SceneKind(key, _) => of_key("dmclock: scene kind ", *key),
            Fault::SceneValue(key, _) => of_key("dmclock: scene value ", *key),
            Fault::Torn => plain("dmclock: torn"),
            Fault::Range => plain("dmclock: refused range"),
            Fault::TurnsOut => plain("dmclock: turns out"),
            Fault::Stopped => plain("dmclock: stopped"),
        }
    }

    /// The text that says what was expected. A usage fault has none of its own, and of a failed allocation there is none.
    pub(crate) fn explanation(&self) -> Option<FaultText<'static>>
        ensures { line_if_any result ≡ explanation self.now }
    {
        match self {
            Fault::Usage | Fault::Memory => None,
            Fault::Line { number, cause } => Some(FaultText {
                head: "dmclock: line ",
                number: Some(*number),
                tail: expected_of_line(*cause),
            }),
            Fault::SceneMissing(key, client)
            | Fault::SceneKind(key, client)
            | Fault::SceneValue(key, client) => Some(expected_at(*client, *key)),
            Fault::Read => Some(plain(
                "dmclock: input: expected a file or a stream that can be read, of at most 2^32 bytes",
            )),
            Fault::Write => Some(plain("dmclock: output: expected a stream that can be written")),
            Fault::SceneText => Some(plain(
                "dmclock: input: expected a scene in TOML, of at most 2^20 bytes",
            )),
            Fault::Torn => Some(plain("dmclock: run: expected what was set up to come back")),
            Fault::Range => Some(plain(
                "dmclock: tags: expected each sum to be one of their values",
            )),
            Fault::TurnsOut => Some(plain(
                "dmclock: key max_pulls: expected enough turns for all requests",
            )),
            Fault::Stopped => Some(plain(
                "dmclock: workers: expected none to stop before all requests were completed",
            )),
        }
    }

    /// The exit status: 2 for usage, 4 if a run ended early and its report is written, else 1.
    pub fn status(&self) -> u8
        ensures { result ≡ status_of self.now }
    {
        match self {
            Fault::Usage => 2,
            Fault::TurnsOut | Fault::Stopped => 4,
            _ => 1,
        }
    }
}

impl From<WordsFault> for Fault {
    ghost from_gives = { λ words fault. fault ≡ fault_of_words words };

    fn from(fault: WordsFault) -> Fault {
        match fault {
            WordsFault::Usage => Fault::Usage,
            WordsFault::Memory => Fault::Memory,
        }
    }
}

/// A text that has only a head.
fn plain(head: &'static str) -> FaultText<'static>
    ensures { line_of result ≡ with_line_end head.now }
{
    FaultText {
        head,
        number: None,
        tail: "",
    }
}

/// A text whose tail is the name of a key.
fn of_key(head: &'static str, key: Key) -> FaultText<'static>
    ensures { line_of result ≡ with_line_end (head.now ++ name_of key) }
{
    FaultText {
        head,
        number: None,
        tail: key.name(),
    }
}

/// The word for the cause of a line, after a space.
fn cause_text(cause: LineCause) -> &'static str
    ensures { result.now ≡ codes " " ++ cause_word cause }
{
    match cause {
        LineCause::Bytes => " bytes",
        LineCause::Hz => " hz",
        LineCause::Words => " words",
        LineCause::Number => " number",
    }
}

/// What is expected of a line, by the cause of its fault.
fn expected_of_line(cause: LineCause) -> &'static str
    ensures { result.now ≡ expected_of_line cause }
{
    match cause {
        LineCause::Bytes => ": expected bytes from 32 to 126, and at most 256 of them",
        LineCause::Hz => ": expected one hz line, before all others and within its limits",
        LineCause::Words => ": expected one of the forms that dmclock(1) lists",
        LineCause::Number =>
            ": expected a number in digits, without a leading 0, that fits its type",
    }
}

/// The text that says what is expected of a key, in the table of the client at a place if it is in one.
fn expected_at(client: Option<u64>, key: Key) -> FaultText<'static>
    ensures { line_of result ≡ with_line_end (place_text client ++ expected_of_key key) }
{
    FaultText {
        head: if client.is_none() {
            "dmclock"
        } else {
            "dmclock: client "
        },
        number: client,
        tail: expected_of_key(key),
    }
}

/// What is expected of a key.
fn expected_of_key(key: Key) -> &'static str
    ensures { result.now ≡ expected_of_key key }
{
    match key {
        Key::Hz => ": key hz: expected an integer from 1 to 1000000000",
        Key::IdleAge => ": key idle_age: expected an integer from 1 to 2^62",
        Key::EraseAge => ": key erase_age: expected an integer from idle_age to 2^62",
        Key::Tags => ": key tags: expected the text tick or ratio",
        Key::Servers => ": key servers: expected an integer from 1 to 64",
        Key::Workers => ": key workers: expected an integer from 1 to 16",
        Key::Step => ": key step: expected an integer from 1 to 1000000000",
        Key::Seed => ": key seed: expected an integer from 0 to 2^63-1",
        Key::MaxPulls => ": key max_pulls: expected an integer from 1 to 2^30",
        Key::Counting => ": key counting: expected the text all or others",
        Key::AtLimit => ": key at_limit: expected the text wait or allow",
        Key::Shares => ": key shares: expected the text clock or virtual",
        Key::Client => ": key client: expected a list of 1 to 256 tables",
        Key::Id => ": key id: expected an integer from 0 to 2^32-1, another one for each client",
        Key::Reservation =>
            ": key reservation: expected an integer from 1 to 2^32-1, with ticks one that divides hz",
        Key::Weight =>
            ": key weight: expected an integer from 1 to 2^32-1, with ticks one that divides hz",
        Key::Limit =>
            ": key limit: expected an integer from 1 to 2^32-1, with ticks one that divides hz",
        Key::Requests => ": key requests: expected an integer from 0 to 1000000",
        Key::Window => ": key window: expected an integer from 1 to 1024",
        Key::Costs => ": key costs: expected a list of 1 to 16 integers from 1 to 1024",
    }
}
