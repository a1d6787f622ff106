//! The commands of a line. All its words are checked before any is read as a number.
ghost use Rattle.std.specs.Prelude.{◌≡◌, ℕ, List, ◌∷◌, [], MatchResult};
ghost use Rattle.dmc_text.specs.Words.{words};
ghost use Rattle.std.specs.Option.{option_map};
ghost use Rattle.dmc_text.specs.Answers.{Gives};
ghost use Rattle.dmc_types.specs.Values.{Rates};
ghost use Rattle.dmc_text.specs.Commands.{phrase_of, Phrase, registering, updating, add_phrase, cost_behind, cost_word, cancel_phrase, counting_named, verb_of, with_five, phrase, small, long, optional, with_info, with_params, with_token, at_moment, command, seen};

use crate::cause::LineCause;
use crate::number::{read_u32, read_u64};
use crate::word::{first_word, spells};
use dmc_types::command::Command;
use dmc_types::config::Counting;
use dmc_types::cost::Cost;
use dmc_types::ids::{ClientId, Token};
use dmc_types::info::ClientInfo;
use dmc_types::moment::Moment;
use dmc_types::params::ReqParams;
use dmc_types::refusal::ValueFault;

/// The first word of a command.
#[derive(Clone, Copy, Debug, PartialEq, Eq)]
pub enum Verb {
    Client,
    Update,
    Add,
    Pull,
    Drop,
    Cancel,
    Clean,
}

/// The words after `client` or `update`.
#[derive(Clone, Copy)]
pub struct InfoWords<'a> {
    pub client: &'a [u8],
    pub reservation: &'a [u8],
    pub weight: &'a [u8],
    pub limit: &'a [u8],
    pub at: &'a [u8],
}

/// The words after `add`.
#[derive(Clone, Copy)]
pub struct AddWords<'a> {
    pub client: &'a [u8],
    pub token: &'a [u8],
    pub delta: &'a [u8],
    pub rho: &'a [u8],
    pub at: &'a [u8],
    pub cost: Option<&'a [u8]>,
}

/// The words after `cancel`, of which the last is read as a form of counting.
#[derive(Clone, Copy)]
pub struct CancelWords<'a> {
    pub client: &'a [u8],
    pub token: &'a [u8],
    pub counting: Counting,
}

/// A command whose words are not yet read as numbers.
#[derive(Clone, Copy)]
pub enum CommandWords<'a> {
    Register(InfoWords<'a>),
    Update(InfoWords<'a>),
    Add(AddWords<'a>),
    Pull(&'a [u8]),
    Remove(&'a [u8]),
    Cancel(CancelWords<'a>),
    Clean(&'a [u8]),
}

/// The reason why the words of a command name none.
#[derive(Clone, Copy, Debug, PartialEq, Eq)]
pub enum CommandFault {
    /// A word that has to be a number is not one of its type.
    Number,
    /// A value is out of its limits: the moment, and then the params and the cost, or a rate.
    Value(ValueFault),
}

impl From<ValueFault> for CommandFault {
    ghost use Rattle.dmc_text.specs.declared.command.CommandFault.TheVariants.{Value};

    ghost from_gives = { λ value fault. fault ≡ Value value };

    fn from(value: ValueFault) -> CommandFault {
        CommandFault::Value(value)
    }
}

/// The command that a word names.
fn verb_of(word: &[u8]) -> Option<Verb>
    ensures { result ≡ verb_of word.now }
{
    if spells(word, b"client") {
        Some(Verb::Client)
    } else if spells(word, b"update") {
        Some(Verb::Update)
    } else if spells(word, b"add") {
        Some(Verb::Add)
    } else if spells(word, b"pull") {
        Some(Verb::Pull)
    } else if spells(word, b"drop") {
        Some(Verb::Drop)
    } else if spells(word, b"cancel") {
        Some(Verb::Cancel)
    } else if spells(word, b"clean") {
        Some(Verb::Clean)
    } else {
        None
    }
}

/// The next word, and what follows it.
pub fn next_word(text: &[u8]) -> Result<(&[u8], &[u8]), LineCause>
    ensures { MatchResult result (λ x. words text.now ≡ x.0.now ∷ words x.1.now)
        (λ e. (words text.now ≡ []) × (e ≡ LineCause.Words)) }
{
    first_word(text).ok_or(LineCause::Words)
}

/// The words of an info: a client, and the first words of a text. And what follows them.
fn info_words<'a>(client: &'a [u8], text: &'a [u8]) -> Result<(InfoWords<'a>, &'a [u8]), LineCause>
    ensures { (make : List ℕ → List ℕ → List ℕ → List ℕ → List ℕ → Phrase) → Gives
        (λ x. (make x.0.client.now x.0.reservation.now x.0.weight.now x.0.limit.now x.0.at.now, words x.1.now))
        result (with_five make (client.now ∷ words text.now)) }
{
    let (reservation, rest) = next_word(text)?;
    let (weight, rest) = next_word(rest)?;
    let (limit, rest) = next_word(rest)?;
    let (at, rest) = next_word(rest)?;
    let info = InfoWords {
        client,
        reservation,
        weight,
        limit,
        at,
    };
    Ok((info, rest))
}

/// The words of `client`, and what follows them.
fn register_words<'a>(
    client: &'a [u8],
    text: &'a [u8],
) -> Result<(CommandWords<'a>, &'a [u8]), LineCause>
    ensures { Gives (λ x. (seen x.0, words x.1.now)) result (with_five registering (client.now ∷ words text.now)) }
{
    let (info, rest) = info_words(client, text)?;
    Ok((CommandWords::Register(info), rest))
}

/// The words of `update`, and what follows them.
fn update_words<'a>(
    client: &'a [u8],
    text: &'a [u8],
) -> Result<(CommandWords<'a>, &'a [u8]), LineCause>
    ensures { Gives (λ x. (seen x.0, words x.1.now)) result (with_five updating (client.now ∷ words text.now)) }
{
    let (info, rest) = info_words(client, text)?;
    Ok((CommandWords::Update(info), rest))
}

/// The word behind `cost`, if that is the next word, and what follows. The cause is `Words` if nothing is behind it.
pub fn cost_behind(text: &[u8]) -> Result<(Option<&[u8]>, &[u8]), LineCause>
    ensures { Gives (λ x. (option_map (λ word. word.now) x.0, words x.1.now)) result (cost_behind (words text.now)) }
{
    match first_word(text) {
        Some((name, rest)) if spells(name, b"cost") => {
            let (units, rest) = next_word(rest)?;
            Ok((Some(units), rest))
        }
        _ => Ok((None, text)),
    }
}

/// The words of `add`, and what follows them.
fn add_words<'a>(
    client: &'a [u8],
    text: &'a [u8],
) -> Result<(CommandWords<'a>, &'a [u8]), LineCause>
    ensures { Gives (λ x. (seen x.0, words x.1.now)) result (add_phrase (client.now ∷ words text.now)) }
{
    let (token, rest) = next_word(text)?;
    let (delta, rest) = next_word(rest)?;
    let (rho, rest) = next_word(rest)?;
    let (at, rest) = next_word(rest)?;
    let (cost, rest) = cost_behind(rest)?;
    let add = AddWords {
        client,
        token,
        delta,
        rho,
        at,
        cost,
    };
    Ok((CommandWords::Add(add), rest))
}

/// The form of counting that a word names.
fn counting_of(word: &[u8]) -> Option<Counting>
    ensures { result ≡ counting_named word.now }
{
    if spells(word, b"all") {
        Some(Counting::All)
    } else if spells(word, b"others") {
        Some(Counting::Others)
    } else {
        None
    }
}

/// The words of `cancel`, and what follows them.
fn cancel_words<'a>(
    client: &'a [u8],
    text: &'a [u8],
) -> Result<(CommandWords<'a>, &'a [u8]), LineCause>
    ensures { Gives (λ x. (seen x.0, words x.1.now)) result (cancel_phrase (client.now ∷ words text.now)) }
{
    let (token, rest) = next_word(text)?;
    let (word, rest) = next_word(rest)?;
    let counting = counting_of(word).ok_or(LineCause::Words)?;
    let cancel = CancelWords {
        client,
        token,
        counting,
    };
    Ok((CommandWords::Cancel(cancel), rest))
}

/// The words after the first word of a command, and what follows them. Each command has at least one.
#[tactic(auto, unfolding(crate::specs::Commands::phrase))]
fn words_behind(verb: Verb, text: &[u8]) -> Result<(CommandWords<'_>, &[u8]), LineCause>
    ensures { Gives (λ x. (seen x.0, words x.1.now)) result (phrase_of verb (words text.now)) }
{
    let (word, rest) = next_word(text)?;
    match verb {
        Verb::Client => register_words(word, rest),
        Verb::Update => update_words(word, rest),
        Verb::Add => add_words(word, rest),
        Verb::Pull => Ok((CommandWords::Pull(word), rest)),
        Verb::Drop => Ok((CommandWords::Remove(word), rest)),
        Verb::Cancel => cancel_words(word, rest),
        Verb::Clean => Ok((CommandWords::Clean(word), rest)),
    }
}

/// The words of the command at the front of a text, and what follows it. The only cause is `Words`.
#[tactic(auto, unfolding(crate::specs::Commands::phrase))]
pub fn command_words(text: &[u8]) -> Result<(CommandWords<'_>, &[u8]), LineCause>
    ensures { Gives (λ x. (seen x.0, words x.1.now)) result (phrase (words text.now)) }
{
    let (name, rest) = next_word(text)?;
    let verb = verb_of(name).ok_or(LineCause::Words)?;
    words_behind(verb, rest)
}

/// A number of 32 bits.
#[tactic(auto, unfolding(crate::specs::Commands::small))]
fn small(word: &[u8]) -> Result<u32, CommandFault>
    ensures { result ≡ small word.now }
{
    read_u32(word).ok_or(CommandFault::Number)
}

/// A number of 64 bits.
#[tactic(auto, unfolding(crate::specs::Commands::long))]
fn long(word: &[u8]) -> Result<u64, CommandFault>
    ensures { result ≡ long word.now }
{
    read_u64(word).ok_or(CommandFault::Number)
}

/// A number of 32 bits, or `-` if it is absent.
#[tactic(auto, unfolding(crate::specs::Commands::optional))]
fn optional(word: &[u8]) -> Result<Option<u32>, CommandFault>
    ensures { result ≡ optional word.now }
{
    if spells(word, b"-") {
        return Ok(None);
    }
    Ok(Some(small(word)?))
}

/// The client, the rates and the moment of words.
#[tactic(auto, unfolding(crate::specs::Commands::moment, crate::specs::Commands::rates))]
fn read_info(words: InfoWords<'_>) -> Result<(ClientId, ClientInfo, Moment), CommandFault>
    ensures { (make : ClientId → Rates → ℕ → Command) → Gives (λ x. make x.0 x.1 x.2) result
        (with_info make words.entry.client.now words.entry.reservation.now words.entry.weight.now words.entry.limit.now words.entry.at.now) }
{
    let client = ClientId(small(words.client)?);
    let reservation = optional(words.reservation)?;
    let weight = small(words.weight)?;
    let limit = optional(words.limit)?;
    let at = Moment::new(long(words.at)?)?;
    let info = ClientInfo::new(reservation, weight, limit)?;
    Ok((client, info, at))
}

/// The cost of a word, not yet checked. It is 1 if it is absent.
#[tactic(auto, unfolding(crate::specs::Commands::cost_word))]
fn cost_word(word: Option<&[u8]>) -> Result<u32, CommandFault>
    ensures { result ≡ cost_word (option_map (λ word. word.now) word.entry) }
{
    match word {
        None => Ok(1),
        Some(word) => small(word),
    }
}

/// The request of words.
#[tactic(auto, unfolding(crate::specs::Commands::moment, crate::specs::Commands::params, crate::specs::Commands::cost))]
fn read_add(words: AddWords<'_>) -> Result<Command, CommandFault>
    ensures { result ≡ with_params words.entry.client.now words.entry.token.now words.entry.delta.now words.entry.rho.now words.entry.at.now
        (option_map (λ word. word.now) words.entry.cost) }
{
    let client = ClientId(small(words.client)?);
    let token = Token(small(words.token)?);
    let delta = small(words.delta)?;
    let rho = small(words.rho)?;
    let ticks = long(words.at)?;
    let units = cost_word(words.cost)?;
    let at = Moment::new(ticks)?;
    let params = ReqParams::new(delta, rho)?;
    let cost = Cost::new(units)?;
    Ok(Command::Add {
        client,
        token,
        params: params.with_cost(cost),
        at,
    })
}

/// The cancel of words.
fn read_cancel(words: CancelWords<'_>) -> Result<Command, CommandFault>
    ensures { result ≡ with_token words.entry.client.now words.entry.token.now words.entry.counting }
{
    let client = ClientId(small(words.client)?);
    let token = Token(small(words.token)?);
    Ok(Command::Cancel {
        client,
        token,
        counting: words.counting,
    })
}

/// The moment of a word.
#[tactic(auto, unfolding(crate::specs::Commands::moment))]
fn read_moment(word: &[u8]) -> Result<Moment, CommandFault>
    ensures { (make : ℕ → Command) → Gives make result (at_moment make word.now) }
{
    Ok(Moment::new(long(word)?)?)
}

/// The command of words: all numbers are read, and then its values are checked.
#[tactic(auto, unfolding(crate::specs::Commands::command))]
pub fn read_command(words: CommandWords<'_>) -> Result<Command, CommandFault>
    ensures { result ≡ command (seen words.entry) }
{
    match words {
        CommandWords::Register(words) => {
            let (client, info, at) = read_info(words)?;
            Ok(Command::Register { client, info, at })
        }
        CommandWords::Update(words) => {
            let (client, info, at) = read_info(words)?;
            Ok(Command::Update { client, info, at })
        }
        CommandWords::Add(words) => read_add(words),
        CommandWords::Pull(word) => Ok(Command::Pull {
            at: read_moment(word)?,
        }),
        CommandWords::Remove(word) => Ok(Command::Remove {
            client: ClientId(small(word)?),
        }),
        CommandWords::Cancel(words) => read_cancel(words),
        CommandWords::Clean(word) => Ok(Command::Clean {
            at: read_moment(word)?,
        }),
    }
}
