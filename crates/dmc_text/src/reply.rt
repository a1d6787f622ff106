//! The texts of replies. All their words are checked before any is read as a number or a tag.
ghost use Rattle.std.specs.Prelude.{◌≡◌, ◌∷◌};
ghost use Rattle.std.specs.Option.{option_map};
ghost use Rattle.dmc_text.specs.Words.{words};
ghost use Rattle.dmc_text.specs.Answers.{Gives};
ghost use Rattle.dmc_text.specs.Replies.{name_of, no_more, one_more, two_more, three_more, tagged, granted, later, removed, cleaned, beyond_behind, phase_of, grant_of, field_of, plain_refusal, refusal_of, saying_of, saying, count, cost_of, cost_said, instant, tag, optional_tag, reply_said, reply_of, seen_reply};

use crate::cause::LineCause;
use crate::command::{cost_behind, next_word};
use crate::number::{read_u32, read_u128};
use crate::tag::{TagText, read_tag};
use crate::word::{first_word, spells};
use dmc_tag::reply::{Reply, Tags};
use dmc_types::config::PhaseType;
use dmc_types::cost::Cost;
use dmc_types::ids::{ClientId, Token};
use dmc_types::refusal::{Field, Refusal};

/// The first word of a reply.
#[derive(Clone, Copy, Debug, PartialEq, Eq)]
pub enum ReplyName {
    Ok,
    Updated,
    Tags,
    Grant,
    Future,
    None,
    Dropped,
    Cleaned,
    Refused,
}

/// The words after `tags`.
#[derive(Clone, Copy)]
pub struct TagWords<'a> {
    pub r: &'a [u8],
    pub l: &'a [u8],
    pub p: &'a [u8],
}

/// A reply whose words are not yet read as numbers or tags.
#[derive(Clone, Copy)]
pub enum ReplyWords<'a> {
    Registered,
    Updated,
    Tagged(TagWords<'a>),
    Granted {
        client: &'a [u8],
        token: &'a [u8],
        phase: PhaseType,
        beyond: bool,
        cost: Option<&'a [u8]>,
    },
    Later(&'a [u8]),
    Nothing,
    Removed(&'a [u8]),
    Cleaned {
        idled: &'a [u8],
        erased: &'a [u8],
    },
    Refused(Refusal),
}

/// The kind of reply that a word names.
fn name_of(word: &[u8]) -> Option<ReplyName>
    ensures { result ≡ name_of word.now }
{
    if spells(word, b"ok") {
        Some(ReplyName::Ok)
    } else if spells(word, b"updated") {
        Some(ReplyName::Updated)
    } else if spells(word, b"tags") {
        Some(ReplyName::Tags)
    } else if spells(word, b"grant") {
        Some(ReplyName::Grant)
    } else if spells(word, b"future") {
        Some(ReplyName::Future)
    } else if spells(word, b"none") {
        Some(ReplyName::None)
    } else if spells(word, b"dropped") {
        Some(ReplyName::Dropped)
    } else if spells(word, b"cleaned") {
        Some(ReplyName::Cleaned)
    } else if spells(word, b"refused") {
        Some(ReplyName::Refused)
    } else {
        None
    }
}

/// A reply that nothing follows. The cause is `Words` if something does.
fn ended<'a>(reply: ReplyWords<'a>, text: &[u8]) -> Result<ReplyWords<'a>, LineCause>
    ensures { Gives seen_reply result (no_more (seen_reply reply.entry) (words text.now)) }
{
    match first_word(text) {
        Some(_) => Err(LineCause::Words),
        None => Ok(reply),
    }
}

/// The three words of tags.
fn tagged(text: &[u8]) -> Result<ReplyWords<'_>, LineCause>
    ensures { Gives seen_reply result (three_more tagged (words text.now)) }
{
    let (r, rest) = next_word(text)?;
    let (l, rest) = next_word(rest)?;
    let (p, rest) = next_word(rest)?;
    ended(ReplyWords::Tagged(TagWords { r, l, p }), rest)
}

/// The one word of the moment of a `future`.
fn later(text: &[u8]) -> Result<ReplyWords<'_>, LineCause>
    ensures { Gives seen_reply result (one_more later (words text.now)) }
{
    let (at, rest) = next_word(text)?;
    ended(ReplyWords::Later(at), rest)
}

/// The one word of a removal.
fn removed(text: &[u8]) -> Result<ReplyWords<'_>, LineCause>
    ensures { Gives seen_reply result (one_more removed (words text.now)) }
{
    let (count, rest) = next_word(text)?;
    ended(ReplyWords::Removed(count), rest)
}

/// The two words of a cleaning.
fn cleaned(text: &[u8]) -> Result<ReplyWords<'_>, LineCause>
    ensures { Gives seen_reply result (two_more cleaned (words text.now)) }
{
    let (idled, rest) = next_word(text)?;
    let (erased, rest) = next_word(rest)?;
    ended(ReplyWords::Cleaned { idled, erased }, rest)
}

/// Whether `beyond` is the next word, and what follows.
fn beyond_behind(text: &[u8]) -> (bool, &[u8])
    ensures { (result.0, words result.1.now) ≡ beyond_behind (words text.now) }
{
    match first_word(text) {
        Some((word, rest)) if spells(word, b"beyond") => (true, rest),
        _ => (false, text),
    }
}

/// The phase of a grant, whether it is beyond its limit, and what follows.
fn phase_of(text: &[u8]) -> Result<(PhaseType, bool, &[u8]), LineCause>
    ensures { Gives (λ x. (x.0, x.1, words x.2.now)) result (phase_of (words text.now)) }
{
    let (phase, rest) = next_word(text)?;
    if spells(phase, b"reservation") {
        return Ok((PhaseType::Reservation, false, rest));
    }
    if spells(phase, b"priority") {
        let (beyond, rest) = beyond_behind(rest);
        return Ok((PhaseType::Priority, beyond, rest));
    }
    Err(LineCause::Words)
}

/// The words of a grant.
fn granted(text: &[u8]) -> Result<ReplyWords<'_>, LineCause>
    ensures { Gives seen_reply result (grant_of (words text.now)) }
{
    let (client, rest) = next_word(text)?;
    let (token, rest) = next_word(rest)?;
    let (phase, beyond, rest) = phase_of(rest)?;
    let (cost, rest) = cost_behind(rest)?;
    let granted = ReplyWords::Granted {
        client,
        token,
        phase,
        beyond,
        cost,
    };
    ended(granted, rest)
}

/// The rate that a word names.
fn field_of(word: &[u8]) -> Result<Field, LineCause>
    ensures { result ≡ field_of word.now }
{
    if spells(word, b"reservation") {
        return Ok(Field::Reservation);
    }
    if spells(word, b"weight") {
        return Ok(Field::Weight);
    }
    if spells(word, b"limit") {
        return Ok(Field::Limit);
    }
    Err(LineCause::Words)
}

/// The refusal that one word names.
fn plain_refusal(word: &[u8]) -> Result<Refusal, LineCause>
    ensures { result ≡ plain_refusal word.now }
{
    if spells(word, b"known") {
        Ok(Refusal::Known)
    } else if spells(word, b"unknown") {
        Ok(Refusal::Unknown)
    } else if spells(word, b"clients") {
        Ok(Refusal::Clients)
    } else if spells(word, b"full") {
        Ok(Refusal::QueueFull)
    } else if spells(word, b"range") {
        Ok(Refusal::Range)
    } else if spells(word, b"busy") {
        Ok(Refusal::Busy)
    } else {
        Err(LineCause::Words)
    }
}

/// The refusal that two words and the rest name.
fn refusal_of_two(word: &[u8], second: &[u8], text: &[u8]) -> Result<Refusal, LineCause>
    ensures { result ≡ refusal_of (word.now ∷ second.now ∷ words text.now) }
{
    if first_word(text).is_some() {
        return Err(LineCause::Words);
    }
    if spells(word, b"inexact") {
        return Ok(Refusal::Inexact(field_of(second)?));
    }
    if spells(word, b"over") && spells(second, b"limit") {
        return Ok(Refusal::OverLimit);
    }
    Err(LineCause::Words)
}

/// The refusal that the words after `refused` name.
fn refusal_of(text: &[u8]) -> Result<Refusal, LineCause>
    ensures { result ≡ refusal_of (words text.now) }
{
    let (word, rest) = next_word(text)?;
    match first_word(rest) {
        None => plain_refusal(word),
        Some((second, rest)) => refusal_of_two(word, second, rest),
    }
}

/// The words after the first word of a reply.
fn words_behind(name: ReplyName, text: &[u8]) -> Result<ReplyWords<'_>, LineCause>
    ensures { Gives seen_reply result (saying_of name (words text.now)) }
{
    match name {
        ReplyName::Ok => ended(ReplyWords::Registered, text),
        ReplyName::Updated => ended(ReplyWords::Updated, text),
        ReplyName::Tags => tagged(text),
        ReplyName::Grant => granted(text),
        ReplyName::Future => later(text),
        ReplyName::None => ended(ReplyWords::Nothing, text),
        ReplyName::Dropped => removed(text),
        ReplyName::Cleaned => cleaned(text),
        ReplyName::Refused => Ok(ReplyWords::Refused(refusal_of(text)?)),
    }
}

/// The words of a reply's text. The only cause is `Words`.
#[tactic(auto, unfolding(crate::specs::Replies::saying))]
pub fn reply_words(text: &[u8]) -> Result<ReplyWords<'_>, LineCause>
    ensures { Gives seen_reply result (saying (words text.now)) }
{
    let (name, rest) = next_word(text)?;
    let name = name_of(name).ok_or(LineCause::Words)?;
    words_behind(name, rest)
}

/// A number of 32 bits.
#[tactic(auto, unfolding(crate::specs::Replies::count))]
fn count(word: &[u8]) -> Result<u32, LineCause>
    ensures { result ≡ count word.now }
{
    read_u32(word).ok_or(LineCause::Number)
}

/// A cost of this many units. It is not 0.
#[tactic(auto, unfolding(crate::specs::Replies::cost_of))]
fn cost_of(units: u32) -> Result<Cost, LineCause>
    ensures { result ≡ cost_of units }
{
    Cost::new(units).map_err(|_| LineCause::Number)
}

/// The cost of a word, or 1 if it is absent.
#[tactic(auto, unfolding(crate::specs::Replies::cost_said))]
fn cost_said(word: Option<&[u8]>) -> Result<Cost, LineCause>
    ensures { result ≡ cost_said (option_map (λ word. word.now) word.entry) }
{
    match word {
        None => Ok(Cost::ONE),
        Some(word) => cost_of(count(word)?),
    }
}

/// A moment of 128 bits.
#[tactic(auto, unfolding(crate::specs::Replies::instant))]
fn instant(word: &[u8]) -> Result<u128, LineCause>
    ensures { result ≡ instant word.now }
{
    read_u128(word).ok_or(LineCause::Number)
}

/// A tag.
#[tactic(auto, unfolding(crate::specs::Replies::tag))]
fn tag<T: TagText>(word: &[u8]) -> Result<T, LineCause>
    ensures { result ≡ tag T.made word.now }
{
    read_tag(word).ok_or(LineCause::Number)
}

/// A tag, or `-` if it is absent.
#[tactic(auto, unfolding(crate::specs::Replies::optional_tag))]
fn optional_tag<T: TagText>(word: &[u8]) -> Result<Option<T>, LineCause>
    ensures { result ≡ optional_tag T.made word.now }
{
    if spells(word, b"-") {
        return Ok(None);
    }
    Ok(Some(tag(word)?))
}

/// The tags of words.
#[tactic(auto, unfolding(crate::specs::Replies::reply_said))]
fn tagged_said<T: TagText>(words: TagWords<'_>) -> Result<Reply<T>, LineCause>
    ensures { result ≡ reply_said T.made (tagged words.entry.r.now words.entry.l.now words.entry.p.now) }
{
    let r = optional_tag(words.r)?;
    let l = tag(words.l)?;
    let p = tag(words.p)?;
    Ok(Reply::Tagged(Tags { r, l, p }))
}

/// The grant of words.
#[tactic(auto, unfolding(crate::specs::Replies::reply_said))]
fn granted_said<T: TagText>(
    client: &[u8],
    token: &[u8],
    phase: PhaseType,
    beyond: bool,
    cost: Option<&[u8]>,
) -> Result<Reply<T>, LineCause>
    ensures { result ≡ reply_said T.made (granted client.now token.now phase beyond (option_map (λ word. word.now) cost.entry)) }
{
    let client = ClientId(count(client)?);
    let token = Token(count(token)?);
    let cost = cost_said(cost)?;
    Ok(Reply::Granted {
        client,
        token,
        phase,
        beyond,
        cost,
    })
}

/// The cleaning of words.
#[tactic(auto, unfolding(crate::specs::Replies::reply_said))]
fn cleaned_said<T: TagText>(idled: &[u8], erased: &[u8]) -> Result<Reply<T>, LineCause>
    ensures { result ≡ reply_said T.made (cleaned idled.now erased.now) }
{
    let idled = count(idled)?;
    let erased = count(erased)?;
    Ok(Reply::Cleaned { idled, erased })
}

/// The reply of words: each number and each tag is read.
#[tactic(auto, unfolding(crate::specs::Replies::reply_said))]
pub fn reply_said<T: TagText>(words: ReplyWords<'_>) -> Result<Reply<T>, LineCause>
    ensures { result ≡ reply_said T.made (seen_reply words.entry) }
{
    match words {
        ReplyWords::Registered => Ok(Reply::Registered),
        ReplyWords::Updated => Ok(Reply::Updated),
        ReplyWords::Tagged(words) => tagged_said(words),
        ReplyWords::Granted {
            client,
            token,
            phase,
            beyond,
            cost,
        } => granted_said(client, token, phase, beyond, cost),
        ReplyWords::Later(at) => Ok(Reply::Later(instant(at)?)),
        ReplyWords::Nothing => Ok(Reply::Nothing),
        ReplyWords::Removed(removed) => Ok(Reply::Removed(count(removed)?)),
        ReplyWords::Cleaned { idled, erased } => cleaned_said(idled, erased),
        ReplyWords::Refused(refusal) => Ok(Reply::Refused(refusal)),
    }
}

/// The reply of a text, without its LF. The cause is `Words` if its words make no reply, and `Number` if a word that has to
/// be a number or a tag is not one of its type.
pub fn read_reply<T: TagText>(text: &[u8]) -> Result<Reply<T>, LineCause>
    ensures { result ≡ reply_of T.made (words text.now) }
{
    reply_said(reply_words(text)?)
}
