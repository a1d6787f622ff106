//! The texts of replies, written.
ghost use Rattle.std.specs.Prelude.{◌≡◌, ◌∷◌, ◌++◌, [], ◌<◌, ◌^◌, Some, OnOk, codes};
ghost use Rattle.std.specs.List.{join_with_byte};
ghost use Rattle.std.specs.Io.KnownBytes.{Appends};
ghost use Rattle.dmc_text.specs.Replies.{refusal_words, tag_text, reply_text, IsWritable, word_text, tag_word as word_of, grant_words, cost_words};
ghost use Rattle.dmc_text.specs.RoundTrip.{IsReadBack};
ghost use Rattle.dmc_text.specs.internal.RoundTrip.{ReadsAgain, ReadsEach};
ghost use Rattle.dmc_tag.specs.declared.reply.Reply.TheVariants.{Tagged};
ghost use Rattle.std.specs.Fmt.{decimal};

use crate::tag::TagText;
use dmc_tag::reply::{Reply, Tags};
use dmc_types::config::PhaseType;
use dmc_types::cost::Cost;
use dmc_types::ids::{ClientId, Token};
use dmc_types::refusal::{Field, Refusal};
use std::{fmt, io};

/// The text of a tag, or `-` if it is absent.
#[derive(Clone, Copy)]
struct TagWord(Option<(i128, u64)>);

impl fmt::Display for TagWord {
    ghost output = { λ w. Some (word_text w.0) };

    fn fmt<W: fmt::Write>(&self, f: &mut fmt::Formatter<W>) -> fmt::Result {
        match self.0 {
            None => f.write_str("-"),
            Some((numer, 1)) => write!(f, "{numer}"),
            Some((numer, denom)) => write!(f, "{numer}/{denom}"),
        }
    }
}

/// The text of a refusal.
fn refusal_text(refusal: Refusal) -> &'static [u8]
    ensures { result.now ≡ join_with_byte 32 (codes "refused" ∷ refusal_words refusal) }
{
    match refusal {
        Refusal::Known => b"refused known",
        Refusal::Unknown => b"refused unknown",
        Refusal::Inexact(Field::Reservation) => b"refused inexact reservation",
        Refusal::Inexact(Field::Weight) => b"refused inexact weight",
        Refusal::Inexact(Field::Limit) => b"refused inexact limit",
        Refusal::Clients => b"refused clients",
        Refusal::QueueFull => b"refused full",
        Refusal::Range => b"refused range",
        Refusal::Busy => b"refused busy",
        Refusal::OverLimit => b"refused over limit",
    }
}

/// The word of a tag.
#[tactic(auto, using(crate::proofs::ReplyLemmas::tag_again))]
fn tag_word<T: TagText>(tag: T) -> TagWord
    ensures shown { result.0 ≡ Some (T.numerator tag, T.denominator tag) }
    ensures again { ReadsAgain T.made (tag_text T.numerator T.denominator) tag }
{
    TagWord(Some(tag.parts()))
}

/// The word of a tag, if there is one.
fn optional_word<T: TagText>(tag: Option<T>) -> TagWord
    ensures shown { word_text result.0 ≡ word_of (tag_text T.numerator T.denominator) tag }
    ensures again { ReadsEach T.made (tag_text T.numerator T.denominator) tag }
{
    match tag {
        None => TagWord(None),
        Some(tag) => tag_word(tag),
    }
}

/// Writes tags.
fn write_tags<T: TagText, W: io::Write>(tags: Tags<T>, out: &mut W) -> io::Result<()>
    ensures text { OnOk result
        (Appends (W.contents out.old) (W.contents out.new) (reply_text (tag_text T.numerator T.denominator) (Tagged tags))) }
    ensures again { IsReadBack T.made (tag_text T.numerator T.denominator) (Tagged tags) }
{
    let r = optional_word(tags.r);
    let l = tag_word(tags.l);
    let p = tag_word(tags.p);
    write!(out, "tags {r} {l} {p}")
}

/// The phase of a grant's text.
fn phase_text(phase: PhaseType, beyond: bool) -> &'static str
    ensures { result.now ≡ join_with_byte 32 (grant_words phase beyond) }
{
    match phase {
        PhaseType::Reservation => "reservation",
        PhaseType::Priority => {
            if beyond {
                "priority beyond"
            } else {
                "priority"
            }
        }
    }
}

/// Writes a grant.
fn write_grant<W: io::Write>(
    client: ClientId,
    token: Token,
    phase: PhaseType,
    beyond: bool,
    cost: Cost,
    out: &mut W,
) -> io::Result<()>
    ensures text { OnOk result (Appends (W.contents out.old) (W.contents out.new)
        (join_with_byte 32 (codes "grant" ∷ decimal client.0 ∷ decimal token.0 ∷ grant_words phase beyond ++ cost_words cost))) }
    ensures ids { (client.0 < 2 ^ 32) × (token.0 < 2 ^ 32) }
    ensures cost { (0 < cost) × (cost < 2 ^ 32) }
{
    let phase = phase_text(phase, beyond);
    let units = cost.units();
    if units == 1 {
        return write!(out, "grant {} {} {phase}", client.0, token.0);
    }
    write!(out, "grant {} {} {phase} cost {units}", client.0, token.0)
}

/// Writes the moment of a `future`.
fn write_later<W: io::Write>(at: u128, out: &mut W) -> io::Result<()>
    ensures { OnOk result (Appends (W.contents out.old) (W.contents out.new)
        (join_with_byte 32 (codes "future" ∷ decimal at ∷ []))) }
{
    write!(out, "future {at}")
}

/// Writes how many requests were removed.
fn write_removed<W: io::Write>(removed: u32, out: &mut W) -> io::Result<()>
    ensures { OnOk result (Appends (W.contents out.old) (W.contents out.new)
        (join_with_byte 32 (codes "dropped" ∷ decimal removed ∷ []))) }
{
    write!(out, "dropped {removed}")
}

/// Writes how many clients a cleaning marked and erased.
fn write_cleaned<W: io::Write>(idled: u32, erased: u32, out: &mut W) -> io::Result<()>
    ensures { OnOk result (Appends (W.contents out.old) (W.contents out.new)
        (join_with_byte 32 (codes "cleaned" ∷ decimal idled ∷ decimal erased ∷ []))) }
{
    write!(out, "cleaned {idled} {erased}")
}

/// Writes the text of a reply, without its LF. If the writer fails, a part of it may have been written.
///
/// A grant by reservation is never beyond its limit. One that says so is written without it.
pub fn write_reply<T: TagText, W: io::Write>(reply: &Reply<T>, out: &mut W) -> io::Result<()>
    ensures text { OnOk result
        (Appends (W.contents out.old) (W.contents out.new) (reply_text (tag_text T.numerator T.denominator) reply.now)) }
    ensures again { IsWritable reply.now → IsReadBack T.made (tag_text T.numerator T.denominator) reply.now }
{
    match *reply {
        Reply::Registered => out.write_all(b"ok"),
        Reply::Updated => out.write_all(b"updated"),
        Reply::Tagged(tags) => write_tags(tags, out),
        Reply::Granted {
            client,
            token,
            phase,
            beyond,
            cost,
        } => write_grant(client, token, phase, beyond, cost, out),
        Reply::Later(at) => write_later(at, out),
        Reply::Nothing => out.write_all(b"none"),
        Reply::Removed(removed) => write_removed(removed, out),
        Reply::Cleaned { idled, erased } => write_cleaned(idled, erased, out),
        Reply::Refused(refusal) => out.write_all(refusal_text(refusal)),
    }
}
