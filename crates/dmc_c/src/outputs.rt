//! What C reads: the header's structs, and how a reply is written to them. A call that is not `DMC_OK` writes nothing.
ghost use Rattle.std.specs.Prelude.{◌≡◌};
ghost use Rattle.dmc_c.specs.Outputs.{value_of, IsTags, granted, future, TagsWritten, pulled_written, removed_written, idled_written, erased_written, clients_written, requests_written, stamp_written, value_or_old};

use crate::fault::Fault;
use dmc_any_queue::fraction::TagFraction;
use dmc_tag::reply::{Reply, Tags};
use dmc_types::config::PhaseType;
use dmc_types::cost::Cost;
use dmc_types::ids::{ClientId, Token};
use dmc_types::params::ReqParams;

/// A tag: `(high * 2^64 + low) / denom` ticks, in lowest terms.
#[repr(C)]
#[derive(Clone, Copy)]
pub struct DmcTag {
    pub high: i64,
    pub low: u64,
    pub denom: u64,
}

/// The tags of a request; `r` is 0/1 if `reserved` is false.
#[repr(C)]
#[derive(Clone, Copy)]
pub struct DmcTags {
    pub reserved: bool,
    pub r: DmcTag,
    pub l: DmcTag,
    pub p: DmcTag,
}

/// What a pull answers: a request is granted (`kind` 0), one is due at `due_high * 2^64 + due_low` and none before (1), or
/// nothing is queued (2). What the kind does not speak of is 0.
#[repr(C)]
#[derive(Clone, Copy)]
pub struct DmcPulled {
    pub kind: u32,
    pub client: u32,
    pub token: u32,
    pub phase: u32,
    pub cost: u32,
    pub beyond: bool,
    pub due_low: u64,
    pub due_high: u64,
}

/// What a request is stamped with, and what it costs.
#[repr(C)]
#[derive(Clone, Copy)]
pub struct DmcStamp {
    pub delta: u32,
    pub rho: u32,
    pub cost: u32,
}

/// What a tracker knows of a server, and its completions at all servers.
#[repr(C)]
#[derive(Clone, Copy)]
pub struct DmcTrack {
    pub pending_delta: u64,
    pub pending_rho: u64,
    pub sent_delta: u64,
    pub sent_rho: u64,
    pub completions: u64,
    pub reservation: u64,
}

impl DmcTag {
    /// The tag of a fraction.
    fn of(tag: TagFraction) -> DmcTag
        ensures { value_of result ≡ tag }
    {
        let high = tag.numer.div_euclid(1 << 64);
        let low = tag.numer.rem_euclid(1 << 64);
        DmcTag {
            high: high as i64,
            low: low as u64,
            denom: tag.denom,
        }
    }
}

impl DmcTags {
    /// The tags of fractions.
    fn of(tags: Tags<TagFraction>) -> DmcTags
        ensures { IsTags tags result }
    {
        let zero = TagFraction { numer: 0, denom: 1 };
        DmcTags {
            reserved: tags.r.is_some(),
            r: DmcTag::of(tags.r.unwrap_or(zero)),
            l: DmcTag::of(tags.l),
            p: DmcTag::of(tags.p),
        }
    }
}

impl DmcPulled {
    /// Nothing is queued.
    const NOTHING: DmcPulled = DmcPulled {
        kind: 2,
        client: 0,
        token: 0,
        phase: 0,
        cost: 0,
        beyond: false,
        due_low: 0,
        due_high: 0,
    };

    /// A grant.
    fn granted(
        client: ClientId,
        token: Token,
        phase: PhaseType,
        beyond: bool,
        cost: Cost,
    ) -> DmcPulled
        ensures { result ≡ granted client token phase beyond cost }
    {
        let phase = match phase {
            PhaseType::Reservation => 0,
            PhaseType::Priority => 1,
        };
        DmcPulled {
            kind: 0,
            client: client.0,
            token: token.0,
            phase,
            cost: cost.units(),
            beyond,
            ..DmcPulled::NOTHING
        }
    }

    /// A moment before which nothing is due.
    fn future(due: u128) -> DmcPulled
        ensures { result ≡ future due }
    {
        DmcPulled {
            kind: 1,
            due_low: (due % (1 << 64)) as u64,
            due_high: (due / (1 << 64)) as u64,
            ..DmcPulled::NOTHING
        }
    }
}

/// Writes the tags of an accepted request.
#[inline(always)]
pub fn write_tags(answer: &Result<Reply<TagFraction>, Fault>, out: &mut DmcTags)
    ensures { TagsWritten answer.now out.old out.new }
{
    if let Ok(Reply::Tagged(tags)) = answer {
        *out = DmcTags::of(*tags);
    }
}

/// Writes what an accepted pull returned.
#[inline(always)]
pub fn write_pulled(answer: &Result<Reply<TagFraction>, Fault>, out: &mut DmcPulled)
    ensures { out.new ≡ pulled_written answer.now out.old }
{
    match answer {
        Ok(
            Reply::Granted {
                client,
                token,
                phase,
                beyond,
                cost,
            },
        ) => *out = DmcPulled::granted(*client, *token, *phase, *beyond, *cost),
        Ok(Reply::Later(due)) => *out = DmcPulled::future(*due),
        Ok(Reply::Nothing) => *out = DmcPulled::NOTHING,
        _ => {}
    }
}

/// Writes how many requests were taken out.
pub fn write_removed(answer: &Result<Reply<TagFraction>, Fault>, out: &mut u32)
    ensures { out.new ≡ removed_written answer.now out.old }
{
    if let Ok(Reply::Removed(count)) = answer {
        *out = *count;
    }
}

/// Writes how many clients became idle and how many were erased.
pub fn write_cleaned(answer: &Result<Reply<TagFraction>, Fault>, idled: &mut u32, erased: &mut u32)
    ensures idled { idled.new ≡ idled_written answer.now idled.old }
    ensures erased { erased.new ≡ erased_written answer.now erased.old }
{
    if let Ok(
        Reply::Cleaned {
            idled: became_idle,
            erased: gone,
        },
    ) = answer
    {
        *idled = *became_idle;
        *erased = *gone;
    }
}

/// Writes how many clients are registered and how many requests are queued.
pub fn write_counts(answer: &Result<(u32, u32), Fault>, clients: &mut u32, requests: &mut u32)
    ensures clients { clients.new ≡ clients_written answer.now clients.old }
    ensures requests { requests.new ≡ requests_written answer.now requests.old }
{
    if let Ok(counts) = answer {
        *clients = counts.0;
        *requests = counts.1;
    }
}

/// Writes what a request is stamped with.
pub fn write_stamp(answer: &Result<ReqParams, Fault>, out: &mut DmcStamp)
    ensures { out.new ≡ stamp_written answer.now out.old }
{
    if let Ok(params) = answer {
        *out = DmcStamp {
            delta: params.delta(),
            rho: params.rho(),
            cost: params.cost().units(),
        };
    }
}

/// Writes a value that a call returned.
pub fn write_value<X: Copy + Drop>(answer: &Result<X, Fault>, out: &mut X)
    ensures { out.new ≡ value_or_old answer.now out.old }
{
    if let Ok(value) = answer {
        *out = *value;
    }
}

// The sizes of the header's structs.
const _: () = prove!(size_of::<DmcTag>() == 24);

const _: () = prove!(size_of::<DmcTags>() == 80);

const _: () = prove!(size_of::<DmcPulled>() == 40);

const _: () = prove!(size_of::<DmcStamp>() == 12);

const _: () = prove!(size_of::<DmcTrack>() == 48);
