//! The codes of the calls that are not `DMC_OK`.
ghost use Rattle.std.specs.Prelude.{◌≡◌};
ghost use Rattle.dmc_c.specs.Codes.{number, refusal_number, code_of, reply_code};
ghost use Rattle.dmc_c.specs.declared.fault.Fault.TheVariants.{Value, Track, Memory};

use dmc_any_queue::fraction::TagFraction;
use dmc_shards::tracker::GiveBackFault;
use dmc_tag::reply::Reply;
use dmc_tracker::tracker::{MakeFault, TrackFault};
use dmc_types::refusal::{Field, Refusal, ValueFault};
use std::alloc::{AllocError, AllocFailed};

/// Why a call from C was not made. What the rules refuse is a reply.
#[derive(Clone, Copy, Debug, PartialEq, Eq)]
pub enum Fault {
    /// Nothing is held, or not what the call is for.
    NoneHeld,
    /// Something is held already.
    Held,
    /// A value is out of its limits.
    Value(ValueFault),
    /// A number that names no phase.
    Phase,
    /// A tracker's servers are not 1 to 64, or its `most` is not 1 to 2^62.
    Limit,
    /// The tracker refuses the call.
    Track(TrackFault),
    /// More is given back to a shard tracker than was sent to the shard.
    NotSent,
    /// The allocator refused a growth.
    Memory,
}

impl From<ValueFault> for Fault {
    ghost from_gives = { λ value fault. fault ≡ Value value };

    fn from(value: ValueFault) -> Fault {
        Fault::Value(value)
    }
}

impl From<TrackFault> for Fault {
    ghost from_gives = { λ track fault. fault ≡ Track track };

    fn from(track: TrackFault) -> Fault {
        Fault::Track(track)
    }
}

impl From<AllocError> for Fault {
    ghost from_gives = { λ _ fault. fault ≡ Memory };

    fn from(_error: AllocError) -> Fault {
        Fault::Memory
    }
}

impl<X: Drop> From<AllocFailed<X>> for Fault {
    ghost from_gives = { λ _ fault. fault ≡ Memory };

    fn from(_refused: AllocFailed<X>) -> Fault {
        Fault::Memory
    }
}

impl From<MakeFault> for Fault {
    ghost use Rattle.dmc_c.specs.Codes.{make_fault};

    ghost from_gives = { λ make fault. fault ≡ make_fault make };

    fn from(make: MakeFault) -> Fault {
        match make {
            MakeFault::Limit => Fault::Limit,
            MakeFault::Memory => Fault::Memory,
        }
    }
}

impl From<GiveBackFault> for Fault {
    ghost use Rattle.dmc_c.specs.Codes.{give_back_fault};

    ghost from_gives = { λ back fault. fault ≡ give_back_fault back };

    fn from(back: GiveBackFault) -> Fault {
        match back {
            GiveBackFault::NoServer => Fault::Track(TrackFault::NoServer),
            GiveBackFault::NotSent => Fault::NotSent,
        }
    }
}

impl Fault {
    /// Its number in the header.
    fn number(self) -> u32
        ensures { result ≡ number self }
    {
        match self {
            Fault::Memory => 1,
            Fault::NoneHeld => 2,
            Fault::Held => 3,
            Fault::Value(ValueFault::Moment) => 10,
            Fault::Value(ValueFault::Params) => 11,
            Fault::Value(ValueFault::Rate) => 12,
            Fault::Value(ValueFault::Config) => 13,
            Fault::Phase => 14,
            Fault::Limit => 15,
            Fault::Value(ValueFault::Cost) => 16,
            Fault::Track(TrackFault::NoServer) => 30,
            Fault::Track(TrackFault::TrackFull) => 31,
            Fault::NotSent => 32,
        }
    }
}

/// The number of a refusal in the header.
fn refusal_number(refusal: Refusal) -> u32
    ensures { result ≡ refusal_number refusal }
{
    match refusal {
        Refusal::Known => 20,
        Refusal::Unknown => 21,
        Refusal::Inexact(Field::Reservation) => 22,
        Refusal::Inexact(Field::Weight) => 23,
        Refusal::Inexact(Field::Limit) => 24,
        Refusal::Clients => 25,
        Refusal::QueueFull => 26,
        Refusal::Range => 27,
        Refusal::Busy => 28,
        Refusal::OverLimit => 29,
    }
}

/// The code of a call: `DMC_OK` if it was made.
pub fn code_of<X>(answer: &Result<X, Fault>) -> u32
    ensures { result ≡ code_of answer.now }
{
    match answer {
        Ok(_) => 0,
        Err(fault) => fault.number(),
    }
}

/// The code of a command: `DMC_OK` if it was accepted.
pub fn reply_code(answer: &Result<Reply<TagFraction>, Fault>) -> u32
    ensures { result ≡ reply_code answer.now }
{
    match answer {
        Ok(Reply::Refused(refusal)) => refusal_number(*refusal),
        Ok(_) => 0,
        Err(fault) => fault.number(),
    }
}
