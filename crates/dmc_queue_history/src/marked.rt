//! A moment and a small mark in eight bytes.
ghost use Rattle.std.specs.Prelude.{◌≡◌, ◌<◌};
ghost use Rattle.dmc_queue_history.specs.Marked.{mark_count};

use dmc_types::moment::Moment;
use std::marker::Model;

/// How many marks there are.
const MARKS: u64 = 3;

/// A moment and a mark below 3. Contracts see the record of both.
///
/// A moment is at most 2^62, and a word of 64 bits has room for three times that: so the mark needs no byte of its own.
#[derive(Clone, Copy)]
pub(crate) struct MarkedMoment {
    // The moment times the number of marks, plus the mark.
    packed: u64,
}

impl Model for MarkedMoment {
    ghost use Rattle.std.specs.Prelude.{◌≤◌, ◌/◌};
    ghost use Rattle.dmc_types.specs.Limits.{max_moment};
    ghost use Rattle.dmc_queue_history.specs.Marked.{Marked, mark_count, marked_of, packed_of, packed_is};

    ghost Value = { Marked };

    ghost view = { λ m. marked_of m.packed };

    ghost invariant = { λ m. m.packed / mark_count ≤ max_moment };

    ghost inverse = { λ m. record { packed = packed_of m } };

    ghost inverse_ok = { λ m h i. record { packed = packed_is m.packed i } };
}

impl MarkedMoment {
    /// A moment with a mark.
    #[inline(always)]
    pub(crate) fn new(at: Moment, mark: u8) -> MarkedMoment
        requires { mark < mark_count }
        ensures { result ≡ record { at = at; mark = mark } }
    {
        MarkedMoment {
            packed: at.ticks() * MARKS + u64::from(mark),
        }
    }

    /// The moment.
    pub(crate) fn at(self) -> Moment
        ensures { result ≡ self.at }
    {
        let Ok(at) = Moment::new(self.packed / MARKS) else {
            unreachable!()
        };
        at
    }

    /// The mark.
    pub(crate) fn mark(self) -> u8
        ensures { result ≡ self.mark }
    {
        (self.packed % MARKS) as u8
    }
}
