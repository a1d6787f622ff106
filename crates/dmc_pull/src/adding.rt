//! An add: the shift of all others.
ghost use Rattle.std.specs.Prelude.{◌≡◌, true, Some, IfSome, ⊤};
ghost use Rattle.std.specs.List.{AllByRecursion};
ghost use Rattle.dmc_adjust.specs.Changes as changes;
ghost use Rattle.dmc_client.specs.Record.{IsRecord};
ghost use Rattle.dmc_head_index.specs.Heads.{CanShift};
ghost use Rattle.dmc_pull.specs.internal.Adding as adding_of;
ghost use Rattle.dmc_tag.specs.Rules as rules_of;

use dmc_adjust::adjustment::{can_shift, shift};
use dmc_client::record::ClientRec;
use dmc_head_index::heads::Heads;
use dmc_index::index::Indexes;
use dmc_roster::change::{RecordRule, RecordTest};
use dmc_roster::roster::Roster;
use dmc_tag::plain::Slack;
use dmc_tag::reply::Tags;
use dmc_tag::tag::Tag;
use dmc_types::config::Shares;
use dmc_types::moment::Moment;
use std::alloc::AllocError;

/// The effect of an add: the key of its client, the amount by which all others are shifted, and the new tags with their slack.
#[derive(Copy)]
pub struct Addition<T> {
    pub key: usize,
    pub shift: Option<T>,
    pub tags: Tags<T>,
    pub slack: Slack<T>,
}

impl<T: Copy> Clone for Addition<T> {
    ghost is_clone = { λ x y. y ≡ x };

    ghost is_infallible = { λ _. ⊤ };

    fn clone(&self) -> Result<Addition<T>, AllocError> {
        Ok(*self)
    }
}

/// Whether all others are shifted when an idle client arrives. In virtual time they are not.
pub fn adjusts(shares: Shares) -> bool
    ensures { result ≡ rules_of.adjusts shares }
{
    match shares {
        Shares::Clock => true,
        Shares::Virtual => false,
    }
}

/// No shift, if the amount is 0.
pub fn unless_nothing<T: Tag>(amount: T) -> Option<T>
    ensures { result ≡ adding_of.unless_nothing T.ops (Some amount) }
{
    if amount.cmp(&T::of_moment(Moment::zero())).is_eq() {
        return None;
    }
    Some(amount)
}

/// A record whose shifted tags are values.
#[derive(Drop)]
pub struct Shiftable<T> {
    pub amount: T,
}

impl<T: Tag> RecordTest<T> for Shiftable<T> {
    ghost passes = { λ s rec. changes.is_shiftable T.ops s.amount rec };

    fn test(&self, rec: &ClientRec<T>) -> bool {
        can_shift(rec, self.amount)
    }
}

/// The rule that shifts every record but that of the client that arrives, and but those whose shifted tags are no values.
#[derive(Drop)]
pub struct ShiftOthers<T> {
    pub amount: T,
    pub newcomer: usize,
}

impl<T: Tag> RecordRule<T> for ShiftOthers<T> {
    ghost keeps = { λ s key rec. true };

    ghost changed = { λ s key rec. adding_of.shifted_but T.ops s.amount s.newcomer key rec };

    fn apply(&self, key: usize, rec: &mut ClientRec<T>) -> bool {
        if !rec.is_idle() && key != self.newcomer {
            shift(rec, self.amount);
        }
        true
    }
}

/// Shifts all clients but the one that arrives, and all heads, if there is a shift.
pub fn shift_others<T: Tag, I: Indexes<T>>(
    roster: &mut Roster<T>,
    heads: &mut Heads<T, I>,
    shift: Option<T>,
    newcomer: usize,
)
    requires { IfSome shift (λ amount. CanShift T.ops amount heads.old) }
    ensures entries { roster.new.entries ≡ adding_of.others_shifted T.ops shift newcomer roster.old.entries }
    ensures firsts { heads.new ≡ adding_of.heads_shifted T.ops shift heads.old }
    ensures kept { AllByRecursion (λ e. IsRecord T.ops e.rec) roster.old.entries → AllByRecursion (λ e. IsRecord T.ops e.rec) roster.new.entries }
{
    if let Some(amount) = shift {
        roster.change(&ShiftOthers { amount, newcomer });
        heads.shift(amount);
    }
}
