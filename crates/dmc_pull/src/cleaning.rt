//! A clean: the rules for records that grow old.
ghost use Rattle.std.specs.Prelude.{◌≡◌, ◌≤◌, not, length, map, filter};
ghost use Rattle.std.specs.List.{AllByRecursion};
ghost use Rattle.dmc_types.specs.Limits.{max_clients};
ghost use Rattle.dmc_client.specs.Record.{IsRecord};
ghost use Rattle.dmc_pull.specs.internal.Cleaning as cleaning_of;
ghost use Rattle.dmc_roster.specs.Entries.{with_rec};

use dmc_client::record::ClientRec;
use dmc_roster::change::{RecordRule, RecordTest};
use dmc_roster::roster::Roster;
use dmc_tag::tag::Tag;
use dmc_types::moment::Moment;

/// Whether nothing is queued, and the last arrival is at least this old.
fn is_stale<T: Tag>(rec: &ClientRec<T>, at: Moment, age: u64) -> bool
    ensures { result ≡ cleaning_of.is_stale at age rec.now }
{
    rec.is_empty() && at.ticks().saturating_sub(rec.last_arrival().ticks()) >= age
}

/// A client that is erased.
#[derive(Drop)]
struct Erased {
    at: Moment,
    erase_age: u64,
}

impl<T: Tag> RecordTest<T> for Erased {
    ghost passes = { λ s rec. cleaning_of.is_stale s.at s.erase_age rec };

    fn test(&self, rec: &ClientRec<T>) -> bool {
        is_stale(rec, self.at, self.erase_age)
    }
}

/// The test of a client that becomes idle: it is not idle, and it is not erased.
#[derive(Drop)]
struct Idled {
    at: Moment,
    idle_age: u64,
    erase_age: u64,
}

impl<T: Tag> RecordTest<T> for Idled {
    ghost passes = { λ s rec. cleaning_of.is_idled s.at s.idle_age s.erase_age rec };

    fn test(&self, rec: &ClientRec<T>) -> bool {
        !is_stale(rec, self.at, self.erase_age)
            && is_stale(rec, self.at, self.idle_age)
            && !rec.is_idle()
    }
}

/// The rule of a clean for each client.
#[derive(Drop)]
struct Clean {
    at: Moment,
    idle_age: u64,
    erase_age: u64,
}

impl<T: Tag> RecordRule<T> for Clean {
    ghost keeps = { λ s key rec. not (cleaning_of.is_stale s.at s.erase_age rec) };

    ghost changed = { λ s key rec. cleaning_of.with_idle_mark s.at s.idle_age rec };

    fn apply(&self, _key: usize, rec: &mut ClientRec<T>) -> bool {
        let erased = is_stale(rec, self.at, self.erase_age);
        if !rec.is_idle() && is_stale(rec, self.at, self.idle_age) {
            rec.mark_idle();
        }
        !erased
    }
}

/// The number of clients that become idle.
pub fn count_idled<T: Tag>(roster: &Roster<T>, at: Moment, idle_age: u64, erase_age: u64) -> usize
    ensures value { result ≡ length (filter (λ e. cleaning_of.is_idled at idle_age erase_age e.rec) roster.now.entries) }
    ensures bound { result ≤ max_clients }
{
    roster.count(&Idled {
        at,
        idle_age,
        erase_age,
    })
}

/// The number of clients that are erased.
pub fn count_erased<T: Tag>(roster: &Roster<T>, at: Moment, erase_age: u64) -> usize
    ensures value { result ≡ length (filter (λ e. cleaning_of.is_stale at erase_age e.rec) roster.now.entries) }
    ensures bound { result ≤ max_clients }
{
    roster.count(&Erased { at, erase_age })
}

/// Erases the old clients, and marks the stale ones among the others idle.
pub fn age_all<T: Tag>(roster: &mut Roster<T>, at: Moment, idle_age: u64, erase_age: u64)
    ensures kept { AllByRecursion (λ e. IsRecord T.ops e.rec) roster.new.entries }
    ensures value { roster.new.entries ≡ map (λ e. with_rec (cleaning_of.with_idle_mark at idle_age) e) (filter (λ e. not (cleaning_of.is_stale at erase_age e.rec)) roster.old.entries) }
{
    roster.retain(&Clean {
        at,
        idle_age,
        erase_age,
    });
}
