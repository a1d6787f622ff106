//! The roster at tick tags.
ghost use Rattle.std.specs.Prelude.{◌==◌, not, []};

use crate::same::assert_same;
use dmc_client::record::ClientRec;
use dmc_roster::change::{RecordRule, RecordTest};
use dmc_roster::roster::Roster;
use dmc_tag::spacing::spacings_for;
use dmc_tick::tick::TickTag;
use dmc_types::ids::ClientId;
use dmc_types::info::ClientInfo;
use dmc_types::moment::Moment;
use std::alloc::Global;
use std::process::Abort;
use std::test::Fail;

/// Erases one client, and empties the others.
#[derive(Drop)]
struct Erases {
    key: usize,
}

impl RecordRule<TickTag> for Erases {
    ghost keeps = { λ rule key rec. not (key == rule.key) };

    ghost changed = { λ rule key rec. record rec { requests = [] } };

    fn apply(&self, key: usize, rec: &mut ClientRec<TickTag>) -> bool {
        rec.drain();
        key != self.key
    }
}

/// Whether the last arrival was at a moment.
#[derive(Drop)]
struct Arrived {
    at: Moment,
}

impl RecordTest<TickTag> for Arrived {
    ghost passes = { λ test rec. rec.last_arrival == test.at };

    fn test(&self, rec: &ClientRec<TickTag>) -> bool {
        rec.last_arrival() == self.at
    }
}

/// The record of a client that registers at a moment.
pub fn new_record(alloc: Global, at: Moment) -> Result<ClientRec<TickTag>, Fail> {
    let info = ClientInfo::new(None, 1, None)?;
    let spacings = spacings_for::<TickTag>(1000, info)
        .ok()
        .ok_or("no spacing")?;
    Ok(ClientRec::new(alloc, info, spacings, at))
}

/// Registers a client that the roster does not have.
fn add_new(
    alloc: Global,
    roster: &mut Roster<TickTag>,
    id: ClientId,
    at: Moment,
) -> Result<usize, Fail> {
    let rec = new_record(alloc, at)?;
    if roster.find(id).is_some() {
        return Err(Fail::from("registered already"));
    }
    if roster.len() >= 65_536 {
        return Err(Fail::from("no room"));
    }
    Ok(roster.add(id, rec)?)
}

/// Registers a new client. Returns whether it has the key that was announced.
fn takes_next_key(alloc: Global, roster: &mut Roster<TickTag>, id: ClientId) -> Result<bool, Fail> {
    let observed = roster.next_key();
    let key = add_new(alloc, roster, id, Moment::zero())?;
    Ok(key == observed)
}

/// Whether a client is registered.
pub fn is_registered(roster: &Roster<TickTag>, id: u32) -> bool {
    roster.find(ClientId(id)).is_some()
}

/// Whether a client is registered and idle.
fn is_idle(roster: &Roster<TickTag>, id: u32) -> bool {
    match roster.find(ClientId(id)) {
        Some(key) => roster.at(key).is_idle(),
        None => false,
    }
}

/// Whether a client is registered, and has no request to pop.
fn pops_nothing(roster: &mut Roster<TickTag>, id: u32) -> bool {
    match roster.find(ClientId(id)) {
        Some(key) => roster.at_mut(key).pop().is_none(),
        None => false,
    }
}

// Clients have the keys that were announced.
fn calls_of(rt: &impl Abort, alloc: Global, roster: &mut Roster<TickTag>) -> Result<(), Fail> {
    for id in [5, 3, 8] {
        assert!(rt; takes_next_key(alloc, roster, ClientId(id))?);
    }
    assert_same(rt, &roster.len(), &3);
    assert!(rt; !is_registered(roster, 4));
    assert!(rt; is_idle(roster, 8));
    assert!(rt; pops_nothing(roster, 8));
    Ok(())
}

#[test]
fn roster_calls(rt: HostRuntime) -> Result<(), Fail> {
    let mut roster = Roster::new(rt.alloc());
    calls_of(&rt, rt.alloc(), &mut roster)
}

/// The number of clients whose last arrival is at a moment.
fn assert_arrived(rt: &impl Abort, roster: &Roster<TickTag>, at: Moment, count: usize) {
    assert_same(rt, &roster.count(&Arrived { at }), &count);
}

/// Erases a client, and empties the others.
fn erase(roster: &mut Roster<TickTag>, id: ClientId) -> Result<(), Fail> {
    let key = roster.find(id).ok_or("a client that is registered")?;
    roster.retain(&Erases { key });
    Ok(())
}

// Clients 5, 3 and 8, of which the last one arrived before the others.
fn fill(alloc: Global, roster: &mut Roster<TickTag>, late: Moment) -> Result<(), Fail> {
    add_new(alloc, roster, ClientId(5), late)?;
    add_new(alloc, roster, ClientId(3), late)?;
    add_new(alloc, roster, ClientId(8), Moment::zero())?;
    Ok(())
}

fn passes_of(rt: &impl Abort, alloc: Global, roster: &mut Roster<TickTag>) -> Result<(), Fail> {
    let late = Moment::new(7)?;
    fill(alloc, roster, late)?;
    assert_arrived(rt, roster, late, 2);
    erase(roster, ClientId(3))?;
    assert_same(rt, &roster.len(), &2);
    assert!(rt; !is_registered(roster, 3));
    assert!(rt; is_registered(roster, 5));
    assert_arrived(rt, roster, late, 1);
    Ok(())
}

#[test]
fn roster_passes(rt: HostRuntime) -> Result<(), Fail> {
    let mut roster = Roster::new(rt.alloc());
    passes_of(&rt, rt.alloc(), &mut roster)
}
