//! A tracker's book of server 0.
ghost use Rattle.std.specs.Prelude.{◌≡◌, ℕ, map, IfOk};
ghost use Rattle.dmc_ledger.specs.Bundles.{new_server_side, server_side};
ghost use Rattle.dmc_tlock.specs.Opening.{AreNew};

use crate::opening::{ZERO, only};
use dmc_ledger::bundle::PhaseTills;
use dmc_ledger::desk::{ClientDesk, ServerDesk, open_pair};
use dmc_ledger::full::Full;
use dmc_ledger::mint::Mint;
use dmc_ledger::setup::Setup;
use dmc_tlock::book::TrackerBook;
use dmc_tlock::pass::ClientPass;
use dmc_types::config::Counting;
use dmc_types::ids::{ClientId, ServerId};
use std::alloc::Global;
use std::test::Fail;

// How often each of two threads stamps and responds.
pub const TIMES: u64 = 1000;

/// A client's book for server 0 with its pass, the queue's desk of the pair, and grants of it in phase Priority.
#[derive(Drop)]
pub struct Opened<S: Setup> {
    pub book: TrackerBook<S>,
    pub pass: ClientPass<S>,
    pub desk: ClientDesk<S>,
    pub grants: PhaseTills<S>,
}

/// The desks of a client's tracker.
pub fn tracker_desks<S: Setup>(
    alloc: Global,
    client: ClientId,
    side: ServerDesk<S>,
) -> Result<Vec<ServerDesk<S>>, Fail>
    requires { (n : ℕ) × (server_side side ≡ new_server_side client.0 0 n) }
    ensures { IfOk result (λ sides. AreNew client.0 (map server_side sides.items)) }
{
    only(alloc, side)
}

/// The desks of a client and server 0.
pub fn open_desks<S: Setup>(
    alloc: Global,
    mint: &mut Mint<S>,
    client: ClientId,
) -> Result<(ClientDesk<S>, Vec<ServerDesk<S>>), Fail>
    ensures { IfOk result (λ opened. AreNew client.0 (map server_side opened.1.items)) }
{
    let (desk, side) = open_pair(mint, client, ZERO)?;
    Ok((desk, tracker_desks(alloc, client, side)?))
}

/// A book of the desks and its pass. The limits are its `most`, and how many events its list may have.
pub fn open_tracker_of<S: Setup>(
    alloc: Global,
    client: ClientId,
    sides: Vec<ServerDesk<S>>,
    limits: (u64, u32),
    counting: Counting,
) -> Result<(TrackerBook<S>, ClientPass<S>), Fail>
    requires { AreNew client.0 (map server_side sides.items) }
{
    let (most, max_events) = limits;
    match TrackerBook::new(alloc, client, sides, most, max_events, counting) {
        Ok(made) => Ok(made),
        Err(fault) => Err(fault.cause.into()),
    }
}

/// A book of a tracker with these limits and this counting form.
pub fn open_book<S: Setup>(
    alloc: Global,
    mint: &mut Mint<S>,
    client: ClientId,
    limits: (u64, u32),
    counting: Counting,
) -> Result<Opened<S>, Fail> {
    let (mut desk, sides) = open_desks(alloc, mint, client)?;
    let grants = grants_of(&mut desk, TIMES)?;
    let (book, pass) = open_tracker_of(alloc, client, sides, limits, counting)?;
    Ok(Opened {
        book,
        pass,
        desk,
        grants,
    })
}

/// Tills of this many grants of cost 1 in phase Priority.
pub fn grants_of<S: Setup>(desk: &mut ClientDesk<S>, amount: u64) -> Result<PhaseTills<S>, Full> {
    let books = &mut desk.books.priority;
    let mut grants = books.grants.till()?;
    books.grants.issue(&mut grants, amount)?;
    let mut cost = books.cost.till()?;
    books.cost.issue(&mut cost, amount)?;
    Ok(PhaseTills { grants, cost })
}
