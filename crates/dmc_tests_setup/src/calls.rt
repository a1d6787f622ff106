//! The calls of a book and of a tracker, each in a function that promises only what the next call requires. Their results are
//! tested by running them.
ghost use Rattle.std.specs.Prelude.{◌≡◌, false, IfOk};
ghost use Rattle.dmc_ledger.specs.Bundles.{Covers, stamp_holdings};
ghost use Rattle.dmc_book.specs.Calls.{is_add};

use crate::opening::{ONE, ZERO};
use dmc_book::book::QueueBook;
use dmc_book::fault::{RunFault, SubmitCause};
use dmc_book::pass::WorkerPass;
use dmc_book::status::Status;
use dmc_index::index::Indexes;
use dmc_ledger::bundle::{PhaseTills, StampTills};
use dmc_ledger::setup::Setup;
use dmc_ledger::stamp::Stamp;
use dmc_ledger::unit::Unit;
use dmc_tag::reply::{Reply, Tags};
use dmc_tick::tick::TickTag;
use dmc_tlock::book::TrackerBook;
use dmc_tlock::fault::EntryFault;
use dmc_types::command::Command;
use dmc_types::cost::Cost;
use dmc_types::ids::{ClientId, ServerId, Token};
use dmc_types::info::ClientInfo;
use dmc_types::moment::Moment;
use std::test::Fail;

/// Runs a command that submits nothing.
pub fn run<I: Indexes<TickTag>, S: Setup>(
    book: &mut QueueBook<TickTag, I, S>,
    pass: &mut WorkerPass<S>,
    command: Command,
) -> Result<Reply<TickTag>, RunFault>
    requires { is_add command ≡ false }
{
    book.run(pass, command)
}

/// The registration of a client of weight 1, with a limit or none.
pub fn register(client: ClientId, limit: Option<u32>) -> Result<Command, Fail>
    ensures { IfOk result (λ command. is_add command ≡ false) }
{
    let at = Moment::zero();
    match ClientInfo::new(None, 1, limit) {
        Ok(info) => Ok(Command::Register { client, info, at }),
        Err(_) => Err(Fail::new("a client of weight 1")),
    }
}

/// Registers a client, and returns why it is refused, if it is.
pub fn enroll<I: Indexes<TickTag>, S: Setup>(
    book: &mut QueueBook<TickTag, I, S>,
    pass: &mut WorkerPass<S>,
    client: ClientId,
) -> Result<Option<RunFault>, Fail> {
    let command = register(client, None)?;
    Ok(run(book, pass, command).err())
}

/// Registers client 1.
pub fn must_enroll<I: Indexes<TickTag>, S: Setup>(
    book: &mut QueueBook<TickTag, I, S>,
    pass: &mut WorkerPass<S>,
) -> Result<(), Fail> {
    match enroll(book, pass, ONE)? {
        None => Ok(()),
        Some(fault) => Err(fault.into()),
    }
}

/// A pull at moment 0.
pub fn pull<I: Indexes<TickTag>, S: Setup>(
    book: &mut QueueBook<TickTag, I, S>,
    pass: &mut WorkerPass<S>,
) -> Result<Reply<TickTag>, RunFault> {
    run(book, pass, Command::Pull { at: Moment::zero() })
}

/// Closes the book's queue.
pub fn close<I: Indexes<TickTag>, S: Setup>(book: &mut QueueBook<TickTag, I, S>) {
    book.close();
}

/// What the worker of the pass sees of the book.
pub fn status<I: Indexes<TickTag>, S: Setup>(
    book: &QueueBook<TickTag, I, S>,
    pass: &WorkerPass<S>,
) -> Result<Status, RunFault> {
    book.status(pass)
}

/// The counts of a stamp: delta and rho.
pub fn carried(stamp: &Stamp) -> (u32, u32) {
    let params = stamp.params();
    (params.delta(), params.rho())
}

/// A stamp of this cost of the tracker, which the tills cover.
pub fn stamp_of_cost<S: Setup>(
    tracker: &mut TrackerBook<S>,
    server: ServerId,
    cost: Cost,
    tills: &mut StampTills<S>,
) -> Result<Stamp, EntryFault>
    ensures { IfOk result (λ stamp. Covers (stamp_holdings tills.new) stamp.params) }
{
    tracker.stamp(server, cost, tills)
}

/// A stamp of cost 1.
pub fn stamp<S: Setup>(
    tracker: &mut TrackerBook<S>,
    server: ServerId,
    tills: &mut StampTills<S>,
) -> Result<Stamp, EntryFault>
    ensures { IfOk result (λ stamp. Covers (stamp_holdings tills.new) stamp.params) }
{
    stamp_of_cost(tracker, server, Cost::ONE, tills)
}

/// The tags of a request, or whose stamp comes back, and the cause.
pub type Answer = Result<Tags<TickTag>, (ClientId, SubmitCause)>;

/// Submits a stamped request at moment 0.
pub fn submit_stamped<I: Indexes<TickTag>, S: Setup>(
    book: &mut QueueBook<TickTag, I, S>,
    pass: &mut WorkerPass<S>,
    tills: &mut StampTills<S>,
    stamp: Stamp,
    token: Token,
) -> Answer
    requires { Covers (stamp_holdings tills.old) stamp.params }
{
    match book.submit(pass, tills, stamp, token, Moment::zero()) {
        Ok(tags) => Ok(tags),
        Err(fault) => Err((fault.stamp.client(), fault.cause)),
    }
}

/// Stamps a request for a server, and submits it: the counts of the stamp, and the result.
pub fn stamp_and_submit<I: Indexes<TickTag>, S: Setup>(
    book: &mut QueueBook<TickTag, I, S>,
    pass: &mut WorkerPass<S>,
    tracker: &mut TrackerBook<S>,
    tills: &mut StampTills<S>,
    server: ServerId,
    token: Token,
) -> Result<((u32, u32), Answer), EntryFault> {
    let stamp = stamp(tracker, server, tills)?;
    let sent = carried(&stamp);
    Ok((sent, submit_stamped(book, pass, tills, stamp, token)))
}

/// Stamps and submits token 9: the counts of the stamp, and the result.
pub fn try_submit<I: Indexes<TickTag>, S: Setup>(
    book: &mut QueueBook<TickTag, I, S>,
    pass: &mut WorkerPass<S>,
    tracker: &mut TrackerBook<S>,
    tills: &mut StampTills<S>,
) -> Result<((u32, u32), Answer), EntryFault> {
    stamp_and_submit(book, pass, tracker, tills, ZERO, Token(9))
}

/// Stamps and submits token 9: the counts of the stamp, and the tags.
pub fn submit<I: Indexes<TickTag>, S: Setup>(
    book: &mut QueueBook<TickTag, I, S>,
    pass: &mut WorkerPass<S>,
    tracker: &mut TrackerBook<S>,
    tills: &mut StampTills<S>,
) -> Result<((u32, u32), Tags<TickTag>), Fail> {
    match try_submit(book, pass, tracker, tills)? {
        (sent, Ok(tags)) => Ok((sent, tags)),
        (_, Err((_, cause))) => Err(cause.into()),
    }
}

/// Takes the unit of the last grant that was pulled with the pass.
pub fn take_unit<S: Setup>(pass: &mut WorkerPass<S>) -> Result<Unit, Fail> {
    match pass.take_unit() {
        Some(unit) => Ok(unit),
        None => Err(Fail::new("the unit of a grant")),
    }
}

/// Responds to the grant of a unit, which the tills hold.
fn give_back<S: Setup>(
    tracker: &mut TrackerBook<S>,
    unit: Unit,
    tills: &mut PhaseTills<S>,
) -> Result<(), Fail> {
    if !tills.holds(unit.cost()) {
        return Err(Fail::new("a grant of this cost"));
    }
    match tracker.respond(unit, tills) {
        Ok(()) => Ok(()),
        Err(fault) => Err(fault.cause.into()),
    }
}

/// Responds to the grant of a unit, which was pulled with the pass.
pub fn respond_with<S: Setup>(
    pass: &mut WorkerPass<S>,
    tracker: &mut TrackerBook<S>,
    unit: Unit,
) -> Result<(), Fail> {
    match pass.grant_tills(unit.client(), unit.phase()) {
        Some(tills) => give_back(tracker, unit, tills),
        None => Err(Fail::new("tills of the client")),
    }
}

/// Responds to the last grant that was pulled with the pass.
pub fn respond<S: Setup>(
    pass: &mut WorkerPass<S>,
    tracker: &mut TrackerBook<S>,
) -> Result<(), Fail> {
    let unit = take_unit(pass)?;
    respond_with(pass, tracker, unit)
}
