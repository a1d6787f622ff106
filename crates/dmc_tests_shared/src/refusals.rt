ghost use Rattle.std.specs.Prelude.{◌≡◌, map, IfOk};
ghost use Rattle.std.specs.List.{AllByRecursion};
ghost use Rattle.dmc_ledger.specs.Bundles.{client_side};
ghost use Rattle.dmc_book.specs.Opening.{IsNewDesk};

use crate::same::assert_same;
use dmc_book::fault::{NewFault, RunFault, SubmitCause};
use dmc_book::pass::WorkerPass;
use dmc_ledger::bundle::StampTills;
use dmc_ledger::desk::{ClientDesk, open_pair};
use dmc_ledger::mint::{Blank, Mint};
use dmc_ledger::setup::Setup;
use dmc_tag::reply::Reply;
use dmc_tests_setup::calls::{close, enroll, must_enroll, pull, status, submit, try_submit};
use dmc_tests_setup::opening::{
    Book, LONG, ONE, Opened, SEVEN, ZERO, drop_book, drop_opened, only, open, open_book,
    open_client_desks, open_other, open_queue, wait_config,
};
use dmc_tlock::book::TrackerBook;
use dmc_types::ids::{ClientId, ServerId, WorkerId};
use std::alloc::Global;
use std::marker::Brand;
use std::test::Fail;

/// The results of the calls of a book of two events.
#[derive(Clone, Copy, Debug, PartialEq, Eq)]
struct Answers {
    no_desk: Option<RunFault>,
    full: Option<RunFault>,
    stranger: Option<RunFault>,
    numbers: (u64, u64, u64),
}

/// The history is full, and another book's pass is a stranger.
fn fill<S: Setup>(
    book: &mut Book<S>,
    pass: &mut WorkerPass<S>,
    other: &mut WorkerPass<S>,
) -> Result<Answers, Fail> {
    let no_desk = enroll(book, pass, ClientId(2))?;
    must_enroll(book, pass)?;
    pull(book, pass)?;
    let full = pull(book, pass).err();
    let stranger = pull(book, other).err();
    let status = status(book, pass)?;
    let numbers = (status.events, status.calls, status.misses);
    Ok(Answers {
        no_desk,
        full,
        stranger,
        numbers,
    })
}

/// A book that is opened with a full history, and another book's pass; both are dropped.
fn fill_opened<S: Setup>(alloc: Global, mint: &mut Mint<S>) -> Result<Answers, Fail> {
    let mut other = open_other(alloc, mint)?;
    let (mut book, mut pass) = open_queue(alloc, mint)?;
    let answers = fill(&mut book, &mut pass, &mut other);
    drop_book(book);
    drop((pass, other));
    answers
}

fn full<S: Setup>(alloc: Global, blank: Blank) -> Result<Answers, Fail>
    requires { blank.name ≡ S.name }
{
    let mut mint = blank.open::<S>();
    fill_opened(alloc, &mut mint)
}

/// Stamps and submits if that is refused. Returns whose stamp came back, and the cause.
fn refuse<S: Setup>(
    book: &mut Book<S>,
    pass: &mut WorkerPass<S>,
    tracker: &mut TrackerBook<S>,
    tills: &mut StampTills<S>,
) -> Result<(ClientId, SubmitCause), Fail> {
    match try_submit(book, pass, tracker, tills)? {
        (_, Ok(_)) => Err(Fail::new("a refusal")),
        (_, Err(refused)) => Ok(refused),
    }
}

/// After a close a submit is refused with its stamp, and what is queued is still granted.
fn close_in_hand<S: Setup>(
    book: &mut Book<S>,
    pass: &mut WorkerPass<S>,
    tracker: &mut TrackerBook<S>,
    tills: &mut StampTills<S>,
) -> Result<(ClientId, SubmitCause, bool), Fail> {
    must_enroll(book, pass)?;
    submit(book, pass, tracker, tills)?;
    close(book);
    let (client, cause) = refuse(book, pass, tracker, tills)?;
    let granted = pull(book, pass)?;
    Ok((client, cause, matches!(granted, Reply::Granted { .. })))
}

/// A close, with the books that were opened.
fn close_opened<S: Setup>(opened: &mut Opened<S>) -> Result<(ClientId, SubmitCause, bool), Fail> {
    let (book, pass, tracker) = (&mut opened.book, &mut opened.pass, &mut opened.tracker);
    match opened.tills.tills(ZERO) {
        Some(tills) => close_in_hand(book, pass, tracker, tills),
        None => Err(Fail::new("tills for the server")),
    }
}

fn closed<S: Setup>(alloc: Global, blank: Blank) -> Result<(ClientId, SubmitCause, bool), Fail>
    requires { blank.name ≡ S.name }
{
    let mut mint = blank.open::<S>();
    let mut opened = open(alloc, &mut mint, 8)?;
    let observed = close_opened(&mut opened);
    drop_opened(opened);
    observed
}

/// Two workers of one number are refused.
fn twice<S: Setup>(alloc: Global, blank: Blank) -> Result<Option<NewFault>, Fail>
    requires { blank.name ≡ S.name }
{
    let mut mint = blank.open::<S>();
    let config = wait_config(LONG)?;
    let desks = open_client_desks(alloc, &mut mint)?;
    match open_book(alloc, config, ZERO, &mut mint, desks, &[SEVEN, SEVEN], 8) {
        Ok((book, passes)) => {
            drop(passes);
            drop_book(book);
            Ok(None)
        }
        Err(NewFault::Memory) => Err(NewFault::Memory.into()),
        Err(cause) => Ok(Some(cause)),
    }
}

/// The desk of client 1 at a server.
fn desks_at<S: Setup>(
    alloc: Global,
    mint: &mut Mint<S>,
    server: ServerId,
) -> Result<Vec<ClientDesk<S>>, Fail>
    ensures { IfOk result (λ desks. AllByRecursion (IsNewDesk server.0) (map client_side desks.items)) }
{
    let (desk, _) = open_pair(mint, ONE, server)?;
    only(alloc, desk)
}

/// The pass of a worker at a server's book, which is dropped.
fn pass_of<S: Setup>(
    alloc: Global,
    mint: &mut Mint<S>,
    server: ServerId,
    worker: WorkerId,
) -> Result<WorkerPass<S>, Fail> {
    let config = wait_config(LONG)?;
    let desks = desks_at(alloc, mint, server)?;
    let (book, mut passes) = open_book(alloc, config, server, mint, desks, &[worker], 8)?;
    drop_book(book);
    let pass = passes.pop();
    drop(passes);
    match pass {
        Some(pass) => Ok(pass),
        None => Err(Fail::new("a pass for the worker")),
    }
}

/// The reason why a pull with this pass is refused at a book of server 0 and worker 7.
fn refused_pull<S: Setup>(
    alloc: Global,
    mint: &mut Mint<S>,
    other: &mut WorkerPass<S>,
) -> Result<Option<RunFault>, Fail> {
    let (mut book, pass) = open_queue(alloc, mint)?;
    let refused = pull(&mut book, other).err();
    drop_book(book);
    drop(pass);
    Ok(refused)
}

/// The pass of a worker at another server's book, and that of a worker who is not enrolled.
fn strangers_of<S: Setup>(alloc: Global, blank: Blank) -> Result<[Option<RunFault>; 2], Fail>
    requires { blank.name ≡ S.name }
{
    let mut mint = blank.open::<S>();
    let mut elsewhere = pass_of(alloc, &mut mint, ServerId(1), SEVEN)?;
    let mut unknown = pass_of(alloc, &mut mint, ZERO, WorkerId(8))?;
    let first = refused_pull(alloc, &mut mint, &mut elsewhere)?;
    let second = refused_pull(alloc, &mut mint, &mut unknown)?;
    Ok([first, second])
}

#[test]
fn strangers(rt: HostRuntime) -> Result<(), Fail> {
    let refused = strangers_of::<Brand>(rt.alloc(), Blank::new(64))?;
    assert_same(&rt, &refused, &[Some(RunFault::Stranger); 2]);
    Ok(())
}

#[test]
fn full_closed_stranger(rt: HostRuntime) -> Result<(), Fail> {
    let answers = Answers {
        no_desk: Some(RunFault::NoDesk),
        full: Some(RunFault::HistoryFull),
        stranger: Some(RunFault::Stranger),
        numbers: (2, 2, 1),
    };
    let answer = full::<Brand>(rt.alloc(), Blank::new(28))?;
    assert_same(&rt, &answer, &answers);
    let answer = closed::<Brand>(rt.alloc(), Blank::new(14))?;
    assert_same(&rt, &answer, &(ONE, SubmitCause::Closed, true));
    let answer = twice::<Brand>(rt.alloc(), Blank::new(24))?;
    assert_same(&rt, &answer, &Some(NewFault::Twice));
    Ok(())
}
