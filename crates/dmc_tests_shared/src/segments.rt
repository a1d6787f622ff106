//! Books that release their events in segments.
ghost use Rattle.std.specs.Prelude.{◌≡◌};

use crate::books::play;
use dmc_book::fault::RunFault;
use dmc_book::pass::WorkerPass;
use dmc_ledger::mint::Blank;
use dmc_ledger::setup::Setup;
use dmc_queue_history::segment::Segment;
use dmc_tests_setup::calls::{must_enroll, pull, status};
use dmc_tests_setup::opening::{Book, Opened, drop_book, drop_opened, open, open_queue};
use dmc_tick::tick::TickTag;
use std::alloc::Global;
use std::marker::Brand;
use std::test::Fail;

/// The next segment of a book.
pub(crate) fn rotate<S: Setup>(book: &mut Book<S>) -> Result<Segment<TickTag, S>, Fail> {
    match book.rotate() {
        Some(segment) => Ok(segment),
        None => Err(Fail::new("a segment")),
    }
}

/// The number of a segment's first event, and how many it has.
fn shape<S: Setup>(segment: &Segment<TickTag, S>) -> (u64, usize) {
    (segment.first(), segment.events().len())
}

/// What a book shows of its events: how many it keeps, how many it released, and how many there were.
type Shown = (usize, u64, u64);

fn shown<S: Setup>(book: &Book<S>, pass: &WorkerPass<S>) -> Result<Shown, Fail> {
    Ok((
        book.history().len(),
        book.first(),
        status(book, pass)?.events,
    ))
}

/// What a book that keeps two events does over three of them, with its segments.
#[derive(Clone, Copy, Debug, PartialEq, Eq)]
struct Rotated {
    full: Option<RunFault>,
    shapes: [(u64, usize); 3],
    follows: [bool; 5],
    shown: [Shown; 2],
}

/// Fills a book, releases its events, and goes on.
fn rotate_book<S: Setup>(
    book: &mut Book<S>,
    pass: &mut WorkerPass<S>,
    other: &Segment<TickTag, S>,
) -> Result<Rotated, Fail> {
    must_enroll(book, pass)?;
    pull(book, pass)?;
    let full = pull(book, pass).err();
    let first = rotate(book)?;
    let emptied = shown(book, pass)?;
    pull(book, pass)?;
    let gone_on = shown(book, pass)?;
    let second = rotate(book)?;
    let none = rotate(book)?;
    Ok(Rotated {
        full,
        shapes: [shape(&first), shape(&second), shape(&none)],
        follows: [
            first.follows(&second),
            second.follows(&none),
            second.follows(&first),
            first.follows(&none),
            first.follows(other),
        ],
        shown: [emptied, gone_on],
    })
}

fn rotate_twice<S: Setup>(alloc: Global, blank: Blank) -> Result<Rotated, Fail>
    requires { blank.name ≡ S.name }
{
    let mut mint = blank.open::<S>();
    let (mut other, other_pass) = open_queue(alloc, &mut mint)?;
    let empty = rotate(&mut other)?;
    let (mut book, mut pass) = open_queue(alloc, &mut mint)?;
    let rotated = rotate_book(&mut book, &mut pass, &empty);
    drop_book(book);
    drop_book(other);
    drop((pass, other_pass, empty));
    rotated
}

#[test]
fn segments_follow(rt: HostRuntime) -> Result<(), Fail> {
    let rotated = rotate_twice::<Brand>(rt.alloc(), Blank::new(28))?;
    let expected = Rotated {
        full: Some(RunFault::HistoryFull),
        shapes: [(0, 2), (2, 1), (3, 0)],
        follows: [true, true, false, false, false],
        shown: [(0, 2, 2), (1, 2, 3)],
    };
    assert!(rt; rotated == expected);
    Ok(())
}

/// What a renewal returns, and the worker's sums of tokens before and after it.
type Renewed = (Option<(u64, u64)>, (u64, u64), (u64, u64));

fn sums<S: Setup>(book: &Book<S>, pass: &WorkerPass<S>) -> Result<(u64, u64), Fail> {
    let status = status(book, pass)?;
    Ok((status.tokens, status.granted))
}

fn renew_pass<S: Setup>(book: &mut Book<S>, pass: &mut WorkerPass<S>) -> Result<Renewed, Fail> {
    let before = sums(book, pass)?;
    let renewed = book.renew(pass).ok();
    Ok((renewed, before, sums(book, pass)?))
}

/// A circle whose sums of tokens are renewed, and whether another book refuses that pass.
fn renew_played<S: Setup>(
    opened: &mut Opened<S>,
    other: &mut Book<S>,
) -> Result<(Renewed, bool), Fail> {
    play(opened)?;
    let renewed = renew_pass(&mut opened.book, &mut opened.pass)?;
    let stranger = other.renew(&mut opened.pass) == Err(RunFault::Stranger);
    Ok((renewed, stranger))
}

fn renew_circle<S: Setup>(alloc: Global, blank: Blank) -> Result<(Renewed, bool), Fail>
    requires { blank.name ≡ S.name }
{
    let mut mint = blank.open::<S>();
    let (mut other, other_pass) = open_queue(alloc, &mut mint)?;
    let mut opened = open(alloc, &mut mint, 8)?;
    let answer = renew_played(&mut opened, &mut other);
    drop_book(other);
    drop_opened(opened);
    drop(other_pass);
    answer
}

#[test]
fn renewed_tokens(rt: HostRuntime) -> Result<(), Fail> {
    let renewed = renew_circle::<Brand>(rt.alloc(), Blank::new(32))?;
    assert!(rt; renewed == ((Some((9, 9)), (9, 9), (0, 0)), true));
    Ok(())
}
