//! Tests of books and tills.
ghost use Rattle.std.specs.Prelude.{◌≡◌, ◌≢◌, ◌<◌};

use crate::same::assert_same;
use dmc_ledger::book::Book;
use dmc_ledger::bundle::{GrantBooks, StampBooks};
use dmc_ledger::desk::{close_pair, open_pair};
use dmc_ledger::full::Full;
use dmc_ledger::mint::{Blank, Mint};
use dmc_ledger::setup::Setup;
use dmc_ledger::till::{Till, shift_till};
use dmc_types::ids::{ClientId, ServerId};
use dmc_types::params::ReqParams;
use std::marker::Brand;
use std::process::Abort;
use std::sync::{Mutex, Wait};
use std::test::Fail;
use std::thread;
use std::thread::Threads;

fn bounds<S: Setup>(rt: &impl Abort, blank: Blank) -> Result<(), Full>
    requires { blank.name ≡ S.name }
{
    let mut mint = blank.open::<S>();
    let mut book = mint.open()?;
    let mut till = book.till()?;
    assert_same(rt, &book.issue(&mut till, 1 << 63), &Ok(()));
    assert_same(rt, &book.issue(&mut till, 1), &Err(Full));
    assert_same(rt, &book.total(), &(1 << 63));
    assert_same(rt, &book.gathered(), &0);
    assert_same(rt, &till.amount(), &(1 << 63));
    book.gather(till);
    assert_same(rt, &book.gathered(), &(1 << 63));
    assert_same(rt, &book.open_tills(), &0);
    assert!(rt; mint.open().is_err());
    Ok(())
}

#[test]
fn ledger_bounds(rt: HostRuntime) -> Result<(), Fail> {
    bounds::<Brand>(&rt, Blank::new(1))?;
    Ok(())
}

/// What the lock guards: the first book of a set-up, with two open tills.
#[derive(Drop)]
struct Counter<S: Setup> {
    book: Book<S>,
    ghost first: { book.number ≡ 0 },
    ghost two: { book.open_tills ≡ 2 },
}

impl<S: Setup> Counter<S> {
    fn add(&mut self, till: &mut Till<S>) -> Result<(), Full>
        requires { till.old.number ≡ 0 }
        ensures { till.new.number ≡ till.old.number }
    {
        self.book.issue(till, 1)
    }
}

fn add_each<S: Setup, R: Wait>(
    rt: &R,
    counter: &Mutex<Counter<S>>,
    till: Till<S>,
    times: u32,
) -> Till<S>
    requires { till.number ≡ 0 }
    ensures { result.number ≡ 0 }
{
    let mut till = till;
    for _ in 0..times {
        let _ = counter.lock(rt).add(&mut till);
    }
    till
}

/// Total and gathered, after two threads counted and both tills are gathered.
fn counted<S: Setup + Send + Sync, R: Threads + Wait + Sync>(
    rt: &R,
    blank: Blank,
    times: u32,
) -> Result<(u64, u64), Full>
    requires { blank.name ≡ S.name }
{
    let mut mint = blank.open::<S>();
    let mut book = mint.open()?;
    let first = book.till()?;
    let second = book.till()?;
    let counter = Mutex::new(Counter { book });
    let shared = &counter;
    let one = move || -> Till<S>
        requires { first.number ≡ 0 }
        ensures { result.number ≡ 0 }
    { add_each(rt, shared, first, times) };
    let two = move || -> Till<S>
        requires { second.number ≡ 0 }
        ensures { result.number ≡ 0 }
    { add_each(rt, shared, second, times) };
    let (first, second) = thread::join(rt, one, two);
    Ok(gathered(counter.into_inner(), first, second))
}

fn gathered<S: Setup>(counter: Counter<S>, first: Till<S>, second: Till<S>) -> (u64, u64)
    requires first { first.number ≡ 0 }
    requires second { second.number ≡ 0 }
    ensures { result.0 ≡ result.1 }
{
    let Counter { mut book } = counter;
    book.gather(first);
    book.gather(second);
    (book.total(), book.gathered())
}

#[test]
fn threads_count(rt: HostRuntime) -> Result<(), Fail> {
    let (total, gathered) = counted::<Brand, HostRuntime>(&rt, Blank::new(1), 1000)?;
    assert_same(&rt, &total, &2000);
    assert_same(&rt, &gathered, &2000);
    Ok(())
}

/// A till goes to another thread by value, and two threads read a book and a till at once.
fn moved<S: Setup + Send + Sync + 'static, R: Threads>(rt: &R, blank: Blank) -> Result<u64, Fail>
    requires { blank.name ≡ S.name }
{
    let mut mint = blank.open::<S>();
    let mut book = mint.open()?;
    let mut till = book.till()?;
    book.issue(&mut till, 7)?;
    let child = thread::spawn(rt, move || till)?;
    let till = child.join(rt);
    let (book, till) = (&book, &till);
    let (here, there) = thread::join(rt, move || read(book, till), move || read(book, till));
    Ok(here + there)
}

fn read<S: Setup>(book: &Book<S>, till: &Till<S>) -> u64
    ensures { result < 1000 }
{
    if book.number() != till.number() {
        return 0;
    }
    book.audit(till);
    if till.amount() < 1000 {
        till.amount()
    } else {
        0
    }
}

#[test]
fn till_in_a_thread(rt: HostRuntime) -> Result<(), Fail> {
    let sum = moved::<Brand, HostRuntime>(&rt, Blank::new(1))?;
    assert_same(&rt, &sum, &14);
    Ok(())
}

/// The numbers of two books, which no contract of the caller knows to differ.
fn numbers_of_two<S: Setup>(first: Book<S>, second: Book<S>) -> (u32, u32)
    ensures { result.0 ≢ result.1 }
{
    let mut first = first;
    first.differ_from(&second);
    (first.number(), second.number())
}

fn numbers<S: Setup>(rt: &impl Abort, blank: Blank) -> Result<(), Full>
    requires { blank.name ≡ S.name }
{
    let mut mint = blank.open::<S>();
    let first = mint.open()?;
    let second = mint.open()?;
    assert_same(rt, &numbers_of_two(first, second), &(0, 1));
    Ok(())
}

#[test]
fn two_books(rt: HostRuntime) -> Result<(), Fail> {
    numbers::<Brand>(&rt, Blank::new(2))?;
    Ok(())
}

fn apart<S: Setup, T: Setup>(rt: &impl Abort, left: Blank, right: Blank) -> Result<(), Full>
    requires left { left.name ≡ S.name }
    requires right { right.name ≡ T.name }
{
    let mut left = left.open::<S>().open()?;
    let mut right = right.open::<T>().open()?;
    let mut left_till = left.till()?;
    let mut right_till = right.till()?;
    left.issue(&mut left_till, 3)?;
    right.issue(&mut right_till, 5)?;
    assert_same(rt, &left.number(), &right.number());
    assert_same(rt, &(left.total(), right.total()), &(3, 5));
    left.gather(left_till);
    assert_same(rt, &(left.gathered(), right.gathered()), &(3, 0));
    Ok(())
}

#[test]
fn two_setups(rt: HostRuntime) -> Result<(), Fail> {
    apart::<Brand, Brand>(&rt, Blank::new(1), Blank::new(1))?;
    Ok(())
}

/// What the books of a pair hold once it is closed.
fn assert_closed<S: Setup>(rt: &impl Abort, stamps: &StampBooks<S>, grants: &GrantBooks<S>) {
    assert_same(rt, &stamps.stamps.gathered(), &2);
    assert_same(rt, &stamps.delta.gathered(), &3);
    assert_same(rt, &stamps.rho.total(), &2);
    assert_same(rt, &stamps.rho.open_tills(), &0);
    assert_same(rt, &grants.priority.grants.open_tills(), &0);
    assert_same(rt, &grants.priority.cost.gathered(), &4);
    assert_same(rt, &grants.reservation.grants.total(), &0);
}

fn pair<S: Setup>(
    rt: &impl Abort,
    blank: Blank,
    params: &ReqParams,
    nothing: &ReqParams,
) -> Result<(), Full>
    requires name { blank.name ≡ S.name }
    requires books { blank.books ≡ 13 }
{
    let mut mint = blank.open::<S>();
    let (mut queue, mut tracker) = open_pair(&mut mint, ClientId(1), ServerId(2))?;
    assert!(rt; open_pair(&mut mint, ClientId(1), ServerId(3)).is_err());
    assert_same(rt, &mint.left(), &6);
    let mut sent = tracker.books.delta.till()?;
    tracker.books.delta.issue(&mut sent, 3)?;
    shift_till(&mut sent, &mut queue.held.delta, 3);
    tracker.books.delta.gather(sent);
    assert!(rt; !queue.held.covers(nothing));
    tracker.books.stamps.issue(&mut queue.held.stamps, 1)?;
    assert!(rt; queue.held.covers(nothing));
    assert!(rt; !queue.held.covers(params));
    tracker.books.rho.issue(&mut queue.held.rho, 2)?;
    assert!(rt; queue.held.covers(params));

    // A second stamp of delta 0 and rho 0: the tills hold more than the params.
    tracker.books.stamps.issue(&mut queue.held.stamps, 1)?;
    assert!(rt; queue.held.covers(params));
    assert!(rt; queue.held.covers(nothing));
    let priority = &mut queue.books.priority;
    priority.grants.issue(&mut tracker.held.priority.grants, 1)?;
    priority.cost.issue(&mut tracker.held.priority.cost, 4)?;
    let (stamps, grants) = close_pair(queue, tracker);
    assert_closed(rt, &stamps, &grants);
    Ok(())
}

#[test]
fn pair_opened_and_closed(rt: HostRuntime) -> Result<(), Fail> {
    let params = ReqParams::new(3, 2).ok().ok_or("rho is at most delta")?;
    let nothing = ReqParams::new(0, 0).ok().ok_or("rho is at most delta")?;
    pair::<Brand>(&rt, Blank::new(13), &params, &nothing)?;
    Ok(())
}
