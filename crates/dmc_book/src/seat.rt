//! The enrolled workers.
ghost use Rattle.std.specs.Prelude.{◌≡◌, ◌+◌, ◌≤◌, ◌<◌, ◌^◌, ◌↔◌, length, map, IsTrue, slice_index_or};
ghost use Rattle.std.specs.List.{AllByRecursion};
ghost use Rattle.dmc_ledger.specs.Accounts.{total_of};
ghost use Rattle.dmc_ledger.specs.Moves.{after_issue, with_more};
ghost use Rattle.dmc_book.specs.BookState.{worker_side, pass_state, no_worker};
ghost use Rattle.dmc_book.specs.Consistent.{AreWorkersApart, AreWithin};
ghost use Rattle.dmc_book.specs.internal.Consistent.{max_before};
ghost use Rattle.dmc_book.specs.Renewing.{renewed_tills, renewed_worker};
ghost use Rattle.dmc_book.specs.Rotating.{AreTokensLow};
ghost use Rattle.dmc_book.specs.Counts as counts;
ghost use Rattle.dmc_book.specs.internal.Counts.{IsSmall};
ghost use Rattle.dmc_book.specs.Moves.{AreOf, IsEnrolled, IsOpen, books_after, tills_after, worker_after};

use crate::counts::numbers_of;
use crate::pass::WorkerPass;
use crate::per_count::WorkerCounts;
use dmc_ledger::book::Book;
use dmc_ledger::setup::Setup;
use dmc_ledger::till::Till;
use dmc_tag::event::Event;
use dmc_types::ids::WorkerId;

/// The books of a worker.
pub(crate) type WorkerBooks<S> = WorkerCounts<Book<S>>;

/// The worker's tills of them.
pub(crate) type WorkerTills<S> = WorkerCounts<Till<S>>;

/// An enrolled worker, with the books of its counts. A settled book returns it: what was gathered of its pass is then all
/// that was counted of the worker.
#[derive(Drop)]
pub struct Seat<S: Setup> {
    pub(crate) worker: WorkerId,
    // How many events were recorded when the sums of its tokens were last renewed.
    pub(crate) renewed: u64,
    // Of how many desks, the first ones, its pass has tills.
    pub(crate) reach: usize,
    pub(crate) books: WorkerBooks<S>,
}

impl<S: Setup> Seat<S> {
    /// Who it is.
    pub fn worker(&self) -> WorkerId
        ensures { result.0 ≡ (worker_side self.now).worker }
    {
        self.worker
    }

    /// The worker's calls that got a reply, as gathered of its pass.
    pub fn calls(&self) -> u64
        ensures { result ≡ (worker_side self.now).books.calls.gathered }
    {
        self.books.calls.gathered()
    }

    /// Those of them whose reply was Later, Nothing or a refusal.
    pub fn misses(&self) -> u64
        ensures { result ≡ (worker_side self.now).books.misses.gathered }
    {
        self.books.misses.gathered()
    }

    /// The tokens of the adds that were accepted from it since they were last renewed, summed.
    pub fn tokens(&self) -> u64
        ensures { result ≡ (worker_side self.now).books.tokens.gathered }
    {
        self.books.tokens.gathered()
    }

    /// The grants that it got.
    pub fn grants(&self) -> u64
        ensures { result ≡ (worker_side self.now).books.grants.gathered }
    {
        self.books.grants.gathered()
    }

    /// The tokens of its grants since they were last renewed, summed.
    pub fn granted(&self) -> u64
        ensures { result ≡ (worker_side self.now).books.granted.gathered }
    {
        self.books.granted.gathered()
    }

    /// What its grants cost, summed.
    pub fn cost(&self) -> u64
        ensures { result ≡ (worker_side self.now).books.cost.gathered }
    {
        self.books.cost.gathered()
    }
}

/// Adds to a book and to its till.
#[inline(always)]
pub(crate) fn credit<S: Setup>(book: &mut Book<S>, till: &mut Till<S>, amount: u32)
    requires its { till.old.number ≡ book.old.number }
    requires fits { total_of book.old ≤ max_before }
    ensures book { book.new ≡ after_issue amount book.old }
    ensures till { till.new ≡ with_more amount till.old }
{
    let Ok(()) = book.issue(till, u64::from(amount)) else {
        unreachable!()
    };
}

/// Adds to a worker's books and to their tills.
#[inline(always)]
fn credit_all<S: Setup>(
    books: &mut WorkerBooks<S>,
    tills: &mut WorkerTills<S>,
    numbers: WorkerCounts<u32>,
)
    requires its { AreOf tills.old books.old }
    requires fits { AreWithin max_before books.old }
    ensures books { books.new ≡ books_after numbers books.old }
    ensures tills { tills.new ≡ tills_after numbers tills.old }
{
    credit(&mut books.calls, &mut tills.calls, numbers.calls);
    credit(&mut books.misses, &mut tills.misses, numbers.misses);
    credit(&mut books.tokens, &mut tills.tokens, numbers.tokens);
    credit(&mut books.grants, &mut tills.grants, numbers.grants);
    credit(&mut books.granted, &mut tills.granted, numbers.granted);
    credit(&mut books.cost, &mut tills.cost, numbers.cost);
}

/// Whether the tills are of these books.
pub(crate) fn are_of<S: Setup>(tills: &WorkerTills<S>, books: &WorkerBooks<S>) -> bool
    ensures of { IsTrue result ↔ AreOf tills.now books.now }
    ensures some_open { IsTrue result → 0 < books.now.calls.open_tills }
{
    if tills.calls.number() != books.calls.number() {
        return false;
    }
    // It does nothing when it runs: a till that is here is open.
    books.calls.audit(&tills.calls);
    tills.misses.number() == books.misses.number()
        && tills.tokens.number() == books.tokens.number()
        && tills.grants.number() == books.grants.number()
        && tills.granted.number() == books.granted.number()
        && tills.cost.number() == books.cost.number()
}

/// Whether the pass is of a worker that is enrolled, and its tills are of that worker's books.
#[inline(always)]
pub(crate) fn is_enrolled<S: Setup>(workers: &[Seat<S>], pass: &WorkerPass<S>) -> bool
    ensures { IsTrue result ↔ IsEnrolled (map worker_side workers.now) (pass_state pass.now) }
{
    let Some(seat) = workers.get(pass.place) else {
        return false;
    };
    seat.worker == pass.worker && are_of(&pass.tills, &seat.books)
}

/// Counts an event in the books and the tills of its worker.
#[inline(always)]
pub(crate) fn count<T: Copy, S: Setup>(
    workers: &mut Vec<Seat<S>>,
    place: usize,
    tills: &mut WorkerTills<S>,
    event: &Event<T>,
)
    requires within { place < length workers.old.items }
    requires its_worker { (slice_index_or (map worker_side workers.old.items) place no_worker).worker ≡ event.now.worker.0 }
    requires its_tills { AreOf tills.old (slice_index_or (map worker_side workers.old.items) place no_worker).books }
    requires fits { AreWithin max_before (slice_index_or (map worker_side workers.old.items) place no_worker).books }
    requires apart { AreWorkersApart (map worker_side workers.old.items) }
    ensures workers { map worker_side workers.new.items ≡ map (worker_after event.now) (map worker_side workers.old.items) }
    ensures small { IsSmall (counts.numbers_of event.now.command event.now.reply) }
    ensures tills { tills.new ≡ tills_after (counts.numbers_of event.now.command event.now.reply) tills.old }
{
    let numbers = numbers_of(&event.command, &event.reply);
    credit_all(&mut workers[place].books, tills, numbers);
}

/// Begins the sums of a worker's tokens anew, after this number of events: what they were.
pub(crate) fn renew_seat<S: Setup>(
    seat: &mut Seat<S>,
    tills: &mut WorkerTills<S>,
    events: u64,
) -> (u64, u64)
    requires its_tills { AreOf tills.old (worker_side seat.old).books }
    requires tokens_open { (worker_side seat.old).books.tokens.open_tills ≡ 1 }
    requires granted_open { (worker_side seat.old).books.granted.open_tills ≡ 1 }
    ensures seat { worker_side seat.new ≡ renewed_worker events (worker_side seat.old) }
    ensures tills { tills.new ≡ renewed_tills tills.old }
    ensures tokens { (worker_side seat.old).books.tokens.gathered + tills.old.tokens.amount ≡ result.0 }
    ensures granted { (worker_side seat.old).books.granted.gathered + tills.old.granted.amount ≡ result.1 }
{
    seat.renewed = events;
    let tokens = seat.books.tokens.restart(&mut tills.tokens);
    let granted = seat.books.granted.restart(&mut tills.granted);
    (tokens, granted)
}

/// The most that a sum of tokens may be when events are released.
const MAX_TOKENS: u64 = 1 << 62;

/// Whether a worker's sums of tokens leave room for the events that may be kept next. A worker that was dismissed adds no more.
fn is_low<S: Setup>(seat: &Seat<S>) -> bool
    ensures { IsTrue result ↔ (IsOpen (worker_side seat.now) → AreTokensLow (worker_side seat.now).books) }
{
    seat.books.calls.open_tills() == 0
        || (seat.books.tokens.total() <= MAX_TOKENS && seat.books.granted.total() <= MAX_TOKENS)
}

/// Whether `is_low` holds for every worker.
pub(crate) fn are_low<S: Setup>(workers: &[Seat<S>]) -> bool
    ensures { IsTrue result ↔ AllByRecursion (λ w. IsOpen w → AreTokensLow w.books) (map worker_side workers.now) }
{
    for seat in workers {
        if !is_low(seat) {
            return false;
        }
    }
    true
}
