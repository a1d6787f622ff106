//! What holds of every client's book. Each law is the contract of a function that does nothing: a caller that calls it knows the law.
ghost use Rattle.dmc_sharded.specs.BookState.{IsConsistent};

use crate::book::ArrivalBook;
use dmc_ledger::setup::Setup;

/// In every book, each shard's sums hold, and the books of its stamps total what was sent there and what is left of stamps that the
/// queue refused.
pub fn book_is_consistent<S: Setup>(book: &ArrivalBook<S>)
    ensures { IsConsistent book.now }
{
    let _ = &book.desks;
}
