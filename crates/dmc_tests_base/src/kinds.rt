//! The kinds of indexes, and the examples that hold of each: the one place that names a kind.
use crate::alike::alike_over;
use crate::growths::grown_over;
use crate::heads::{changes_over, marks_over};
use crate::indexes::indexed_clients_over;
use crate::limits::limits_over;
use crate::runs::five_commands_over;
use dmc_heap::adaptive_index::HeapIndexes;
use dmc_heap::tick_indexes::TickIndexes;
use dmc_index::index::Indexes;
use dmc_index::list_index::ListIndexes;
use dmc_ratio::ratio::RatioTag;
use dmc_tick::tick::TickTag;
use std::alloc::Global;
use std::process::Abort;
use std::test::Fail;

/// The kinds of indexes.
#[derive(Clone, Copy)]
pub enum Kind {
    /// Sorted vectors.
    Lists,
    /// Heaps.
    Heaps,
    /// Heaps that store each rank as one number.
    Packed,
}

/// An example that is generic in the indexes.
#[derive(Clone, Copy)]
pub enum Example {
    /// The least P of heads.
    LeastShare,
    /// The ready marks of heads.
    ReadyMarks,
    /// The clients at the front of the indexes.
    IndexedClients,
    /// A run of commands.
    FiveCommands,
    /// A client and a request too many.
    Limits,
    /// Queues whose allocations are refused.
    GrownQueues,
    /// Random commands.
    RandomCommands,
}

/// Runs an example over these indexes.
fn run<I: Indexes<TickTag>>(rt: &impl Abort, alloc: Global, example: Example) -> Result<(), Fail> {
    match example {
        Example::LeastShare => changes_over::<I>(rt, alloc),
        Example::ReadyMarks => marks_over::<I>(rt, alloc),
        Example::IndexedClients => indexed_clients_over::<I>(rt, alloc),
        Example::FiveCommands => five_commands_over::<I>(rt, alloc),
        Example::Limits => limits_over::<I>(rt, alloc),
        Example::GrownQueues => grown_over::<I>(rt, alloc),
        Example::RandomCommands => alike_over::<TickTag, I>(rt, alloc),
    }
}

/// Runs an example over a kind of indexes.
pub fn over(rt: &impl Abort, alloc: Global, kind: Kind, example: Example) -> Result<(), Fail> {
    match kind {
        Kind::Lists => run::<ListIndexes>(rt, alloc, example),
        Kind::Heaps => run::<HeapIndexes>(rt, alloc, example),
        Kind::Packed => run::<TickIndexes>(rt, alloc, example),
    }
}

/// Runs an example over each kind of indexes.
pub fn over_all(rt: &impl Abort, alloc: Global, example: Example) -> Result<(), Fail> {
    over(rt, alloc, Kind::Lists, example)?;
    over(rt, alloc, Kind::Heaps, example)?;
    over(rt, alloc, Kind::Packed, example)
}

/// Random commands in ratios, over heaps.
pub fn over_ratios(rt: &impl Abort, alloc: Global) -> Result<(), Fail> {
    alike_over::<RatioTag, HeapIndexes>(rt, alloc)
}
