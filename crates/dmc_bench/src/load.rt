//! The loads.
ghost use Rattle.std.specs.Prelude.{◌≡◌, ◌+◌, ◌*◌, ◌%◌, ◌^◌};

use crate::cluster::book_count;
use crate::fault::Fault;
use crate::indexes::use_index;
use crate::locked::{serve_alone, serve_locked};
use crate::queues::{HZ, serve_deep, serve_queue};
use crate::shards::{serve_shards, shard_book_count};
use crate::sharing::serve_shared;
use crate::sums::sum_tags;
use dmc_heap::adaptive_index::HeapIndexes;
use dmc_heap::indexed_heap::IndexedHeap;
use dmc_heap::tick_indexes::TickIndexes;
use dmc_index::index::Indexes;
use dmc_index::list_index::{ListIndex, ListIndexes};
use dmc_ledger::mint::Blank;
use dmc_plain::queue::PlainQueue;
use dmc_pull::queue::PullQueue;
use dmc_ratio::ratio::RatioTag;
use dmc_tag::rank::TagRank;
use dmc_tag::tag::Tag;
use dmc_tick::tick::TickTag;
use dmc_types::config::{AtLimit, QueueConfig};
use std::marker::Brand;
use std::sync::Wait;
use std::thread::Threads;

/// What is measured.
#[derive(Clone, Copy, Debug, PartialEq, Eq)]
pub enum Kind {
    /// The reference queue.
    PlainQueue,
    /// The indexed queue over sorted vectors.
    ListQueue,
    /// The indexed queue over heaps.
    HeapQueue,
    /// The same, with ratio tags.
    RatioQueue,
    /// The indexed queue over heaps, with one client.
    DeepQueue,
    /// The indexed queue over heaps, in batches.
    LoneQueue,
    /// The indexed queue over heaps, in batches, behind its lock.
    LockedQueue,
    /// Three such loads in one process.
    WarmQueue,
    /// Such a load, in which the lock's events are released in segments.
    RotatedQueue,
    /// The lock, shared by threads.
    SharedQueue,
    /// A server of shards, shared by threads.
    ShardedServer,
    /// A sorted vector as an index.
    ListIndex,
    /// A heap as an index.
    HeapIndex,
    /// Sums of tick tags.
    Ticks,
    /// Sums of ratio tags.
    Ratios,
}

/// A load: what is measured, with how many clients, keys or requests of one client, how often, and with which limit of
/// each client, or how many shards.
#[derive(Clone, Copy, Debug, PartialEq, Eq)]
pub struct Load {
    pub kind: Kind,
    pub clients: u32,
    pub rounds: u32,
    pub limit: Option<u32>,
}

/// The load that the words name.
pub fn read_load(words: &[String]) -> Result<Load, Fault> {
    let [kind, clients, rounds, rest @ ..] = words else {
        return Err(Fault::Usage);
    };
    Ok(Load {
        kind: kind_of(kind.as_str())?,
        clients: number_of(clients.as_str())?,
        rounds: number_of(rounds.as_str())?,
        limit: limit_of(rest)?,
    })
}

/// The kind of load of this name.
fn kind_of(word: &str) -> Result<Kind, Fault> {
    match word {
        "plain" => Ok(Kind::PlainQueue),
        "list" => Ok(Kind::ListQueue),
        "heap" => Ok(Kind::HeapQueue),
        "ratio-heap" => Ok(Kind::RatioQueue),
        "deep" => Ok(Kind::DeepQueue),
        "alone" => Ok(Kind::LoneQueue),
        "locked" => Ok(Kind::LockedQueue),
        "warm" => Ok(Kind::WarmQueue),
        "rotated" => Ok(Kind::RotatedQueue),
        "shared" => Ok(Kind::SharedQueue),
        "shards" => Ok(Kind::ShardedServer),
        "list-index" => Ok(Kind::ListIndex),
        "heap-index" => Ok(Kind::HeapIndex),
        "ticks" => Ok(Kind::Ticks),
        "ratios" => Ok(Kind::Ratios),
        _ => Err(Fault::Usage),
    }
}

/// The limit in the last words: one word, or none.
fn limit_of(words: &[String]) -> Result<Option<u32>, Fault> {
    match words {
        [] => Ok(None),
        [limit] => Ok(Some(number_of(limit.as_str())?)),
        _ => Err(Fault::Usage),
    }
}

/// The number of a word.
fn number_of(word: &str) -> Result<u32, Fault> {
    Ok(word.parse()?)
}

/// Runs a load, writes what each part of it took, and returns its checksum. Only a load of a lock waits or starts threads.
pub fn run_load<R: Threads + Wait + Sync>(
    rt: &HostRuntime,
    threads: &R,
    load: Load,
) -> Result<u64, Fault> {
    match load.kind {
        Kind::PlainQueue => run_plain::<TickTag>(rt, load),
        Kind::ListQueue => run_indexed::<TickTag, ListIndexes>(rt, load),
        Kind::RatioQueue => run_indexed::<RatioTag, HeapIndexes>(rt, load),
        Kind::SharedQueue => run_shared::<R>(rt, threads, load),
        Kind::ShardedServer => run_shards::<R>(rt, threads, load),
        Kind::ListIndex => use_index::<ListIndex<TagRank<TickTag>>>(rt, load),
        Kind::HeapIndex => use_index::<IndexedHeap<TagRank<TickTag>>>(rt, load),
        Kind::Ticks => sum_tags::<TickTag>(rt, load, TickTag::new(333), TickTag::new(167)),
        Kind::Ratios => sum_tags::<RatioTag>(
            rt,
            load,
            RatioTag::new(1000, 3),
            RatioTag::new(1001, 6),
        ),
        _ => run_any::<TickTag, TickIndexes, R>(rt, threads, load),
    }
}

/// The configuration of the queues.
fn queue_config() -> Result<QueueConfig, Fault> {
    Ok(QueueConfig::new(HZ as u64, 1, 1, AtLimit::Wait)?)
}

/// Runs the load of a reference queue.
fn run_plain<T: Tag>(rt: &HostRuntime, load: Load) -> Result<u64, Fault> {
    let mut queue: PlainQueue<T> = PlainQueue::new(rt.alloc(), queue_config()?);
    serve_queue(rt, &mut queue, load)
}

/// Runs the load of an indexed queue.
fn run_indexed<T: Tag, I: Indexes<T>>(rt: &HostRuntime, load: Load) -> Result<u64, Fault> {
    let mut queue: PullQueue<T, I> = PullQueue::new(rt.alloc(), queue_config()?);
    let served = serve_queue(rt, &mut queue, load);
    drop(queue);
    served
}

/// Runs a load of an indexed queue that one thread serves, alone or behind its lock.
fn run_any<T: Tag, I: Indexes<T>, R: Wait>(
    rt: &HostRuntime,
    waiter: &R,
    load: Load,
) -> Result<u64, Fault> {
    match load.kind {
        Kind::LockedQueue | Kind::RotatedQueue => run_locked::<T, I, R>(rt, waiter, load),
        Kind::WarmQueue => run_warm::<T, I, R>(rt, waiter, load),
        Kind::DeepQueue | Kind::LoneQueue => run_one::<T, I>(rt, load),
        _ => run_indexed::<T, I>(rt, load),
    }
}

/// Runs a load of an indexed queue with one client, or in batches.
fn run_one<T: Tag, I: Indexes<T>>(rt: &HostRuntime, load: Load) -> Result<u64, Fault> {
    let mut queue: PullQueue<T, I> = PullQueue::new(rt.alloc(), queue_config()?);
    let served = match load.kind {
        Kind::DeepQueue => serve_deep(rt, &mut queue, load),
        _ => serve_alone(rt, &mut queue, load),
    };
    drop(queue);
    served
}

/// Runs the load of a lock that one thread takes.
fn run_locked<T: Tag, I: Indexes<T>, R: Wait>(
    rt: &HostRuntime,
    waiter: &R,
    load: Load,
) -> Result<u64, Fault> {
    let blank = Blank::new(book_count(load.clients, 1)?);
    serve_locked::<T, I, Brand, R>(rt, waiter, load, blank)
}

/// Runs the load of a lock three times, each time with a new lock. The last one's history is stored in the pages of those before
/// it.
fn run_warm<T: Tag, I: Indexes<T>, R: Wait>(
    rt: &HostRuntime,
    waiter: &R,
    load: Load,
) -> Result<u64, Fault> {
    run_locked::<T, I, R>(rt, waiter, load)?;
    run_locked::<T, I, R>(rt, waiter, load)?;
    run_locked::<T, I, R>(rt, waiter, load)
}

/// Runs the load of a lock that threads share.
fn run_shared<R: Threads + Wait + Sync>(
    rt: &HostRuntime,
    threads: &R,
    load: Load,
) -> Result<u64, Fault> {
    let blank = Blank::new(book_count(load.clients, load.clients)?);
    serve_shared::<Brand, R>(rt, threads, load, blank)
}

/// Runs the load of a server of shards that threads share.
fn run_shards<R: Threads + Wait + Sync>(
    rt: &HostRuntime,
    threads: &R,
    load: Load,
) -> Result<u64, Fault> {
    let blank = Blank::new(shard_book_count(load)?);
    serve_shards::<Brand, R>(rt, threads, load, blank)
}

/// A checksum with one more result in it.
pub fn mixed(checksum: u64, answer: u64) -> u64
    ensures { result ≡ (checksum * 31 + answer) % 2 ^ 64 }
{
    checksum.wrapping_mul(31).wrapping_add(answer)
}
