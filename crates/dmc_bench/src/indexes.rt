//! An index that is filled, changed, searched and emptied again and again.
ghost use Rattle.std.specs.Prelude.{◌≡◌, Some, OnOk, ◌^◌};
ghost use Rattle.dmc_bench.specs.Keys.{HoldsFirst};

use crate::fault::Fault;
use crate::load::{Load, mixed};
use crate::watch::{add_since, print, start};
use dmc_index::index::OrderIndex;
use dmc_tag::rank::TagRank;
use dmc_tick::tick::TickTag;
use dmc_types::ids::ClientId;

/// The nanoseconds of each kind of call.
#[derive(Clone, Copy)]
struct Times {
    insert: u128,
    change: u128,
    least: u128,
    remove: u128,
}

/// Fills an index with the load's keys, changes each, reads the least this often, and empties it; again and again, about as often
/// as the load has rounds for the keys. Returns a checksum of the least keys.
pub fn use_index<I: OrderIndex<TagRank<TickTag>>>(
    rt: &HostRuntime,
    load: Load,
) -> Result<u64, Fault> {
    let mut index = I::new(rt.alloc());
    let room = load.clients as usize;
    index.reserve_keys(room)?;
    let rounds = load.rounds.checked_div(load.clients).unwrap_or(0);
    let mut times = Times {
        insert: 0,
        change: 0,
        least: 0,
        remove: 0,
    };
    let mut checksum = 0;
    for round in 0..rounds {
        checksum = use_once(rt, &mut index, load.clients, round, checksum, &mut times)?;
    }
    print_times(rt, rounds.saturating_mul(load.clients), times)?;
    Ok(checksum)
}

/// Writes what each kind of call took.
fn print_times(rt: &HostRuntime, calls: u32, times: Times) -> Result<(), Fault> {
    print(rt, "insert", calls, times.insert)?;
    print(rt, "change", calls, times.change)?;
    print(rt, "least", calls, times.least)?;
    print(rt, "remove", calls, times.remove)
}

/// Fills the index, changes each key, reads the least, and empties it.
fn use_once<I: OrderIndex<TagRank<TickTag>>>(
    rt: &HostRuntime,
    index: &mut I,
    keys: u32,
    round: u32,
    checksum: u64,
    times: &mut Times,
) -> Result<u64, Fault>
    requires { HoldsFirst 0 keys (I.slots index.old) }
    ensures { OnOk result (HoldsFirst 0 keys (I.slots index.new)) }
{
    let begun = start(rt)?;
    insert_all(index, keys, round);
    times.insert = add_since(rt, begun, times.insert)?;
    let begun = start(rt)?;
    change_all(index, keys, round);
    times.change = add_since(rt, begun, times.change)?;
    let begun = start(rt)?;
    let checksum = ask_all(index, keys, checksum);
    times.least = add_since(rt, begun, times.least)?;
    let begun = start(rt)?;
    remove_all(index, keys);
    times.remove = add_since(rt, begun, times.remove)?;
    Ok(checksum)
}

/// Inserts the keys in turn.
fn insert_all<I: OrderIndex<TagRank<TickTag>>>(index: &mut I, keys: u32, round: u32)
    requires { HoldsFirst 0 keys (I.slots index.old) }
    ensures { HoldsFirst keys keys (I.slots index.new) }
{
    for key in 0..keys {
        index.insert(key as usize, rank_of(key, round));
    }
}

/// Gives each key another rank.
fn change_all<I: OrderIndex<TagRank<TickTag>>>(index: &mut I, keys: u32, round: u32)
    requires { HoldsFirst keys keys (I.slots index.old) }
    ensures { HoldsFirst keys keys (I.slots index.new) }
{
    for key in 0..keys {
        index.change(key as usize, rank_of(key, !round));
    }
}

/// Reads the least this often, and returns the checksum with its keys in it.
fn ask_all<I: OrderIndex<TagRank<TickTag>>>(index: &I, times: u32, checksum: u64) -> u64 {
    let mut checksum = checksum;
    for _ in 0..times {
        if let Some((key, _)) = index.least() {
            checksum = mixed(checksum, key as u64);
        }
    }
    checksum
}

/// Removes the keys, the last one first.
fn remove_all<I: OrderIndex<TagRank<TickTag>>>(index: &mut I, keys: u32)
    requires { HoldsFirst keys keys (I.slots index.old) }
    ensures { HoldsFirst 0 keys (I.slots index.new) }
{
    for key in (0..keys).rev() {
        index.remove(key as usize);
    }
}

/// A rank of the client of this number, with a scattered tag.
fn rank_of(key: u32, round: u32) -> TagRank<TickTag>
    ensures { result.client.0 ≡ key }
{
    let scattered = key.wrapping_mul(2_654_435_761) ^ round.wrapping_mul(40_503);
    TagRank {
        tag: TickTag::new(scattered as i128),
        client: ClientId(key),
    }
}
