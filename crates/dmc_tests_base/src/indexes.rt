//! What a caller learns from the readers of the three indexes.
ghost use Rattle.std.specs.Prelude.{◌≡◌, ◌↔◌, ℕ, Some, true};
ghost use Rattle.dmc_types.specs.declared.ids.ClientId.{ClientId};
ghost use Rattle.dmc_tag.specs.State.{has_queued};
ghost use Rattle.dmc_tag.specs.declared.rank.TagRank.{TagRank};
ghost use Rattle.dmc_tag.specs.declared.rank.LimitRank.{LimitRank};
ghost use Rattle.dmc_tag.specs.declared.rank.ReadyRank.{ReadyRank};
ghost use Rattle.dmc_pull.specs.Queue.{state_of};
ghost use Rattle.dmc_pull.specs.FirstRequests.{client_at};

use crate::kinds::{Example, over_all};
use crate::runs::{config, drop_queue};
use crate::same::assert_same;
use dmc_index::index::{Indexes, OrderIndex};
use dmc_pull::queue::PullQueue;
use dmc_tag::scheduler::Scheduler;
use dmc_tag::tag::Tag;
use dmc_tick::tick::TickTag;
use dmc_types::ids::{ClientId, Token};
use dmc_types::info::ClientInfo;
use dmc_types::moment::Moment;
use dmc_types::params::ReqParams;
use std::alloc::Global;
use std::process::Abort;
use std::test::Fail;

// The three indexes. That a client with a queued request has a key in each, and one without in none, follows from the contracts
// of their readers.
fn indexes<T: Tag, I: Indexes<T>>(
    queue: &PullQueue<T, I>,
) -> (&I::ReservationIndex, &I::LimitIndex, &I::WeightIndex)
    ensures by_reservation { (id : ClientId) → (has_queued id (state_of queue.now).clients ≡ true)
        ↔ ((key : ℕ) × (client_at (λ (r : TagRank T). r.client) (I.ReservationIndex.slots result.0.now) key ≡ Some id)) }
    ensures by_limit { (id : ClientId) → (has_queued id (state_of queue.now).clients ≡ true)
        ↔ ((key : ℕ) × (client_at (λ (r : LimitRank T). r.client) (I.LimitIndex.slots result.1.now) key ≡ Some id)) }
    ensures by_weight { (id : ClientId) → (has_queued id (state_of queue.now).clients ≡ true)
        ↔ ((key : ℕ) × (client_at (λ (r : ReadyRank T). r.client) (I.WeightIndex.slots result.2.now) key ≡ Some id)) }
{
    (
        queue.reservation_index(),
        queue.limit_index(),
        queue.weight_index(),
    )
}

// The client of each index's least rank, or `None` if an index is empty.
fn first_clients<T: Tag, I: Indexes<T>>(queue: &PullQueue<T, I>) -> [Option<ClientId>; 3] {
    let (reservations, limits, weights) = indexes(queue);
    [
        reservations.least().map(|least| least.1.client),
        limits.least().map(|least| least.1.client),
        weights.least().map(|least| least.1.client),
    ]
}

fn register<I: Indexes<TickTag>>(queue: &mut PullQueue<TickTag, I>, id: u32) -> Result<(), Fail> {
    let info = ClientInfo::new(Some(10), 1, Some(20))?;
    queue.register(ClientId(id), info, Moment::zero())?;
    Ok(())
}

// Queues a request of client 6.
fn add<I: Indexes<TickTag>>(queue: &mut PullQueue<TickTag, I>, token: u32) -> Result<(), Fail> {
    let params = ReqParams::new(1, 1)?;
    queue.add_request(ClientId(6), Token(token), params, Moment::zero())?;
    Ok(())
}

// Client 5 and client 6, which has two requests queued.
fn fill<I: Indexes<TickTag>>(queue: &mut PullQueue<TickTag, I>) -> Result<(), Fail> {
    register(queue, 5)?;
    register(queue, 6)?;
    add(queue, 7)?;
    add(queue, 8)
}

// The client of each index's least rank, or `None` if the indexes are empty.
fn assert_first<I: Indexes<TickTag>>(
    rt: &impl Abort,
    queue: &PullQueue<TickTag, I>,
    client: Option<ClientId>,
) {
    assert_same(rt, &first_clients(queue), &[client; 3]);
}

// A client has a key in each index from its first queued request to its last.
fn indexed_clients_of<I: Indexes<TickTag>>(
    rt: &impl Abort,
    queue: &mut PullQueue<TickTag, I>,
) -> Result<(), Fail> {
    assert_same(rt, &queue.config(), &config()?);
    fill(queue)?;
    assert_first(rt, queue, Some(ClientId(6)));
    assert_same(rt, &queue.remove_by_client(ClientId(6)), &Ok(2));
    assert_first(rt, queue, None);
    Ok(())
}

/// The clients at the front of the indexes, while requests are queued and removed.
pub fn indexed_clients_over<I: Indexes<TickTag>>(
    rt: &impl Abort,
    alloc: Global,
) -> Result<(), Fail> {
    let config = config()?;
    let mut queue: PullQueue<TickTag, I> = PullQueue::new(alloc, config);
    let indexed = indexed_clients_of(rt, &mut queue);
    drop_queue(queue);
    indexed
}

#[test]
fn indexed_clients(rt: HostRuntime) -> Result<(), Fail> {
    over_all(&rt, rt.alloc(), Example::IndexedClients)
}
