//! The indexed queue with tags of either type.
ghost use Rattle.std.specs.Prelude.{◌≡◌, length};
ghost use Rattle.std.specs.Result.{result_ok};
ghost use Rattle.dmc_any_queue.specs.AnyState.{opening_with, Shows, AnySteps, clients_in, requests_in};
ghost use Rattle.dmc_pull.specs.Queue.{state_of};
ghost use Rattle.dmc_tag.specs.State.{queued_requests};

use crate::fraction::{AsFraction, TagFraction, in_fractions};
use dmc_heap::adaptive_index::HeapIndexes;
use dmc_heap::tick_indexes::TickIndexes;
use dmc_index::index::Indexes;
use dmc_pull::queue::PullQueue;
use dmc_ratio::ratio::RatioTag;
use dmc_tag::reply::Reply;
use dmc_tag::scheduler::{Scheduler, apply_to};
use dmc_tag::tag::Tag;
use dmc_tick::tick::TickTag;
use dmc_types::command::Command;
use dmc_types::config::{QueueConfig, TagKind};
use std::alloc::{AllocError, Global};
use std::marker::Model;

/// Wrapper without bounds: the toolchain cannot drop an enum over types generic in `Indexes` that holds them directly.
#[derive(Drop)]
struct Droppable<P>(P);

/// A queue over heaps, by its tags.
#[derive(Drop)]
enum Queue {
    Tick(Droppable<PullQueue<TickTag, TickIndexes>>),
    Ratio(Droppable<PullQueue<RatioTag, HeapIndexes>>),
}

/// A queue over heaps with tick or ratio tags. Contracts see its plain state.
#[derive(Drop)]
pub struct AnyQueue {
    queue: Queue,
}

impl Model for AnyQueue {
    ghost use Rattle.dmc_any_queue.specs.AnyState.{AnyState};

    ghost Value = { AnyState };

    ghost use Rattle.dmc_any_queue.specs.Held.{any_state_of};

    ghost view = { λ q. any_state_of q.queue };
}

/// One command at a queue, and its reply in fractions. An error is an allocation failure, and changes nothing.
#[inline(always)]
fn apply_in_fractions<T: AsFraction, I: Indexes<T>>(
    queue: &mut PullQueue<T, I>,
    command: &Command,
) -> Result<Reply<TagFraction>, AllocError>
    ensures { Shows T.ops T.fraction (state_of queue.old) (state_of queue.new) command.now (result_ok result) }
{
    Ok(in_fractions(apply_to(queue, command)?))
}

/// The numbers of registered clients and of queued requests.
#[derive(Clone, Copy)]
struct Counts {
    clients: u32,
    requests: u32,
}

/// The counts of a queue.
fn counts_of<T: Tag, I: Indexes<T>>(queue: &PullQueue<T, I>) -> Counts
    ensures clients { result.clients ≡ length (state_of queue.now).clients }
    ensures requests { result.requests ≡ length (queued_requests (state_of queue.now).clients) }
{
    Counts {
        clients: queue.client_count(),
        requests: queue.request_count(),
    }
}

impl AnyQueue {
    /// An empty queue with tags of this kind. It does not allocate.
    pub fn new(alloc: Global, tags: TagKind, config: QueueConfig) -> AnyQueue
        ensures { result ≡ opening_with tags config }
    {
        let queue = match tags {
            TagKind::Tick => Queue::Tick(Droppable(PullQueue::new(alloc, config))),
            TagKind::Ratio => Queue::Ratio(Droppable(PullQueue::new(alloc, config))),
        };
        AnyQueue { queue }
    }

    /// The reply to a command, with fractions in place of tags: the one call of the queue. An error is an allocation failure,
    /// of a Register or an Add alone, and changes nothing.
    #[inline(always)]
    pub fn apply(&mut self, command: &Command) -> Result<Reply<TagFraction>, AllocError>
        ensures { AnySteps self.old self.new command.now (result_ok result) }
    {
        match &mut self.queue {
            Queue::Tick(queue) => apply_in_fractions(&mut queue.0, command),
            Queue::Ratio(queue) => apply_in_fractions(&mut queue.0, command),
        }
    }

    fn counts(&self) -> Counts
        ensures clients { result.clients ≡ clients_in self.now }
        ensures requests { result.requests ≡ requests_in self.now }
    {
        match &self.queue {
            Queue::Tick(queue) => counts_of(&queue.0),
            Queue::Ratio(queue) => counts_of(&queue.0),
        }
    }

    /// The number of registered clients.
    pub fn client_count(&self) -> u32
        ensures { result ≡ clients_in self.now }
    {
        self.counts().clients
    }

    /// The number of queued requests.
    pub fn request_count(&self) -> u32
        ensures { result ≡ requests_in self.now }
    {
        self.counts().requests
    }
}
