//! The workers of a scene's cluster, from the first to the last.
ghost use Rattle.std.specs.Prelude.{◌≡◌, ◌≤◌, [], length, All, IfOk, vec_capacity};
ghost use Rattle.dmc_settle.specs.Reports.{AreRows};
ghost use Rattle.dmc_driver_threads.specs.Opened.{IsOpenedBook, IsOpenedTracker, books_of};

use crate::gathering::{Room, gather};
use crate::limits::Limits;
use crate::moments::Moments;
use crate::opening::{Opened, open};
use crate::origin::{AsOpened, Origin};
use crate::remains::Remains;
use crate::service::Service;
use crate::threads::run_all;
use dmc_book::book::QueueBook;
use dmc_heap::adaptive_index::HeapIndexes;
use dmc_ledger::mint::Mint;
use dmc_scene::scene::Scene;
use dmc_tag::tag::Tag;
use std::alloc::{AllocError, Global};
use std::sync::Wait;
use std::thread::Threads;

/// Opens the clients and servers of a scene, runs a thread for each of their workers until all of them have ended, and returns
/// what they leave. It is refused memory alone, before any thread is started.
///
/// They leave a queue's book for each server and a tracker's for each client. Every queue's book begins with the registrations of
/// the scene's clients, and has the scene's configuration and the limit of its history. Every tracker's counts as the scene says,
/// within its limits. None of them has released anything. Nothing else is promised of what they leave. `settle_cluster` looks at it all, and proves the report of a run from that.
pub fn run_workers<T, S, V, M, R>(
    rt: &R,
    alloc: Global,
    mint: &mut Mint<S>,
    scene: &Scene,
    service: &V,
    moments: &M,
    limits: Limits,
) -> Result<Remains<T, QueueBook<T, HeapIndexes, S>, S>, AllocError>
where
    T: Tag + Send + Sync,
    S: Origin + Send + Sync,
    V: Service + Sync,
    M: Moments + Sync,
    R: Threads + Wait + Sync,
    requires scene { S.scene ≡ scene.now }
    requires limits { S.limits ≡ limits }
    requires numbers { books_of scene.now ≤ mint.old.left }
    ensures rows { IfOk result (λ remains. AreRows scene.now remains.report) }
    ensures books { IfOk result (λ remains. All (IsOpenedBook scene.now limits) remains.books.items) }
    ensures as_many_books { IfOk result (λ remains. length remains.books.items ≡ scene.now.servers) }
    ensures trackers { IfOk result (λ remains. All (IsOpenedTracker scene.now limits) remains.trackers.items) }
    ensures as_many_trackers { IfOk result (λ remains. length remains.trackers.items ≡ length scene.now.clients) }
{
    let trackers = Vec::with_capacity(alloc, scene.clients().len())?;
    let books = Vec::with_capacity(alloc, scene.servers() as usize)?;
    let room = Room { books, trackers };
    let opened = open::<T, HeapIndexes, S>(alloc, mint, scene, limits)?;
    Ok(run_opened(rt, service, moments, opened, room))
}

/// Runs the workers that were opened, and gathers what they leave. The books go where there is room for them.
fn run_opened<T, S, V, M, R>(
    rt: &R,
    service: &V,
    moments: &M,
    opened: Opened<T, QueueBook<T, HeapIndexes, S>, AsOpened<S>, S>,
    room: Room<QueueBook<T, HeapIndexes, S>, S>,
) -> Remains<T, QueueBook<T, HeapIndexes, S>, S>
where
    T: Tag + Send + Sync,
    S: Origin + Send + Sync,
    V: Service + Sync,
    M: Moments + Sync,
    R: Threads + Wait + Sync,
    requires books { room.books.items ≡ [] }
    requires books_fit { length opened.cluster.queues.items ≤ vec_capacity room.books }
    requires trackers { room.trackers.items ≡ [] }
    requires trackers_fit { length opened.cluster.trackers.items ≤ vec_capacity room.trackers }
    requires rows { AreRows S.scene opened.remains.report }
    ensures rows { AreRows S.scene result.report }
    ensures books { All (IsOpenedBook S.scene S.limits) result.books.items }
    ensures as_many_books { length result.books.items ≡ length opened.cluster.queues.items }
    ensures trackers { All (IsOpenedTracker S.scene S.limits) result.trackers.items }
    ensures as_many_trackers { length result.trackers.items ≡ length opened.cluster.trackers.items }
{
    let Opened {
        cluster,
        senders,
        mut servers,
        mut remains,
    } = opened;
    let clients = run_all(rt, &cluster, service, moments, &mut servers, senders);
    gather(cluster, clients, servers, room, &mut remains);
    remains
}
