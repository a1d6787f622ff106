//! A run of a scene's cluster.
ghost use Rattle.std.specs.Prelude.{◌≡◌, ◌<◌, ◌≤◌, All};
ghost use Rattle.dmc_types.specs.Limits.{max_books};
ghost use Rattle.dmc_driver_threads.specs.Opened.{IsOpenedBook, IsOpenedTracker, books_of};
ghost use Rattle.dmc_settle.specs.Left.{left_of, stops_of};
ghost use Rattle.dmc_settle.specs.Reports.{AreRows};
ghost use Rattle.dmc_driver.specs.Ending.{EndsSo, Reports, Settles, widest};
ghost use Rattle.dmc_driver.specs.Stops.{ends_of};

use crate::ending::end;
use crate::fault::DriveFault;
use crate::within::{count_histories, count_within, keep_consistent, keep_to_most};
use dmc_book::book::QueueBook;
use dmc_book::per_count::BOOKS_PER_WORKER;
use dmc_driver_threads::limits::Limits;
use dmc_driver_threads::moments::Moments;
use dmc_driver_threads::origin::Origin;
use dmc_driver_threads::remains::Remains;
use dmc_driver_threads::service::Service;
use dmc_driver_threads::workers::run_workers;
use dmc_index::index::Indexes;
use dmc_ledger::desk::BOOKS_PER_PAIR;
use dmc_ledger::mint::Blank;
use dmc_ledger::setup::Setup;
use dmc_scene::scene::Scene;
use dmc_settle::report::ClusterReport;
use dmc_settle::room::SettleRoom;
use dmc_settle::settle::settle_cluster;
use dmc_tag::tag::Tag;
use std::alloc::Global;
use std::marker::Brand;
use std::sync::Wait;
use std::thread::Threads;

/// Runs the cluster of a scene in threads, one for each client and for each worker of a server, and reports the result. It
/// returns when all of them have ended.
///
/// Each client's worker sends its requests, with their costs by the scene, to the servers that its plan names, with at most its
/// window outstanding. Each worker of a server pulls, has what is granted served, and responds. The answer is Ok if every client
/// sent and completed its requests, nothing is left, and no worker stopped; otherwise see `DriveFault`. An allocation failure in a
/// thread is a stop in the report.
///
/// If it is `Torn`, `settle_run` is, whose contract says exactly when; neither opening nor a limit is a reason. That no run is
/// torn is tested, not proved.
pub fn run_cluster<T, R, V, M>(
    rt: &R,
    alloc: Global,
    scene: &Scene,
    service: &V,
    moments: &M,
) -> Result<ClusterReport<T>, DriveFault<T>>
where
    T: Tag + Send + Sync,
    R: Threads + Wait + Sync,
    V: Service + Sync,
    M: Moments + Sync,
    ensures report { Reports T.ops scene.now widest result }
    ensures ending { EndsSo scene.now result }
{
    run_limited(rt, alloc, scene, service, moments, Limits::widest())
}

/// As `run_cluster`, with histories and trackers of these limits.
pub fn run_limited<T, R, V, M>(
    rt: &R,
    alloc: Global,
    scene: &Scene,
    service: &V,
    moments: &M,
    limits: Limits,
) -> Result<ClusterReport<T>, DriveFault<T>>
where
    T: Tag + Send + Sync,
    R: Threads + Wait + Sync,
    V: Service + Sync,
    M: Moments + Sync,
    ensures report { Reports T.ops scene.now limits result }
    ensures ending { EndsSo scene.now result }
{
    let blank = Blank::new(books_of(scene));
    run_in::<T, Brand, R, V, M>(rt, alloc, blank, scene, service, moments, limits)
}

/// How many books a run opens: those of each client at each server, those of each worker that a server enrols, and the number
/// of each server's history.
fn books_of(scene: &Scene) -> u64
    ensures value { result ≡ books_of scene.now }
    ensures some { 0 < result }
    ensures limit { result ≤ max_books }
{
    let clients = scene.clients().len() as u64;
    let servers = u64::from(scene.servers());
    let workers = clients + u64::from(scene.workers());
    let at_each = BOOKS_PER_PAIR * clients + BOOKS_PER_WORKER * workers + 1;
    servers * at_each
}

/// A run in a set-up of its own.
fn run_in<T, S, R, V, M>(
    rt: &R,
    alloc: Global,
    blank: Blank,
    scene: &Scene,
    service: &V,
    moments: &M,
    limits: Limits,
) -> Result<ClusterReport<T>, DriveFault<T>>
where
    T: Tag + Send + Sync,
    S: Origin + Send + Sync,
    R: Threads + Wait + Sync,
    V: Service + Sync,
    M: Moments + Sync,
    requires name { blank.name ≡ S.name }
    requires numbers { blank.books ≡ books_of scene.now }
    requires scene { S.scene ≡ scene.now }
    requires limits { S.limits ≡ limits }
    ensures report { Reports T.ops scene.now limits result }
    ensures ending { EndsSo scene.now result }
{
    let mut mint = blank.open::<S>();
    let room = SettleRoom::new(alloc, scene.servers())?;
    let remains = run_workers(rt, alloc, &mut mint, scene, service, moments, limits)?;
    settle_run(alloc, scene, limits, remains, room)
}

/// Settles what the workers of a run with these limits left, and reports the result: the last step of `run_limited`. It is `Torn`
/// if that does not belong together, and if it does and the histories do not explain how the workers ended; for no other
/// reason. It does not allocate.
pub fn settle_run<T: Tag, I: Indexes<T>, S: Setup>(
    alloc: Global,
    scene: &Scene,
    limits: Limits,
    remains: Remains<T, QueueBook<T, I, S>, S>,
    room: SettleRoom<S>,
) -> Result<ClusterReport<T>, DriveFault<T>>
    requires room { scene.now.servers ≤ room }
    requires books { All (IsOpenedBook scene.now limits) remains.books.items }
    requires trackers { All (IsOpenedTracker scene.now limits) remains.trackers.items }
    requires rows { AreRows scene.now remains.report }
    ensures settled { Settles T.ops scene.now limits
        (left_of remains.books.items remains.trackers.items remains.passes (stops_of remains.report))
        (ends_of remains.ends.items) result }
    ensures ending { EndsSo scene.now result }
{
    let Remains {
        mut books,
        trackers,
        passes,
        report,
        ends,
    } = remains;
    keep_to_most(&books);
    count_within(&trackers);
    count_histories(&books);
    keep_consistent(&trackers);
    match settle_cluster(alloc, scene, &mut books, trackers, passes, report, room) {
        Ok(report) => end(scene, report, &ends),
        Err(_) => Err(DriveFault::Torn),
    }
}
