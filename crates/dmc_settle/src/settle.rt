//! Settling a cluster.
ghost use Rattle.std.specs.Prelude.{◌≤◌, ◌↔◌, length, IfOk, OnOk, IsOk, IsTrue};
ghost use Rattle.dmc_types.specs.Limits.{max_scene_clients, max_servers};
ghost use Rattle.dmc_settle.specs.Left.{AreTogether, left_of, stops_of};
ghost use Rattle.dmc_settle.specs.Circle.{AreCircles};
ghost use Rattle.dmc_settle.specs.Reports.{AreRows, IsReport, IsReportOf};

use crate::checks::{are_rows, are_together};
use crate::clients::settle_clients;
use crate::report::ClusterReport;
use crate::room::SettleRoom;
use crate::servers::settle_servers;
use dmc_book::book::QueueBook;
use dmc_book::pass::WorkerPass;
use dmc_index::index::Indexes;
use dmc_ledger::setup::Setup;
use dmc_scene::scene::Scene;
use dmc_tag::tag::Tag;
use dmc_tlock::book::TrackerBook;
use dmc_tlock::pass::ClientPass;
use std::alloc::Global;
use thiserror::Error;

/// The parts are not those of one cluster that the scene sets up.
#[derive(Clone, Copy, Debug, PartialEq, Eq, Error)]
#[error("the parts are not those of one cluster")]
pub struct Torn;

/// The passes of a cluster: for each server those of its workers, and one for each client.
#[derive(Drop)]
pub struct Passes<S: Setup> {
    pub workers: Vec<Vec<WorkerPass<S>>>,
    pub clients: Vec<ClientPass<S>>,
}

/// Settles a cluster once its threads have ended: settles each book with its passes, audits the pair of each client and each
/// server, and fills in the report. What is in the report of stops and failures stays. It does not allocate.
///
/// Refused `Torn`, which hands nothing back, if these are not the parts of one cluster that the scene sets up, by their
/// configurations, their ids and the numbers of their books, if a book or a tracker released something (`rotate`), or if
/// the report's rows are not the scene's.
pub fn settle_cluster<T: Tag, I: Indexes<T>, S: Setup>(
    alloc: Global,
    scene: &Scene,
    books: &mut [QueueBook<T, I, S>],
    trackers: Vec<TrackerBook<S>>,
    passes: Passes<S>,
    report: ClusterReport<T>,
    room: SettleRoom<S>,
) -> Result<ClusterReport<T>, Torn>
    requires room { scene.now.servers ≤ room }
    ensures together { IsOk result
        ↔ AreTogether scene.now (left_of books.old trackers.items passes (stops_of report)) × AreRows scene.now report }
    ensures circle { OnOk result
        (AreCircles (left_of books.old trackers.items passes (stops_of report))) }
    ensures report { IfOk result (IsReport T.ops scene.now) }
    ensures its_report { IfOk result
        (IsReportOf (left_of books.old trackers.items passes (stops_of report))) }
{
    if !are_whole(scene, books, &trackers, &passes, &report) {
        return Err(Torn);
    }
    let Passes { workers, clients } = passes;
    let SettleRoom { mut desks } = room;
    let mut report = report;
    settle_servers(alloc, books, workers, &mut report.servers, &mut desks);
    settle_clients(trackers, clients, &desks, &mut report.clients);
    Ok(report)
}

/// Whether the parts are those of one cluster that the scene sets up, and the report's rows the scene's.
fn are_whole<T: Tag, I: Indexes<T>, S: Setup>(
    scene: &Scene,
    books: &[QueueBook<T, I, S>],
    trackers: &[TrackerBook<S>],
    passes: &Passes<S>,
    report: &ClusterReport<T>,
) -> bool
    ensures whole { IsTrue result
        ↔ AreTogether scene.now (left_of books.now trackers.now passes.now (stops_of report.now)) × AreRows scene.now report.now }
    ensures servers { IsTrue result → scene.now.servers ≤ max_servers }
    ensures clients { IsTrue result → length scene.now.clients ≤ max_scene_clients }
{
    are_together(scene, books, trackers, passes, report) && are_rows(scene, report)
}
