//! How a run ends, by its report.
ghost use Rattle.std.specs.Prelude.{◌≡◌, ◌↔◌, All, IsTrue, length};
ghost use Rattle.dmc_driver.specs.Done.{IsClientDone, IsDone, IsServerDone, RanOut};
ghost use Rattle.dmc_driver.specs.Ending.{EndsSo, EndsWith};
ghost use Rattle.dmc_driver.specs.internal.Rows.{AreClientsDone, RanOutAt};
ghost use Rattle.dmc_driver.specs.Stops.{ends_of};

use crate::fault::DriveFault;
use crate::stops::are_stops;
use dmc_scene::client::SceneClient;
use dmc_scene::scene::Scene;
use dmc_settle::report::{ClientReport, ClusterReport, ServerReport, StopCause};
use dmc_tag::tag::Tag;

/// Whether the client sent and completed its requests, has nothing left, and did not stop.
fn is_client_done(client: SceneClient, row: &ClientReport) -> bool
    ensures { IsTrue result ↔ IsClientDone client row.now }
{
    let requests = u64::from(client.requests());
    row.sent == requests
        && row.completed == requests
        && row.held.stamps == 0
        && row.held.delta == 0
        && row.held.rho == 0
        && row.stop.is_none()
}

/// Whether the server has nothing left, and none of its workers stopped.
fn is_server_done<T: Tag>(row: &ServerReport<T>) -> bool
    ensures { IsTrue result ↔ IsServerDone row.now }
{
    row.left == 0 && row.held.reservation == 0 && row.held.priority == 0 && row.stops.is_empty()
}

/// Whether all was done.
fn is_done<T: Tag>(scene: &Scene, report: &ClusterReport<T>) -> bool
    requires { length report.now.clients.items ≡ length scene.now.clients }
    ensures { IsTrue result ↔ IsDone scene.now report.now }
{
    if !are_clients_done(scene.clients(), &report.clients) {
        return false;
    }
    are_servers_done(&report.servers)
}

/// Whether each of the servers is done.
fn are_servers_done<T: Tag>(rows: &[ServerReport<T>]) -> bool
    ensures { IsTrue result ↔ All IsServerDone rows.now }
{
    rows.iter().all(|row| is_server_done(row))
}

/// Whether each of the clients is done.
fn are_clients_done(clients: &[SceneClient], rows: &[ClientReport]) -> bool
    requires { length rows.now ≡ length clients.now }
    ensures { IsTrue result ↔ AreClientsDone clients.now rows.now }
{
    for i in 0..clients.len() {
        if !is_client_done(clients[i], &rows[i]) {
            return false;
        }
    }
    true
}

/// Whether a worker of the server took its last turn.
fn ran_out_at<T: Tag>(row: &ServerReport<T>) -> bool
    ensures { IsTrue result ↔ RanOutAt row.now }
{
    row.stops.iter().any(|cause| *cause == StopCause::Turns)
}

/// Whether some server's worker took its last turn.
fn ran_out<T: Tag>(report: &ClusterReport<T>) -> bool
    ensures { IsTrue result ↔ RanOut report.now }
{
    for i in 0..report.servers.len() {
        if ran_out_at(&report.servers[i]) {
            return true;
        }
    }
    false
}

/// How a run ends, by its report, if the servers' own workers ended so.
pub(crate) fn end<T: Tag>(
    scene: &Scene,
    report: ClusterReport<T>,
    ends: &[Vec<Option<StopCause>>],
) -> Result<ClusterReport<T>, DriveFault<T>>
    requires servers { length report.servers.items ≡ scene.now.servers }
    requires clients { length report.clients.items ≡ length scene.now.clients }
    ensures report { EndsWith scene.now (ends_of ends.now) report result }
    ensures ending { EndsSo scene.now result }
{
    if !are_stops(scene, &report, ends) {
        // A worker that stopped says why, and its history says the same.
        return Err(DriveFault::Torn);
    }
    if is_done(scene, &report) {
        Ok(report)
    } else if ran_out(&report) {
        Err(DriveFault::TurnsOut(report))
    } else {
        Err(DriveFault::Stopped(report))
    }
}
