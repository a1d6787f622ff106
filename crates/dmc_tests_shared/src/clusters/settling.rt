//! Tests of clusters that are settled.
ghost use Rattle.std.specs.Prelude.{◌≡◌, ◌≤◌, IfOk};

use super::playing::play;
use super::setup::{BOOKS, Cluster, empty_cluster, fill, no_passes, scene};
use crate::same::assert_same;
use dmc_ledger::mint::{Blank, Mint};
use dmc_ledger::setup::Setup;
use dmc_queue_history::history::EventHistory;
use dmc_scene::scene::Scene;
use dmc_settle::report::{
    ClientReport, ClusterReport, ServerReport, StampsLeft, StopCause, UnitsHeld,
};
use dmc_settle::room::SettleRoom;
use dmc_settle::settle::{Passes, settle_cluster};
use dmc_tick::tick::TickTag;
use dmc_types::ids::{ClientId, ServerId};
use std::alloc::Global;
use std::marker::Brand;
use std::mem::{replace, swap};
use std::process::Abort;
use std::test::Fail;

/// The numbers of a server: its grants in each phase, what is queued, and the units left in each phase.
type Observed = (u64, u64, u32, u64, u64);

/// A row of a client that is not settled yet.
fn client_row(client: u32, failed: u64, stop: Option<StopCause>) -> ClientReport {
    ClientReport {
        client: ClientId(client),
        sent: 0,
        completed: 0,
        cost: 0,
        failed,
        held: StampsLeft::default(),
        stop,
    }
}

/// A row of a server that is not settled yet.
fn server_row(alloc: Global, server: u32) -> Result<ServerReport<TickTag>, Fail> {
    let stops = vec![in alloc; StopCause::Turns]?;
    Ok(ServerReport {
        server: ServerId(server),
        reservation: 0,
        priority: 0,
        left: 0,
        held: UnitsHeld::default(),
        history: EventHistory::new(alloc, 9)?,
        stops,
    })
}

/// A report that is not settled yet: client 1 had 3 failures, and client 2 stopped.
fn report(alloc: Global) -> Result<ClusterReport<TickTag>, Fail> {
    let one = client_row(1, 3, None);
    let two = client_row(2, 0, Some(StopCause::Rung));
    let clients = vec![in alloc; one, two]?;
    let here = server_row(alloc, 0)?;
    let there = server_row(alloc, 1)?;
    Ok(ClusterReport {
        clients,
        servers: vec![in alloc; here, there]?,
    })
}

/// A report that is not settled yet, and capacity for the scene's servers.
fn open_report<S: Setup>(
    alloc: Global,
    scene: &Scene,
) -> Result<(ClusterReport<TickTag>, SettleRoom<S>), Fail>
    ensures { IfOk result (λ opened. scene.now.servers ≤ opened.1) }
{
    let room = SettleRoom::new(alloc, scene.servers())?;
    Ok((report(alloc)?, room))
}

/// Settles a cluster. There is no report if it is Torn.
fn settle<S: Setup>(
    alloc: Global,
    scene: &Scene,
    cluster: &mut Cluster<S>,
) -> Result<Option<ClusterReport<TickTag>>, Fail> {
    let (report, room) = open_report(alloc, scene)?;
    let trackers = replace(&mut cluster.trackers, Vec::new(alloc));
    let passes = replace(&mut cluster.passes, no_passes(alloc));
    let books = &mut cluster.books;
    Ok(settle_cluster(alloc, scene, books, trackers, passes, report, room).ok())
}

/// Whether the passes are from another cluster or are left out, or a book released something, and whose.
#[derive(Clone, Copy, Debug, PartialEq, Eq)]
enum Change {
    Nothing,
    OtherWorkers,
    OtherClients,
    LackingWorker,
    LackingClient,
    RotatedQueue,
    RotatedTracker,
}

/// Changes the passes of a cluster. `others` are those of another.
fn change_passes<S: Setup>(passes: &mut Passes<S>, others: &mut Passes<S>, change: Change) {
    match change {
        Change::Nothing | Change::RotatedQueue | Change::RotatedTracker => {}
        Change::OtherWorkers => swap(&mut passes.workers, &mut others.workers),
        Change::OtherClients => swap(&mut passes.clients, &mut others.clients),
        Change::LackingWorker => {
            let _ = passes.workers.first_mut().map(|own| own.pop().is_some());
        }
        Change::LackingClient => {
            let _ = passes.clients.pop();
        }
    }
}

/// Releases what the first queue or the first tracker recorded.
fn rotate_first<S: Setup>(cluster: &mut Cluster<S>, change: Change) {
    match change {
        Change::RotatedQueue => {
            let _ = cluster
                .books
                .first_mut()
                .map(|book| book.rotate().is_some());
        }
        Change::RotatedTracker => {
            let _ = cluster
                .trackers
                .first_mut()
                .map(|book| book.rotate().is_some());
        }
        _ => {}
    }
}

/// Sets up two clusters, plays in the second, and settles it with some of its parts changed.
fn settle_changed<S: Setup>(
    alloc: Global,
    mint: &mut Mint<S>,
    other: &mut Cluster<S>,
    cluster: &mut Cluster<S>,
    change: Change,
) -> Result<Option<ClusterReport<TickTag>>, Fail> {
    let scene = scene(alloc)?;
    fill(alloc, mint, other, &scene)?;
    fill(alloc, mint, cluster, &scene)?;
    play(cluster)?;
    change_passes(&mut cluster.passes, &mut other.passes, change);
    rotate_first(cluster, change);
    settle(alloc, &scene, cluster)
}

/// Sets up two clusters in a set-up of its own, and settles one of them.
fn settle_in<S: Setup>(
    alloc: Global,
    blank: Blank,
    change: Change,
) -> Result<Option<ClusterReport<TickTag>>, Fail>
    requires { blank.name ≡ S.name }
{
    let mut mint = blank.open::<S>();
    let (mut other, mut cluster) = (empty_cluster(alloc), empty_cluster(alloc));
    settle_changed(alloc, &mut mint, &mut other, &mut cluster, change)
}

fn observed(row: &ServerReport<TickTag>) -> Observed {
    let held = row.held;
    (
        row.reservation,
        row.priority,
        row.left,
        held.reservation,
        held.priority,
    )
}

/// The rows of the clients that have played.
fn played_rows() -> [ClientReport; 2] {
    let one = ClientReport {
        sent: 1,
        completed: 1,
        cost: 1,
        held: StampsLeft {
            stamps: 1,
            delta: 1,
            rho: 1,
        },
        ..client_row(1, 3, None)
    };
    let two = ClientReport {
        sent: 1,
        ..client_row(2, 0, Some(StopCause::Rung))
    };
    [one, two]
}

/// A server's row has these numbers, four events were recorded, and its worker's turns were used up.
fn assert_row(rt: &impl Abort, row: &ServerReport<TickTag>, wanted: Observed) {
    assert_same(rt, &observed(row), &wanted);
    assert_same(rt, &row.history.len(), &4);
    assert_same(rt, &row.stops.as_slice(), &[StopCause::Turns].as_slice());
}

#[test]
fn settle_two_servers(rt: HostRuntime) -> Result<(), Fail> {
    let blank = Blank::new(2 * BOOKS);
    let Some(report) = settle_in::<Brand>(rt.alloc(), blank, Change::Nothing)? else {
        return Err(Fail::new("torn"));
    };
    let rows = played_rows();
    assert_same(&rt, &report.clients.as_slice(), &rows.as_slice());
    let wanted = [(1, 0, 0, 0, 0), (0, 1, 0, 0, 1)];
    for (row, wanted) in report.servers.iter().zip(wanted) {
        assert_row(&rt, row, wanted);
    }
    Ok(())
}

#[test]
fn torn_by_other_passes(rt: HostRuntime) -> Result<(), Fail> {
    for change in [Change::OtherWorkers, Change::OtherClients] {
        let blank = Blank::new(2 * BOOKS);
        assert!(rt; settle_in::<Brand>(rt.alloc(), blank, change)?.is_none());
    }
    Ok(())
}

#[test]
fn torn_by_a_pass_left_out(rt: HostRuntime) -> Result<(), Fail> {
    for change in [Change::LackingWorker, Change::LackingClient] {
        let blank = Blank::new(2 * BOOKS);
        assert!(rt; settle_in::<Brand>(rt.alloc(), blank, change)?.is_none());
    }
    Ok(())
}

#[test]
fn torn_by_a_release(rt: HostRuntime) -> Result<(), Fail> {
    for change in [Change::RotatedQueue, Change::RotatedTracker] {
        let blank = Blank::new(2 * BOOKS);
        assert!(rt; settle_in::<Brand>(rt.alloc(), blank, change)?.is_none());
    }
    Ok(())
}
