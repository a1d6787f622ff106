//! The result of a run, summed up.
use dmc_scene::client::SceneClient;
use dmc_scene::scene::Scene;
use dmc_settle::report::{ClientReport, ClusterReport, ServerReport};
use dmc_tag::tag::Tag;

/// Numbers of requests, over all clients and servers, and what the completed ones cost.
#[derive(Clone, Copy, Debug, PartialEq, Eq)]
pub(super) struct Totals {
    pub(super) sent: u64,
    pub(super) completed: u64,
    pub(super) cost: u64,
    pub(super) granted: u64,
    /// Granted, and not responded.
    pub(super) units: u64,
    /// Queued in the end.
    pub(super) left: u64,
    /// Stamped, and not sent.
    pub(super) stamps: u64,
}

/// With one more client.
fn with_client(totals: Totals, row: &ClientReport) -> Totals {
    Totals {
        sent: totals.sent.wrapping_add(row.sent),
        completed: totals.completed.wrapping_add(row.completed),
        cost: totals.cost.wrapping_add(row.cost),
        stamps: totals.stamps.wrapping_add(row.held.stamps),
        ..totals
    }
}

/// With one more server.
fn with_server<T: Tag>(totals: Totals, row: &ServerReport<T>) -> Totals {
    let granted = row.reservation.wrapping_add(row.priority);
    let units = row.held.reservation.wrapping_add(row.held.priority);
    Totals {
        granted: totals.granted.wrapping_add(granted),
        units: totals.units.wrapping_add(units),
        left: totals.left.wrapping_add(u64::from(row.left)),
        ..totals
    }
}

pub(super) fn totals_of<T: Tag>(report: &ClusterReport<T>) -> Totals {
    let mut totals = Totals {
        sent: 0,
        completed: 0,
        cost: 0,
        granted: 0,
        units: 0,
        left: 0,
        stamps: 0,
    };
    for row in &report.clients {
        totals = with_client(totals, row);
    }
    for row in &report.servers {
        totals = with_server(totals, row);
    }
    totals
}

/// What the requests of a client cost.
fn cost_of(client: &SceneClient) -> u64 {
    let mut cost = 0u64;
    for number in 0..client.requests() {
        cost = cost.wrapping_add(u64::from(client.cost(number).units()));
    }
    cost
}

/// The result of a run of a scene if all is done.
pub(super) fn all_done(scene: &Scene) -> Totals {
    let mut requests = 0u64;
    let mut cost = 0u64;
    for client in scene.clients() {
        requests = requests.wrapping_add(u64::from(client.requests()));
        cost = cost.wrapping_add(cost_of(client));
    }
    Totals {
        sent: requests,
        completed: requests,
        cost,
        granted: requests,
        units: 0,
        left: 0,
        stamps: 0,
    }
}

/// Each grant was completed or its unit is left, and each request that was sent was granted or is queued.
pub(super) fn are_balanced(totals: Totals) -> bool {
    totals.completed.checked_add(totals.units) == Some(totals.granted)
        && totals.granted.checked_add(totals.left) == Some(totals.sent)
}
