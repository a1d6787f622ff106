//! The rows of a report.
ghost use Rattle.std.specs.Prelude.{◌≡◌, ◌≤◌, [], IfOk, length, map, vec_capacity};
ghost use Rattle.std.specs.List.{range_with_len};
ghost use Rattle.dmc_pull.specs.Queue.{state_of};
ghost use Rattle.dmc_sim.specs.internal.Rows.{HasCost, HaveCosts, idle_row, row_of, with_left};

use crate::client::SimClient;
use crate::report::{ClientReport, ServerReport};
use dmc_core::cluster_core::ClusterCore;
use dmc_tag::tag::Tag;
use dmc_types::ids::ServerId;
use std::alloc::{AllocError, Global};

/// The servers, before they grant anything.
pub fn idle_servers(alloc: Global, servers: u32) -> Result<Vec<ServerReport>, AllocError>
    ensures { IfOk result (λ rows. rows.items ≡ map idle_row (range_with_len 0 servers)) }
{
    let mut rows = Vec::with_capacity(alloc, servers as usize)?;
    for server in 0..servers {
        rows.push(ServerReport {
            server: ServerId(server),
            reservation: 0,
            priority: 0,
            left: 0,
        })?;
    }
    Ok(rows)
}

/// Counts the queued requests of each server.
pub fn count_left<T: Tag>(core: &ClusterCore<T>, servers: &mut [ServerReport])
    ensures { servers.new ≡ map (with_left state_of core.now.servers) servers.old }
{
    for row in servers.iter_mut() {
        let left = core.request_count(row.server).unwrap_or(0);
        row.left = left;
    }
}

/// Counts what the completed requests of each client cost, as its tracker does.
pub fn count_costs<T: Tag>(core: &ClusterCore<T>, clients: &mut [SimClient])
    ensures { HaveCosts core.now.clients clients.old clients.new }
{
    for client in clients.iter_mut() {
        count_cost(core, client);
    }
}

/// Counts what the completed requests of a client cost.
fn count_cost<T: Tag>(core: &ClusterCore<T>, client: &mut SimClient)
    ensures { HasCost core.now.clients client.old client.new }
{
    let (cost, _) = core.completions(client.scene.id()).unwrap_or((0, 0));
    client.cost = cost;
}

/// Adds a row for each client, within the reserved capacity.
pub fn put_rows(clients: &[SimClient], rows: &mut Vec<ClientReport>)
    requires none { rows.old.items ≡ [] }
    requires room { length clients.now ≤ vec_capacity rows.old }
    ensures { rows.new.items ≡ map row_of clients.now }
{
    for client in clients {
        rows.push(row_of(client)).unwrap();
    }
}

/// The row of a client.
fn row_of(client: &SimClient) -> ClientReport
    ensures { result ≡ row_of client.now }
{
    ClientReport {
        client: client.scene.id(),
        sent: client.sent,
        completed: client.completed,
        reservation: client.reservation,
        priority: client.completed - client.reservation,
        cost: client.cost,
    }
}
