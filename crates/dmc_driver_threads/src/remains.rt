//! What the threads of a run leave, in room that is made before them.
ghost use Rattle.std.specs.Prelude.{◌≡◌, [], OnOk};

use dmc_ledger::setup::Setup;
use dmc_settle::report::{ClusterReport, StopCause};
use dmc_settle::settle::Passes;
use dmc_tag::tag::Tag;
use dmc_tlock::book::TrackerBook;
use std::alloc::{AllocError, Global};

/// What the threads of a run leave.
#[derive(Drop)]
pub struct Remains<T: Tag, B, S: Setup> {
    /// The queues' books, of server 0, 1, ..
    pub books: Vec<B>,
    /// The trackers' books, in the order of the scene's clients.
    pub trackers: Vec<TrackerBook<S>>,
    /// The passes of all workers.
    pub passes: Passes<S>,
    /// With the stops and the failures.
    pub report: ClusterReport<T>,
    /// Of server 0, 1, ..: why each of its own workers stopped, if it did, in their order.
    pub ends: Vec<Vec<Option<StopCause>>>,
}

/// Nothing yet.
pub(crate) fn no_remains<T: Tag, B, S: Setup>(alloc: Global) -> Remains<T, B, S>
    ensures clients { result.report.clients.items ≡ [] }
    ensures servers { result.report.servers.items ≡ [] }
{
    Remains {
        books: Vec::new(alloc),
        trackers: Vec::new(alloc),
        passes: Passes {
            workers: Vec::new(alloc),
            clients: Vec::new(alloc),
        },
        report: ClusterReport {
            clients: Vec::new(alloc),
            servers: Vec::new(alloc),
        },
        ends: Vec::new(alloc),
    }
}

/// Makes room for what this number of clients leaves beside their trackers' books.
pub(crate) fn reserve_of_clients<T: Tag, B, S: Setup>(
    clients: usize,
    remains: &mut Remains<T, B, S>,
) -> Result<(), AllocError>
    ensures clients { OnOk result (remains.new.report.clients.items ≡ remains.old.report.clients.items) }
    ensures servers { OnOk result (remains.new.report.servers.items ≡ remains.old.report.servers.items) }
{
    remains.passes.clients.reserve_exact(clients)?;
    remains.report.clients.reserve_exact(clients)?;
    Ok(())
}

/// Makes room for what this number of servers leaves beside their books.
pub(crate) fn reserve_of_servers<T: Tag, B, S: Setup>(
    servers: usize,
    remains: &mut Remains<T, B, S>,
) -> Result<(), AllocError>
    ensures clients { OnOk result (remains.new.report.clients.items ≡ remains.old.report.clients.items) }
    ensures servers { OnOk result (remains.new.report.servers.items ≡ remains.old.report.servers.items) }
{
    remains.passes.workers.reserve_exact(servers)?;
    remains.report.servers.reserve_exact(servers)?;
    remains.ends.reserve_exact(servers)?;
    Ok(())
}
