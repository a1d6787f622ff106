//! Room for settling a cluster.
ghost use Rattle.std.specs.Prelude.{◌≤◌, IfOk};

use dmc_ledger::desk::ClientDesk;
use dmc_ledger::setup::Setup;
use std::alloc::{AllocError, Global};
use std::marker::Model;

/// Room for what `settle_cluster` keeps meanwhile: the desks of each server. Contracts see for how many servers there is room.
#[derive(Drop)]
pub struct SettleRoom<S: Setup> {
    pub(crate) desks: Vec<Vec<ClientDesk<S>>>,
}

impl<S: Setup> Model for SettleRoom<S> {
    ghost use Rattle.std.specs.Prelude.{◌≡◌, [], ℕ, vec_capacity};

    ghost Value = { ℕ };

    ghost view = { λ r. vec_capacity r.desks };

    ghost invariant = { λ r. r.desks.items ≡ [] };
}

impl<S: Setup> SettleRoom<S> {
    /// Room for this number of servers.
    pub fn new(alloc: Global, servers: u32) -> Result<SettleRoom<S>, AllocError>
        ensures { IfOk result (λ room. servers ≤ room) }
    {
        let desks = Vec::with_capacity(alloc, servers as usize)?;
        Ok(SettleRoom { desks })
    }
}
