//! Why a run of a cluster has no report, or has one that is not done.
ghost use Rattle.std.specs.Prelude.{◌≡◌};

use dmc_settle::report::ClusterReport;
use dmc_tag::tag::Tag;
use std::alloc::AllocError;

/// How a run ended that was not done.
#[derive(Drop)]
pub enum DriveFault<T: Tag> {
    /// The allocator refused a growth before any thread was started.
    Memory,
    /// What the threads left does not belong together, so that `settle_cluster` refuses it; or the histories do not explain how
    /// the workers ended. It comes neither from opening nor for a limit.
    Torn,
    /// A server's worker took its last turn.
    TurnsOut(ClusterReport<T>),
    /// Work is left, and no worker took its last turn.
    Stopped(ClusterReport<T>),
}

impl<T: Tag> From<AllocError> for DriveFault<T> {
    ghost use Rattle.dmc_driver.specs.declared.fault.DriveFault.TheVariants.{Memory};

    ghost from_gives = { λ _ fault. fault ≡ Memory };

    fn from(_error: AllocError) -> DriveFault<T> {
        DriveFault::Memory
    }
}
