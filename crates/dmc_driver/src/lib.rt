//! Runs a cluster in threads, and proves the report of the run from what its workers leave.
#![tactic(auto)]

mod ending;
pub mod fault;
pub mod run;
mod stops;
mod within;

/// How long the histories of a run may grow, and how far its trackers count.
pub mod limits {
    pub use dmc_driver_threads::limits::Limits;
}

/// What time it is, for the workers of a run.
pub mod moments {
    pub use dmc_driver_threads::moments::{Moments, StepClock};
}

/// What a server does with a request that its queue granted.
pub mod service {
    pub use dmc_driver_threads::service::{Job, ServeFault, Service};
}

/// What is proved of a run beside its own contract.
pub mod laws {
    pub use dmc_settle::settle::settle_cluster;
}
