//! A whole cluster: a scene read from its text, its run in threads, the settling of what the threads left, and the cluster core on
//! one thread. It has no code of its own. A back end that has threads of its own needs the crate `dmclock` alone.
#![tactic(auto)]

pub use dmc_core::cluster_core::ClusterCore;
pub use dmc_core::event::{CoreEvent, CoreFault, CoreReply, Message};
/// What is proved of every cluster run: each server's history replays, and what it grants keeps to limits and reservations,
/// counted at all servers.
pub use dmc_core_laws::laws;
pub use dmc_driver::fault::DriveFault;
pub use dmc_driver::limits::Limits;
pub use dmc_driver::moments::{Moments, StepClock};
pub use dmc_driver::run::{run_cluster, run_limited, settle_run};
pub use dmc_driver::service::{Job, ServeFault, Service};
pub use dmc_driver_threads::remains::Remains;
pub use dmc_ratio::ratio::RatioTag;
pub use dmc_scene::client::SceneClient;
pub use dmc_scene::costs::CostList;
pub use dmc_scene::fault::SceneFault;
pub use dmc_scene::key::Key;
pub use dmc_scene::scene::{Scene, read_scene};
pub use dmc_settle::report::{
    ClientReport, ClusterReport, ServerReport, StampsLeft, StopCause, UnitsHeld,
};
pub use dmc_settle::room::SettleRoom;
pub use dmc_settle::settle::{Passes, Torn, settle_cluster};
pub use dmc_tag::reply::Reply;
pub use dmc_tag::tag::Tag;
pub use dmc_tick::tick::TickTag;
pub use dmc_types::config::TagKind;
pub use dmc_types::cost::Cost;
pub use dmc_types::ids::{ClientId, ServerId, Token};
pub use dmc_types::moment::Moment;
