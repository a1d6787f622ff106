//! dmClock for storage back ends: what a back end uses, in one crate. It has no code of its own.
#![tactic(auto)]

pub mod laws;
pub mod locks;
pub mod shards;

pub use dmc_check::check::{Verdict, check};
pub use dmc_check::replayer::{ReplayFault, Replayer};
pub use dmc_check::write::{write_events, write_segment};
pub use dmc_heap::adaptive_index::HeapIndexes;
pub use dmc_heap::tick_indexes::TickIndexes;
pub use dmc_history::{History, LimitFault, ReserveFault};
pub use dmc_index::index::{Indexes, OrderIndex};
pub use dmc_pull::granting::{GrantTest, PullFault};
pub use dmc_pull::queue::PullQueue;
pub use dmc_queue_history::history::EventHistory;
pub use dmc_queue_history::list::EventList;
pub use dmc_ratio::ratio::RatioTag;
pub use dmc_tag::event::Event;
pub use dmc_tag::reply::{Pulled, Reply, Tags};
pub use dmc_tag::scheduler::Scheduler;
pub use dmc_tag::tag::Tag;
pub use dmc_text::tag::TagText;
pub use dmc_text::write_line::{write_command, write_config, write_event, write_header};
pub use dmc_tick::tick::TickTag;
pub use dmc_tracker::tracker::{MakeFault, ServiceTracker, TrackFault};
pub use dmc_types::clock::nanos_until;
pub use dmc_types::command::Command;
pub use dmc_types::config::{AtLimit, Counting, PhaseType, QueueConfig, Shares};
pub use dmc_types::cost::Cost;
pub use dmc_types::ids::{ClientId, ServerId, Token, WorkerId};
pub use dmc_types::info::ClientInfo;
pub use dmc_types::limits;
pub use dmc_types::moment::Moment;
pub use dmc_types::params::ReqParams;
pub use dmc_types::rates::{FINE_HZ, rate_at_least, rate_at_most};
pub use dmc_types::refusal::{Field, QueueFault, Refusal, ValueFault};

/// A queue over heaps whose tags are whole ticks: each rate has to divide the configuration's hz.
pub type TickQueue = PullQueue<TickTag, TickIndexes>;

/// A queue over heaps whose tags are fractions of ticks: any rate does, and a grant costs more.
pub type RatioQueue = PullQueue<RatioTag, HeapIndexes>;
