//! Why a pull through the lock has no reply of the queue: a fault of the call, or a refusal `Range` of the rules.
pub use dmc_book::fault::RunOrRange;
