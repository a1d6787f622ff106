//! The queue and the trackers for back ends in C and C++: the exports that `c/dmclock.h` declares.
//!
//! Each export is one call of a queue over heaps, of a service tracker, or of a shard tracker. None assumes anything of its arguments but what
//! their types say. What is not `DMC_OK` leaves what is held as it was, and writes nothing.
#![tactic(auto)]

mod fault;
mod handle;
mod kept;
mod loose;
mod outputs;
mod queue;
mod rates;
mod reading;
mod shards;
#[cfg(test)]
mod tests;
mod tracker;
