//! Tests of a queue's lock, which threads share. They are in a crate above it, so that it is proved once.
#![tactic(auto)]

#[cfg(test)]
mod auditing;
#[cfg(test)]
mod both_indexes;
#[cfg(test)]
mod calls;
#[cfg(test)]
mod circle;
#[cfg(test)]
mod joining;
#[cfg(test)]
mod refusals;
#[cfg(test)]
mod same;
#[cfg(test)]
mod settling;
#[cfg(test)]
mod setup;
#[cfg(test)]
mod shard_workers;
#[cfg(test)]
mod shards;
#[cfg(test)]
mod threads;
#[cfg(test)]
mod waiting;
