//! Tests of tags, queues, trackers, ledgers, histories, texts, scenes, plans and the cluster core, and of what they are made of.
//! They are in a crate above these, so that these are proved once.
#![tactic(auto)]

#[cfg(test)]
mod alike;
#[cfg(test)]
mod core_cancels;
#[cfg(test)]
mod core_costs;
#[cfg(test)]
mod core_refusals;
#[cfg(test)]
mod cores;
#[cfg(test)]
mod events;
#[cfg(test)]
mod failures;
#[cfg(test)]
mod growths;
#[cfg(test)]
mod heads;
#[cfg(test)]
mod heaps;
#[cfg(test)]
mod histories;
#[cfg(test)]
mod ignored_keys;
#[cfg(test)]
mod indexes;
#[cfg(test)]
mod kinds;
#[cfg(test)]
mod ledgers;
#[cfg(test)]
mod limits;
#[cfg(test)]
mod lines;
#[cfg(test)]
mod packed;
#[cfg(test)]
mod part_growths;
#[cfg(test)]
mod plans;
#[cfg(test)]
mod rates;
#[cfg(test)]
mod recorded;
#[cfg(test)]
mod records;
#[cfg(test)]
mod returned;
#[cfg(test)]
mod rosters;
#[cfg(test)]
mod runs;
#[cfg(test)]
mod same;
#[cfg(test)]
mod scenes;
#[cfg(test)]
mod shards;
#[cfg(test)]
mod standbys;
#[cfg(test)]
mod tags;
#[cfg(test)]
mod tracker_costs;
#[cfg(test)]
mod trackers;
#[cfg(test)]
mod written;
