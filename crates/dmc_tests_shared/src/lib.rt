//! Tests of the books of queues and trackers, of a tracker's lock, and of what a cluster's threads leave. They are in a crate above
//! these, so that these are proved once.
#![tactic(auto)]

#[cfg(test)]
mod books;
#[cfg(test)]
mod clusters;
#[cfg(test)]
mod costs;
#[cfg(test)]
mod growths;
#[cfg(test)]
mod refusals;
#[cfg(test)]
mod same;
#[cfg(test)]
mod segments;
#[cfg(test)]
mod settling;
#[cfg(test)]
mod standbys;
#[cfg(test)]
mod tracker_books;
#[cfg(test)]
mod tracker_refusals;
#[cfg(test)]
mod tracker_segments;
#[cfg(test)]
mod tracker_skips;
#[cfg(test)]
mod tracker_tests;
