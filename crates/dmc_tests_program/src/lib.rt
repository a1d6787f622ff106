//! Tests of the program's tools, on the examples and over streams that fail, and of whole runs in threads.
#![tactic(auto)]

#[cfg(test)]
mod choosing_examples;
#[cfg(test)]
mod clusters;
#[cfg(test)]
mod event_examples;
#[cfg(test)]
mod examples;
#[cfg(test)]
mod files;
#[cfg(test)]
mod progress;
#[cfg(test)]
mod queues;
#[cfg(test)]
mod remarks;
#[cfg(test)]
mod replays;
#[cfg(test)]
mod run_examples;
#[cfg(test)]
mod runs;
#[cfg(test)]
mod same;
#[cfg(test)]
mod sim_examples;
#[cfg(test)]
mod stream_tests;
#[cfg(test)]
mod thousand;
#[cfg(test)]
mod words;
