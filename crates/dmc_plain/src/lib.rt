//! The reference queue: the rules of dmClock over one list of clients, each with its requests, as the definitions state them.
#![tactic(auto)]

mod best;
mod cancelling;
mod changes;
mod cleaning;
mod client;
mod clients;
mod due;
pub mod queue;
mod requests;
