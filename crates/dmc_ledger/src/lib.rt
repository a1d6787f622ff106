//! Counts that threads carry as tokens, so that what was counted in many threads can be proved equal to one total. It is std's
//! `sync::ledger`, with books that have numbers. Nothing here allocates; at run time a book is four numbers and a till two.
#![tactic(auto)]

pub mod book;
pub mod bundle;
pub mod desk;
pub mod full;
pub mod growing;
pub mod mint;
pub mod setup;
pub mod stamp;
pub mod till;
mod token;
pub mod unit;
