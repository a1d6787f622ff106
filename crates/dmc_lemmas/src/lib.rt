//! Lemmas of lists, options, tests and orderings, which the proofs of every crate may cite. It has no code.
#![tactic(auto)]
