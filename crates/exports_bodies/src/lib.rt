// Inner: the bodies of the exported calls, for `exports` alone: numbers and slices in, the call that is handed on, its answer as numbers
// and lists out.
#![tactic(auto)]

pub mod beliefs;
pub mod decodes;
pub mod graphs;
pub mod legs;
pub mod point;
pub mod priors;
pub mod sessions;
pub mod steps;
