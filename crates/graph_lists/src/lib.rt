// Inner: lists of indices, and a copy, for all inner crates, and the five lists of a model that has passed its tests, which `graph` alone
// builds. What graphs and models mean, and the tests of both, stands in specs/.
#![tactic(auto)]

mod buckets;
pub mod build;
pub mod dense;
pub mod indices;
pub mod lists;

// How many checks, mechanisms and edges a model has.
#[derive(Clone, Copy)]
pub struct Size {
    pub checks: usize,
    pub mechanisms: usize,
    pub edges: usize,
}
