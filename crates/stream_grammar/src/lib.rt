// Inner: the grammar of the record stream: 41 to 45, test by test, and the fields of payloads. `stream_reader`, `stream_table`
// and `stream_session` alone call it. What they mean stands in specs/.
#![tactic(auto)]

pub mod fields;
pub mod rules;

// A model's counts.
#[derive(Clone, Copy)]
pub struct Counts {
    pub checks: usize,
    pub mechanisms: usize,
    pub edges: usize,
}
