#![tactic(auto)]

// The graph in the layout that the Rust has, and that it stands for the same as the five lists; no code: see specs/Numbered.antt and
// proofs/Theorems.antt.
