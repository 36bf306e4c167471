#![tactic(auto)]

// Theorems of the graph's calls that no proof needs, and no code: see proofs/Theorems.antt.
