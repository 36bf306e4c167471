#![tactic(auto)]

// Theorems of Relay's calls, and no code: see proofs/Theorems.antt.
