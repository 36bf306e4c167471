#![tactic(auto)]

// Theorems of the seeded draws, and no code: see proofs/Theorems.antt.
