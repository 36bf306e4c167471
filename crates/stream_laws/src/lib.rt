#![tactic(auto)]

// Theorems of the record stream, and no code: see proofs/Theorems.antt and proofs/ShotsTheorems.antt.
