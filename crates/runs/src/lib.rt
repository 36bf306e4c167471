#![tactic(auto)]

// The twelve small runs of docs/REFERENCE.md. What they say stands in specs/, and that it holds in proofs/.
