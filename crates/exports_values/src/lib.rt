// Inner: how answers and settings pass through the C calling convention, for `exports` alone: as numbers, and in lists of fixed length.
#![tactic(auto)]

pub mod answers;
pub mod given;
pub mod told;
