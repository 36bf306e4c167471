// Inner: what an iteration of min-sum is made of: `min_sum` alone calls it. What it means, and the run that it is part of, stands in
// specs/.
#![tactic(auto)]

mod check;
pub mod pass;
pub mod variable;
