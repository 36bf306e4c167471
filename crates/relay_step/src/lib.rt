// Inner: what an iteration and a leg of Relay are made of: `relay_calls`, `relay_record` and `relay_leg` alone call it. What they mean
// stands in specs/.
#![tactic(auto)]

pub mod leg;
pub mod step;
mod variable;
