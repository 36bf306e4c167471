// Inner: one leg of a decode, with its record in its place: `relay_decode` alone calls it.
#![tactic(auto)]

pub mod one_leg;
