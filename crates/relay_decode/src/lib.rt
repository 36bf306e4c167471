// Inner: a decode past its tests, leg after leg, and its tests: `relay` alone calls it.
#![tactic(auto)]

pub mod all_legs;
pub mod counted;
pub mod decode_tests;
