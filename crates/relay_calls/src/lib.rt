// Inner: what the calls of `relay` answer, the tests and the step of a single iteration, and the values of a leg's record: `relay` and its
// inner crates alone call it. All definitions of the calls stand in specs/.
#![tactic(auto)]

pub mod iterate;
pub mod tests;

ghost use Rattle.std.specs.Prelude.{◌≡◌};
ghost use Rattle.relay_calls.specs.Records.{record_of};

// What a decode found, with the number of messages that its iterations wrote. The corrections, the posterior and the legs' records are in
// the lent lists.
#[derive(Clone, Copy)]
pub enum Decoded {
    Converged {
        executed_legs: usize,
        total_iterations: usize,
        stores: u64,
        weight: f64,
    },
    NotConverged {
        executed_legs: usize,
        total_iterations: usize,
        stores: u64,
    },
}

// A leg's record, read out of the leg lists.
#[derive(Clone, Copy)]
pub enum LegRecord {
    Converged { weight: f64, iterations: usize },
    RanOut { iterations: usize },
    NotExecuted,
}

// What a leg's state, iterations and weight say.
pub fn record_of(state: u8, iterations: usize, weight: f64) -> LegRecord
    ensures { result ≡ record_of state iterations weight }
{
    match state {
        1 => LegRecord::RanOut { iterations },
        2 => LegRecord::Converged { weight, iterations },
        _ => LegRecord::NotExecuted,
    }
}
