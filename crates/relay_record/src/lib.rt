// Inner: a leg's record and what is kept between legs, and what a decode answers after them: `relay_leg` and `relay_decode` alone call it.
#![tactic(auto)]

ghost use Rattle.std.specs.Prelude.{◌≡◌, true, ◌||◌, not, cond, suc, ◌+◌, ◌*◌, ◌<◌, ◌≤◌, leb, length, set, replicate};
ghost use Rattle.numbers.specs.Limits.{max_count};
ghost use Rattle.std.specs.Prelude.{Ok};
ghost use Rattle.refusals.specs.Tests.{is_done};
ghost use Rattle.relay_step.specs.Leg.{correction_weight};
ghost use Rattle.relay_stores.specs.Stores.{max_stores};
ghost use Rattle.relay_calls.specs.Records.{values_of, record_of_leg};
ghost use Rattle.relay_calls.specs.Decode.{is_none_or};
ghost use Rattle.relay_record.specs.Kept.{best_of, best_after, corrected, answer_by};

use graph_lists::lists::copy;
use refusals::Refusal;
use relay_calls::Decoded;
use relay_step::leg::{Leg, correction_weight};

// What is kept between legs beside the lists: the least weight of a leg that converged, once there is one, and the counts.
#[derive(Clone, Copy)]
pub struct Tally {
    pub best: Option<f64>,
    pub num_converged: usize,
    pub total_iterations: usize,
}

// `best_weight.is_none_or(|current| weight < current)`.
fn is_better(best: Option<f64>, weight: f64) -> bool
    ensures { result ≡ is_none_or (best_of best) weight }
{
    best.is_none_or(|current| weight < current)
}

// A leg that converged with this weight: the least weight wins, the earlier leg on ties.
fn keep_least(
    tally: Tally,
    iterations: usize,
    weight: f64,
    row: &[u8],
    correction: &mut [u8],
) -> Tally
    requires num_converged_bound { (tally.num_converged ≤ suc max_count)
        × (tally.total_iterations ≤ suc max_count * max_count)
        × (iterations ≤ max_count) }
    requires correction_len { length correction.old ≡ length row.now }
    ensures best { best_of result.best ≡ best_after true (best_of tally.best) weight }
    ensures counts { (result.num_converged ≡ tally.num_converged + 1) × (result.total_iterations ≡ tally.total_iterations + iterations) }
    ensures correction { correction.new
        ≡ corrected true (best_of tally.best) weight row.now correction.old }
{
    let mut best = tally.best;
    if is_better(best, weight) {
        copy(row, correction);
        best = Some(weight);
    }
    Tally {
        best,
        num_converged: tally.num_converged + 1,
        total_iterations: tally.total_iterations + iterations,
    }
}

// Without convergence so far the last hard decision is the correction.
fn keep_last(found: bool, row: &[u8], correction: &mut [u8])
    requires { length correction.old ≡ length row.now }
    ensures { correction.new ≡ cond found correction.old row.now }
{
    if !found {
        copy(row, correction);
    }
}

// A leg's entries in the leg lists.
fn write_leg(
    leg: usize,
    state: u8,
    iterations: usize,
    weight: f64,
    leg_state: &mut [u8],
    leg_iterations: &mut [u32],
    leg_weight: &mut [f64],
)
    requires { (leg < length leg_state.old)
        × (leg < length leg_iterations.old)
        × (leg < length leg_weight.old)
        × (iterations ≤ max_count) }
    ensures { (leg_state.new ≡ set leg_state.old leg state)
        × (leg_iterations.new ≡ set leg_iterations.old leg iterations)
        × (leg_weight.new ≡ set leg_weight.old leg weight) }
{
    leg_state[leg] = state;
    leg_iterations[leg] = iterations as u32;
    leg_weight[leg] = weight;
}

// A leg that has run, its hard decision in its row: what it adds to the records. The row of one that ran out is zero.
pub fn record_leg(
    leg: usize,
    l: Leg,
    tally: Tally,
    priors: &[f64],
    row: &mut [u8],
    correction: &mut [u8],
    leg_state: &mut [u8],
    leg_iterations: &mut [u32],
    leg_weight: &mut [f64],
) -> Tally
    requires num_converged_bound { (tally.num_converged ≤ suc max_count)
        × (tally.total_iterations ≤ suc max_count * max_count)
        × (l.iterations ≤ max_count) }
    requires row_len { (length row.old ≡ length priors.now) × (length correction.old ≡ length priors.now) }
    requires leg_in_bounds { (leg < length leg_state.old) × (leg < length leg_iterations.old) × (leg < length leg_weight.old) }
    ensures best { best_of result.best
        ≡ best_after l.converged (best_of tally.best)
        (correction_weight priors.now row.old (length priors.now)) }
    ensures counts { (result.num_converged ≡ tally.num_converged + cond l.converged 1 0)
        × (result.total_iterations ≡ tally.total_iterations + l.iterations) }
    ensures entries { let weight = correction_weight priors.now row.old (length priors.now) in
        let values = values_of (record_of_leg l.converged weight l.iterations) in
        (leg_state.new ≡ set leg_state.old leg values.leg_state)
        × (leg_iterations.new ≡ set leg_iterations.old leg values.leg_iterations)
        × (leg_weight.new ≡ set leg_weight.old leg values.leg_weight) }
    ensures row { row.new ≡ cond l.converged row.old (replicate (length row.old) 0) }
    ensures correction { correction.new
        ≡ corrected l.converged (best_of tally.best)
        (correction_weight priors.now row.old (length priors.now)) row.old
        correction.old }
{
    if l.converged {
        let weight = correction_weight(priors, row);
        write_leg(
            leg,
            2,
            l.iterations,
            weight,
            leg_state,
            leg_iterations,
            leg_weight,
        );
        return keep_least(tally, l.iterations, weight, row, correction);
    }
    write_leg(
        leg,
        1,
        l.iterations,
        0.0,
        leg_state,
        leg_iterations,
        leg_weight,
    );
    keep_last(tally.best.is_some(), row, correction);
    row.fill(0);
    Tally {
        total_iterations: tally.total_iterations + l.iterations,
        ..tally
    }
}

// What a run answers: its counts, with the weight where a leg converged. `each` is how many messages an iteration writes.
pub fn answer_run(
    best: Option<f64>,
    executed_legs: usize,
    total_iterations: usize,
    each: u64,
) -> Result<Decoded, Refusal>
    requires { total_iterations * each ≤ max_stores }
    ensures { result ≡ answer_by (Ok tt) (best_of best) executed_legs total_iterations (total_iterations * each) }
{
    let stores = total_iterations as u64 * each;
    match best {
        Some(weight) => Ok(Decoded::Converged {
            executed_legs,
            total_iterations,
            stores,
            weight,
        }),
        None => Ok(Decoded::NotConverged {
            executed_legs,
            total_iterations,
            stores,
        }),
    }
}

// What is answered after a leg that is the last: 30, or the run.
pub fn answer(
    a: Result<(), Refusal>,
    best: Option<f64>,
    executed_legs: usize,
    total_iterations: usize,
    each: u64,
) -> Result<Decoded, Refusal>
    requires { total_iterations * each ≤ max_stores }
    ensures { result ≡ answer_by a (best_of best) executed_legs total_iterations (total_iterations * each) }
{
    match a {
        Err(r) => Err(r),
        Ok(()) => answer_run(best, executed_legs, total_iterations, each),
    }
}

// No leg follows: 30, or enough have converged.
pub fn ends(a: Result<(), Refusal>, stop: usize, num_converged: usize) -> bool
    ensures { result ≡ (not (is_done a) || leb stop num_converged) }
{
    a.is_err() || stop <= num_converged
}
