// One leg of a decode: its gammas, its start, its iterations, and its record. The hard decision is taken in the leg's own row.
ghost use Rattle.std.specs.Prelude.{◌≡◌, [], ◌+◌, ◌*◌, ◌<◌, ◌≤◌, suc, length};
ghost use Rattle.graph_lists.specs.Messages.{by_place};
ghost use Rattle.numbers.specs.Limits.{max_count};
ghost use Rattle.graph_messages.specs.Needs.{PerEdge};
ghost use Rattle.graph_messages.specs.Sides.{checks_alone};
ghost use Rattle.relay_step.specs.Step.{state};
ghost use Rattle.relay_step.specs.Leg.{leg as leg_of, hard_decision, start_leg};
ghost use Rattle.relay_calls.specs.Decode.{iteration_limit, executed_leg};
ghost use Rattle.relay_record.specs.Kept.{best_of, kept, kept_with, row_after, kept_after, Blank, LegsLong, PerShot};
ghost use Rattle.relay_step.specs.Places.{LegLists};
ghost use Rattle.relay_leg.specs.Legs.{shot_by, LegReads};

use graph_messages::rows::Rows;
use graph_messages::{clear, from_variables};
use relay_gammas::prepare_gamma;
use relay_record::{Tally, record_leg};
use relay_settings::Settings;
use relay_step::leg::{Leg, run_leg};

// `iteration_limit`.
fn iteration_limit(t: Settings, leg: usize) -> usize
    ensures { result ≡ iteration_limit t leg }
{
    if leg == 0 {
        return t.pre_iterations;
    }
    t.leg_iterations
}

// `start_leg`: check messages cleared, variable messages at the priors.
fn start_leg(checks: &Rows<'_>, priors: &[f64], c_to_v: &mut [f64], v_to_c: &mut [f64])
    requires priors_len { length priors.now ≡ checks.now.n }
    requires per_edge { PerEdge (length checks.now.entries.now) c_to_v.old v_to_c.old }
    ensures { state c_to_v.new v_to_c.new [] ≡ start_leg (checks_alone checks.now) priors.now [] }
{
    clear(c_to_v);
    from_variables(checks.entries, priors, v_to_c);
}

// One executed leg, from the posterior that the legs before it left.
fn execute_leg(
    leg: usize,
    t: Settings,
    gammas: &[f64],
    seed: u64,
    syndrome: &[u8],
    priors: &[f64],
    checks: &Rows<'_>,
    variables: &Rows<'_>,
    order: &[u32],
    gamma: &mut [f64],
    bias: &mut [f64],
    c_to_v: &mut [f64],
    v_to_c: &mut [f64],
    posterior: &mut [f64],
    bits: &mut [u8],
) -> Leg
    requires reads { LegReads t gammas.now syndrome.now priors.now checks.now variables.now order.now }
    requires leg_bound { leg ≤ t.num_legs }
    requires leg_lists { LegLists variables.now.rows gamma.old bias.old posterior.old bits.old }
    requires per_edge { PerEdge variables.now.n c_to_v.old v_to_c.old }
    ensures ran { let x = shot_by t gammas.now seed syndrome.now priors.now checks.now
        variables.now order.now in
        let after = state c_to_v.new v_to_c.new posterior.new in
        leg_of result.converged result.iterations after ≡ executed_leg by_place x leg posterior.old }
    ensures bits { bits.new ≡ hard_decision posterior.new }
    ensures few { result.iterations ≤ max_count }
{
    let schedule = t.schedule;
    let alpha = t.alpha;
    let clip = t.clip;
    let limit = iteration_limit(t, leg);
    prepare_gamma(t, gammas, seed, leg, gamma);
    start_leg(checks, priors, c_to_v, v_to_c);
    run_leg(
        limit, schedule, alpha, clip, syndrome, priors, gamma, checks, variables, order, bias,
        c_to_v, v_to_c, posterior, bits,
    )
}

// A leg, run and recorded, with its hard decision in the row lent to it.
fn leg_in_row(
    leg: usize,
    tally: Tally,
    t: Settings,
    gammas: &[f64],
    seed: u64,
    syndrome: &[u8],
    priors: &[f64],
    checks: &Rows<'_>,
    variables: &Rows<'_>,
    order: &[u32],
    leg_state: &mut [u8],
    leg_iterations: &mut [u32],
    leg_weight: &mut [f64],
    row: &mut [u8],
    correction: &mut [u8],
    posterior: &mut [f64],
    gamma: &mut [f64],
    bias: &mut [f64],
    c_to_v: &mut [f64],
    v_to_c: &mut [f64],
) -> Tally
    requires reads { LegReads t gammas.now syndrome.now priors.now checks.now variables.now order.now }
    requires leg_bound { (leg ≤ t.num_legs) × (tally.num_converged ≤ suc max_count) × (tally.total_iterations ≤ suc max_count * max_count) }
    requires leg_in_bounds { (leg < length leg_state.old) × (leg < length leg_iterations.old) × (leg < length leg_weight.old) }
    requires row_len { length row.old ≡ variables.now.rows }
    requires per_shot { PerShot variables.now.rows correction.old posterior.old gamma.old bias.old }
    requires per_edge { PerEdge variables.now.n c_to_v.old v_to_c.old }
    ensures turn { let x = shot_by t gammas.now seed syndrome.now priors.now checks.now
        variables.now order.now in
        let before = kept (best_of tally.best) tally.num_converged tally.total_iterations leg
        leg_state.old leg_iterations.old leg_weight.old [] correction.old [] in
        let leg' = executed_leg by_place x leg posterior.old in
        kept (best_of result.best) result.num_converged result.total_iterations (suc leg) leg_state.new
        leg_iterations.new leg_weight.new row.new correction.new posterior.new
        ≡ kept_with x before leg leg' (row_after x leg') }
    ensures few { (result.num_converged ≤ tally.num_converged + 1) × (result.total_iterations ≤ tally.total_iterations + max_count) }
{
    let l = execute_leg(
        leg, t, gammas, seed, syndrome, priors, checks, variables, order, gamma, bias, c_to_v,
        v_to_c, posterior, row,
    );
    record_leg(
        leg,
        l,
        tally,
        priors,
        row,
        correction,
        leg_state,
        leg_iterations,
        leg_weight,
    )
}

// The leg's row, lent on from its place in the flat list.
pub fn next_leg(
    leg: usize,
    tally: Tally,
    t: Settings,
    gammas: &[f64],
    seed: u64,
    syndrome: &[u8],
    priors: &[f64],
    checks: &Rows<'_>,
    variables: &Rows<'_>,
    order: &[u32],
    leg_state: &mut [u8],
    leg_iterations: &mut [u32],
    leg_weight: &mut [f64],
    rows: &mut [u8],
    correction: &mut [u8],
    posterior: &mut [f64],
    gamma: &mut [f64],
    bias: &mut [f64],
    c_to_v: &mut [f64],
    v_to_c: &mut [f64],
) -> Tally
    requires reads { LegReads t gammas.now syndrome.now priors.now checks.now variables.now order.now }
    requires leg_bound { (leg ≤ t.num_legs) × (tally.num_converged ≤ suc max_count) × (tally.total_iterations ≤ suc max_count * max_count) }
    requires legs_long { LegsLong (suc t.num_legs) variables.now.rows leg_state.old leg_iterations.old leg_weight.old rows.old }
    requires blank_2 { Blank (leg * variables.now.rows) rows.old }
    requires per_shot { PerShot variables.now.rows correction.old posterior.old gamma.old bias.old }
    requires per_edge { PerEdge variables.now.n c_to_v.old v_to_c.old }
    ensures turn { let x = shot_by t gammas.now seed syndrome.now priors.now checks.now
        variables.now order.now in
        let before = kept (best_of tally.best) tally.num_converged tally.total_iterations leg
        leg_state.old leg_iterations.old leg_weight.old rows.old
        correction.old posterior.old in
        let leg' = executed_leg by_place x leg posterior.old in
        kept (best_of result.best) result.num_converged result.total_iterations (suc leg) leg_state.new
        leg_iterations.new leg_weight.new rows.new correction.new posterior.new
        ≡ kept_after x before leg leg' }
    ensures blank { Blank (leg * variables.now.rows + variables.now.rows) rows.new }
    ensures few { (result.num_converged ≤ tally.num_converged + 1) × (result.total_iterations ≤ tally.total_iterations + max_count) }
{
    let start = leg * variables.rows;
    let end = start + variables.rows;
    leg_in_row(
        leg,
        tally,
        t,
        gammas,
        seed,
        syndrome,
        priors,
        checks,
        variables,
        order,
        leg_state,
        leg_iterations,
        leg_weight,
        &mut rows[start..end],
        correction,
        posterior,
        gamma,
        bias,
        c_to_v,
        v_to_c,
    )
}
