// A decode past 24: 29, leg after leg, the end of the legs, and the lists that are zeroed.
ghost use Rattle.std.specs.Prelude.{◌≡◌, false, cond, ◌*◌, ◌≤◌, suc, length, replicate};
ghost use Rattle.graph_lists.specs.Messages.{by_place};
ghost use Rattle.numbers.specs.Floats.{zero⁺};
ghost use Rattle.numbers.specs.Limits.{max_edges};
ghost use Rattle.relay_stores.specs.Stores.{most_iterations, max_stores};
ghost use Rattle.relay_calls.specs.Decode.{decode_legs};
ghost use Rattle.relay_calls.specs.Calls.{decode_outcome, after_legs, decode_lists};
ghost use Rattle.relay_calls.specs.Formula.{stores_in, taken_leaves};
ghost use Rattle.relay_leg.specs.Legs.{shot_by, LegReads};
ghost use Rattle.relay_record.specs.Kept.{shot_of, Reads, answer_of, is_refused, results, results_of, started, LegsFit, LegsLong, PerShot};
ghost use Rattle.graph_messages.specs.Needs.{PerEdge};

use graph_lists::lists::copy;
use graph_messages::rows::Rows;
use graph_messages::{clear, first_not_finite};
use refusals::Refusal;
use relay_calls::Decoded;
use relay_leg::one_leg::next_leg;
use relay_record::{Tally, answer, answer_run, ends};
use relay_settings::Settings;
use relay_stores::{stores_each, stores_fit};

// Leg after leg, from the posterior and the empty records that are lent. After a refusal the lists hold what the legs left.
fn run_legs(
    t: Settings,
    gammas: &[f64],
    seed: u64,
    syndrome: &[u8],
    priors: &[f64],
    checks: &Rows<'_>,
    variables: &Rows<'_>,
    order: &[u32],
    leg_state: &mut [u8],
    leg_iterations: &mut [u32],
    leg_weight: &mut [f64],
    rows: &mut [u8],
    correction: &mut [u8],
    posterior: &mut [f64],
    gamma: &mut [f64],
    bias: &mut [f64],
    c_to_v: &mut [f64],
    v_to_c: &mut [f64],
    each: u64,
) -> Result<Decoded, Refusal>
    requires reads { LegReads t gammas.now syndrome.now priors.now checks.now variables.now order.now }
    requires legs_long { LegsLong (suc t.num_legs) variables.now.rows leg_state.old leg_iterations.old leg_weight.old rows.old }
    requires per_shot { PerShot variables.now.rows correction.old posterior.old gamma.old bias.old }
    requires per_edge { PerEdge variables.now.n c_to_v.old v_to_c.old }
    requires each_bound { most_iterations t * each ≤ max_stores }
    requires posterior_value { let x = shot_by t gammas.now seed syndrome.now priors.now checks.now
        variables.now order.now in
        results leg_state.old leg_iterations.old leg_weight.old rows.old correction.old posterior.old
        ≡ started x }
    ensures answer { let x = shot_by t gammas.now seed syndrome.now priors.now checks.now
        variables.now order.now in
        let end = decode_legs by_place x in
        result ≡ answer_of each end }
    ensures left { let x = shot_by t gammas.now seed syndrome.now priors.now checks.now
        variables.now order.now in
        let end = decode_legs by_place x in
        (is_refused result ≡ false
        → results leg_state.new leg_iterations.new leg_weight.new rows.new
        correction.new posterior.new
        ≡ results_of x end) }
{
    let legs = t.num_legs + 1;
    let stop = t.stop_after_converged;
    let mut tally = Tally {
        best: None,
        num_converged: 0,
        total_iterations: 0,
    };
    for leg in 0..legs {
        tally = next_leg(
            leg,
            tally,
            t,
            gammas,
            seed,
            syndrome,
            priors,
            checks,
            variables,
            order,
            leg_state,
            leg_iterations,
            leg_weight,
            rows,
            correction,
            posterior,
            gamma,
            bias,
            c_to_v,
            v_to_c,
        );
        let a = first_not_finite(posterior);
        if ends(a, stop, tally.num_converged) {
            return answer(a, tally.best, leg + 1, tally.total_iterations, each);
        }
    }
    answer_run(tally.best, legs, tally.total_iterations, each)
}

// The records of all legs, and the correction, zeroed.
fn clear_records(
    leg_state: &mut [u8],
    leg_iterations: &mut [u32],
    leg_weight: &mut [f64],
    rows: &mut [u8],
    correction: &mut [u8],
)
    ensures { (leg_state.new ≡ replicate (length leg_state.old) 0)
        × (leg_iterations.new ≡ replicate (length leg_iterations.old) 0)
        × (leg_weight.new ≡ replicate (length leg_weight.old) zero⁺)
        × (rows.new ≡ replicate (length rows.old) 0)
        × (correction.new ≡ replicate (length correction.old) 0) }
{
    leg_state.fill(0);
    leg_iterations.fill(0);
    clear(leg_weight);
    rows.fill(0);
    correction.fill(0);
}

// The work lists, zeroed.
fn clear_work(gamma: &mut [f64], bias: &mut [f64], c_to_v: &mut [f64], v_to_c: &mut [f64])
    ensures { (gamma.new ≡ replicate (length gamma.old) zero⁺)
        × (bias.new ≡ replicate (length bias.old) zero⁺)
        × (c_to_v.new ≡ replicate (length c_to_v.old) zero⁺)
        × (v_to_c.new ≡ replicate (length v_to_c.old) zero⁺) }
{
    clear(gamma);
    clear(bias);
    clear(c_to_v);
    clear(v_to_c);
}

// Whether a decode is refused.
fn is_refused(d: Result<Decoded, Refusal>) -> bool
    ensures { result ≡ is_refused d }
{
    d.is_err()
}

// 30 zeroes the result lists.
fn end_legs(
    d: Result<Decoded, Refusal>,
    leg_state: &mut [u8],
    leg_iterations: &mut [u32],
    leg_weight: &mut [f64],
    rows: &mut [u8],
    correction: &mut [u8],
    posterior: &mut [f64],
)
    ensures { let before = results leg_state.old leg_iterations.old leg_weight.old rows.old
        correction.old posterior.old in
        let before' = results (replicate (length leg_state.old) 0) (replicate (length leg_iterations.old) 0)
        (replicate (length leg_weight.old) zero⁺) (replicate (length rows.old) 0)
        (replicate (length correction.old) 0) (replicate (length posterior.old) zero⁺) in
        results leg_state.new leg_iterations.new leg_weight.new rows.new
        correction.new posterior.new
        ≡ cond (is_refused d) before' before }
{
    if !is_refused(d) {
        return;
    }
    clear_records(leg_state, leg_iterations, leg_weight, rows, correction);
    clear(posterior);
}

// The legs between a cleared start and a cleared end: records of num_legs + 1 legs.
fn run_shot(
    t: Settings,
    gammas: &[f64],
    seed: u64,
    syndrome: &[u8],
    priors: &[f64],
    checks: &Rows<'_>,
    variables: &Rows<'_>,
    order: &[u32],
    leg_state: &mut [u8],
    leg_iterations: &mut [u32],
    leg_weight: &mut [f64],
    rows: &mut [u8],
    correction: &mut [u8],
    posterior: &mut [f64],
    gamma: &mut [f64],
    bias: &mut [f64],
    c_to_v: &mut [f64],
    v_to_c: &mut [f64],
    each: u64,
) -> Result<Decoded, Refusal>
    requires reads { LegReads t gammas.now syndrome.now priors.now checks.now variables.now order.now }
    requires legs_long { LegsLong (suc t.num_legs) variables.now.rows leg_state.old leg_iterations.old leg_weight.old rows.old }
    requires per_shot { PerShot variables.now.rows correction.old posterior.old gamma.old bias.old }
    requires per_edge { PerEdge variables.now.n c_to_v.old v_to_c.old }
    requires each_bound { most_iterations t * each ≤ max_stores }
    ensures answer { let x = shot_by t gammas.now seed syndrome.now priors.now checks.now
        variables.now order.now in
        let end = decode_legs by_place x in
        result ≡ answer_of each end }
    ensures left { let x = shot_by t gammas.now seed syndrome.now priors.now checks.now
        variables.now order.now in
        let end = decode_legs by_place x in
        results leg_state.new leg_iterations.new leg_weight.new rows.new
        correction.new posterior.new
        ≡ results_of x end }
    ensures work { (gamma.new ≡ replicate variables.now.rows zero⁺)
        × (bias.new ≡ replicate variables.now.rows zero⁺)
        × (c_to_v.new ≡ replicate variables.now.n zero⁺)
        × (v_to_c.new ≡ replicate variables.now.n zero⁺) }
{
    clear_records(leg_state, leg_iterations, leg_weight, rows, correction);
    copy(priors, posterior);
    let d = run_legs(
        t,
        gammas,
        seed,
        syndrome,
        priors,
        checks,
        variables,
        order,
        leg_state,
        leg_iterations,
        leg_weight,
        rows,
        correction,
        posterior,
        gamma,
        bias,
        c_to_v,
        v_to_c,
        each,
    );
    end_legs(
        d,
        leg_state,
        leg_iterations,
        leg_weight,
        rows,
        correction,
        posterior,
    );
    clear_work(gamma, bias, c_to_v, v_to_c);
    d
}

// The legs, over the fronts of leg lists that may be longer. `each` is how many messages an iteration writes.
fn decode_fronts(
    t: Settings,
    gammas: &[f64],
    seed: u64,
    syndrome: &[u8],
    priors: &[f64],
    checks: &Rows<'_>,
    variables: &Rows<'_>,
    order: &[u32],
    leg_state: &mut [u8],
    leg_iterations: &mut [u32],
    leg_weight: &mut [f64],
    rows: &mut [u8],
    correction: &mut [u8],
    posterior: &mut [f64],
    gamma: &mut [f64],
    bias: &mut [f64],
    c_to_v: &mut [f64],
    v_to_c: &mut [f64],
    each: u64,
) -> Result<Decoded, Refusal>
    requires reads { LegReads t gammas.now syndrome.now priors.now checks.now variables.now order.now }
    requires legs_fit { LegsFit (suc t.num_legs) variables.now.rows leg_state.old leg_iterations.old leg_weight.old rows.old }
    requires per_shot { PerShot variables.now.rows correction.old posterior.old gamma.old bias.old }
    requires per_edge { PerEdge variables.now.n c_to_v.old v_to_c.old }
    requires each_bound { most_iterations t * each ≤ max_stores }
    ensures { let x = shot_by t gammas.now seed syndrome.now priors.now checks.now
        variables.now order.now in
        let before = decode_lists leg_state.old leg_iterations.old leg_weight.old rows.old
        correction.old posterior.old gamma.old bias.old c_to_v.old
        v_to_c.old in
        let end = decode_legs by_place x in
        let after = decode_lists leg_state.new leg_iterations.new leg_weight.new rows.new
        correction.new posterior.new gamma.new bias.new c_to_v.new
        v_to_c.new in
        decode_outcome result after ≡ after_legs variables.now.n x end (stores_in each end) before }
{
    let legs = t.num_legs + 1;
    let cells = legs * variables.rows;
    run_shot(
        t,
        gammas,
        seed,
        syndrome,
        priors,
        checks,
        variables,
        order,
        &mut leg_state[0..legs],
        &mut leg_iterations[0..legs],
        &mut leg_weight[0..legs],
        &mut rows[0..cells],
        correction,
        posterior,
        gamma,
        bias,
        c_to_v,
        v_to_c,
        each,
    )
}

// A decode past 24, by the two sides of the graph: 29, then the legs.
pub(crate) fn decode_sides(
    t: Settings,
    gammas: &[f64],
    seed: u64,
    syndrome: &[u8],
    priors: &[f64],
    checks: &Rows<'_>,
    variables: &Rows<'_>,
    order: &[u32],
    leg_state: &mut [u8],
    leg_iterations: &mut [u32],
    leg_weight: &mut [f64],
    rows: &mut [u8],
    correction: &mut [u8],
    posterior: &mut [f64],
    gamma: &mut [f64],
    bias: &mut [f64],
    c_to_v: &mut [f64],
    v_to_c: &mut [f64],
) -> Result<Decoded, Refusal>
    requires reads { LegReads t gammas.now syndrome.now priors.now checks.now variables.now order.now }
    requires legs_fit { LegsFit (suc t.num_legs) variables.now.rows leg_state.old leg_iterations.old leg_weight.old rows.old }
    requires per_shot { PerShot variables.now.rows correction.old posterior.old gamma.old bias.old }
    requires per_edge { PerEdge variables.now.n c_to_v.old v_to_c.old }
    requires check_var_len_bound { (length checks.now.entries.now ≤ max_edges) × (length variables.now.entries.now ≤ max_edges) }
    ensures { let x = shot_by t gammas.now seed syndrome.now priors.now checks.now
        variables.now order.now in
        let before = decode_lists leg_state.old leg_iterations.old leg_weight.old rows.old
        correction.old posterior.old gamma.old bias.old c_to_v.old
        v_to_c.old in
        let after = decode_lists leg_state.new leg_iterations.new leg_weight.new rows.new
        correction.new posterior.new gamma.new bias.new c_to_v.new
        v_to_c.new in
        decode_outcome result after ≡ taken_leaves variables.now.n x before }
{
    let schedule = t.schedule;
    let each = stores_each(
        schedule,
        variables.rows,
        checks.entries,
        variables.entries,
        variables.offsets,
    );
    if !stores_fit(t, each) {
        return Err(Refusal::TooManyStores);
    }
    decode_fronts(
        t,
        gammas,
        seed,
        syndrome,
        priors,
        checks,
        variables,
        order,
        leg_state,
        leg_iterations,
        leg_weight,
        rows,
        correction,
        posterior,
        gamma,
        bias,
        c_to_v,
        v_to_c,
        each,
    )
}

// A decode past 24: 29, then the legs.
pub fn decode_taken(
    t: Settings,
    gammas: &[f64],
    seed: u64,
    syndrome: &[u8],
    priors: &[f64],
    check_var: &[u32],
    check_offset: &[u32],
    var_message: &[u32],
    var_offset: &[u32],
    order: &[u32],
    leg_state: &mut [u8],
    leg_iterations: &mut [u32],
    leg_weight: &mut [f64],
    rows: &mut [u8],
    correction: &mut [u8],
    posterior: &mut [f64],
    gamma: &mut [f64],
    bias: &mut [f64],
    c_to_v: &mut [f64],
    v_to_c: &mut [f64],
) -> Result<Decoded, Refusal>
    requires reads { Reads t gammas.now syndrome.now priors.now check_var.now check_offset.now var_message.now var_offset.now
        order.now }
    requires legs_fit { LegsFit (suc t.num_legs) (length priors.now) leg_state.old leg_iterations.old leg_weight.old rows.old }
    requires per_shot { PerShot (length priors.now) correction.old posterior.old gamma.old bias.old }
    requires per_edge { PerEdge (length check_var.now) c_to_v.old v_to_c.old }
    requires check_var_len_bound { (length check_var.now ≤ max_edges) × (length var_message.now ≤ max_edges) }
    ensures { let x = shot_of t gammas.now seed syndrome.now priors.now check_var.now
        check_offset.now var_message.now var_offset.now order.now in
        let before = decode_lists leg_state.old leg_iterations.old leg_weight.old rows.old
        correction.old posterior.old gamma.old bias.old c_to_v.old
        v_to_c.old in
        let after = decode_lists leg_state.new leg_iterations.new leg_weight.new rows.new
        correction.new posterior.new gamma.new bias.new c_to_v.new
        v_to_c.new in
        decode_outcome result after ≡ taken_leaves (length check_var.now) x before }
{
    let checks = Rows {
        rows: syndrome.len(),
        n: priors.len(),
        entries: check_var,
        offsets: check_offset,
    };
    let variables = Rows {
        rows: priors.len(),
        n: check_var.len(),
        entries: var_message,
        offsets: var_offset,
    };
    decode_sides(
        t,
        gammas,
        seed,
        syndrome,
        priors,
        &checks,
        &variables,
        order,
        leg_state,
        leg_iterations,
        leg_weight,
        rows,
        correction,
        posterior,
        gamma,
        bias,
        c_to_v,
        v_to_c,
    )
}
