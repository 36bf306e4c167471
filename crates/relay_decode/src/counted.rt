// A decode in index order, without a lent order: the order is counted up in a local array, a short one where that is enough.
ghost use Rattle.std.specs.Prelude.{◌≡◌, suc, ◌≤◌, length};
ghost use Rattle.numbers.specs.Limits.{max_checks, max_edges};
ghost use Rattle.numbers.specs.Loops.{upto};
ghost use Rattle.relay_calls.specs.Calls.{decode_outcome, decode_lists};
ghost use Rattle.relay_calls.specs.Formula.{taken_leaves};
ghost use Rattle.relay_leg.specs.Legs.{shot_by, LegReads};
ghost use Rattle.relay_record.specs.Kept.{shot_of, Reads, LegsFit, PerShot};
ghost use Rattle.graph_messages.specs.Needs.{PerEdge};

use crate::all_legs::decode_sides;
use graph_lists::indices::number;
use graph_messages::rows::Rows;
use numbers::limits::MAX_CHECKS;
use refusals::Refusal;
use relay_calls::Decoded;
use relay_settings::Settings;

// A decode in index order, which is counted up in a list of one place to a check and left there.
fn decode_counting(
    t: Settings,
    gammas: &[f64],
    seed: u64,
    syndrome: &[u8],
    priors: &[f64],
    checks: &Rows<'_>,
    variables: &Rows<'_>,
    order: &mut [u32],
    leg_state: &mut [u8],
    leg_iterations: &mut [u32],
    leg_weight: &mut [f64],
    rows: &mut [u8],
    correction: &mut [u8],
    posterior: &mut [f64],
    gamma: &mut [f64],
    bias: &mut [f64],
    c_to_v: &mut [f64],
    v_to_c: &mut [f64],
) -> Result<Decoded, Refusal>
    requires checks_bound { (checks.now.rows ≤ max_checks) × (length order.old ≡ checks.now.rows) }
    requires reads { LegReads t gammas.now syndrome.now priors.now checks.now variables.now (upto checks.now.rows) }
    requires legs_fit { LegsFit (suc t.num_legs) variables.now.rows leg_state.old leg_iterations.old leg_weight.old rows.old }
    requires per_shot { PerShot variables.now.rows correction.old posterior.old gamma.old bias.old }
    requires per_edge { PerEdge variables.now.n c_to_v.old v_to_c.old }
    requires check_var_len_bound { (length checks.now.entries.now ≤ max_edges) × (length variables.now.entries.now ≤ max_edges) }
    ensures outcome { let x = shot_by t gammas.now seed syndrome.now priors.now checks.now
        variables.now (upto checks.now.rows) in
        let before = decode_lists leg_state.old leg_iterations.old leg_weight.old rows.old
        correction.old posterior.old gamma.old bias.old c_to_v.old
        v_to_c.old in
        let after = decode_lists leg_state.new leg_iterations.new leg_weight.new rows.new
        correction.new posterior.new gamma.new bias.new c_to_v.new
        v_to_c.new in
        decode_outcome result after ≡ taken_leaves variables.now.n x before }
    ensures order { order.new ≡ upto (length order.old) }
{
    number(order);
    decode_sides(
        t,
        gammas,
        seed,
        syndrome,
        priors,
        checks,
        variables,
        order,
        leg_state,
        leg_iterations,
        leg_weight,
        rows,
        correction,
        posterior,
        gamma,
        bias,
        c_to_v,
        v_to_c,
    )
}

// A decode in index order, of any number of checks.
pub fn decode_counted(
    t: Settings,
    gammas: &[f64],
    seed: u64,
    syndrome: &[u8],
    priors: &[f64],
    check_var: &[u32],
    check_offset: &[u32],
    var_message: &[u32],
    var_offset: &[u32],
    leg_state: &mut [u8],
    leg_iterations: &mut [u32],
    leg_weight: &mut [f64],
    rows: &mut [u8],
    correction: &mut [u8],
    posterior: &mut [f64],
    gamma: &mut [f64],
    bias: &mut [f64],
    c_to_v: &mut [f64],
    v_to_c: &mut [f64],
) -> Result<Decoded, Refusal>
    requires syndrome_len_bound { length syndrome.now ≤ max_checks }
    requires reads { Reads t gammas.now syndrome.now priors.now check_var.now check_offset.now var_message.now var_offset.now
        (upto (length syndrome.now)) }
    requires legs_fit { LegsFit (suc t.num_legs) (length priors.now) leg_state.old leg_iterations.old leg_weight.old rows.old }
    requires per_shot { PerShot (length priors.now) correction.old posterior.old gamma.old bias.old }
    requires per_edge { PerEdge (length check_var.now) c_to_v.old v_to_c.old }
    requires check_var_len_bound { (length check_var.now ≤ max_edges) × (length var_message.now ≤ max_edges) }
    ensures { let x = shot_of t gammas.now seed syndrome.now priors.now check_var.now
        check_offset.now var_message.now var_offset.now
        (upto (length syndrome.now)) in
        let before = decode_lists leg_state.old leg_iterations.old leg_weight.old rows.old
        correction.old posterior.old gamma.old bias.old c_to_v.old
        v_to_c.old in
        let after = decode_lists leg_state.new leg_iterations.new leg_weight.new rows.new
        correction.new posterior.new gamma.new bias.new c_to_v.new
        v_to_c.new in
        decode_outcome result after ≡ taken_leaves (length check_var.now) x before }
{
    let checks = Rows {
        rows: syndrome.len(),
        n: priors.len(),
        entries: check_var,
        offsets: check_offset,
    };
    let variables = Rows {
        rows: priors.len(),
        n: check_var.len(),
        entries: var_message,
        offsets: var_offset,
    };
    if checks.rows <= 1024 {
        let mut order = [0u32; 1024];
        return decode_counting(
            t,
            gammas,
            seed,
            syndrome,
            priors,
            &checks,
            &variables,
            &mut order[..checks.rows],
            leg_state,
            leg_iterations,
            leg_weight,
            rows,
            correction,
            posterior,
            gamma,
            bias,
            c_to_v,
            v_to_c,
        );
    }
    let mut order = [0u32; MAX_CHECKS];
    decode_counting(
        t,
        gammas,
        seed,
        syndrome,
        priors,
        &checks,
        &variables,
        &mut order[..checks.rows],
        leg_state,
        leg_iterations,
        leg_weight,
        rows,
        correction,
        posterior,
        gamma,
        bias,
        c_to_v,
        v_to_c,
    )
}
