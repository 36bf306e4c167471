// One iteration in a given order of checks: the step that the public iteration takes and that decode repeats.
ghost use Rattle.std.specs.Prelude.{◌≡◌, [], ◌<◌, length};
ghost use Rattle.graph_lists.specs.Messages.{by_place};
ghost use Rattle.graph_lists.specs.Sound.{Keys};
ghost use Rattle.graph_messages.specs.Needs.{PerEdge};
ghost use Rattle.graph_messages.specs.Sides.{sides, checks_alone, variables_alone};
ghost use Rattle.relay_step.specs.Step.{state, bias_of, compute_bias, update_check, check_pass, variable_pass, serial_check, serial_pass};
ghost use Rattle.relay_step.specs.Step.{flooding_iteration, check_serial_iteration, iteration};
ghost use Rattle.relay_step.specs.Places.{Joined, PerMechanism, PerVariable};

use crate::variable::{update_variable, update_variables};
use graph_messages::rows::Rows;
use relay_check::{clipped_part, update_part};
use relay_settings::{Clip, Schedule};

// A variable's bias.
fn bias_of(prior: f64, gamma: f64, posterior: f64) -> f64
    ensures { result ≡ bias_of prior gamma posterior }
{
    prior + gamma * (posterior - prior)
}

// `compute_bias`.
fn compute_bias(priors: &[f64], gamma: &[f64], posterior: &[f64], bias: &mut [f64])
    requires { (length gamma.now ≡ length priors.now)
        × (length posterior.now ≡ length priors.now)
        × (length bias.old ≡ length priors.now) }
    ensures { bias.new ≡ compute_bias priors.now gamma.now posterior.now }
{
    for v in 0..priors.len() {
        bias[v] = bias_of(priors[v], gamma[v], posterior[v]);
    }
}

// `update_check` of the check c.
fn update_one(
    c: usize,
    alpha: f64,
    clip: Clip,
    syndrome: &[u8],
    checks: &Rows<'_>,
    v_to_c: &[f64],
    c_to_v: &mut [f64],
)
    requires c_in_bounds { c < checks.now.rows }
    requires syndrome_len { length syndrome.now ≡ checks.now.rows }
    requires per_edge { PerEdge (length checks.now.entries.now) c_to_v.old v_to_c.now }
    ensures { let g = checks_alone checks.now in
        let before = state c_to_v.old v_to_c.now [] in
        state c_to_v.new v_to_c.now []
        ≡ update_check by_place g alpha clip syndrome.now before c }
{
    let start = checks.start(c);
    let end = checks.end(c);
    let odd = syndrome[c] != 0;
    match clip {
        Clip::Off => update_part(alpha, odd, start, end, checks.entries, v_to_c, c_to_v),
        Clip::On(limit) => clipped_part(
            alpha,
            limit,
            odd,
            start,
            end,
            checks.entries,
            v_to_c,
            c_to_v,
        ),
    }
}

// The checks in the order given.
fn check_pass(
    alpha: f64,
    clip: Clip,
    syndrome: &[u8],
    checks: &Rows<'_>,
    order: &[u32],
    v_to_c: &[f64],
    c_to_v: &mut [f64],
)
    requires syndrome_len { length syndrome.now ≡ checks.now.rows }
    requires keys { Keys checks.now.rows order.now }
    requires per_edge { PerEdge (length checks.now.entries.now) c_to_v.old v_to_c.now }
    ensures { let g = checks_alone checks.now in
        let before = state c_to_v.old v_to_c.now [] in
        state c_to_v.new v_to_c.now []
        ≡ check_pass by_place g alpha clip syndrome.now order.now before }
{
    // A copy: else each check would read again where its lists lie.
    let checks = *checks;
    for check in order {
        update_one(
            *check as usize,
            alpha,
            clip,
            syndrome,
            &checks,
            v_to_c,
            c_to_v,
        );
    }
}

// All variables.
fn variable_pass(
    bias: &[f64],
    variables: &Rows<'_>,
    c_to_v: &[f64],
    v_to_c: &mut [f64],
    posterior: &mut [f64],
)
    requires per_variable { PerVariable variables.now.rows bias.now posterior.old }
    requires per_edge { PerEdge variables.now.n c_to_v.now v_to_c.old }
    ensures { let before = state c_to_v.now v_to_c.old posterior.old in
        state c_to_v.now v_to_c.new posterior.new
        ≡ variable_pass (variables_alone variables.now) bias.now before variables.now.rows }
{
    let variables = *variables;
    for v in 0..variables.rows {
        update_variable(v, bias, &variables, c_to_v, v_to_c, posterior);
    }
}

// `flooding_iteration`.
fn flooding_iteration(
    alpha: f64,
    clip: Clip,
    syndrome: &[u8],
    priors: &[f64],
    gamma: &[f64],
    checks: &Rows<'_>,
    variables: &Rows<'_>,
    order: &[u32],
    bias: &mut [f64],
    c_to_v: &mut [f64],
    v_to_c: &mut [f64],
    posterior: &mut [f64],
)
    requires joined { Joined checks.now variables.now }
    requires syndrome_len { length syndrome.now ≡ checks.now.rows }
    requires priors_len { length priors.now ≡ variables.now.rows }
    requires keys { Keys checks.now.rows order.now }
    requires per_mechanism { PerMechanism variables.now.rows gamma.now bias.old posterior.old }
    requires per_edge { PerEdge variables.now.n c_to_v.old v_to_c.old }
    ensures { let g = sides checks.now variables.now in
        let before = state c_to_v.old v_to_c.old posterior.old in
        state c_to_v.new v_to_c.new posterior.new
        ≡ flooding_iteration by_place g alpha clip syndrome.now priors.now gamma.now
        order.now before }
{
    check_pass(alpha, clip, syndrome, checks, order, v_to_c, c_to_v);
    compute_bias(priors, gamma, posterior, bias);
    variable_pass(bias, variables, c_to_v, v_to_c, posterior);
}

// One check of a serial iteration, and then each variable of its entries.
fn serial_check(
    c: usize,
    alpha: f64,
    clip: Clip,
    syndrome: &[u8],
    bias: &[f64],
    checks: &Rows<'_>,
    variables: &Rows<'_>,
    c_to_v: &mut [f64],
    v_to_c: &mut [f64],
    posterior: &mut [f64],
)
    requires c_in_bounds { c < checks.now.rows }
    requires joined { Joined checks.now variables.now }
    requires syndrome_len { length syndrome.now ≡ checks.now.rows }
    requires per_variable { PerVariable variables.now.rows bias.now posterior.old }
    requires per_edge { PerEdge variables.now.n c_to_v.old v_to_c.old }
    ensures { let g = sides checks.now variables.now in
        let before = state c_to_v.old v_to_c.old posterior.old in
        state c_to_v.new v_to_c.new posterior.new
        ≡ serial_check by_place g alpha clip syndrome.now bias.now before c }
{
    let start = checks.start(c);
    let end = checks.end(c);
    let odd = syndrome[c] != 0;
    match clip {
        Clip::Off => update_part(alpha, odd, start, end, checks.entries, v_to_c, c_to_v),
        Clip::On(magnitude) => clipped_part(
            alpha,
            magnitude,
            odd,
            start,
            end,
            checks.entries,
            v_to_c,
            c_to_v,
        ),
    }
    update_variables(
        &checks.entries[start..end],
        bias,
        variables,
        c_to_v,
        v_to_c,
        posterior,
    );
}

// The checks of a serial iteration, in the order given.
fn serial_pass(
    alpha: f64,
    clip: Clip,
    syndrome: &[u8],
    bias: &[f64],
    checks: &Rows<'_>,
    variables: &Rows<'_>,
    order: &[u32],
    c_to_v: &mut [f64],
    v_to_c: &mut [f64],
    posterior: &mut [f64],
)
    requires joined { Joined checks.now variables.now }
    requires syndrome_len { length syndrome.now ≡ checks.now.rows }
    requires keys { Keys checks.now.rows order.now }
    requires per_variable { PerVariable variables.now.rows bias.now posterior.old }
    requires per_edge { PerEdge variables.now.n c_to_v.old v_to_c.old }
    ensures { let g = sides checks.now variables.now in
        let before = state c_to_v.old v_to_c.old posterior.old in
        state c_to_v.new v_to_c.new posterior.new
        ≡ serial_pass by_place g alpha clip syndrome.now bias.now order.now before }
{
    let checks = *checks;
    for c in order {
        serial_check(
            *c as usize,
            alpha,
            clip,
            syndrome,
            bias,
            &checks,
            variables,
            c_to_v,
            v_to_c,
            posterior,
        );
    }
}

// `check_serial_iteration`.
fn check_serial_iteration(
    alpha: f64,
    clip: Clip,
    syndrome: &[u8],
    priors: &[f64],
    gamma: &[f64],
    checks: &Rows<'_>,
    variables: &Rows<'_>,
    order: &[u32],
    bias: &mut [f64],
    c_to_v: &mut [f64],
    v_to_c: &mut [f64],
    posterior: &mut [f64],
)
    requires joined { Joined checks.now variables.now }
    requires syndrome_len { length syndrome.now ≡ checks.now.rows }
    requires priors_len { length priors.now ≡ variables.now.rows }
    requires keys { Keys checks.now.rows order.now }
    requires per_mechanism { PerMechanism variables.now.rows gamma.now bias.old posterior.old }
    requires per_edge { PerEdge variables.now.n c_to_v.old v_to_c.old }
    ensures { let g = sides checks.now variables.now in
        let before = state c_to_v.old v_to_c.old posterior.old in
        state c_to_v.new v_to_c.new posterior.new
        ≡ check_serial_iteration by_place g alpha clip syndrome.now priors.now gamma.now
        order.now before }
{
    compute_bias(priors, gamma, posterior, bias);
    serial_pass(
        alpha, clip, syndrome, bias, checks, variables, order, c_to_v, v_to_c, posterior,
    );
}

// One iteration of the schedule.
pub fn step(
    schedule: Schedule,
    alpha: f64,
    clip: Clip,
    syndrome: &[u8],
    priors: &[f64],
    gamma: &[f64],
    checks: &Rows<'_>,
    variables: &Rows<'_>,
    order: &[u32],
    bias: &mut [f64],
    c_to_v: &mut [f64],
    v_to_c: &mut [f64],
    posterior: &mut [f64],
)
    requires joined { Joined checks.now variables.now }
    requires syndrome_len { length syndrome.now ≡ checks.now.rows }
    requires priors_len { length priors.now ≡ variables.now.rows }
    requires keys { Keys checks.now.rows order.now }
    requires per_mechanism { PerMechanism variables.now.rows gamma.now bias.old posterior.old }
    requires per_edge { PerEdge variables.now.n c_to_v.old v_to_c.old }
    ensures { let g = sides checks.now variables.now in
        let before = state c_to_v.old v_to_c.old posterior.old in
        state c_to_v.new v_to_c.new posterior.new
        ≡ iteration schedule by_place g alpha clip syndrome.now priors.now gamma.now
        order.now before }
{
    match schedule {
        Schedule::Flooding => flooding_iteration(
            alpha, clip, syndrome, priors, gamma, checks, variables, order, bias, c_to_v, v_to_c,
            posterior,
        ),
        Schedule::CheckSerial => check_serial_iteration(
            alpha, clip, syndrome, priors, gamma, checks, variables, order, bias, c_to_v, v_to_c,
            posterior,
        ),
    }
}
