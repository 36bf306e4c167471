// Relay-BP over a Tanner graph, for users: one iteration in any order, a decode in index order or another, and the reading of a leg's
// record. What they mean stands in relay_calls/specs.
#![tactic(auto)]

ghost use Rattle.std.specs.Prelude.{◌≡◌, []};
ghost use Rattle.graph_lists.specs.Graph.{graph};
ghost use Rattle.relay_step.specs.Step.{state};
ghost use Rattle.relay_calls.specs.Records.{leg_record};
ghost use Rattle.relay_calls.specs.Calls.{step_lists, step_outcome, iteration_call, decode_outcome, decode_in_order};
ghost use Rattle.relay_calls.specs.Calls.{decode as decode_of, decode_lists};
ghost use Rattle.relay_calls.specs.Decode.{shot};

use graph_lists::indices::at;
use refusals::Refusal;

// The settings' types, which `relay_settings` declares.
pub type Schedule = relay_settings::Schedule;

pub type Clip = relay_settings::Clip;

pub type DrawRule = relay_settings::DrawRule;

pub type GammaSource = relay_settings::GammaSource;

pub type Settings = relay_settings::Settings;

// What a decode answers, and a leg's record, which `relay_calls` declares.
pub type Decoded = relay_calls::Decoded;

pub type LegRecord = relay_calls::LegRecord;

// The record of the leg r, out of the leg lists of a decode; outside one of them it was not executed.
pub fn leg_record(
    leg_state: &[u8],
    leg_iterations: &[u32],
    leg_weight: &[f64],
    r: usize,
) -> LegRecord
    ensures { result ≡ leg_record leg_state.now leg_iterations.now leg_weight.now r }
{
    if r >= leg_state.len() {
        return LegRecord::NotExecuted;
    }
    if r >= leg_iterations.len() {
        return LegRecord::NotExecuted;
    }
    if r >= leg_weight.len() {
        return LegRecord::NotExecuted;
    }
    relay_calls::record_of(leg_state[r], at(leg_iterations, r), leg_weight[r])
}

// One iteration of the schedule in the order given. The messages and the posterior go in and come back; the bias is for work, and is zero
// after any call past its tests. A call that its tests refuse writes nothing; refusal 30 zeroes the messages and the posterior.
pub fn iteration(
    size: graph::Size,
    priors: &[f64],
    check_var: &[u32],
    check_offset: &[u32],
    var_check: &[u32],
    var_message: &[u32],
    var_offset: &[u32],
    schedule: Schedule,
    alpha: f64,
    clip: Clip,
    gamma: &[f64],
    syndrome: &[u8],
    order: &[u32],
    c_to_v: &mut [f64],
    v_to_c: &mut [f64],
    posterior: &mut [f64],
    bias: &mut [f64],
) -> Result<(), Refusal>
    ensures { let g = graph size.checks size.mechanisms check_var.now
        check_offset.now var_check.now var_message.now var_offset.now in
        let before = step_lists (state c_to_v.old v_to_c.old posterior.old) bias.old in
        let after = step_lists (state c_to_v.new v_to_c.new posterior.new) bias.new in
        step_outcome result after
        ≡ iteration_call size.edges priors.now g schedule alpha clip gamma.now syndrome.now
        order.now before }
{
    let tested = relay_calls::tests::fault(
        size,
        priors,
        check_var,
        check_offset,
        var_check,
        var_message,
        var_offset,
        alpha,
        clip,
        gamma,
        syndrome,
        order,
        c_to_v,
        v_to_c,
        posterior,
        bias,
    );
    tested?;
    relay_calls::iterate::stepped(
        schedule,
        alpha,
        clip,
        syndrome,
        priors,
        gamma,
        check_var,
        check_offset,
        var_message,
        var_offset,
        order,
        bias,
        c_to_v,
        v_to_c,
        posterior,
    )
}

// All legs, with the checks in the order given: the legs' records, the correction and the posterior are results, and the other lists are
// for work, zero after any call past its tests. A call that its tests refuse writes nothing; refusal 30 zeroes the results. Leg lists may
// be longer, and keep their surplus.
pub fn decode_in_order(
    size: graph::Size,
    priors: &[f64],
    check_var: &[u32],
    check_offset: &[u32],
    var_check: &[u32],
    var_message: &[u32],
    var_offset: &[u32],
    settings: Settings,
    gammas: &[f64],
    syndrome: &[u8],
    seed: u64,
    order: &[u32],
    leg_state: &mut [u8],
    leg_iterations: &mut [u32],
    leg_weight: &mut [f64],
    rows: &mut [u8],
    correction: &mut [u8],
    posterior: &mut [f64],
    gamma: &mut [f64],
    bias: &mut [f64],
    c_to_v: &mut [f64],
    v_to_c: &mut [f64],
) -> Result<Decoded, Refusal>
    ensures { let g = graph size.checks size.mechanisms check_var.now
        check_offset.now var_check.now var_message.now var_offset.now in
        let x = shot g priors.now settings gammas.now order.now syndrome.now seed in
        let before = decode_lists leg_state.old leg_iterations.old leg_weight.old rows.old
        correction.old posterior.old gamma.old bias.old c_to_v.old
        v_to_c.old in
        let after = decode_lists leg_state.new leg_iterations.new leg_weight.new rows.new
        correction.new posterior.new gamma.new bias.new c_to_v.new
        v_to_c.new in
        decode_outcome result after ≡ decode_in_order size.edges x before }
{
    relay_decode::decode_tests::taken_fault(
        size,
        priors,
        check_var,
        check_offset,
        var_check,
        var_message,
        var_offset,
        settings,
        gammas,
        syndrome,
        seed,
        order,
        leg_state,
        leg_iterations,
        leg_weight,
        rows,
        correction,
        posterior,
        gamma,
        bias,
        c_to_v,
        v_to_c,
    )?;
    relay_decode::all_legs::decode_taken(
        settings,
        gammas,
        seed,
        syndrome,
        priors,
        check_var,
        check_offset,
        var_message,
        var_offset,
        order,
        leg_state,
        leg_iterations,
        leg_weight,
        rows,
        correction,
        posterior,
        gamma,
        bias,
        c_to_v,
        v_to_c,
    )
}

// `RelayBp::decode`: that, with the checks in index order.
pub fn decode(
    size: graph::Size,
    priors: &[f64],
    check_var: &[u32],
    check_offset: &[u32],
    var_check: &[u32],
    var_message: &[u32],
    var_offset: &[u32],
    settings: Settings,
    gammas: &[f64],
    syndrome: &[u8],
    seed: u64,
    leg_state: &mut [u8],
    leg_iterations: &mut [u32],
    leg_weight: &mut [f64],
    rows: &mut [u8],
    correction: &mut [u8],
    posterior: &mut [f64],
    gamma: &mut [f64],
    bias: &mut [f64],
    c_to_v: &mut [f64],
    v_to_c: &mut [f64],
) -> Result<Decoded, Refusal>
    ensures { let g = graph size.checks size.mechanisms check_var.now
        check_offset.now var_check.now var_message.now var_offset.now in
        let x = shot g priors.now settings gammas.now [] syndrome.now seed in
        let before = decode_lists leg_state.old leg_iterations.old leg_weight.old rows.old
        correction.old posterior.old gamma.old bias.old c_to_v.old
        v_to_c.old in
        let after = decode_lists leg_state.new leg_iterations.new leg_weight.new rows.new
        correction.new posterior.new gamma.new bias.new c_to_v.new
        v_to_c.new in
        decode_outcome result after ≡ decode_of size.edges x before }
{
    relay_decode::decode_tests::shot_fault(
        size,
        priors,
        check_var,
        check_offset,
        var_check,
        var_message,
        var_offset,
        settings,
        gammas,
        syndrome,
        seed,
        leg_state,
        leg_iterations,
        leg_weight,
        rows,
        correction,
        posterior,
        gamma,
        bias,
        c_to_v,
        v_to_c,
    )?;
    relay_decode::counted::decode_counted(
        settings,
        gammas,
        seed,
        syndrome,
        priors,
        check_var,
        check_offset,
        var_message,
        var_offset,
        leg_state,
        leg_iterations,
        leg_weight,
        rows,
        correction,
        posterior,
        gamma,
        bias,
        c_to_v,
        v_to_c,
    )
}
