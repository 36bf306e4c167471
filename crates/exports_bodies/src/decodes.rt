// The decodes of `relay`. Settings pass one by one, where `clip_on` is 0 for a clip that is off, and `source` is 0 for gammas drawn by
// shot, 1 for explicit sets and 2 for gammas drawn from the seed xor the leg. What a decode answers beyond its number goes into two lists
// of fixed length, which pass as a pointer alone.
ghost use Rattle.std.specs.Prelude.{◌≡◌, []};
ghost use Rattle.graph_lists.specs.Graph.{graph};
ghost use Rattle.relay_settings.specs.Settings.{check_settings};
ghost use Rattle.relay_calls.specs.Calls.{decode_lists, decode as decode_of, decode_in_order};
ghost use Rattle.exports_values.specs.Codes.{settings_given, code_of};
ghost use Rattle.exports_bodies.specs.Answers.{decode_left, decode_left_by};

use exports_values::answers::code;
use exports_values::given::settings_of;
use exports_values::told::tell;
use graph::Size;

// `relay_settings::check_settings`.
pub fn check_settings(
    schedule: u8,
    alpha: f64,
    clip_on: u8,
    clip: f64,
    gamma0: f64,
    pre_iterations: usize,
    num_legs: usize,
    leg_iterations: usize,
    gamma_low: f64,
    gamma_high: f64,
    stop_after_converged: usize,
    source: u8,
    sets: usize,
    mechanisms: usize,
    gammas: &[f64],
) -> u64
    ensures { let settings = settings_given schedule alpha clip_on clip gamma0 pre_iterations num_legs leg_iterations
        gamma_low gamma_high stop_after_converged source sets in
        result ≡ code_of (check_settings settings mechanisms gammas.now) }
{
    let t = settings_of(
        schedule as usize,
        alpha,
        clip_on as usize,
        clip,
        gamma0,
        pre_iterations,
        num_legs,
        leg_iterations,
        gamma_low,
        gamma_high,
        stop_after_converged,
        source as usize,
        sets,
    );
    code(relay_settings::check_settings(t, mechanisms, gammas))
}

// `relay::decode_in_order`.
pub fn decode_in_order(
    checks: usize,
    mechanisms: usize,
    edges: usize,
    priors: &[f64],
    check_var: &[u32],
    check_offset: &[u32],
    var_check: &[u32],
    var_message: &[u32],
    var_offset: &[u32],
    schedule: u8,
    alpha: f64,
    clip_on: u8,
    clip: f64,
    gamma0: f64,
    pre_iterations: usize,
    num_legs: usize,
    leg_iterations: usize,
    gamma_low: f64,
    gamma_high: f64,
    stop_after_converged: usize,
    source: u8,
    sets: usize,
    gammas: &[f64],
    syndrome: &[u8],
    seed: u64,
    order: &[u32],
    leg_state: &mut [u8],
    leg_steps: &mut [u32],
    leg_weight: &mut [f64],
    rows: &mut [u8],
    correction: &mut [u8],
    posterior: &mut [f64],
    gamma: &mut [f64],
    bias: &mut [f64],
    c_to_v: &mut [f64],
    v_to_c: &mut [f64],
    counts: &mut [u64; 4],
    weight: &mut [f64; 1],
) -> u64
    ensures { let g = graph checks mechanisms check_var.now check_offset.now
        var_check.now var_message.now var_offset.now in
        let settings = settings_given schedule alpha clip_on clip gamma0 pre_iterations num_legs leg_iterations
        gamma_low gamma_high stop_after_converged source sets in
        let before = decode_lists leg_state.old leg_steps.old leg_weight.old rows.old
        correction.old posterior.old gamma.old bias.old
        c_to_v.old v_to_c.old in
        let after = decode_lists leg_state.new leg_steps.new leg_weight.new rows.new
        correction.new posterior.new gamma.new bias.new
        c_to_v.new v_to_c.new in
        decode_left result counts.new weight.new after
        ≡ decode_left_by (decode_in_order edges (record {
          graph = g;
          prior = priors.now;
          settings = settings;
          gammas = gammas.now;
          order = order.now;
          syndrome = syndrome.now;
          seed = seed;
        }) before)
        counts.old weight.old }
{
    let size = Size {
        checks: checks,
        mechanisms: mechanisms,
        edges: edges,
    };
    let settings = settings_of(
        schedule as usize,
        alpha,
        clip_on as usize,
        clip,
        gamma0,
        pre_iterations,
        num_legs,
        leg_iterations,
        gamma_low,
        gamma_high,
        stop_after_converged,
        source as usize,
        sets,
    );
    let decoded = relay::decode_in_order(
        size,
        priors,
        check_var,
        check_offset,
        var_check,
        var_message,
        var_offset,
        settings,
        gammas,
        syndrome,
        seed,
        order,
        leg_state,
        leg_steps,
        leg_weight,
        rows,
        correction,
        posterior,
        gamma,
        bias,
        c_to_v,
        v_to_c,
    );
    tell(decoded, counts, weight)
}

// `relay::decode`.
pub fn decode(
    checks: usize,
    mechanisms: usize,
    edges: usize,
    priors: &[f64],
    check_var: &[u32],
    check_offset: &[u32],
    var_check: &[u32],
    var_message: &[u32],
    var_offset: &[u32],
    schedule: u8,
    alpha: f64,
    clip_on: u8,
    clip: f64,
    gamma0: f64,
    pre_iterations: usize,
    num_legs: usize,
    leg_iterations: usize,
    gamma_low: f64,
    gamma_high: f64,
    stop_after_converged: usize,
    source: u8,
    sets: usize,
    gammas: &[f64],
    syndrome: &[u8],
    seed: u64,
    leg_state: &mut [u8],
    leg_steps: &mut [u32],
    leg_weight: &mut [f64],
    rows: &mut [u8],
    correction: &mut [u8],
    posterior: &mut [f64],
    gamma: &mut [f64],
    bias: &mut [f64],
    c_to_v: &mut [f64],
    v_to_c: &mut [f64],
    counts: &mut [u64; 4],
    weight: &mut [f64; 1],
) -> u64
    ensures { let g = graph checks mechanisms check_var.now check_offset.now
        var_check.now var_message.now var_offset.now in
        let settings = settings_given schedule alpha clip_on clip gamma0 pre_iterations num_legs leg_iterations
        gamma_low gamma_high stop_after_converged source sets in
        let before = decode_lists leg_state.old leg_steps.old leg_weight.old rows.old
        correction.old posterior.old gamma.old bias.old
        c_to_v.old v_to_c.old in
        let after = decode_lists leg_state.new leg_steps.new leg_weight.new rows.new
        correction.new posterior.new gamma.new bias.new
        c_to_v.new v_to_c.new in
        decode_left result counts.new weight.new after
        ≡ decode_left_by (decode_of edges (record {
          graph = g;
          prior = priors.now;
          settings = settings;
          gammas = gammas.now;
          order = [];
          syndrome = syndrome.now;
          seed = seed;
        }) before)
        counts.old weight.old }
{
    let size = Size {
        checks: checks,
        mechanisms: mechanisms,
        edges: edges,
    };
    let settings = settings_of(
        schedule as usize,
        alpha,
        clip_on as usize,
        clip,
        gamma0,
        pre_iterations,
        num_legs,
        leg_iterations,
        gamma_low,
        gamma_high,
        stop_after_converged,
        source as usize,
        sets,
    );
    let decoded = relay::decode(
        size,
        priors,
        check_var,
        check_offset,
        var_check,
        var_message,
        var_offset,
        settings,
        gammas,
        syndrome,
        seed,
        leg_state,
        leg_steps,
        leg_weight,
        rows,
        correction,
        posterior,
        gamma,
        bias,
        c_to_v,
        v_to_c,
    );
    tell(decoded, counts, weight)
}
