// The single iteration of `relay`. A schedule passes as a byte: 0 is Flooding, and any other is CheckSerial; a clip as a byte, 0 for
// off, and its magnitude.
ghost use Rattle.std.specs.Prelude.{◌≡◌};
ghost use Rattle.graph_lists.specs.Graph.{graph};
ghost use Rattle.relay_step.specs.Step.{state};
ghost use Rattle.relay_calls.specs.Calls.{step_lists, iteration_call};
ghost use Rattle.exports_values.specs.Codes.{schedule_given, clip_given};
ghost use Rattle.exports_bodies.specs.Answers.{step_left, step_left_by};

use exports_values::answers::code;
use exports_values::given::{clip_of, schedule_of};
use graph::Size;

// `relay::iteration`.
pub fn iteration(
    checks: usize,
    mechanisms: usize,
    edges: usize,
    priors: &[f64],
    check_var: &[u32],
    check_offset: &[u32],
    var_check: &[u32],
    var_message: &[u32],
    var_offset: &[u32],
    schedule: u8,
    alpha: f64,
    clip_on: u8,
    clip: f64,
    gamma: &[f64],
    syndrome: &[u8],
    order: &[u32],
    c_to_v: &mut [f64],
    v_to_c: &mut [f64],
    posterior: &mut [f64],
    bias: &mut [f64],
) -> u64
    ensures { let g = graph checks mechanisms check_var.now check_offset.now
        var_check.now var_message.now var_offset.now in
        let before = step_lists (state c_to_v.old v_to_c.old posterior.old) bias.old in
        let after = step_lists (state c_to_v.new v_to_c.new posterior.new) bias.new in
        step_left result after
        ≡ step_left_by (iteration_call edges priors.now g (schedule_given schedule) alpha (clip_given clip_on clip)
        gamma.now syndrome.now order.now before) }
{
    let size = Size {
        checks: checks,
        mechanisms: mechanisms,
        edges: edges,
    };
    code(relay::iteration(
        size,
        priors,
        check_var,
        check_offset,
        var_check,
        var_message,
        var_offset,
        schedule_of(schedule as usize),
        alpha,
        clip_of(clip_on as usize, clip),
        gamma,
        syndrome,
        order,
        c_to_v,
        v_to_c,
        posterior,
        bias,
    ))
}
