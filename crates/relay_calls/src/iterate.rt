// Past the tests of a single iteration: the step, 30 with the first mechanism that has a value that is not finite, and the lists that are
// zeroed.
ghost use Rattle.std.specs.Prelude.{◌≡◌, [], ◌<◌, length, replicate};
ghost use Rattle.graph_lists.specs.Messages.{by_place};
ghost use Rattle.numbers.specs.Floats.{zero⁺};
ghost use Rattle.numbers.specs.Loops.{every};
ghost use Rattle.refusals.specs.Tests.{unless_refused};
ghost use Rattle.graph_lists.specs.Sound.{Keys};
ghost use Rattle.graph_messages.specs.Needs.{Walks, walked, of_variables, PerEdge};
ghost use Rattle.relay_step.specs.Step.{state, iteration};
ghost use Rattle.relay_calls.specs.Calls.{message_finite, mechanism_finite, step_end, step_lists, step_outcome, stepped as stepped_of};
ghost use Rattle.relay_step.specs.Places.{PerMechanism};

use graph_lists::indices::at;
use graph_messages::clear;
use graph_messages::rows::Rows;
use numbers::is_finite;
use refusals::Refusal;
use relay_settings::{Clip, Schedule};
use relay_step::step::step;

// Both messages that each of these entries names are finite.
fn messages_finite(entries: &[u32], c_to_v: &[f64], v_to_c: &[f64]) -> bool
    requires keys { Keys (length c_to_v.now) entries.now }
    requires v_to_c_len { length v_to_c.now ≡ length c_to_v.now }
    ensures { let before = state c_to_v.now v_to_c.now [] in
        result ≡ every (length entries.now) (message_finite before entries.now) }
{
    for entry in entries {
        let m = *entry as usize;
        if !is_finite(c_to_v[m]) || !is_finite(v_to_c[m]) {
            return false;
        }
    }
    true
}

// The posterior and all messages of the mechanism v are finite.
fn mechanism_finite(
    v: usize,
    var_message: &[u32],
    var_offset: &[u32],
    c_to_v: &[f64],
    v_to_c: &[f64],
    posterior: &[f64],
) -> bool
    requires v_in_bounds { v < length posterior.now }
    requires walks { Walks (length posterior.now) (length c_to_v.now) var_message.now var_offset.now }
    requires v_to_c_len { length v_to_c.now ≡ length c_to_v.now }
    ensures { let g = of_variables (length posterior.now) var_message.now var_offset.now in
        let before = state c_to_v.now v_to_c.now posterior.now in
        result ≡ mechanism_finite g before v }
{
    let start = at(var_offset, v);
    let end = at(var_offset, v + 1);
    is_finite(posterior[v]) && messages_finite(&var_message[start..end], c_to_v, v_to_c)
}

// 30: the first mechanism that has a value that is not finite.
fn step_end(
    var_message: &[u32],
    var_offset: &[u32],
    c_to_v: &[f64],
    v_to_c: &[f64],
    posterior: &[f64],
) -> Result<(), Refusal>
    requires walks { Walks (length posterior.now) (length c_to_v.now) var_message.now var_offset.now }
    requires v_to_c_len { length v_to_c.now ≡ length c_to_v.now }
    ensures { let g = of_variables (length posterior.now) var_message.now var_offset.now in
        let before = state c_to_v.now v_to_c.now posterior.now in
        result ≡ step_end g before }
{
    for v in 0..posterior.len() {
        if !mechanism_finite(v, var_message, var_offset, c_to_v, v_to_c, posterior) {
            return Err(Refusal::NonFinite(v));
        }
    }
    Ok(())
}

// 30, and the state zeroed where it is refused.
fn ended(
    var_message: &[u32],
    var_offset: &[u32],
    c_to_v: &mut [f64],
    v_to_c: &mut [f64],
    posterior: &mut [f64],
) -> Result<(), Refusal>
    requires walks { Walks (length posterior.old) (length c_to_v.old) var_message.now var_offset.now }
    requires v_to_c_len { length v_to_c.old ≡ length c_to_v.old }
    ensures end { let g = of_variables (length posterior.old) var_message.now var_offset.now in
        let before = state c_to_v.old v_to_c.old posterior.old in
        result ≡ step_end g before }
    ensures left { let before = state c_to_v.old v_to_c.old posterior.old in
        let before' = state (replicate (length c_to_v.old) zero⁺) (replicate (length v_to_c.old) zero⁺)
        (replicate (length posterior.old) zero⁺) in
        state c_to_v.new v_to_c.new posterior.new ≡ unless_refused result before before' }
{
    let a = step_end(var_message, var_offset, c_to_v, v_to_c, posterior);
    if a.is_err() {
        clear(c_to_v);
        clear(v_to_c);
        clear(posterior);
    }
    a
}

// The step with its end. The bias is zero after it.
pub fn stepped(
    schedule: Schedule,
    alpha: f64,
    clip: Clip,
    syndrome: &[u8],
    priors: &[f64],
    gamma: &[f64],
    check_var: &[u32],
    check_offset: &[u32],
    var_message: &[u32],
    var_offset: &[u32],
    order: &[u32],
    bias: &mut [f64],
    c_to_v: &mut [f64],
    v_to_c: &mut [f64],
    posterior: &mut [f64],
) -> Result<(), Refusal>
    requires walks { Walks (length syndrome.now) (length priors.now) check_var.now check_offset.now }
    requires walks_2 { Walks (length priors.now) (length check_var.now) var_message.now var_offset.now }
    requires keys { Keys (length syndrome.now) order.now }
    requires per_mechanism { PerMechanism (length priors.now) gamma.now bias.old posterior.old }
    requires per_edge { PerEdge (length check_var.now) c_to_v.old v_to_c.old }
    ensures { let g = walked (length syndrome.now) (length priors.now) check_var.now
        check_offset.now var_message.now var_offset.now in
        let before = state c_to_v.old v_to_c.old posterior.old in
        let after = step_lists (state c_to_v.new v_to_c.new posterior.new) bias.new in
        step_outcome result after
        ≡ stepped_of (length check_var.now) g
        (iteration schedule by_place g alpha clip syndrome.now priors.now gamma.now
        order.now before) }
{
    let checks = Rows {
        rows: syndrome.len(),
        n: priors.len(),
        entries: check_var,
        offsets: check_offset,
    };
    let variables = Rows {
        rows: priors.len(),
        n: check_var.len(),
        entries: var_message,
        offsets: var_offset,
    };
    step(
        schedule, alpha, clip, syndrome, priors, gamma, &checks, &variables, order, bias, c_to_v,
        v_to_c, posterior,
    );
    clear(bias);
    ended(var_message, var_offset, c_to_v, v_to_c, posterior)
}
