// The tests before a single iteration, in the reference's order, and those of a syndrome.
ghost use Rattle.std.specs.Prelude.{◌≡◌, [], ◌≤◌, leb, length};
ghost use Rattle.numbers.specs.Limits.{max_checks};
ghost use Rattle.refusals.specs.declared.Refusal.TheVariants.{BadClip, BadAlpha, LentListLength, StateNotFinite};
ghost use Rattle.refusals.specs.Tests.{unless as unless_of, or_else, first_of};
ghost use Rattle.graph_lists.specs.Graph.{graph};
ghost use Rattle.graph_messages.specs.Needs.{of_variables};
ghost use Rattle.relay_settings.specs.Settings.{clip_good, alpha_good};
ghost use Rattle.relay_step.specs.Step.{state};
ghost use Rattle.relay_orders.specs.Order.{names_fault};
ghost use Rattle.relay_calls.specs.Calls.{byte_fault, syndrome_fault, all_finite, step_fits, state_finite, step_lists, step_fault};

use numbers::is_finite;
use refusals::Refusal;
use refusals_tests::finite_positive;
use relay_orders::names_fault;
use relay_settings::{Clip, clip_good};

// A byte of a syndrome is 0 or 1.
fn is_bit(b: u8) -> bool
    ensures { result ≡ leb b 1 }
{
    b <= 1
}

// 21: the first byte of a syndrome that is not 0 or 1.
fn bytes_fault(syndrome: &[u8]) -> Result<(), Refusal>
    ensures { result ≡ first_of (length syndrome.now) (byte_fault syndrome.now) }
{
    for (c, byte) in syndrome.iter().enumerate() {
        if !is_bit(*byte) {
            return Err(Refusal::SyndromeNotBinary(c));
        }
    }
    Ok(())
}

// 20, then 21.
#[tactic(auto, unfolding(crate::specs::Calls::syndrome_fault, refusals::specs::Tests::unless, refusals::specs::Tests::or_else))]
pub fn syndrome_fault(checks: usize, syndrome: &[u8]) -> Result<(), Refusal>
    ensures { result ≡ syndrome_fault checks syndrome.now }
{
    if syndrome.len() != checks {
        return Err(Refusal::SyndromeLength);
    }
    bytes_fault(syndrome)
}

// 22: the lent lists, and the gammas, fit.
#[tactic(auto, unfolding(crate::specs::Calls::step_fits))]
fn lists_fit(
    mechanisms: usize,
    edges: usize,
    gamma: &[f64],
    c_to_v: &[f64],
    v_to_c: &[f64],
    posterior: &[f64],
    bias: &[f64],
) -> bool
    ensures { let before = step_lists (state c_to_v.now v_to_c.now posterior.now) bias.now in
        result ≡ step_fits edges (of_variables mechanisms [] []) gamma.now before }
{
    gamma.len() == mechanisms
        && c_to_v.len() == edges
        && v_to_c.len() == edges
        && posterior.len() == mechanisms
        && bias.len() == mechanisms
}

// All of a list are finite.
fn all_finite(xs: &[f64]) -> bool
    ensures { result ≡ all_finite xs.now }
{
    xs.iter().all(|x| is_finite(*x))
}

// 25: the messages, the posterior and the gammas are finite.
#[tactic(auto, unfolding(crate::specs::Calls::state_finite))]
fn state_finite(gamma: &[f64], c_to_v: &[f64], v_to_c: &[f64], posterior: &[f64]) -> bool
    ensures { let before = state c_to_v.now v_to_c.now posterior.now in
        result ≡ state_finite gamma.now before }
{
    all_finite(c_to_v) && all_finite(v_to_c) && all_finite(posterior) && all_finite(gamma)
}

// 9, 10, 20, 21, 22, 23 and 25, of as many checks as a graph may have.
#[tactic(auto, unfolding(refusals::specs::Tests::unless, refusals::specs::Tests::or_else, relay_settings::specs::Settings::alpha_good))]
fn step_fault(
    size: graph::Size,
    alpha: f64,
    clip: Clip,
    gamma: &[f64],
    syndrome: &[u8],
    order: &[u32],
    c_to_v: &[f64],
    v_to_c: &[f64],
    posterior: &[f64],
    bias: &[f64],
) -> Result<(), Refusal>
    requires { size.checks ≤ max_checks }
    ensures { let before = step_lists (state c_to_v.now v_to_c.now posterior.now) bias.now in
        result
        ≡ or_else (unless_of (clip_good clip) BadClip) (or_else (unless_of (alpha_good alpha) BadAlpha)
        (or_else (syndrome_fault size.checks syndrome.now) (or_else
        (unless_of (step_fits size.edges (of_variables size.mechanisms [] []) gamma.now before) LentListLength)
        (or_else (names_fault size.checks order.now) (unless_of (state_finite gamma.now
        (state c_to_v.now v_to_c.now posterior.now))
        StateNotFinite))))) }
{
    if !clip_good(clip) {
        return Err(Refusal::BadClip);
    }
    if !finite_positive(alpha) {
        return Err(Refusal::BadAlpha);
    }
    syndrome_fault(size.checks, syndrome)?;
    if !lists_fit(
        size.mechanisms,
        size.edges,
        gamma,
        c_to_v,
        v_to_c,
        posterior,
        bias,
    ) {
        return Err(Refusal::LentListLength);
    }
    names_fault(size.checks, order)?;
    if !state_finite(gamma, c_to_v, v_to_c, posterior) {
        return Err(Refusal::StateNotFinite);
    }
    Ok(())
}

// The tests of a single iteration: 1, 2, 4, 7, 9, 10, 20 to 23 and 25.
pub fn fault(
    size: graph::Size,
    priors: &[f64],
    check_var: &[u32],
    check_offset: &[u32],
    var_check: &[u32],
    var_message: &[u32],
    var_offset: &[u32],
    alpha: f64,
    clip: Clip,
    gamma: &[f64],
    syndrome: &[u8],
    order: &[u32],
    c_to_v: &[f64],
    v_to_c: &[f64],
    posterior: &[f64],
    bias: &[f64],
) -> Result<(), Refusal>
    ensures { let g = graph size.checks size.mechanisms check_var.now
        check_offset.now var_check.now var_message.now var_offset.now in
        let before = step_lists (state c_to_v.now v_to_c.now posterior.now) bias.now in
        result
        ≡ step_fault size.edges priors.now g alpha clip gamma.now syndrome.now
        order.now before }
{
    graph::check_graph(
        size,
        priors,
        check_var,
        check_offset,
        var_check,
        var_message,
        var_offset,
    )?;
    step_fault(
        size, alpha, clip, gamma, syndrome, order, c_to_v, v_to_c, posterior, bias,
    )
}
