// Min-sum beliefs over a Tanner graph, for users: `min_sum_bp_into` of min_sum.rs, with its tests before it.
#![tactic(auto)]

mod run;
mod tests;

ghost use Rattle.std.specs.Prelude.{◌≡◌};
ghost use Rattle.graph_lists.specs.Graph.{graph};
ghost use Rattle.min_sum.specs.Beliefs.{beliefs_lists, beliefs_outcome, beliefs as beliefs_of};

use refusals::Refusal;

// The beliefs after so many iterations, serial or not. The posterior is the result; the running posterior and the messages are for work,
// and are zero after any run. A call that its tests refuse writes nothing; refusal 30 zeroes the posterior.
pub fn beliefs(
    size: graph::Size,
    priors: &[f64],
    check_var: &[u32],
    check_offset: &[u32],
    var_check: &[u32],
    var_message: &[u32],
    var_offset: &[u32],
    syndrome: &[u8],
    iterations: usize,
    scale: f64,
    serial: bool,
    posterior: &mut [f64],
    ewa_posterior: &mut [f64],
    c_to_v: &mut [f64],
    v_to_c: &mut [f64],
) -> Result<(), Refusal>
    ensures { let g = graph size.checks size.mechanisms check_var.now
        check_offset.now var_check.now var_message.now var_offset.now in
        let before = beliefs_lists posterior.old ewa_posterior.old c_to_v.old v_to_c.old in
        let after = beliefs_lists posterior.new ewa_posterior.new c_to_v.new v_to_c.new in
        beliefs_outcome result after
        ≡ beliefs_of size.edges priors.now g syndrome.now iterations scale serial before }
{
    let n = tests::Lengths {
        syndrome: syndrome.len(),
        posterior: posterior.len(),
        ewa_posterior: ewa_posterior.len(),
        c_to_v: c_to_v.len(),
        v_to_c: v_to_c.len(),
    };
    tests::fault(
        size,
        priors,
        check_var,
        check_offset,
        var_check,
        var_message,
        var_offset,
        iterations,
        n,
    )?;
    run::ran(
        iterations,
        serial,
        scale,
        syndrome,
        priors,
        check_var,
        check_offset,
        var_message,
        var_offset,
        c_to_v,
        v_to_c,
        ewa_posterior,
        posterior,
    )
}
