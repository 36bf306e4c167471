// The call of `min_sum`. An answer passes as its code, sizes as numbers, and serial as a byte that is not 0.
ghost use Rattle.std.specs.Prelude.{◌≡◌, not, eqb};
ghost use Rattle.graph_lists.specs.Graph.{graph};
ghost use Rattle.min_sum.specs.Beliefs.{beliefs_lists, beliefs as beliefs_of};
ghost use Rattle.exports_bodies.specs.Answers.{beliefs_left, beliefs_left_by};

use exports_values::answers::code;
use graph::Size;

// `min_sum::beliefs`.
pub fn beliefs(
    checks: usize,
    mechanisms: usize,
    edges: usize,
    priors: &[f64],
    check_var: &[u32],
    check_offset: &[u32],
    var_check: &[u32],
    var_message: &[u32],
    var_offset: &[u32],
    syndrome: &[u8],
    iterations: usize,
    scale: f64,
    serial: u8,
    posterior: &mut [f64],
    ewa_posterior: &mut [f64],
    c_to_v: &mut [f64],
    v_to_c: &mut [f64],
) -> u64
    ensures { let g = graph checks mechanisms check_var.now check_offset.now
        var_check.now var_message.now var_offset.now in
        let before = beliefs_lists posterior.old ewa_posterior.old c_to_v.old v_to_c.old in
        let after = beliefs_lists posterior.new ewa_posterior.new c_to_v.new v_to_c.new in
        beliefs_left result after
        ≡ beliefs_left_by (beliefs_of edges priors.now g syndrome.now iterations scale (not (eqb serial 0)) before) }
{
    let size = Size {
        checks: checks,
        mechanisms: mechanisms,
        edges: edges,
    };
    code(min_sum::beliefs(
        size,
        priors,
        check_var,
        check_offset,
        var_check,
        var_message,
        var_offset,
        syndrome,
        iterations,
        scale,
        serial != 0,
        posterior,
        ewa_posterior,
        c_to_v,
        v_to_c,
    ))
}
