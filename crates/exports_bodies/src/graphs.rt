// The calls of `graph` and `graph_probabilities`. An answer passes as its code, and sizes as numbers.
ghost use Rattle.std.specs.Prelude.{◌≡◌};
ghost use Rattle.graph_lists.specs.Graph.{graph};
ghost use Rattle.graph_lists.specs.Model.{build_sparse, build_dense, graph_fault};
ghost use Rattle.graph_probabilities.specs.Calls.{build_sparse_probabilities, build_dense_probabilities};
ghost use Rattle.exports_values.specs.Codes.{code_of};
ghost use Rattle.exports_bodies.specs.Answers.{graph_left, graph_left_by, made_left, made_left_by};

use exports_values::answers::code;
use graph::Size;

// `graph::build_sparse`.
pub fn build_sparse(
    checks: usize,
    mechanisms: usize,
    edges: usize,
    priors: &[f64],
    detector_offsets: &[u32],
    detectors: &[u32],
    check_var: &mut [u32],
    check_offset: &mut [u32],
    var_check: &mut [u32],
    var_message: &mut [u32],
    var_offset: &mut [u32],
) -> u64
    ensures { let g = graph checks mechanisms check_var.old check_offset.old
        var_check.old var_message.old var_offset.old in
        let after = graph checks mechanisms check_var.new check_offset.new
        var_check.new var_message.new var_offset.new in
        graph_left result after
        ≡ graph_left_by (build_sparse edges priors.now detector_offsets.now detectors.now g) }
{
    let size = Size {
        checks: checks,
        mechanisms: mechanisms,
        edges: edges,
    };
    code(graph::build_sparse(
        size,
        priors,
        detector_offsets,
        detectors,
        check_var,
        check_offset,
        var_check,
        var_message,
        var_offset,
    ))
}

// `graph::build_dense`.
pub fn build_dense(
    checks: usize,
    mechanisms: usize,
    priors: &[f64],
    matrix: &[u8],
    check_var: &mut [u32],
    check_offset: &mut [u32],
    var_check: &mut [u32],
    var_message: &mut [u32],
    var_offset: &mut [u32],
) -> u64
    ensures { let g = graph checks mechanisms check_var.old check_offset.old
        var_check.old var_message.old var_offset.old in
        let after = graph checks mechanisms check_var.new check_offset.new
        var_check.new var_message.new var_offset.new in
        graph_left result after ≡ graph_left_by (build_dense priors.now matrix.now g) }
{
    code(graph::build_dense(
        checks,
        mechanisms,
        priors,
        matrix,
        check_var,
        check_offset,
        var_check,
        var_message,
        var_offset,
    ))
}

// `graph::check_graph`.
pub fn check_graph(
    checks: usize,
    mechanisms: usize,
    edges: usize,
    priors: &[f64],
    check_var: &[u32],
    check_offset: &[u32],
    var_check: &[u32],
    var_message: &[u32],
    var_offset: &[u32],
) -> u64
    ensures { let g = graph checks mechanisms check_var.now check_offset.now
        var_check.now var_message.now var_offset.now in
        result ≡ code_of (graph_fault edges priors.now g) }
{
    let size = Size {
        checks: checks,
        mechanisms: mechanisms,
        edges: edges,
    };
    code(graph::check_graph(
        size,
        priors,
        check_var,
        check_offset,
        var_check,
        var_message,
        var_offset,
    ))
}

// `graph_probabilities::build_sparse_probabilities`.
pub fn build_sparse_probabilities(
    checks: usize,
    mechanisms: usize,
    edges: usize,
    probabilities: &[f64],
    detector_offsets: &[u32],
    detectors: &[u32],
    priors: &mut [f64],
    check_var: &mut [u32],
    check_offset: &mut [u32],
    var_check: &mut [u32],
    var_message: &mut [u32],
    var_offset: &mut [u32],
) -> u64
    ensures { let g = graph checks mechanisms check_var.old check_offset.old
        var_check.old var_message.old var_offset.old in
        let after = graph checks mechanisms check_var.new check_offset.new
        var_check.new var_message.new var_offset.new in
        made_left result priors.new after
        ≡ made_left_by
        (build_sparse_probabilities edges probabilities.now detector_offsets.now detectors.now
        priors.old g) }
{
    let size = Size {
        checks: checks,
        mechanisms: mechanisms,
        edges: edges,
    };
    code(graph_probabilities::build_sparse_probabilities(
        size,
        probabilities,
        detector_offsets,
        detectors,
        priors,
        check_var,
        check_offset,
        var_check,
        var_message,
        var_offset,
    ))
}

// `graph_probabilities::build_dense_probabilities`.
pub fn build_dense_probabilities(
    checks: usize,
    mechanisms: usize,
    probabilities: &[f64],
    matrix: &[u8],
    priors: &mut [f64],
    check_var: &mut [u32],
    check_offset: &mut [u32],
    var_check: &mut [u32],
    var_message: &mut [u32],
    var_offset: &mut [u32],
) -> u64
    ensures { let g = graph checks mechanisms check_var.old check_offset.old
        var_check.old var_message.old var_offset.old in
        let after = graph checks mechanisms check_var.new check_offset.new
        var_check.new var_message.new var_offset.new in
        made_left result priors.new after
        ≡ made_left_by
        (build_dense_probabilities probabilities.now matrix.now priors.old g) }
{
    code(graph_probabilities::build_dense_probabilities(
        checks,
        mechanisms,
        probabilities,
        matrix,
        priors,
        check_var,
        check_offset,
        var_check,
        var_message,
        var_offset,
    ))
}
