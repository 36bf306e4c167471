// The Tanner graph of a model that is given by probabilities, for users: as `graph` builds it, with the priors of the probabilities written
// beside it. Every call takes every input; a refusal writes nothing.
#![tactic(auto)]

ghost use Rattle.std.specs.Prelude.{◌≡◌, true, map, length};
ghost use Rattle.refusals.specs.Tests.{first_of};
ghost use Rattle.std.specs.Prelude.{Ok};
ghost use Rattle.probabilities.specs.Calls.{is_probability, probability_fault};
ghost use Rattle.probabilities.specs.Scaled.{prior_of};
ghost use Rattle.graph_lists.specs.Graph.{graph};
ghost use Rattle.graph_probabilities.specs.Calls.{probability_outcome, build_sparse_probabilities, build_dense_probabilities};

use graph::count_edges;
use graph_lists::build::from_detectors;
use graph_lists::dense::from_matrix;
use graph_tests::{Given, dense_fault, lists_fit, sparse_fault};
use probabilities::prior_of;
use refusals::Refusal;

// How many checks, mechanisms and edges a model has.
pub type Size = graph_lists::Size;

// The prior of a probability.
fn made_prior(p: f64) -> f64
    requires { is_probability p ≡ true }
    ensures { result ≡ prior_of p }
{
    prior_of(p, 0).unwrap().value
}

// The priors of probabilities that pass 8, in their list.
fn write_priors(probabilities: &[f64], priors: &mut [f64])
    requires priors_len { length priors.old ≡ length probabilities.now }
    requires probabilities_value { first_of (length probabilities.now) (probability_fault probabilities.now) ≡ Ok tt }
    ensures { priors.new ≡ map prior_of probabilities.now }
{
    for (m, p) in probabilities.iter().enumerate() {
        priors[m] = made_prior(*p);
    }
}

// The graph and the priors of a sparse model, in the caller's lists: mechanism m's detectors stand in `detectors` from offset m to offset
// m + 1.
pub fn build_sparse_probabilities(
    size: Size,
    probabilities: &[f64],
    detector_offsets: &[u32],
    detectors: &[u32],
    priors: &mut [f64],
    check_var: &mut [u32],
    check_offset: &mut [u32],
    var_check: &mut [u32],
    var_message: &mut [u32],
    var_offset: &mut [u32],
) -> Result<(), Refusal>
    ensures { let g = graph size.checks size.mechanisms check_var.old
        check_offset.old var_check.old var_message.old var_offset.old in
        let built = graph size.checks size.mechanisms check_var.new
        check_offset.new var_check.new var_message.new var_offset.new in
        probability_outcome result priors.new built
        ≡ build_sparse_probabilities size.edges probabilities.now detector_offsets.now detectors.now
        priors.old g }
{
    let room = priors.len() == size.mechanisms;
    let fit = room
        && lists_fit(
            size,
            check_var.len(),
            check_offset.len(),
            var_check.len(),
            var_message.len(),
            var_offset.len(),
        );
    sparse_fault(
        size,
        Given::Probabilities,
        probabilities,
        detector_offsets,
        detectors,
        fit,
    )?;
    write_priors(probabilities, priors);
    from_detectors(
        size.checks,
        size.mechanisms,
        detector_offsets,
        detectors,
        check_var,
        check_offset,
        var_check,
        var_message,
        var_offset,
    );
    Ok(())
}

// The graph and the priors of a dense model, in the caller's lists: the matrix lies check by check, and a byte that is not zero is an
// incidence.
pub fn build_dense_probabilities(
    checks: usize,
    mechanisms: usize,
    probabilities: &[f64],
    matrix: &[u8],
    priors: &mut [f64],
    check_var: &mut [u32],
    check_offset: &mut [u32],
    var_check: &mut [u32],
    var_message: &mut [u32],
    var_offset: &mut [u32],
) -> Result<(), Refusal>
    ensures { let g = graph checks mechanisms check_var.old check_offset.old
        var_check.old var_message.old var_offset.old in
        let built = graph checks mechanisms check_var.new check_offset.new
        var_check.new var_message.new var_offset.new in
        probability_outcome result priors.new built
        ≡ build_dense_probabilities probabilities.now matrix.now priors.old g }
{
    let size = Size {
        checks,
        mechanisms,
        edges: count_edges(matrix),
    };
    let room = priors.len() == mechanisms;
    let fit = room
        && lists_fit(
            size,
            check_var.len(),
            check_offset.len(),
            var_check.len(),
            var_message.len(),
            var_offset.len(),
        );
    dense_fault(size, Given::Probabilities, probabilities, matrix.len(), fit)?;
    write_priors(probabilities, priors);
    from_matrix(
        checks,
        mechanisms,
        matrix,
        check_var,
        check_offset,
        var_check,
        var_message,
        var_offset,
    );
    Ok(())
}
