// The Tanner graph of a model, for users: its sizes, its five lists from a sparse or a dense model, and the test of lists that a caller
// lends. Every call takes every input; a refusal writes nothing.
#![tactic(auto)]

ghost use Rattle.std.specs.Prelude.{◌≡◌};
ghost use Rattle.graph_lists.specs.Graph.{graph};
ghost use Rattle.graph_lists.specs.Model.{build_outcome, build_sparse, count_edges, build_dense, graph_fault};

use graph_lists::build::from_detectors;
use graph_lists::dense::from_matrix;
use graph_tests::seven::is_graph;
use graph_tests::{Given, dense_fault, lists_fit, numbers_fault, sizes_good, sparse_fault};
use refusals::Refusal;

// How many checks, mechanisms and edges a model has.
pub type Size = graph_lists::Size;

// The graph of a sparse model, in the caller's lists: mechanism m's detectors stand in `detectors` from offset m to offset m + 1.
pub fn build_sparse(
    size: Size,
    priors: &[f64],
    detector_offsets: &[u32],
    detectors: &[u32],
    check_var: &mut [u32],
    check_offset: &mut [u32],
    var_check: &mut [u32],
    var_message: &mut [u32],
    var_offset: &mut [u32],
) -> Result<(), Refusal>
    ensures { let g = graph size.checks size.mechanisms check_var.old
        check_offset.old var_check.old var_message.old var_offset.old in
        let built = graph size.checks size.mechanisms check_var.new
        check_offset.new var_check.new var_message.new var_offset.new in
        build_outcome result built
        ≡ build_sparse size.edges priors.now detector_offsets.now detectors.now g }
{
    let fit = lists_fit(
        size,
        check_var.len(),
        check_offset.len(),
        var_check.len(),
        var_message.len(),
        var_offset.len(),
    );
    sparse_fault(
        size,
        Given::Priors,
        priors,
        detector_offsets,
        detectors,
        fit,
    )?;
    from_detectors(
        size.checks,
        size.mechanisms,
        detector_offsets,
        detectors,
        check_var,
        check_offset,
        var_check,
        var_message,
        var_offset,
    );
    Ok(())
}

// How many bytes of a dense model's matrix are not zero: as many edges its graph has.
pub fn count_edges(matrix: &[u8]) -> usize
    ensures { result ≡ count_edges matrix.now }
{
    let mut edges = 0;
    for b in matrix {
        if *b != 0 {
            edges += 1;
        }
    }
    edges
}

// The graph of a dense model, in the caller's lists: the matrix lies check by check, and a byte that is not zero is an incidence.
pub fn build_dense(
    checks: usize,
    mechanisms: usize,
    priors: &[f64],
    matrix: &[u8],
    check_var: &mut [u32],
    check_offset: &mut [u32],
    var_check: &mut [u32],
    var_message: &mut [u32],
    var_offset: &mut [u32],
) -> Result<(), Refusal>
    ensures { let g = graph checks mechanisms check_var.old check_offset.old
        var_check.old var_message.old var_offset.old in
        let built = graph checks mechanisms check_var.new check_offset.new
        var_check.new var_message.new var_offset.new in
        build_outcome result built ≡ build_dense priors.now matrix.now g }
{
    let size = Size {
        checks,
        mechanisms,
        edges: count_edges(matrix),
    };
    let fit = lists_fit(
        size,
        check_var.len(),
        check_offset.len(),
        var_check.len(),
        var_message.len(),
        var_offset.len(),
    );
    dense_fault(size, Given::Priors, priors, matrix.len(), fit)?;
    from_matrix(
        checks,
        mechanisms,
        matrix,
        check_var,
        check_offset,
        var_check,
        var_message,
        var_offset,
    );
    Ok(())
}

// Whether lent graph lists and their priors are a graph: 1, 2, 4 and 7.
pub fn check_graph(
    size: Size,
    priors: &[f64],
    check_var: &[u32],
    check_offset: &[u32],
    var_check: &[u32],
    var_message: &[u32],
    var_offset: &[u32],
) -> Result<(), Refusal>
    ensures { let g = graph size.checks size.mechanisms check_var.now
        check_offset.now var_check.now var_message.now var_offset.now in
        result ≡ graph_fault size.edges priors.now g }
{
    if !sizes_good(size) {
        return Err(Refusal::SizeAboveLimit);
    }
    let fit = lists_fit(
        size,
        check_var.len(),
        check_offset.len(),
        var_check.len(),
        var_message.len(),
        var_offset.len(),
    );
    if priors.len() != size.mechanisms || !fit {
        return Err(Refusal::ModelListLength);
    }
    numbers_fault(Given::Priors, priors)?;
    if !is_graph(
        size.checks,
        size.mechanisms,
        size.edges,
        check_var,
        check_offset,
        var_check,
        var_message,
        var_offset,
    ) {
        return Err(Refusal::NoSuchGraph);
    }
    Ok(())
}
