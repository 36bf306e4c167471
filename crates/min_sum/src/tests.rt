// The tests before a run, in the reference's order.
ghost use Rattle.std.specs.Prelude.{◌≡◌, ◌&&◌, eqb, leb};
ghost use Rattle.numbers.specs.Limits.{max_count};
ghost use Rattle.refusals.specs.declared.Refusal.TheVariants.{BadIterations, SyndromeLength, LentListLength};
ghost use Rattle.refusals.specs.Tests.{unless, or_else};
ghost use Rattle.graph_lists.specs.Graph.{graph};
ghost use Rattle.graph_lists.specs.Model.{graph_fault};

use numbers::limits::MAX_COUNT;
use refusals::Refusal;

// How long the syndrome and the lent lists are.
#[derive(Clone, Copy)]
pub(crate) struct Lengths {
    pub(crate) syndrome: usize,
    pub(crate) posterior: usize,
    pub(crate) ewa_posterior: usize,
    pub(crate) c_to_v: usize,
    pub(crate) v_to_c: usize,
}

// 22: the lent lists fit.
fn lists_fit(size: graph::Size, n: Lengths) -> bool
    ensures { result
        ≡ (eqb n.posterior size.mechanisms
        && (eqb n.ewa_posterior size.mechanisms && (eqb n.c_to_v size.edges && eqb n.v_to_c size.edges))) }
{
    n.posterior == size.mechanisms
        && n.ewa_posterior == size.mechanisms
        && n.c_to_v == size.edges
        && n.v_to_c == size.edges
}

// 12, 20 and 22.
fn run_fault(size: graph::Size, iterations: usize, n: Lengths) -> Result<(), Refusal>
    ensures { result
        ≡ or_else (unless (leb iterations max_count) BadIterations) (or_else (unless (eqb n.syndrome size.checks) SyndromeLength) (unless
        (eqb n.posterior size.mechanisms
        && (eqb n.ewa_posterior size.mechanisms
        && (eqb n.c_to_v size.edges && eqb n.v_to_c size.edges))) LentListLength)) }
{
    if MAX_COUNT < iterations {
        return Err(Refusal::BadIterations);
    }
    if n.syndrome != size.checks {
        return Err(Refusal::SyndromeLength);
    }
    if !lists_fit(size, n) {
        return Err(Refusal::LentListLength);
    }
    Ok(())
}

// All of them: 1, 2, 4, 7, then 12, 20 and 22.
pub(crate) fn fault(
    size: graph::Size,
    priors: &[f64],
    check_var: &[u32],
    check_offset: &[u32],
    var_check: &[u32],
    var_message: &[u32],
    var_offset: &[u32],
    iterations: usize,
    n: Lengths,
) -> Result<(), Refusal>
    ensures { let g = graph size.checks size.mechanisms check_var.now
        check_offset.now var_check.now var_message.now var_offset.now in
        result
        ≡ or_else (graph_fault size.edges priors.now g) (or_else (unless (leb iterations max_count) BadIterations) (or_else
        (unless (eqb n.syndrome size.checks) SyndromeLength) (unless (eqb n.posterior size.mechanisms
        && (eqb n.ewa_posterior size.mechanisms
        && (eqb n.c_to_v size.edges && eqb n.v_to_c size.edges))) LentListLength))) }
{
    graph::check_graph(
        size,
        priors,
        check_var,
        check_offset,
        var_check,
        var_message,
        var_offset,
    )?;
    run_fault(size, iterations, n)
}
