// The tests before a decode, in the reference's order.
ghost use Rattle.std.specs.Prelude.{◌≡◌, ◌&&◌, [], suc, ◌*◌, ◌≤◌, eqb, leb, length};
ghost use Rattle.numbers.specs.Limits.{max_checks, max_mechanisms, max_count};
ghost use Rattle.refusals.specs.Tests.{or_else};
ghost use Rattle.graph_lists.specs.Graph.{graph};
ghost use Rattle.graph_lists.specs.Sound.{Offsets, Keys};
ghost use Rattle.graph_messages.specs.Needs.{of_checks};
ghost use Rattle.relay_orders.specs.Order.{names_fault, exchange_fault};
ghost use Rattle.relay_calls.specs.Calls.{decode_lists};
ghost use Rattle.relay_calls.specs.Formula.{taken_fault};
ghost use Rattle.relay_record.specs.Kept.{shot_fault};
ghost use Rattle.relay_calls.specs.Decode.{shot};

use refusals::Refusal;
use relay_calls::tests::syndrome_fault;
use relay_gammas::seed_fault;
use relay_orders::{exchange_fault, is_index_order, names_fault};
use relay_settings::{Schedule, Settings, check_settings};

// 22, of the leg lists: at least num_legs + 1 rows.
fn legs_fit(
    num_legs: usize,
    mechanisms: usize,
    leg_state: &[u8],
    leg_iterations: &[u32],
    leg_weight: &[f64],
    rows: &[u8],
) -> bool
    requires { (num_legs ≤ max_count) × (mechanisms ≤ max_mechanisms) }
    ensures { result
        ≡ (leb (suc num_legs) (length leg_state.now)
        && (leb (suc num_legs) (length leg_iterations.now)
        && (leb (suc num_legs) (length leg_weight.now)
        && leb (suc num_legs * mechanisms) (length rows.now)))) }
{
    let legs = num_legs + 1;
    let cells = legs * mechanisms;
    legs <= leg_state.len()
        && legs <= leg_iterations.len()
        && legs <= leg_weight.len()
        && cells <= rows.len()
}

// 22, of the others: they fit exactly.
fn work_fits(
    mechanisms: usize,
    edges: usize,
    correction: &[u8],
    posterior: &[f64],
    gamma: &[f64],
    bias: &[f64],
    c_to_v: &[f64],
    v_to_c: &[f64],
) -> bool
    ensures { result
        ≡ (eqb (length correction.now) mechanisms
        && (eqb (length posterior.now) mechanisms
        && (eqb (length gamma.now) mechanisms
        && (eqb (length bias.now) mechanisms
        && (eqb (length c_to_v.now) edges && eqb (length v_to_c.now) edges))))) }
{
    correction.len() == mechanisms
        && posterior.len() == mechanisms
        && gamma.len() == mechanisms
        && bias.len() == mechanisms
        && c_to_v.len() == edges
        && v_to_c.len() == edges
}

// The tests of both calls: 1, 2, 4, 7, 9 to 21, 27, 22.
pub fn shot_fault(
    size: graph::Size,
    priors: &[f64],
    check_var: &[u32],
    check_offset: &[u32],
    var_check: &[u32],
    var_message: &[u32],
    var_offset: &[u32],
    t: Settings,
    gammas: &[f64],
    syndrome: &[u8],
    seed: u64,
    leg_state: &[u8],
    leg_iterations: &[u32],
    leg_weight: &[f64],
    rows: &[u8],
    correction: &[u8],
    posterior: &[f64],
    gamma: &[f64],
    bias: &[f64],
    c_to_v: &[f64],
    v_to_c: &[f64],
) -> Result<(), Refusal>
    ensures { let g = graph size.checks size.mechanisms check_var.now
        check_offset.now var_check.now var_message.now var_offset.now in
        let x = shot g priors.now t gammas.now [] syndrome.now seed in
        let before = decode_lists leg_state.now leg_iterations.now leg_weight.now rows.now
        correction.now posterior.now gamma.now bias.now c_to_v.now
        v_to_c.now in
        result ≡ shot_fault size.edges x before }
{
    let num_legs = t.num_legs;
    let source = t.gamma_source;
    graph::check_graph(
        size,
        priors,
        check_var,
        check_offset,
        var_check,
        var_message,
        var_offset,
    )?;
    check_settings(t, size.mechanisms, gammas)?;
    syndrome_fault(size.checks, syndrome)?;
    seed_fault(source, seed)?;
    let records = legs_fit(
        num_legs,
        size.mechanisms,
        leg_state,
        leg_iterations,
        leg_weight,
        rows,
    );
    let work = work_fits(
        size.mechanisms,
        size.edges,
        correction,
        posterior,
        gamma,
        bias,
        c_to_v,
        v_to_c,
    );
    if !records || !work {
        return Err(Refusal::LentListLength);
    }
    Ok(())
}

// 23 and 24: the index order, the usual case, is always taken.
fn order_fault(
    schedule: Schedule,
    checks: usize,
    check_var: &[u32],
    check_offset: &[u32],
    order: &[u32],
) -> Result<(), Refusal>
    requires checks_le_max_checks { checks ≤ max_checks }
    requires offsets { Offsets checks (length check_var.now) check_offset.now }
    requires keys { Keys max_mechanisms check_var.now }
    ensures { let g = of_checks checks check_var.now check_offset.now in
        result ≡ or_else (names_fault checks order.now) (exchange_fault schedule g order.now) }
{
    if is_index_order(checks, order) {
        return Ok(());
    }
    names_fault(checks, order)?;
    exchange_fault(schedule, checks, check_var, check_offset, order)
}

// The tests of `decode_in_order` before 29: 1, 2, 4, 7, 9 to 21, 27, 22 to 24.
pub fn taken_fault(
    size: graph::Size,
    priors: &[f64],
    check_var: &[u32],
    check_offset: &[u32],
    var_check: &[u32],
    var_message: &[u32],
    var_offset: &[u32],
    t: Settings,
    gammas: &[f64],
    syndrome: &[u8],
    seed: u64,
    order: &[u32],
    leg_state: &[u8],
    leg_iterations: &[u32],
    leg_weight: &[f64],
    rows: &[u8],
    correction: &[u8],
    posterior: &[f64],
    gamma: &[f64],
    bias: &[f64],
    c_to_v: &[f64],
    v_to_c: &[f64],
) -> Result<(), Refusal>
    ensures { let g = graph size.checks size.mechanisms check_var.now
        check_offset.now var_check.now var_message.now var_offset.now in
        let x = shot g priors.now t gammas.now order.now syndrome.now seed in
        let before = decode_lists leg_state.now leg_iterations.now leg_weight.now rows.now
        correction.now posterior.now gamma.now bias.now c_to_v.now
        v_to_c.now in
        result ≡ taken_fault size.edges x before }
{
    let schedule = t.schedule;
    shot_fault(
        size,
        priors,
        check_var,
        check_offset,
        var_check,
        var_message,
        var_offset,
        t,
        gammas,
        syndrome,
        seed,
        leg_state,
        leg_iterations,
        leg_weight,
        rows,
        correction,
        posterior,
        gamma,
        bias,
        c_to_v,
        v_to_c,
    )?;
    order_fault(schedule, size.checks, check_var, check_offset, order)
}
