// One variable, with the messages that its entries name: its posterior, and what it sends to its checks.
ghost use Rattle.std.specs.Prelude.{◌≡◌, ◌<◌, length};
ghost use mathlib.Core.List.{foldl};
ghost use Rattle.numbers.specs.Floats.{◌+ᶠ◌};
ghost use Rattle.graph_lists.specs.Messages.{total as total_of};
ghost use Rattle.graph_lists.specs.Sound.{Keys};
ghost use Rattle.graph_messages.specs.Needs.{PerEdge};
ghost use Rattle.graph_messages.specs.Sides.{variables_alone};
ghost use Rattle.relay_step.specs.Step.{written, state, update_variable};
ghost use Rattle.relay_step.specs.Places.{PerVariable};

use graph_messages::rows::Rows;
use graph_messages::total;

// p without each own message, written for each message that the entries name.
fn write_messages(entries: &[u32], p: f64, c_to_v: &[f64], v_to_c: &mut [f64])
    requires keys { Keys (length c_to_v.now) entries.now }
    requires v_to_c_len { length v_to_c.old ≡ length c_to_v.now }
    ensures { v_to_c.new ≡ written p c_to_v.now v_to_c.old entries.now }
{
    for entry in entries {
        let m = *entry as usize;
        v_to_c[m] = p - c_to_v[m];
    }
}

// The posterior of the variable with these entries, and its messages.
fn update_entries(bias: f64, entries: &[u32], c_to_v: &[f64], v_to_c: &mut [f64]) -> f64
    requires keys { Keys (length c_to_v.now) entries.now }
    requires v_to_c_len { length v_to_c.old ≡ length c_to_v.now }
    ensures posterior { result ≡ bias +ᶠ total_of c_to_v.now entries.now }
    ensures messages { v_to_c.new ≡ written result c_to_v.now v_to_c.old entries.now }
{
    let p = bias + total(entries, c_to_v);
    write_messages(entries, p, c_to_v, v_to_c);
    p
}

// `update_variable_flooding` and `update_variable_serial` of the variable v.
pub(crate) fn update_variable(
    v: usize,
    bias: &[f64],
    variables: &Rows<'_>,
    c_to_v: &[f64],
    v_to_c: &mut [f64],
    posterior: &mut [f64],
)
    requires v_in_bounds { v < variables.now.rows }
    requires per_variable { PerVariable variables.now.rows bias.now posterior.old }
    requires per_edge { PerEdge variables.now.n c_to_v.now v_to_c.old }
    ensures { let before = state c_to_v.now v_to_c.old posterior.old in
        state c_to_v.now v_to_c.new posterior.new ≡ update_variable (variables_alone variables.now) bias.now before v }
{
    posterior[v] = update_entries(bias[v], variables.row(v), c_to_v, v_to_c);
}

// The update of each variable that a check's entries name, in their order.
pub(crate) fn update_variables(
    entries: &[u32],
    bias: &[f64],
    variables: &Rows<'_>,
    c_to_v: &[f64],
    v_to_c: &mut [f64],
    posterior: &mut [f64],
)
    requires keys { Keys variables.now.rows entries.now }
    requires per_variable { PerVariable variables.now.rows bias.now posterior.old }
    requires per_edge { PerEdge variables.now.n c_to_v.now v_to_c.old }
    ensures { let before = state c_to_v.now v_to_c.old posterior.old in
        state c_to_v.now v_to_c.new posterior.new
        ≡ foldl (update_variable (variables_alone variables.now) bias.now) before entries.now }
{
    for v in entries {
        update_variable(*v as usize, bias, variables, c_to_v, v_to_c, posterior);
    }
}
