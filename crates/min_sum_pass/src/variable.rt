// One variable, with the messages that its entries name: its raw posterior, and what it sends to its checks.
ghost use Rattle.std.specs.Prelude.{◌≡◌, ◌<◌, length};
ghost use mathlib.Core.List.{[], foldl};
ghost use Rattle.numbers.specs.Floats.{◌+ᶠ◌};
ghost use Rattle.graph_lists.specs.Messages.{total};
ghost use Rattle.graph_lists.specs.Sound.{Keys};
ghost use Rattle.graph_messages.specs.Needs.{PerEdge};
ghost use Rattle.graph_messages.specs.Sides.{variables_alone};
ghost use Rattle.min_sum_pass.specs.MinSum.{damped as damped_of, damped_messages, messages, raw_posterior, update_variable};

use graph_messages::rows::Rows;

// What is written over an old message, where the sum at the variable holds the own message.
fn damped(sum: f64, own: f64, old: f64) -> f64
    ensures { result ≡ damped_of sum own old }
{
    (1.0 - 0.25) * (sum - own) + 0.25 * old
}

// That, for each message that the entries name.
fn write_messages(entries: &[u32], sum: f64, c_to_v: &[f64], v_to_c: &mut [f64])
    requires keys { Keys (length c_to_v.now) entries.now }
    requires v_to_c_len { length v_to_c.old ≡ length c_to_v.now }
    ensures { v_to_c.new ≡ damped_messages sum c_to_v.now v_to_c.old entries.now }
{
    for entry in entries {
        let m = *entry as usize;
        v_to_c[m] = damped(sum, c_to_v[m], v_to_c[m]);
    }
}

// The sum at the variable with these entries, and its messages.
fn update_entries(prior: f64, entries: &[u32], c_to_v: &[f64], v_to_c: &mut [f64]) -> f64
    requires keys { Keys (length c_to_v.now) entries.now }
    requires v_to_c_len { length v_to_c.old ≡ length c_to_v.now }
    ensures sum { result ≡ prior +ᶠ total c_to_v.now entries.now }
    ensures messages { v_to_c.new ≡ damped_messages result c_to_v.now v_to_c.old entries.now }
{
    let sum = prior + graph_messages::total(entries, c_to_v);
    write_messages(entries, sum, c_to_v, v_to_c);
    sum
}

// The raw posterior of the variable v.
pub fn raw_posterior(v: usize, priors: &[f64], variables: &Rows<'_>, c_to_v: &[f64]) -> f64
    requires v_in_bounds { v < variables.now.rows }
    requires priors_len { length priors.now ≡ variables.now.rows }
    requires c_to_v_len { length c_to_v.now ≡ variables.now.n }
    ensures { result ≡ raw_posterior (variables_alone variables.now) priors.now (messages c_to_v.now []) v }
{
    priors[v] + graph_messages::total(variables.row(v), c_to_v)
}

// The update of the variable v, and its raw posterior.
pub(crate) fn update_variable(
    v: usize,
    priors: &[f64],
    variables: &Rows<'_>,
    c_to_v: &[f64],
    v_to_c: &mut [f64],
) -> f64
    requires v_in_bounds { v < variables.now.rows }
    requires priors_len { length priors.now ≡ variables.now.rows }
    requires per_edge { PerEdge variables.now.n c_to_v.now v_to_c.old }
    ensures sum { result ≡ raw_posterior (variables_alone variables.now) priors.now (messages c_to_v.now []) v }
    ensures messages { let before = messages c_to_v.now v_to_c.old in
        messages c_to_v.now v_to_c.new ≡ update_variable (variables_alone variables.now) priors.now before v }
{
    update_entries(priors[v], variables.row(v), c_to_v, v_to_c)
}

// The update of each variable that a check's entries name, in their order.
pub(crate) fn update_variables(
    entries: &[u32],
    priors: &[f64],
    variables: &Rows<'_>,
    c_to_v: &[f64],
    v_to_c: &mut [f64],
)
    requires keys { Keys variables.now.rows entries.now }
    requires priors_len { length priors.now ≡ variables.now.rows }
    requires per_edge { PerEdge variables.now.n c_to_v.now v_to_c.old }
    ensures { let before = messages c_to_v.now v_to_c.old in
        messages c_to_v.now v_to_c.new
        ≡ foldl (update_variable (variables_alone variables.now) priors.now) before entries.now }
{
    for v in entries {
        update_variable(*v as usize, priors, variables, c_to_v, v_to_c);
    }
}
