// Passes over all checks and over all variables, in index order.
ghost use Rattle.std.specs.Prelude.{◌≡◌, [], ◌<◌, length};
ghost use Rattle.graph_lists.specs.Messages.{by_place};
ghost use Rattle.graph_messages.specs.Needs.{PerEdge};
ghost use Rattle.graph_messages.specs.Sides.{sides, checks_alone, variables_alone};
ghost use Rattle.min_sum_pass.specs.MinSum.{messages, parallel_check, serial_check, checks_to, serial_to, variables_to};
ghost use Rattle.min_sum_pass.specs.MinSum.{running_average as mixed_of, averaged};
ghost use Rattle.min_sum_pass.specs.Needs.{OneGraph};

use graph_messages::rows::Rows;

// One check of an iteration that is not serial.
fn parallel_check(
    c: usize,
    scale: f64,
    syndrome: &[u8],
    checks: &Rows<'_>,
    v_to_c: &[f64],
    c_to_v: &mut [f64],
)
    requires c_in_bounds { c < checks.now.rows }
    requires syndrome_len { length syndrome.now ≡ checks.now.rows }
    requires per_edge { PerEdge (length checks.now.entries.now) c_to_v.old v_to_c.now }
    ensures { let before = messages c_to_v.old v_to_c.now in
        messages c_to_v.new v_to_c.now ≡ parallel_check by_place (checks_alone checks.now) scale syndrome.now before c }
{
    crate::check::update_part(
        scale,
        syndrome[c] != 0,
        checks.start(c),
        checks.end(c),
        checks.entries,
        v_to_c,
        c_to_v,
    );
}

// All checks of an iteration that is not serial.
pub fn parallel_checks(
    scale: f64,
    syndrome: &[u8],
    checks: &Rows<'_>,
    v_to_c: &[f64],
    c_to_v: &mut [f64],
)
    requires syndrome_len { length syndrome.now ≡ checks.now.rows }
    requires per_edge { PerEdge (length checks.now.entries.now) c_to_v.old v_to_c.now }
    ensures { let before = messages c_to_v.old v_to_c.now in
        messages c_to_v.new v_to_c.now
        ≡ checks_to by_place (checks_alone checks.now) scale syndrome.now before checks.now.rows }
{
    // A copy: no store in the loop can change it, so that where its lists lie is read once.
    let checks = *checks;
    for c in 0..checks.rows {
        parallel_check(c, scale, syndrome, &checks, v_to_c, c_to_v);
    }
}

// An element of the running posterior.
fn running_average(weight: f64, old: f64, current: f64) -> f64
    ensures { result ≡ mixed_of weight old current }
{
    (1.0 - weight) * old + weight * current
}

// The update of all variables, and the running posterior with it: both want the same sum, and the update leaves the check messages.
pub fn update_and_average(
    weight: f64,
    priors: &[f64],
    variables: &Rows<'_>,
    c_to_v: &[f64],
    v_to_c: &mut [f64],
    ewa_posterior: &mut [f64],
)
    requires priors_len { length priors.now ≡ variables.now.rows }
    requires per_edge { PerEdge variables.now.n c_to_v.now v_to_c.old }
    requires ewa_posterior_len { length ewa_posterior.old ≡ variables.now.rows }
    ensures messages { let before = messages c_to_v.now v_to_c.old in
        messages c_to_v.now v_to_c.new
        ≡ variables_to (variables_alone variables.now) priors.now before variables.now.rows }
    ensures average { ewa_posterior.new
        ≡ averaged (variables_alone variables.now) priors.now weight (messages c_to_v.now []) ewa_posterior.old }
{
    // A copy, as in `parallel_checks`. `serial_checks` is slower with copies.
    let variables = *variables;
    for (v, x) in ewa_posterior.iter_mut().enumerate() {
        let sum = crate::variable::update_variable(v, priors, &variables, c_to_v, v_to_c);
        *x = running_average(weight, *x, sum);
    }
}

// The running posterior alone.
pub fn average(
    weight: f64,
    priors: &[f64],
    variables: &Rows<'_>,
    c_to_v: &[f64],
    ewa_posterior: &mut [f64],
)
    requires priors_len { length priors.now ≡ variables.now.rows }
    requires c_to_v_len { length c_to_v.now ≡ variables.now.n }
    requires ewa_posterior_len { length ewa_posterior.old ≡ variables.now.rows }
    ensures { ewa_posterior.new
        ≡ averaged (variables_alone variables.now) priors.now weight (messages c_to_v.now []) ewa_posterior.old }
{
    for (v, x) in ewa_posterior.iter_mut().enumerate() {
        let sum = crate::variable::raw_posterior(v, priors, variables, c_to_v);
        *x = running_average(weight, *x, sum);
    }
}

// One check of a serial iteration, and then each variable of its entries.
fn serial_check(
    c: usize,
    scale: f64,
    syndrome: &[u8],
    priors: &[f64],
    checks: &Rows<'_>,
    variables: &Rows<'_>,
    c_to_v: &mut [f64],
    v_to_c: &mut [f64],
)
    requires c_in_bounds { c < checks.now.rows }
    requires one_graph { OneGraph checks.now variables.now syndrome.now priors.now }
    requires per_edge { PerEdge variables.now.n c_to_v.old v_to_c.old }
    ensures { let before = messages c_to_v.old v_to_c.old in
        messages c_to_v.new v_to_c.new
        ≡ serial_check by_place (sides checks.now variables.now) scale syndrome.now priors.now before c }
{
    if crate::check::update_part(
        scale,
        syndrome[c] != 0,
        checks.start(c),
        checks.end(c),
        checks.entries,
        v_to_c,
        c_to_v,
    ) {
        return;
    }
    crate::variable::update_variables(checks.row(c), priors, variables, c_to_v, v_to_c);
}

// All checks of a serial iteration.
pub fn serial_checks(
    scale: f64,
    syndrome: &[u8],
    priors: &[f64],
    checks: &Rows<'_>,
    variables: &Rows<'_>,
    c_to_v: &mut [f64],
    v_to_c: &mut [f64],
)
    requires one_graph { OneGraph checks.now variables.now syndrome.now priors.now }
    requires per_edge { PerEdge variables.now.n c_to_v.old v_to_c.old }
    ensures { let before = messages c_to_v.old v_to_c.old in
        messages c_to_v.new v_to_c.new
        ≡ serial_to by_place (sides checks.now variables.now) scale syndrome.now priors.now before checks.now.rows }
{
    for c in 0..checks.rows {
        serial_check(
            c, scale, syndrome, priors, checks, variables, c_to_v, v_to_c,
        );
    }
}
