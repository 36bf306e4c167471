// The run: an iteration with its weight, outer rounds, and the end rule.
ghost use Rattle.std.specs.Prelude.{◌≡◌, true, false, [], length};
ghost use Rattle.graph_lists.specs.Messages.{by_place};
ghost use Rattle.graph_messages.specs.Needs.{Walks, walked, RunLists};
ghost use Rattle.graph_messages.specs.Sides.{sides, variables_alone};
ghost use Rattle.min_sum_pass.specs.MinSum.{messages, belief, weight_of, iterated, outer_round as outer_round_of};
ghost use Rattle.min_sum_pass.specs.MinSum.{all_rounds as all_rounds_of, chosen as chosen_of, chosen_to, min_sum_bp};
ghost use Rattle.min_sum_pass.specs.Needs.{OneGraph};
ghost use Rattle.min_sum.specs.Beliefs.{beliefs_lists, beliefs_outcome, ran as ran_of};

use graph_messages::rows::Rows;
use refusals::Refusal;

// What the iterations of a run share: whether they are serial, the scale, a syndrome and priors, and both sides of the graph of these.
#[derive(Clone, Copy)]
struct Run<'a> {
    serial: bool,
    scale: f64,
    syndrome: &'a [u8],
    priors: &'a [f64],
    checks: Rows<'a>,
    variables: Rows<'a>,
    ghost one_graph: { OneGraph checks variables syndrome.now priors.now },
}

// The weight of an iteration: 1 in the very first, else 0.3.
fn weight(outer: usize, i: usize) -> f64
    ensures { result ≡ weight_of outer i }
{
    if i == 0 && outer == 0 {
        return 1.0;
    }
    0.3
}

// An iteration that is not serial: all checks, then all variables.
fn iterate_parallel(
    weight: f64,
    run: &Run<'_>,
    c_to_v: &mut [f64],
    v_to_c: &mut [f64],
    ewa_posterior: &mut [f64],
)
    requires { RunLists run.now.variables.n run.now.variables.rows c_to_v.old v_to_c.old ewa_posterior.old }
    ensures { let g = sides run.now.checks run.now.variables in
        let before = belief (messages c_to_v.old v_to_c.old) ewa_posterior.old in
        let after = messages c_to_v.new v_to_c.new in
        belief after ewa_posterior.new
        ≡ iterated by_place g false run.now.scale run.now.syndrome.now run.now.priors.now weight before }
{
    min_sum_pass::pass::parallel_checks(run.scale, run.syndrome, &run.checks, v_to_c, c_to_v);
    min_sum_pass::pass::update_and_average(
        weight,
        run.priors,
        &run.variables,
        c_to_v,
        v_to_c,
        ewa_posterior,
    );
}

// A serial iteration: each check, and then its variables.
fn iterate_serial(
    weight: f64,
    run: &Run<'_>,
    c_to_v: &mut [f64],
    v_to_c: &mut [f64],
    ewa_posterior: &mut [f64],
)
    requires { RunLists run.now.variables.n run.now.variables.rows c_to_v.old v_to_c.old ewa_posterior.old }
    ensures { let g = sides run.now.checks run.now.variables in
        let before = belief (messages c_to_v.old v_to_c.old) ewa_posterior.old in
        let after = messages c_to_v.new v_to_c.new in
        belief after ewa_posterior.new
        ≡ iterated by_place g true run.now.scale run.now.syndrome.now run.now.priors.now weight before }
{
    min_sum_pass::pass::serial_checks(
        run.scale,
        run.syndrome,
        run.priors,
        &run.checks,
        &run.variables,
        c_to_v,
        v_to_c,
    );
    min_sum_pass::pass::average(weight, run.priors, &run.variables, c_to_v, ewa_posterior);
}

// An iteration, serial or not.
fn iterate(
    weight: f64,
    run: &Run<'_>,
    c_to_v: &mut [f64],
    v_to_c: &mut [f64],
    ewa_posterior: &mut [f64],
)
    requires { RunLists run.now.variables.n run.now.variables.rows c_to_v.old v_to_c.old ewa_posterior.old }
    ensures { let g = sides run.now.checks run.now.variables in
        let before = belief (messages c_to_v.old v_to_c.old) ewa_posterior.old in
        let after = messages c_to_v.new v_to_c.new in
        belief after ewa_posterior.new
        ≡ iterated by_place g run.now.serial run.now.scale run.now.syndrome.now run.now.priors.now weight before }
{
    if run.serial {
        iterate_serial(weight, run, c_to_v, v_to_c, ewa_posterior);
        return;
    }
    iterate_parallel(weight, run, c_to_v, v_to_c, ewa_posterior);
}

// An outer round: messages start from the running posterior.
fn outer_round(
    inner: usize,
    outer: usize,
    run: &Run<'_>,
    c_to_v: &mut [f64],
    v_to_c: &mut [f64],
    ewa_posterior: &mut [f64],
)
    requires { RunLists run.now.variables.n run.now.variables.rows c_to_v.old v_to_c.old ewa_posterior.old }
    ensures { let g = sides run.now.checks run.now.variables in
        let before = belief (messages c_to_v.old v_to_c.old) ewa_posterior.old in
        let after = messages c_to_v.new v_to_c.new in
        belief after ewa_posterior.new
        ≡ outer_round_of by_place g run.now.serial run.now.scale run.now.syndrome.now run.now.priors.now inner outer before }
{
    graph_messages::clear(c_to_v);
    graph_messages::from_variables(run.checks.entries, ewa_posterior, v_to_c);
    for i in 0..inner {
        iterate(weight(outer, i), run, c_to_v, v_to_c, ewa_posterior);
    }
}

// Two outer rounds of as many iterations each.
fn two_outer_rounds(
    inner: usize,
    run: &Run<'_>,
    c_to_v: &mut [f64],
    v_to_c: &mut [f64],
    ewa_posterior: &mut [f64],
)
    requires { RunLists run.now.variables.n run.now.variables.rows c_to_v.old v_to_c.old ewa_posterior.old }
    ensures { let g = sides run.now.checks run.now.variables in
        let before = belief (messages c_to_v.old v_to_c.old) ewa_posterior.old in
        let after = messages c_to_v.new v_to_c.new in
        belief after ewa_posterior.new
        ≡ outer_round_of by_place g run.now.serial run.now.scale run.now.syndrome.now run.now.priors.now inner 1
        (outer_round_of by_place g run.now.serial run.now.scale run.now.syndrome.now run.now.priors.now inner 0 before) }
{
    outer_round(inner, 0, run, c_to_v, v_to_c, ewa_posterior);
    outer_round(inner, 1, run, c_to_v, v_to_c, ewa_posterior);
}

// Two outer rounds of n / 2 from 6 on, so that 7 are 3 and 3; else one of n.
fn all_rounds(
    n: usize,
    run: &Run<'_>,
    c_to_v: &mut [f64],
    v_to_c: &mut [f64],
    ewa_posterior: &mut [f64],
)
    requires { RunLists run.now.variables.n run.now.variables.rows c_to_v.old v_to_c.old ewa_posterior.old }
    ensures { let g = sides run.now.checks run.now.variables in
        let after = messages c_to_v.new v_to_c.new in
        belief after ewa_posterior.new
        ≡ all_rounds_of by_place g run.now.serial run.now.scale run.now.syndrome.now run.now.priors.now n }
{
    graph_lists::lists::copy(run.priors, ewa_posterior);
    if n < 6 {
        outer_round(n, 0, run, c_to_v, v_to_c, ewa_posterior);
        return;
    }
    two_outer_rounds(n / 2, run, c_to_v, v_to_c, ewa_posterior);
}

// The raw posterior in place of the belief, where both are above zero or both not, and its magnitude is larger.
fn chosen(belief: f64, raw: f64) -> f64
    ensures { result ≡ chosen_of belief raw }
{
    if (0.0 < belief) != (0.0 < raw) {
        return belief;
    }
    if numbers::magnitude(belief) < numbers::magnitude(raw) {
        return raw;
    }
    belief
}

// The end rule, for all variables.
fn choose(
    priors: &[f64],
    variables: &Rows<'_>,
    c_to_v: &[f64],
    ewa_posterior: &[f64],
    posterior: &mut [f64],
)
    requires priors_len { length priors.now ≡ variables.now.rows }
    requires c_to_v_len { length c_to_v.now ≡ variables.now.n }
    requires ewa_posterior_len { (length ewa_posterior.now ≡ variables.now.rows) × (length posterior.old ≡ variables.now.rows) }
    ensures { let before = belief (messages c_to_v.now []) ewa_posterior.now in
        posterior.new ≡ chosen_to (variables_alone variables.now) priors.now before variables.now.rows }
{
    for (v, x) in posterior.iter_mut().enumerate() {
        let raw = min_sum_pass::variable::raw_posterior(v, priors, variables, c_to_v);
        *x = chosen(ewa_posterior[v], raw);
    }
}

// The beliefs after n iterations.
fn min_sum_bp(
    n: usize,
    run: &Run<'_>,
    c_to_v: &mut [f64],
    v_to_c: &mut [f64],
    ewa_posterior: &mut [f64],
    posterior: &mut [f64],
)
    requires run_lists { RunLists run.now.variables.n run.now.variables.rows c_to_v.old v_to_c.old ewa_posterior.old }
    requires posterior_len { length posterior.old ≡ run.now.variables.rows }
    ensures { let g = sides run.now.checks run.now.variables in
        posterior.new ≡ min_sum_bp by_place g run.now.serial run.now.scale run.now.syndrome.now run.now.priors.now n }
{
    all_rounds(n, run, c_to_v, v_to_c, ewa_posterior);
    choose(run.priors, &run.variables, c_to_v, ewa_posterior, posterior);
}

// Past the tests: the run, 30 with the first mechanism whose belief is not finite, and zeroed work lists.
pub(crate) fn ran<'g>(
    n: usize,
    serial: bool,
    scale: f64,
    syndrome: &'g [u8],
    priors: &'g [f64],
    check_var: &'g [u32],
    check_offset: &'g [u32],
    var_message: &'g [u32],
    var_offset: &'g [u32],
    c_to_v: &mut [f64],
    v_to_c: &mut [f64],
    ewa_posterior: &mut [f64],
    posterior: &mut [f64],
) -> Result<(), Refusal>
    requires walks { Walks (length syndrome.now) (length priors.now) check_var.now check_offset.now }
    requires walks_2 { Walks (length priors.now) (length check_var.now) var_message.now var_offset.now }
    requires run_lists { RunLists (length check_var.now) (length priors.now) c_to_v.old v_to_c.old ewa_posterior.old }
    requires posterior_len { length posterior.old ≡ length priors.now }
    ensures { let g = walked (length syndrome.now) (length priors.now) check_var.now
        check_offset.now var_message.now var_offset.now in
        let after = beliefs_lists posterior.new ewa_posterior.new c_to_v.new v_to_c.new in
        beliefs_outcome result after
        ≡ ran_of (length check_var.now) g (min_sum_bp by_place g serial scale syndrome.now priors.now n) }
{
    let checks = Rows {
        rows: syndrome.len(),
        n: priors.len(),
        entries: check_var,
        offsets: check_offset,
    };
    let variables = Rows {
        rows: priors.len(),
        n: check_var.len(),
        entries: var_message,
        offsets: var_offset,
    };
    let run = Run {
        serial: serial,
        scale: scale,
        syndrome: syndrome,
        priors: priors,
        checks: checks,
        variables: variables,
    };
    min_sum_bp(n, &run, c_to_v, v_to_c, ewa_posterior, posterior);
    graph_messages::clear(ewa_posterior);
    graph_messages::clear(c_to_v);
    graph_messages::clear(v_to_c);
    let a = graph_messages::first_not_finite(posterior);
    if a.is_err() {
        graph_messages::clear(posterior);
    }
    a
}
