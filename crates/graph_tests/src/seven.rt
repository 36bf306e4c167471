// Test 7 in O(checks + mechanisms + edges).
ghost use Rattle.std.specs.Prelude.{◌≡◌, ◌<◌, length};
ghost use Rattle.numbers.specs.Loops.{every};
ghost use Rattle.graph_lists.specs.Graph.{graph};
ghost use Rattle.graph_lists.specs.Model.{is_graph};
ghost use Rattle.graph_lists.specs.Sound.{Offsets, Long, Rising};
ghost use Rattle.graph_lists.specs.QuickTest.{rises_below, met_good, entry_good, entries_good, check_good, var_good};

use crate::offsets_good;
use graph_lists::indices::at;

// Strictly rising, all below n.
fn rises_below(n: usize, xs: &[u32]) -> bool
    ensures { result ≡ rises_below n xs.now }
{
    let mut least = 0;
    for x in xs {
        let x = *x as usize;
        if x < least || n <= x {
            return false;
        }
        least = x + 1;
    }
    true
}

// The message m lies in the part of the check c, and the variable v stands there.
fn met_good(
    checks: usize,
    v: usize,
    check_offset: &[u32],
    check_var: &[u32],
    c: usize,
    m: usize,
) -> bool
    requires offsets { Offsets checks (length check_var.now) check_offset.now }
    requires c_lt_checks { c < checks }
    ensures { result ≡ met_good check_offset.now check_var.now v c m }
{
    at(check_offset, c) <= m && m < at(check_offset, c + 1) && at(check_var, m) == v
}

// A variable's entries, one by one.
fn meets_good(
    checks: usize,
    v: usize,
    check_offset: &[u32],
    check_var: &[u32],
    cs: &[u32],
    ms: &[u32],
) -> bool
    requires offsets { Offsets checks (length check_var.now) check_offset.now }
    requires ms_len { length ms.now ≡ length cs.now }
    requires rising { Rising checks cs.now }
    ensures { result
        ≡ every (length cs.now)
        (entry_good check_offset.now check_var.now v cs.now ms.now) }
{
    for (c, m) in cs.iter().zip(ms) {
        if !met_good(checks, v, check_offset, check_var, *c as usize, *m as usize) {
            return false;
        }
    }
    true
}

// A variable's entries: their checks rise, and each holds its message.
fn entries_good(
    checks: usize,
    v: usize,
    check_offset: &[u32],
    check_var: &[u32],
    cs: &[u32],
    ms: &[u32],
) -> bool
    requires offsets { Offsets checks (length check_var.now) check_offset.now }
    requires ms_len { length ms.now ≡ length cs.now }
    ensures { result ≡ entries_good checks check_offset.now check_var.now v cs.now ms.now }
{
    rises_below(checks, cs) && meets_good(checks, v, check_offset, check_var, cs, ms)
}

// The entries of each check.
fn checks_good(checks: usize, mechanisms: usize, check_offset: &[u32], check_var: &[u32]) -> bool
    requires { Offsets checks (length check_var.now) check_offset.now }
    ensures { result ≡ every checks (check_good mechanisms check_offset.now check_var.now) }
{
    for c in 0..checks {
        let start = at(check_offset, c);
        let end = at(check_offset, c + 1);
        if !rises_below(mechanisms, &check_var[start..end]) {
            return false;
        }
    }
    true
}

// The entries of each variable.
fn vars_good(
    checks: usize,
    mechanisms: usize,
    check_var: &[u32],
    check_offset: &[u32],
    var_check: &[u32],
    var_message: &[u32],
    var_offset: &[u32],
) -> bool
    requires offsets { Offsets checks (length check_var.now) check_offset.now }
    requires offsets_2 { Offsets mechanisms (length var_check.now) var_offset.now }
    requires var_message_len { length var_message.now ≡ length var_check.now }
    ensures { let g = graph checks mechanisms check_var.now check_offset.now
        var_check.now var_message.now var_offset.now in
        result ≡ every mechanisms (var_good g) }
{
    for v in 0..mechanisms {
        let start = at(var_offset, v);
        let end = at(var_offset, v + 1);
        if !entries_good(
            checks,
            v,
            check_offset,
            check_var,
            &var_check[start..end],
            &var_message[start..end],
        ) {
            return false;
        }
    }
    true
}

// Whether the lists are the graph of what they tell, in O(checks + mechanisms + edges).
pub fn is_graph(
    checks: usize,
    mechanisms: usize,
    edges: usize,
    check_var: &[u32],
    check_offset: &[u32],
    var_check: &[u32],
    var_message: &[u32],
    var_offset: &[u32],
) -> bool
    requires { let g = graph checks mechanisms check_var.now check_offset.now
        var_check.now var_message.now
        var_offset.now in
        Long edges g }
    ensures { let g = graph checks mechanisms check_var.now check_offset.now
        var_check.now var_message.now var_offset.now in
        result ≡ is_graph g }
{
    if !offsets_good(checks, edges, check_offset) {
        return false;
    }
    if !checks_good(checks, mechanisms, check_offset, check_var) {
        return false;
    }
    if !offsets_good(mechanisms, edges, var_offset) {
        return false;
    }
    vars_good(
        checks,
        mechanisms,
        check_var,
        check_offset,
        var_check,
        var_message,
        var_offset,
    )
}
