// Inner: tests 23 and 24: which orders of checks are taken, in O(checks + edges), over local arrays, since a refusal writes nothing.
#![tactic(auto)]

ghost use Rattle.std.specs.Prelude.{◌≡◌, true, [], ◌≤◌, length};
ghost use Rattle.numbers.specs.Limits.{max_checks, max_mechanisms};
ghost use Rattle.numbers.specs.Loops.{row, upto};
ghost use Rattle.graph_lists.specs.Sound.{Offsets, Keys};
ghost use Rattle.graph_messages.specs.Needs.{of_checks};
ghost use Rattle.relay_orders.specs.Order.{names_once, exchanged, names_fault, exchange_fault};
ghost use Rattle.relay_orders.specs.Marks.{marked_at, overtaken};

use graph_lists::indices::at;
use numbers::limits::{MAX_CHECKS, MAX_MECHANISMS};
use refusals::Refusal;
use relay_settings::Schedule;

// Whether the order names each check once.
fn names_each_once(checks: usize, order: &[u32]) -> bool
    requires { checks ≤ max_checks }
    ensures { result ≡ names_once checks order.now }
{
    if order.len() != checks {
        return false;
    }
    let mut seen = [0u8; MAX_CHECKS];
    for check in order {
        let c = *check as usize;
        if c >= checks {
            return false;
        }
        if seen[c] != 0 {
            return false;
        }
        seen[c] = 1;
    }
    true
}

// Test 23.
pub fn names_fault(checks: usize, order: &[u32]) -> Result<(), Refusal>
    requires { checks ≤ max_checks }
    ensures { result ≡ names_fault checks order.now }
{
    if !names_each_once(checks, order) {
        return Err(Refusal::OrderNotEachOnce);
    }
    Ok(())
}

// Whether a mechanism of these entries was last named by a check above c. `last` has that check for
// each mechanism, and 0 where there is none: no check is below 0.
fn is_overtaken(c: u16, entries: &[u32], last: &[u16; MAX_MECHANISMS]) -> bool
    requires { Keys max_mechanisms entries.now }
    ensures { result ≡ overtaken c last.now entries.now }
{
    for v in entries {
        if c < last[*v as usize] {
            return true;
        }
    }
    false
}

// The check c has named the mechanisms of these entries last.
fn mark(c: u16, entries: &[u32], last: &mut [u16; MAX_MECHANISMS])
    requires { Keys max_mechanisms entries.now }
    ensures { last.new ≡ marked_at c last.old entries.now }
{
    for v in entries {
        last[*v as usize] = c;
    }
}

// The first check in the order that shares a mechanism with a higher one named before it.
fn exchanged_check(
    checks: usize,
    check_var: &[u32],
    check_offset: &[u32],
    order: &[u32],
) -> Result<(), Refusal>
    requires checks_le_max_checks { checks ≤ max_checks }
    requires offsets { Offsets checks (length check_var.now) check_offset.now }
    requires keys { Keys max_mechanisms check_var.now }
    requires order_value { names_once checks order.now ≡ true }
    ensures { result ≡ exchanged (λ c. row check_offset.now c check_var.now) [] order.now }
{
    let mut last = [0u16; MAX_MECHANISMS];
    for check in order {
        let c = *check as usize;
        let start = at(check_offset, c);
        let end = at(check_offset, c + 1);
        let short = c as u16;
        if is_overtaken(short, &check_var[start..end], &last) {
            return Err(Refusal::OrderExchanged(c));
        }
        mark(short, &check_var[start..end], &mut last);
    }
    Ok(())
}

// Whether the order is the index order, which is always taken: the usual case, with no marks.
pub fn is_index_order(checks: usize, order: &[u32]) -> bool
    ensures { result ≡ true → order.now ≡ upto checks }
{
    order.len() == checks && order.iter().enumerate().all(|(i, c)| *c as usize == i)
}

// Test 24, of an order that names each check once.
pub fn exchange_fault(
    schedule: Schedule,
    checks: usize,
    check_var: &[u32],
    check_offset: &[u32],
    order: &[u32],
) -> Result<(), Refusal>
    requires checks_le_max_checks { checks ≤ max_checks }
    requires offsets { Offsets checks (length check_var.now) check_offset.now }
    requires keys { Keys max_mechanisms check_var.now }
    requires order_value { names_once checks order.now ≡ true }
    ensures { let g = of_checks checks check_var.now check_offset.now in
        result ≡ exchange_fault schedule g order.now }
{
    match schedule {
        Schedule::Flooding => Ok(()),
        Schedule::CheckSerial => exchanged_check(checks, check_var, check_offset, order),
    }
}
