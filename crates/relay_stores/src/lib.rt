// Inner: how many messages the iterations of a decode write, by the formula, and test 29: `relay_decode` alone calls it, and for the
// comparison `exports_compare`.
#![tactic(auto)]

ghost use Rattle.std.specs.Prelude.{◌≡◌, [], ◌*◌, ◌≤◌, leb, length};
ghost use Rattle.numbers.specs.Limits.{max_edges, max_count};
ghost use Rattle.graph_lists.specs.Sound.{Offsets};
ghost use Rattle.graph_messages.specs.Needs.{walked, of_variables};
ghost use Rattle.relay_stores.specs.Stores.{squared_degrees, stores_each as each_of, most_iterations, max_stores};

use graph_lists::indices::at;
use relay_settings::{Schedule, Settings};

// The sum of all squared mechanism degrees. It is no more than the edges squared.
fn squared_degrees(mechanisms: usize, var_message: &[u32], var_offset: &[u32]) -> u64
    requires offsets { Offsets mechanisms (length var_message.now) var_offset.now }
    requires var_message_len_bound { length var_message.now ≤ max_edges }
    ensures sum { result ≡ squared_degrees (of_variables mechanisms var_message.now var_offset.now) }
    ensures few { result ≤ max_edges * max_edges }
{
    let mut sum = 0u64;
    for v in 0..mechanisms {
        let start = at(var_offset, v);
        let degree = (at(var_offset, v + 1) - start) as u64;
        sum += degree * degree;
    }
    sum
}

// What one iteration writes.
pub fn stores_each(
    schedule: Schedule,
    mechanisms: usize,
    check_var: &[u32],
    var_message: &[u32],
    var_offset: &[u32],
) -> u64
    requires offsets { Offsets mechanisms (length var_message.now) var_offset.now }
    requires check_var_len_bound { (length check_var.now ≤ max_edges) × (length var_message.now ≤ max_edges) }
    ensures { let g = walked 0 mechanisms check_var.now [] var_message.now var_offset.now in
        result ≡ each_of schedule g }
{
    let edges = check_var.len() as u64;
    match schedule {
        Schedule::Flooding => 2 * edges,
        Schedule::CheckSerial => edges + squared_degrees(mechanisms, var_message, var_offset),
    }
}

// The most iterations that a decode can take.
fn most_iterations(t: Settings) -> u64
    requires { (t.pre_iterations ≤ max_count) × (t.num_legs ≤ max_count) × (t.leg_iterations ≤ max_count) }
    ensures { result ≡ most_iterations t }
{
    (t.pre_iterations + t.num_legs * t.leg_iterations) as u64
}

// Test 29 of so many iterations: whether the product is at most 2^64 - 1, which it may be above.
pub fn product_fits(n: u64, each: u64) -> bool
    ensures { result ≡ leb (n * each) max_stores }
{
    if each == 0 {
        return true;
    }
    n <= 18446744073709551615 / each
}

// Test 29, of what one iteration writes: whether it is passed.
pub fn stores_fit(t: Settings, each: u64) -> bool
    requires { (t.pre_iterations ≤ max_count) × (t.num_legs ≤ max_count) × (t.leg_iterations ≤ max_count) }
    ensures { result ≡ leb (most_iterations t * each) max_stores }
{
    product_fits(most_iterations(t), each)
}
