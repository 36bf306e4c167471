// A leg: the hard decision and its test, the weight of a correction, and the iterations of one leg.
ghost use Rattle.std.specs.Prelude.{◌≡◌, false, ◌<◌, length};
ghost use Rattle.graph_lists.specs.Messages.{by_place};
ghost use Rattle.numbers.specs.Loops.{every};
ghost use Rattle.graph_lists.specs.Sound.{Keys};
ghost use Rattle.graph_messages.specs.Needs.{PerEdge};
ghost use Rattle.graph_messages.specs.Sides.{sides, checks_alone};
ghost use Rattle.relay_step.specs.Step.{state, iteration};
ghost use Rattle.relay_step.specs.Leg.{hard_bit, hard_decision, parity as parity_of, matches as matches_of, satisfied as satisfied_by};
ghost use Rattle.relay_step.specs.Leg.{leg as leg_of, run_leg, cost as cost_of, correction_weight};
ghost use Rattle.relay_step.specs.Places.{Joined, LegLists};

use crate::step::step;
use graph_messages::rows::Rows;
use relay_settings::{Clip, Schedule};

// A bit is 1 when its posterior is below 0.
fn hard_bit(p: f64) -> u8
    ensures { result ≡ hard_bit p }
{
    if p < 0.0 {
        return 1;
    }
    0
}

// The hard decision.
pub fn hard_decision(posterior: &[f64], bits: &mut [u8])
    requires { length bits.old ≡ length posterior.now }
    ensures { bits.new ≡ hard_decision posterior.now }
{
    for (v, p) in posterior.iter().enumerate() {
        bits[v] = hard_bit(*p);
    }
}

// The parity of the bits that the entries name.
fn parity(entries: &[u32], bits: &[u8]) -> u8
    requires { Keys (length bits.now) entries.now }
    ensures { result ≡ parity_of bits.now entries.now }
{
    let mut p: u8 = 0;
    for v in entries {
        p ^= bits[*v as usize];
    }
    p
}

// The check c has the parity that the syndrome asks.
fn matches(c: usize, syndrome: &[u8], checks: &Rows<'_>, bits: &[u8]) -> bool
    requires c_in_bounds { c < checks.now.rows }
    requires syndrome_len { length syndrome.now ≡ checks.now.rows }
    requires bits_len { length bits.now ≡ checks.now.n }
    ensures { result ≡ matches_of (checks_alone checks.now) bits.now syndrome.now c }
{
    parity(checks.row(c), bits) == syndrome[c]
}

// All parities match.
fn all_match(syndrome: &[u8], checks: &Rows<'_>, bits: &[u8]) -> bool
    requires syndrome_len { length syndrome.now ≡ checks.now.rows }
    requires bits_len { length bits.now ≡ checks.now.n }
    ensures { result ≡ every checks.now.rows (matches_of (checks_alone checks.now) bits.now syndrome.now) }
{
    // Stays: tried, `all` over the range proves, but a leg then takes 2.7 in 100 more instructions.
    for c in 0..checks.rows {
        if !matches(c, syndrome, checks, bits) {
            return false;
        }
    }
    true
}

// `update_hard_decision_and_check`.
fn satisfied(syndrome: &[u8], checks: &Rows<'_>, posterior: &[f64], bits: &mut [u8]) -> bool
    requires syndrome_len { length syndrome.now ≡ checks.now.rows }
    requires posterior_len { length posterior.now ≡ checks.now.n }
    requires bits_len { length bits.old ≡ checks.now.n }
    ensures test { result ≡ satisfied_by (checks_alone checks.now) syndrome.now posterior.now }
    ensures bits { bits.new ≡ hard_decision posterior.now }
{
    hard_decision(posterior, bits);
    all_match(syndrome, checks, bits)
}

// `f64::from(bit) * prior`.
fn cost(prior: f64, bit: u8) -> f64
    ensures { result ≡ cost_of prior bit }
{
    bit as f64 * prior
}

// `correction_weight`.
pub fn correction_weight(priors: &[f64], bits: &[u8]) -> f64
    requires { length bits.now ≡ length priors.now }
    ensures { result ≡ correction_weight priors.now bits.now (length priors.now) }
{
    let mut weight: f64 = -0.0;
    for (prior, bit) in priors.iter().zip(bits) {
        weight += cost(*prior, *bit);
    }
    weight
}

// What a leg answers: whether its last iteration passed the test, and how many it took.
#[derive(Clone, Copy)]
pub struct Leg {
    pub converged: bool,
    pub iterations: usize,
}

// `run_leg`. After one iteration or more the bits are the last hard decision.
pub fn run_leg(
    limit: usize,
    schedule: Schedule,
    alpha: f64,
    clip: Clip,
    syndrome: &[u8],
    priors: &[f64],
    gamma: &[f64],
    checks: &Rows<'_>,
    variables: &Rows<'_>,
    order: &[u32],
    bias: &mut [f64],
    c_to_v: &mut [f64],
    v_to_c: &mut [f64],
    posterior: &mut [f64],
    bits: &mut [u8],
) -> Leg
    requires joined { Joined checks.now variables.now }
    requires syndrome_len { length syndrome.now ≡ checks.now.rows }
    requires priors_len { length priors.now ≡ variables.now.rows }
    requires keys { Keys checks.now.rows order.now }
    requires leg_lists { LegLists variables.now.rows gamma.now bias.old posterior.old bits.old }
    requires per_edge { PerEdge variables.now.n c_to_v.old v_to_c.old }
    ensures leg { let g = sides checks.now variables.now in
        let before = state c_to_v.old v_to_c.old posterior.old in
        let after = state c_to_v.new v_to_c.new posterior.new in
        leg_of result.converged result.iterations after
        ≡ run_leg (iteration schedule by_place g alpha clip syndrome.now priors.now gamma.now
        order.now)
        (satisfied_by (checks_alone checks.now) syndrome.now) limit false 0 before }
    ensures bits { 0 < limit → bits.new ≡ hard_decision posterior.new }
{
    for k in 0..limit {
        step(
            schedule, alpha, clip, syndrome, priors, gamma, checks, variables, order, bias, c_to_v,
            v_to_c, posterior,
        );
        if satisfied(syndrome, checks, posterior, bits) {
            return Leg {
                converged: true,
                iterations: k + 1,
            };
        }
    }
    Leg {
        converged: false,
        iterations: limit,
    }
}
