// Inner: the gammas of a leg: gamma0 throughout, a set of the flat list, or a seeded draw; and 27, the seeds that a draw takes. `relay_leg`
// and `relay_decode` alone call it.
#![tactic(auto)]

ghost use Rattle.std.specs.Prelude.{◌≡◌, ℕ, ◌+◌, ◌-◌, ◌*◌, ◌%◌, ◌^◌, ◌<◌, ◌≤◌, length};
ghost use Rattle.numbers.specs.Limits.{max_count};
ghost use Rattle.numbers.specs.Loops.{part};
ghost use Rattle.relay_settings.specs.declared.GammaSource.TheVariants.{Explicit, Seeded};
ghost use Rattle.relay_gammas.specs.Gammas.{stream_number, start_of, seed_good, seed_fault, drawn, relay_gamma, gamma_of};

use graph_lists::lists::copy;
use numbers::SplitMix64;
use refusals::Refusal;
use relay_settings::{DrawRule, GammaSource, Settings};

// Whether a draw takes a seed.
fn draw_takes(rule: DrawRule, seed: u64) -> bool
    ensures { result ≡ seed_good (Seeded rule) seed }
{
    match rule {
        DrawRule::ByShot => seed < 281474976710656,
        DrawRule::SeedXorLeg => true,
    }
}

// Whether a source takes it.
fn seed_good(source: GammaSource, seed: u64) -> bool
    ensures { result ≡ seed_good source seed }
{
    match source {
        GammaSource::Explicit(_) => true,
        GammaSource::Seeded(rule) => draw_takes(rule, seed),
    }
}

// 27.
#[tactic(auto, unfolding(crate::specs::Gammas::seed_fault, refusals::specs::Tests::unless))]
pub fn seed_fault(source: GammaSource, seed: u64) -> Result<(), Refusal>
    ensures { result ≡ seed_fault source seed }
{
    if !seed_good(source, seed) {
        return Err(Refusal::ShotTooLarge);
    }
    Ok(())
}

// The stream number of a shot and a leg. It has 64 bits for a shot that 27 lets through; of any other seed the lower 48 bits count.
fn stream_number(shot: u64, leg: usize) -> u64
    requires { leg ≤ max_count }
    ensures { result ≡ stream_number shot leg % 2 ^ 64 }
{
    shot % 281474976710656 * 65536 + leg as u64
}

// Where a leg's generator starts.
fn start_of(rule: DrawRule, seed: u64, leg: usize) -> u64
    requires { leg ≤ max_count }
    ensures { result ≡ start_of rule seed leg % 2 ^ 64 }
{
    match rule {
        DrawRule::ByShot => stream_number(seed, leg),
        DrawRule::SeedXorLeg => seed ^ (leg as u64 + 1),
    }
}

// A draw each in mechanism order, from a start.
fn draw_gammas(low: f64, high: f64, start: u64, gamma: &mut [f64])
    ensures { gamma.new ≡ (drawn low high start (length gamma.old)).gammas }
{
    let mut generator = SplitMix64::new(start);
    for g in gamma.iter_mut() {
        let d = generator.draw();
        *g = numbers::gamma(low, high, d.value);
        generator = d.next;
    }
}

// Which set a relayed leg takes.
fn set_of(leg: usize, sets: usize) -> usize
    requires { (0 < leg) × (0 < sets) }
    ensures { result ≡ (leg - 1) % sets }
{
    (leg - 1) % sets
}

// That set, out of the flat list.
fn copy_set(sets: usize, leg: usize, flat: &[f64], gamma: &mut [f64])
    requires { (0 < leg) × (0 < sets) × (length flat.now ≡ sets * length gamma.old) }
    ensures { gamma.new
        ≡ part ((leg - 1) % sets * length gamma.old)
        ((leg - 1) % sets * length gamma.old + length gamma.old) flat.now }
{
    let start = set_of(leg, sets) * gamma.len();
    let end = start + gamma.len();
    copy(&flat[start..end], gamma);
}

// `prepare_relay_gamma`: the gammas of a relayed leg.
fn relay_gamma(
    source: GammaSource,
    low: f64,
    high: f64,
    flat: &[f64],
    seed: u64,
    leg: usize,
    gamma: &mut [f64],
)
    requires leg_nonzero { (0 < leg) × (leg ≤ max_count) }
    requires by_index { (sets : ℕ) → source ≡ Explicit sets → (0 < sets) × (length flat.now ≡ sets * length gamma.old) }
    ensures { gamma.new ≡ relay_gamma source low high flat.now (length gamma.old) seed leg }
{
    match source {
        GammaSource::Explicit(sets) => copy_set(sets, leg, flat, gamma),
        GammaSource::Seeded(rule) => draw_gammas(low, high, start_of(rule, seed, leg), gamma),
    }
}

// The gammas of any leg: gamma0 in leg zero.
pub fn prepare_gamma(t: Settings, flat: &[f64], seed: u64, leg: usize, gamma: &mut [f64])
    requires leg_le_max_count { leg ≤ max_count }
    requires sets_nonzero { 0 < leg → (sets : ℕ) → t.gamma_source ≡ Explicit sets
        → (0 < sets) × (length flat.now ≡ sets * length gamma.old) }
    ensures { gamma.new ≡ gamma_of t flat.now (length gamma.old) seed leg }
{
    let source = t.gamma_source;
    if leg == 0 {
        gamma.fill(t.gamma0);
        return;
    }
    relay_gamma(source, t.gamma_low, t.gamma_high, flat, seed, leg, gamma);
}
