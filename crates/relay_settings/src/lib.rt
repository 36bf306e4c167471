// Relay's settings, for users: the published operating point, and their test, 9 to 19: the first that refuses is answered. What they mean
// stands in specs/.
#![tactic(auto)]

ghost use Rattle.std.specs.Prelude.{◌≡◌, ◌||◌, ◌*◌, leb, eqb, length};
ghost use Rattle.std.specs.Float.Ieee.{le};
ghost use Rattle.refusals.specs.Tests.{first_of};
ghost use Rattle.relay_settings.specs.Settings.{published, check_settings, pre_good, leg_iterations_good, interval_good, sets_good};
ghost use Rattle.relay_settings.specs.Settings.{clip_good, alpha_good, gamma_fault};
ghost use Rattle.relay_settings.specs.Settings.{source_fault, settings_fault};

use numbers::is_finite;
use numbers::limits::{MAX_COUNT, MAX_MECHANISMS};
use refusals::Refusal;
use refusals_tests::finite_positive;

// The order in which messages are passed within an iteration.
#[derive(Clone, Copy)]
pub enum Schedule {
    // Every check, then every variable.
    Flooding,
    // Each check, and at once the variables that it touches.
    CheckSerial,
}

// How far a check's message goes.
#[derive(Clone, Copy)]
pub enum Clip {
    // As far as it comes out: the Rust's own.
    Off,
    // To this magnitude: one that is beyond it becomes it, with its sign.
    On(f64),
}

// Where SplitMix64 starts for a leg that draws its gammas.
#[derive(Clone, Copy)]
pub enum DrawRule {
    // At the stream number of the shot and the leg: the seed is a shot number, below 2^48. No two legs of any shots have the same.
    ByShot,
    // At the seed xor one more than the leg, for records that were filed so: seed 40 in leg 1 and seed 41 in leg 2 start alike.
    SeedXorLeg,
}

// Where the gammas of relayed legs come from.
#[derive(Clone, Copy)]
pub enum GammaSource {
    // The given number of sets, one after the other in the flat list that is lent beside the settings.
    Explicit(usize),
    // SplitMix64, from the shot's seed and the leg, by a rule.
    Seeded(DrawRule),
}

// `RelayConfig`, with the clip, the interval's two ends and the gammas' source.
#[derive(Clone, Copy)]
pub struct Settings {
    pub schedule: Schedule,
    pub alpha: f64,
    pub clip: Clip,
    pub gamma0: f64,
    pub pre_iterations: usize,
    pub num_legs: usize,
    pub leg_iterations: usize,
    pub gamma_low: f64,
    pub gamma_high: f64,
    pub stop_after_converged: usize,
    pub gamma_source: GammaSource,
}

impl Settings {
    // `RelayConfig::default`: the published operating point, with a draw by shot.
    pub fn published() -> Self
        ensures { result ≡ published }
    {
        Self {
            schedule: Schedule::Flooding,
            alpha: 1.0,
            clip: Clip::Off,
            gamma0: 0.1,
            pre_iterations: 80,
            num_legs: 40,
            leg_iterations: 60,
            gamma_low: -0.24,
            gamma_high: 0.66,
            stop_after_converged: 1,
            gamma_source: GammaSource::Seeded(DrawRule::ByShot),
        }
    }
}

// 9: a magnitude is looked at where there is one.
pub fn clip_good(clip: Clip) -> bool
    ensures { result ≡ clip_good clip }
{
    match clip {
        Clip::Off => true,
        Clip::On(limit) => finite_positive(limit),
    }
}

// 10.
#[tactic(auto, unfolding(crate::specs::Settings::alpha_good))]
fn alpha_good(alpha: f64) -> bool
    ensures { result ≡ alpha_good alpha }
{
    finite_positive(alpha)
}

// low is not above high.
fn in_order(low: f64, high: f64) -> bool
    ensures { result ≡ le low high }
{
    low <= high
}

// n is at least 1, or there are no legs.
fn some_or_no_legs(n: usize, legs: usize) -> bool
    ensures { result ≡ (leb 1 n || eqb legs 0) }
{
    1 <= n || legs == 0
}

// 12.
#[tactic(auto, unfolding(crate::specs::Settings::pre_good))]
fn pre_good(n: usize) -> bool
    ensures { result ≡ pre_good n }
{
    1 <= n && n <= MAX_COUNT
}

// 14.
#[tactic(auto, unfolding(crate::specs::Settings::leg_iterations_good))]
fn leg_iterations_good(legs: usize, n: usize) -> bool
    ensures { result ≡ leg_iterations_good legs n }
{
    n <= MAX_COUNT && some_or_no_legs(n, legs)
}

// 15.
#[tactic(auto, unfolding(crate::specs::Settings::interval_good))]
fn interval_good(low: f64, high: f64) -> bool
    ensures { result ≡ interval_good low high }
{
    is_finite(low) && is_finite(high) && is_finite(high - low) && in_order(low, high)
}

// n is the product of a and b, which may itself be too large a number.
fn is_product(n: usize, a: usize, b: usize) -> bool
    ensures { result ≡ eqb n (a * b) }
{
    if a == 0 {
        return n == 0;
    }
    n % a == 0 && n / a == b
}

// 18.
#[tactic(auto, unfolding(crate::specs::Settings::sets_good))]
fn sets_good(sets: usize, mechanisms: usize, gammas: usize) -> bool
    ensures { result ≡ sets_good sets mechanisms gammas }
{
    sets <= MAX_COUNT && is_product(gammas, sets, mechanisms)
}

// 19: the first gamma that is not finite.
fn gammas_fault(gammas: &[f64]) -> Result<(), Refusal>
    ensures { result ≡ first_of (length gammas.now) (gamma_fault gammas.now) }
{
    for (i, gamma) in gammas.iter().enumerate() {
        if !is_finite(*gamma) {
            return Err(Refusal::GammaNotFinite(i));
        }
    }
    Ok(())
}

// 17, 18 and 19: an explicit source alone is looked at.
#[tactic(auto, unfolding(crate::specs::Settings::source_fault, refusals::specs::Tests::unless, refusals::specs::Tests::or_else,))]
fn source_fault(
    source: GammaSource,
    legs: usize,
    mechanisms: usize,
    gammas: &[f64],
) -> Result<(), Refusal>
    ensures { result ≡ source_fault source legs mechanisms gammas.now }
{
    match source {
        GammaSource::Explicit(sets) => {
            if !some_or_no_legs(sets, legs) {
                return Err(Refusal::NoGammaSets);
            }
            if !sets_good(sets, mechanisms, gammas.len()) {
                return Err(Refusal::GammaSetsLength);
            }
            gammas_fault(gammas)
        }
        GammaSource::Seeded(_) => Ok(()),
    }
}

// 9, and `validate_config`: 10 to 19.
#[tactic(auto, unfolding(crate::specs::Settings::settings_fault, refusals::specs::Tests::unless, refusals::specs::Tests::or_else))]
fn settings_fault(t: Settings, mechanisms: usize, gammas: &[f64]) -> Result<(), Refusal>
    ensures { result ≡ settings_fault t mechanisms gammas.now }
{
    let clip = t.clip;
    let source = t.gamma_source;
    if !clip_good(clip) {
        return Err(Refusal::BadClip);
    }
    if !alpha_good(t.alpha) {
        return Err(Refusal::BadAlpha);
    }
    if !is_finite(t.gamma0) {
        return Err(Refusal::BadGamma0);
    }
    if !pre_good(t.pre_iterations) {
        return Err(Refusal::BadIterations);
    }
    if t.num_legs > MAX_COUNT {
        return Err(Refusal::TooManyLegs);
    }
    if !leg_iterations_good(t.num_legs, t.leg_iterations) {
        return Err(Refusal::BadLegIterations);
    }
    if !interval_good(t.gamma_low, t.gamma_high) {
        return Err(Refusal::BadGammaInterval);
    }
    if t.stop_after_converged == 0 {
        return Err(Refusal::BadStop);
    }
    source_fault(source, t.num_legs, mechanisms, gammas)
}

// 1, then 9 to 19. Without the size a place of 19 could pass 32 bits.
#[tactic(auto, unfolding(crate::specs::Settings::check_settings, refusals::specs::Tests::unless, refusals::specs::Tests::or_else,))]
pub fn check_settings(t: Settings, mechanisms: usize, gammas: &[f64]) -> Result<(), Refusal>
    ensures { result ≡ check_settings t mechanisms gammas.now }
{
    if mechanisms > MAX_MECHANISMS {
        return Err(Refusal::SizeAboveLimit);
    }
    settings_fault(t, mechanisms, gammas)
}
