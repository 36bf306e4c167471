// Settings out of the numbers that they pass as.
ghost use Rattle.std.specs.Prelude.{◌≡◌};
ghost use Rattle.exports_values.specs.Codes.{schedule_given, clip_given, source_given, settings_given};

use relay_settings::{Clip, DrawRule, GammaSource, Schedule, Settings};

// The schedule of a word.
pub fn schedule_of(word: usize) -> Schedule
    ensures { result ≡ schedule_given word }
{
    if word == 0 {
        return Schedule::Flooding;
    }
    Schedule::CheckSerial
}

// The clip of a word and its magnitude.
pub fn clip_of(on: usize, limit: f64) -> Clip
    ensures { result ≡ clip_given on limit }
{
    if on == 0 {
        return Clip::Off;
    }
    Clip::On(limit)
}

// Where the gammas come from.
fn source_of(source: usize, sets: usize) -> GammaSource
    ensures { result ≡ source_given source sets }
{
    if source == 0 {
        return GammaSource::Seeded(DrawRule::ByShot);
    }
    if source == 1 {
        return GammaSource::Explicit(sets);
    }
    GammaSource::Seeded(DrawRule::SeedXorLeg)
}

// The settings of a call.
pub fn settings_of(
    schedule: usize,
    alpha: f64,
    clip_on: usize,
    clip: f64,
    gamma0: f64,
    pre_iterations: usize,
    num_legs: usize,
    leg_iterations: usize,
    gamma_low: f64,
    gamma_high: f64,
    stop_after_converged: usize,
    source: usize,
    sets: usize,
) -> Settings
    ensures { result ≡ settings_given schedule alpha clip_on clip gamma0 pre_iterations num_legs leg_iterations
        gamma_low gamma_high stop_after_converged source sets }
{
    let order = schedule_of(schedule);
    let limit = clip_of(clip_on, clip);
    let gammas = source_of(source, sets);
    Settings {
        schedule: order,
        alpha: alpha,
        clip: limit,
        gamma0: gamma0,
        pre_iterations: pre_iterations,
        num_legs: num_legs,
        leg_iterations: leg_iterations,
        gamma_low: gamma_low,
        gamma_high: gamma_high,
        stop_after_converged: stop_after_converged,
        gamma_source: gammas,
    }
}
