// What a call answers beyond its code, written into lists of fixed length.
ghost use Rattle.std.specs.Prelude.{◌≡◌, cond, [], ◌∷◌, eqb};
ghost use Rattle.numbers.specs.Floats.{zero⁺};
ghost use Rattle.refusals.specs.Refusal.{number_of};
ghost use Rattle.std.specs.Prelude.{Err};
ghost use Rattle.relay_calls.specs.Records.{values_of};
ghost use Rattle.exports_values.specs.Codes.{code_of, decoded_code, decoded_counts, decoded_weight, byte_of};
ghost use Rattle.exports_values.specs.Codes.{clip_byte, clip_float, rule_byte, source_byte, floats_in, counts_in};

use crate::answers::code;
use refusals::{Refusal, number_of};
use relay_calls::{Decoded, LegRecord};
use relay_settings::{Clip, DrawRule, GammaSource, Schedule, Settings};

// A refusal's code; 30 zeroes the counts and the weight.
fn tell_refusal(r: Refusal, counts: &mut [u64; 4], weight: &mut [f64; 1]) -> u64
    ensures code { result ≡ code_of (Err r) }
    ensures counts { counts.new ≡ cond (eqb (number_of r) 30) (0 ∷ (0 ∷ (0 ∷ (0 ∷ [])))) counts.old }
    ensures weight { weight.new ≡ cond (eqb (number_of r) 30) (zero⁺ ∷ []) weight.old }
{
    if number_of(r) == 30 {
        *counts = [0, 0, 0, 0];
        *weight = [0.0];
        return code(Err(r));
    }
    code(Err(r))
}

// A decode's code, counts and weight.
pub fn tell(decoded: Result<Decoded, Refusal>, counts: &mut [u64; 4], weight: &mut [f64; 1]) -> u64
    ensures code { result ≡ decoded_code decoded }
    ensures counts { counts.new ≡ decoded_counts decoded counts.old }
    ensures weight { weight.new ≡ decoded_weight decoded weight.old }
{
    match decoded {
        Ok(
            Decoded::Converged {
                executed_legs,
                total_iterations,
                stores,
                weight: w,
            },
        ) => {
            *counts = [1, executed_legs as u64, total_iterations as u64, stores];
            *weight = [w];
            0
        }
        Ok(
            Decoded::NotConverged {
                executed_legs,
                total_iterations,
                stores,
            },
        ) => {
            *counts = [0, executed_legs as u64, total_iterations as u64, stores];
            *weight = [0.0];
            0
        }
        Err(r) => tell_refusal(r, counts, weight),
    }
}

// A leg's record by its values.
pub fn tell_record(found: LegRecord, iterations: &mut [u64; 1], weight: &mut [f64; 1]) -> u64
    ensures state { result ≡ (values_of found).leg_state }
    ensures iterations { iterations.new ≡ (values_of found).leg_iterations ∷ [] }
    ensures weight { weight.new ≡ (values_of found).leg_weight ∷ [] }
{
    match found {
        LegRecord::Converged {
            weight: w,
            iterations: n,
        } => {
            *iterations = [n as u64];
            *weight = [w];
            2
        }
        LegRecord::RanOut { iterations: n } => {
            *iterations = [n as u64];
            *weight = [0.0];
            1
        }
        LegRecord::NotExecuted => {
            *iterations = [0];
            *weight = [0.0];
            0
        }
    }
}

// A schedule's byte.
pub fn byte_of(schedule: Schedule) -> u8
    ensures { result ≡ byte_of schedule }
{
    match schedule {
        Schedule::Flooding => 0,
        Schedule::CheckSerial => 1,
    }
}

// Whether a clip is on.
pub fn clip_byte(clip: Clip) -> u8
    ensures { result ≡ clip_byte clip }
{
    match clip {
        Clip::Off => 0,
        Clip::On(_) => 1,
    }
}

// A clip's magnitude.
pub fn clip_float(clip: Clip) -> f64
    ensures { result ≡ clip_float clip }
{
    match clip {
        Clip::Off => 0.0,
        Clip::On(limit) => limit,
    }
}

// A draw's byte.
fn rule_byte(rule: DrawRule) -> u8
    ensures { result ≡ rule_byte rule }
{
    match rule {
        DrawRule::ByShot => 0,
        DrawRule::SeedXorLeg => 2,
    }
}

// A source's byte.
pub fn source_byte(source: GammaSource) -> u8
    ensures { result ≡ source_byte source }
{
    match source {
        GammaSource::Explicit(_) => 1,
        GammaSource::Seeded(rule) => rule_byte(rule),
    }
}

// The floats and the counts of settings, and the byte of their schedule.
pub fn tell_settings(t: Settings, floats: &mut [f64; 5], counts: &mut [u64; 6]) -> u8
    ensures schedule { result ≡ byte_of t.schedule }
    ensures floats { floats.new ≡ floats_in t }
    ensures counts { counts.new ≡ counts_in t }
{
    let clip = t.clip;
    let source = t.gamma_source;
    *floats = [
        t.alpha,
        t.gamma0,
        t.gamma_low,
        t.gamma_high,
        clip_float(clip),
    ];
    *counts = [
        t.pre_iterations as u64,
        t.num_legs as u64,
        t.leg_iterations as u64,
        t.stop_after_converged as u64,
        clip_byte(clip) as u64,
        source_byte(source) as u64,
    ];
    let schedule = t.schedule;
    byte_of(schedule)
}
