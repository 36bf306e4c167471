// Inner: a decode of the oracle's lists: builds the model's graph, decodes the shot and compares the answer and every lent list with the
// Rust's. For `replay` alone. Room: 63 checks and mechanisms, 128 edges, 128 gammas, 64 legs, 512 bytes of rows.
#![tactic(auto)]

mod compare;

use compare::same_decode;
use graph::Size;
use numbers::wrapping_mul;
use relay_settings::{Clip, DrawRule, GammaSource, Schedule, Settings};
use replay_cases::{Words, float, read_bytes, read_floats, read_graph, read_sizes};

fn schedule_of(number: u64) -> Schedule {
    if number == 1 {
        return Schedule::CheckSerial;
    }
    Schedule::Flooding
}

fn clip_of(number: u64, limit: f64) -> Clip {
    if number == 1 {
        return Clip::On(limit);
    }
    Clip::Off
}

fn source_of(number: u64, sets: usize) -> GammaSource {
    if number == 1 {
        return GammaSource::Explicit(sets);
    }
    if number == 2 {
        return GammaSource::Seeded(DrawRule::SeedXorLeg);
    }
    GammaSource::Seeded(DrawRule::ByShot)
}

// The settings, with the number of sets of gammas. None where the line ends too early, here as in all that follows.
fn read_settings(words: &mut Words<'_>) -> Option<(Settings, u64)> {
    let schedule = words.next()?;
    let alpha = words.next()?;
    let clip_on = words.next()?;
    let clip = words.next()?;
    let gamma0 = words.next()?;
    let pre_iterations = words.next()?;
    let num_legs = words.next()?;
    let leg_iterations = words.next()?;
    let low = words.next()?;
    let high = words.next()?;
    let stop = words.next()?;
    let source = words.next()?;
    let sets = words.next()?;
    let settings = Settings {
        schedule: schedule_of(schedule),
        alpha: float(alpha),
        clip: clip_of(clip_on, float(clip)),
        gamma0: float(gamma0),
        pre_iterations: pre_iterations as usize,
        num_legs: num_legs as usize,
        leg_iterations: leg_iterations as usize,
        gamma_low: float(low),
        gamma_high: float(high),
        stop_after_converged: stop as usize,
        gamma_source: source_of(source, sets as usize),
    };
    Some((settings, sets))
}

// The decode, with room for its lists.
fn decoded(
    words: &mut Words<'_>,
    size: Size,
    priors: &[f64],
    check_var: &[u32],
    check_offset: &[u32],
    var_check: &[u32],
    var_message: &[u32],
    var_offset: &[u32],
    settings: Settings,
    gammas: &[f64],
    syndrome: &[u8],
) -> Option<bool> {
    let mechanisms = size.mechanisms;
    let edges = size.edges;
    if mechanisms > 63 {
        return Some(false);
    }
    if edges > 128 {
        return Some(false);
    }
    let mut leg_state = [7u8; 64];
    let mut leg_iterations = [7u32; 64];
    let mut leg_weight = [7.0; 64];
    let mut rows = [7u8; 512];
    let mut correction = [7u8; 64];
    let mut posterior = [7.0; 64];
    let mut gamma = [7.0; 64];
    let mut bias = [7.0; 64];
    let mut c_to_v = [7.0; 128];
    let mut v_to_c = [7.0; 128];
    let seed = words.next()?;
    let d = relay::decode(
        size,
        priors,
        check_var,
        check_offset,
        var_check,
        var_message,
        var_offset,
        settings,
        gammas,
        syndrome,
        seed,
        &mut leg_state,
        &mut leg_iterations,
        &mut leg_weight,
        &mut rows,
        &mut correction[..mechanisms],
        &mut posterior[..mechanisms],
        &mut gamma[..mechanisms],
        &mut bias[..mechanisms],
        &mut c_to_v[..edges],
        &mut v_to_c[..edges],
    );
    Some(same_decode(
        words,
        d,
        settings.num_legs,
        size,
        &leg_state,
        &leg_iterations,
        &leg_weight,
        &rows,
        &correction,
        &posterior,
        &gamma,
        &bias,
        &c_to_v,
        &v_to_c,
    ))
}

// The syndrome read into a list of its length.
fn syndrome_read(
    words: &mut Words<'_>,
    size: Size,
    priors: &[f64],
    check_var: &[u32],
    check_offset: &[u32],
    var_check: &[u32],
    var_message: &[u32],
    var_offset: &[u32],
    settings: Settings,
    gammas: &[f64],
    syndrome: &mut [u8],
) -> Option<bool> {
    read_bytes(words, syndrome)?;
    decoded(
        words,
        size,
        priors,
        check_var,
        check_offset,
        var_check,
        var_message,
        var_offset,
        settings,
        gammas,
        syndrome,
    )
}

// The gammas read into a list of their number, and room for the syndrome.
fn gammas_read(
    words: &mut Words<'_>,
    size: Size,
    priors: &[f64],
    check_var: &[u32],
    check_offset: &[u32],
    var_check: &[u32],
    var_message: &[u32],
    var_offset: &[u32],
    settings: Settings,
    gammas: &mut [f64],
) -> Option<bool> {
    read_floats(words, gammas)?;
    let bytes = words.next()? as usize;
    if bytes > 64 {
        return Some(false);
    }
    let mut syndrome = [0u8; 64];
    syndrome_read(
        words,
        size,
        priors,
        check_var,
        check_offset,
        var_check,
        var_message,
        var_offset,
        settings,
        gammas,
        &mut syndrome[..bytes],
    )
}

// With room for the gammas.
fn with_gammas(
    words: &mut Words<'_>,
    size: Size,
    priors: &[f64],
    check_var: &[u32],
    check_offset: &[u32],
    var_check: &[u32],
    var_message: &[u32],
    var_offset: &[u32],
) -> Option<bool> {
    let (settings, sets) = read_settings(words)?;
    let floats = wrapping_mul(sets, size.mechanisms as u64) as usize;
    if floats > 128 {
        return Some(false);
    }
    let mut gammas = [0.0; 128];
    gammas_read(
        words,
        size,
        priors,
        check_var,
        check_offset,
        var_check,
        var_message,
        var_offset,
        settings,
        &mut gammas[..floats],
    )
}

// With room for the model and its graph.
fn with_graph(words: &mut Words<'_>, size: Size) -> Option<bool> {
    let checks = size.checks;
    let mechanisms = size.mechanisms;
    let edges = size.edges;
    if checks > 63 {
        return Some(false);
    }
    if mechanisms > 63 {
        return Some(false);
    }
    if edges > 128 {
        return Some(false);
    }
    let mut priors = [0.0; 64];
    let mut offsets = [0u32; 64];
    let mut detectors = [0u32; 128];
    let mut check_var = [0u32; 128];
    let mut check_offset = [0u32; 64];
    let mut var_check = [0u32; 128];
    let mut var_message = [0u32; 128];
    let mut var_offset = [0u32; 64];
    let a = read_graph(
        words,
        size,
        &mut priors[..mechanisms],
        &mut offsets[..mechanisms + 1],
        &mut detectors[..edges],
        &mut check_var[..edges],
        &mut check_offset[..checks + 1],
        &mut var_check[..edges],
        &mut var_message[..edges],
        &mut var_offset[..mechanisms + 1],
    )?;
    if a.is_err() {
        return Some(false);
    }
    with_gammas(
        words,
        size,
        &priors[..mechanisms],
        &check_var[..edges],
        &check_offset[..checks + 1],
        &var_check[..edges],
        &var_message[..edges],
        &var_offset[..mechanisms + 1],
    )
}

// Whether the code answers as the line says from its model on.
pub fn case(words: &mut Words<'_>) -> Option<bool> {
    let size = read_sizes(words)?;
    with_graph(words, size)
}
