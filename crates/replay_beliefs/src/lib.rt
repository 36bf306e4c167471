// Inner: a belief case of the oracle's lists: builds the model's graph, runs min-sum on it and compares answer and posterior with the
// Rust's. For `replay` alone. Room: 63 checks and mechanisms, 128 edges.
#![tactic(auto)]

use graph::Size;
use refusals::Refusal;
use replay_cases::{
    Words, float, is_answer, is_cleared, read_bytes, read_graph, read_sizes, same_floats,
};

// Whether the line goes on with this answer and, where the run took place, with this posterior, and then ends. None where it ends too
// early, here as in all that follows.
fn answered(words: &mut Words<'_>, a: Result<(), Refusal>, posterior: &[f64]) -> Option<bool> {
    let number = words.next()?;
    let place = words.next()?;
    if !is_answer(a, number, place) {
        return Some(false);
    }
    // 20 comes before the run: nothing follows.
    let same = number == 20 || same_floats(words, posterior);
    Some(same && words.next().is_none())
}

// The run, in lists that fit. Its work lists must be clear after it.
fn believed(
    words: &mut Words<'_>,
    size: Size,
    priors: &[f64],
    check_var: &[u32],
    check_offset: &[u32],
    var_check: &[u32],
    var_message: &[u32],
    var_offset: &[u32],
    syndrome: &[u8],
    posterior: &mut [f64],
    ewa_posterior: &mut [f64],
    c_to_v: &mut [f64],
    v_to_c: &mut [f64],
) -> Option<bool> {
    let iterations = words.next()?;
    let scale = words.next()?;
    let serial = words.next()?;
    let a = min_sum::beliefs(
        size,
        priors,
        check_var,
        check_offset,
        var_check,
        var_message,
        var_offset,
        syndrome,
        iterations as usize,
        float(scale),
        serial == 1,
        posterior,
        ewa_posterior,
        c_to_v,
        v_to_c,
    );
    let cleared = is_cleared(ewa_posterior) && is_cleared(c_to_v) && is_cleared(v_to_c);
    Some(answered(words, a, posterior)? && cleared)
}

// With room for the beliefs.
fn with_beliefs(
    words: &mut Words<'_>,
    size: Size,
    priors: &[f64],
    check_var: &[u32],
    check_offset: &[u32],
    var_check: &[u32],
    var_message: &[u32],
    var_offset: &[u32],
    syndrome: &[u8],
) -> Option<bool> {
    let mechanisms = size.mechanisms;
    let edges = size.edges;
    if mechanisms > 63 {
        return Some(false);
    }
    if edges > 128 {
        return Some(false);
    }
    let mut posterior = [0.0; 64];
    let mut ewa_posterior = [0.0; 64];
    let mut c_to_v = [0.0; 128];
    let mut v_to_c = [0.0; 128];
    believed(
        words,
        size,
        priors,
        check_var,
        check_offset,
        var_check,
        var_message,
        var_offset,
        syndrome,
        &mut posterior[..mechanisms],
        &mut ewa_posterior[..mechanisms],
        &mut c_to_v[..edges],
        &mut v_to_c[..edges],
    )
}

// The syndrome read into a list of its length.
fn syndrome_read(
    words: &mut Words<'_>,
    size: Size,
    priors: &[f64],
    check_var: &[u32],
    check_offset: &[u32],
    var_check: &[u32],
    var_message: &[u32],
    var_offset: &[u32],
    syndrome: &mut [u8],
) -> Option<bool> {
    read_bytes(words, syndrome)?;
    with_beliefs(
        words,
        size,
        priors,
        check_var,
        check_offset,
        var_check,
        var_message,
        var_offset,
        syndrome,
    )
}

// With room for the syndrome.
fn with_syndrome(
    words: &mut Words<'_>,
    size: Size,
    priors: &[f64],
    check_var: &[u32],
    check_offset: &[u32],
    var_check: &[u32],
    var_message: &[u32],
    var_offset: &[u32],
) -> Option<bool> {
    let bytes = words.next()? as usize;
    if bytes > 64 {
        return Some(false);
    }
    let mut syndrome = [0u8; 64];
    syndrome_read(
        words,
        size,
        priors,
        check_var,
        check_offset,
        var_check,
        var_message,
        var_offset,
        &mut syndrome[..bytes],
    )
}

// The graph built into lists that fit.
fn built(
    words: &mut Words<'_>,
    size: Size,
    priors: &mut [f64],
    offsets: &mut [u32],
    detectors: &mut [u32],
    check_var: &mut [u32],
    check_offset: &mut [u32],
    var_check: &mut [u32],
    var_message: &mut [u32],
    var_offset: &mut [u32],
) -> Option<bool> {
    let a = read_graph(
        words,
        size,
        priors,
        offsets,
        detectors,
        check_var,
        check_offset,
        var_check,
        var_message,
        var_offset,
    )?;
    if a.is_err() {
        return Some(false);
    }
    with_syndrome(
        words,
        size,
        priors,
        check_var,
        check_offset,
        var_check,
        var_message,
        var_offset,
    )
}

// With room for the model and its graph.
fn with_graph(words: &mut Words<'_>, size: Size) -> Option<bool> {
    let checks = size.checks;
    let mechanisms = size.mechanisms;
    let edges = size.edges;
    if checks > 63 {
        return Some(false);
    }
    if mechanisms > 63 {
        return Some(false);
    }
    if edges > 128 {
        return Some(false);
    }
    let mut priors = [0.0; 64];
    let mut offsets = [0u32; 64];
    let mut detectors = [0u32; 128];
    let mut check_var = [0u32; 128];
    let mut check_offset = [0u32; 64];
    let mut var_check = [0u32; 128];
    let mut var_message = [0u32; 128];
    let mut var_offset = [0u32; 64];
    built(
        words,
        size,
        &mut priors[..mechanisms],
        &mut offsets[..mechanisms + 1],
        &mut detectors[..edges],
        &mut check_var[..edges],
        &mut check_offset[..checks + 1],
        &mut var_check[..edges],
        &mut var_message[..edges],
        &mut var_offset[..mechanisms + 1],
    )
}

// Whether the code answers as the line says from its model on.
pub fn case(words: &mut Words<'_>) -> Option<bool> {
    let size = read_sizes(words)?;
    with_graph(words, size)
}
