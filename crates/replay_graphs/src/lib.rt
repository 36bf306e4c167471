// Inner: a graph case of the oracle's lists: builds the model and compares answer and lists with the Rust's. For `replay` alone.
#![tactic(auto)]

use graph::Size;
use numbers::wrapping_mul;
use refusals::Refusal;
use replay_cases::{
    Words, is_answer, read_bytes, read_floats, read_graph, read_sizes, same_numbers,
};

// Whether the line goes on with this answer and, where nothing is refused, with these lists, and then ends. None where it ends too early,
// here as in all that follows.
fn answered(
    words: &mut Words<'_>,
    a: Result<(), Refusal>,
    check_var: &[u32],
    check_offset: &[u32],
    var_check: &[u32],
    var_message: &[u32],
    var_offset: &[u32],
) -> Option<bool> {
    let number = words.next()?;
    let place = words.next()?;
    if !is_answer(a, number, place) {
        return Some(false);
    }
    let same = a.is_err()
        || same_numbers(words, check_var)
            && same_numbers(words, check_offset)
            && same_numbers(words, var_check)
            && same_numbers(words, var_message)
            && same_numbers(words, var_offset);
    Some(same && words.next().is_none())
}

// ---- a sparse model: 63 checks and mechanisms and 128 edges at most

// Read and built into lists that fit, and compared.
fn sparse_built(
    words: &mut Words<'_>,
    size: Size,
    priors: &mut [f64],
    offsets: &mut [u32],
    detectors: &mut [u32],
    check_var: &mut [u32],
    check_offset: &mut [u32],
    var_check: &mut [u32],
    var_message: &mut [u32],
    var_offset: &mut [u32],
) -> Option<bool> {
    let a = read_graph(
        words,
        size,
        priors,
        offsets,
        detectors,
        check_var,
        check_offset,
        var_check,
        var_message,
        var_offset,
    )?;
    answered(
        words,
        a,
        check_var,
        check_offset,
        var_check,
        var_message,
        var_offset,
    )
}

// With room for the model and its graph.
fn sparse(words: &mut Words<'_>, size: Size) -> Option<bool> {
    let checks = size.checks;
    let mechanisms = size.mechanisms;
    let edges = size.edges;
    if checks > 63 {
        return Some(false);
    }
    if mechanisms > 63 {
        return Some(false);
    }
    if edges > 128 {
        return Some(false);
    }
    let mut priors = [0.0; 64];
    let mut offsets = [0u32; 64];
    let mut detectors = [0u32; 128];
    let mut check_var = [0u32; 128];
    let mut check_offset = [0u32; 64];
    let mut var_check = [0u32; 128];
    let mut var_message = [0u32; 128];
    let mut var_offset = [0u32; 64];
    sparse_built(
        words,
        size,
        &mut priors[..mechanisms],
        &mut offsets[..mechanisms + 1],
        &mut detectors[..edges],
        &mut check_var[..edges],
        &mut check_offset[..checks + 1],
        &mut var_check[..edges],
        &mut var_message[..edges],
        &mut var_offset[..mechanisms + 1],
    )
}

// ---- a dense model: the same, and 2,560 bytes

// Built into lists that fit, and compared.
fn dense_built(
    words: &mut Words<'_>,
    size: Size,
    priors: &[f64],
    matrix: &[u8],
    check_var: &mut [u32],
    check_offset: &mut [u32],
    var_check: &mut [u32],
    var_message: &mut [u32],
    var_offset: &mut [u32],
) -> Option<bool> {
    let a = graph::build_dense(
        size.checks,
        size.mechanisms,
        priors,
        matrix,
        check_var,
        check_offset,
        var_check,
        var_message,
        var_offset,
    );
    answered(
        words,
        a,
        check_var,
        check_offset,
        var_check,
        var_message,
        var_offset,
    )
}

// With room for the graph.
fn dense_graph(words: &mut Words<'_>, size: Size, priors: &[f64], matrix: &[u8]) -> Option<bool> {
    let checks = size.checks;
    let mechanisms = size.mechanisms;
    let edges = size.edges;
    if checks > 63 {
        return Some(false);
    }
    if mechanisms > 63 {
        return Some(false);
    }
    if edges > 128 {
        return Some(false);
    }
    let mut check_var = [0u32; 128];
    let mut check_offset = [0u32; 64];
    let mut var_check = [0u32; 128];
    let mut var_message = [0u32; 128];
    let mut var_offset = [0u32; 64];
    dense_built(
        words,
        size,
        priors,
        matrix,
        &mut check_var[..edges],
        &mut check_offset[..checks + 1],
        &mut var_check[..edges],
        &mut var_message[..edges],
        &mut var_offset[..mechanisms + 1],
    )
}

// Read into lists of its sizes.
fn dense_read(
    words: &mut Words<'_>,
    size: Size,
    priors: &mut [f64],
    matrix: &mut [u8],
) -> Option<bool> {
    read_floats(words, priors)?;
    read_bytes(words, matrix)?;
    dense_graph(words, size, priors, matrix)
}

// With room for the model.
fn dense(words: &mut Words<'_>, size: Size) -> Option<bool> {
    let mechanisms = size.mechanisms;
    let bytes = wrapping_mul(size.checks as u64, size.mechanisms as u64) as usize;
    if mechanisms > 63 {
        return Some(false);
    }
    if bytes > 2560 {
        return Some(false);
    }
    let mut priors = [0.0; 64];
    let mut matrix = [0u8; 2560];
    dense_read(words, size, &mut priors[..mechanisms], &mut matrix[..bytes])
}

// ---- either

// Whether the code answers as the line says from its model on, which is a dense or a sparse one.
pub fn case(words: &mut Words<'_>, is_dense: bool) -> Option<bool> {
    let size = read_sizes(words)?;
    if is_dense {
        dense(words, size)
    } else {
        sparse(words, size)
    }
}
