// Compares what a decode answered, and what it left in every lent list, with what the line says. The lists of bytes and numbers were lent
// full of 7, those of floats full of 7.0, so that what was not written shows, in the lists and in what the arrays have behind them.
use graph::Size;
use numbers::wrapping_mul;
use refusals::Refusal;
use relay::Decoded;
use replay_cases::{Left, Words, float, is_answer, left_at, left_bytes, left_floats, same_float};

// What the lists were lent full of: as a number, and as a float's bits.
const LENT: u64 = 7;

const LENT_FLOAT: u64 = 4619567317775286272;

// A decode's answer, with zeros for what it does not tell.
#[derive(Clone, Copy)]
struct Outcome {
    answer: Result<(), Refusal>,
    converged: u64,
    executed: usize,
    total: usize,
    stores: u64,
    weight: f64,
}

fn told(d: Result<Decoded, Refusal>) -> Outcome {
    match d {
        Ok(
            Decoded::Converged {
                executed_legs,
                total_iterations,
                stores,
                weight,
            },
        ) => Outcome {
            answer: Ok(()),
            converged: 1,
            executed: executed_legs,
            total: total_iterations,
            stores: stores,
            weight: weight,
        },
        Ok(
            Decoded::NotConverged {
                executed_legs,
                total_iterations,
                stores,
            },
        ) => Outcome {
            answer: Ok(()),
            converged: 0,
            executed: executed_legs,
            total: total_iterations,
            stores: stores,
            weight: 0.0,
        },
        Err(r) => Outcome {
            answer: Err(r),
            converged: 0,
            executed: 0,
            total: 0,
            stores: 0,
            weight: 0.0,
        },
    }
}

// The product of two numbers, which are small.
fn product(a: usize, b: usize) -> usize {
    wrapping_mul(a as u64, b as u64) as usize
}

// How much of each list must be written and cleared: of the leg lists, of the rows, of the other results, and of the work lists of
// mechanisms and of edges.
#[derive(Clone, Copy)]
struct Expected {
    legs: Left,
    rows: Left,
    results: Left,
    work: Left,
    messages: Left,
}

// How much of every list is written, and cleared, where that many legs, mechanisms and edges are.
fn expected_at(
    executed: usize,
    written: usize,
    legs: usize,
    mechanisms: usize,
    edges: usize,
) -> Expected {
    Expected {
        legs: Left {
            written: executed,
            cleared: legs,
        },
        rows: Left {
            written: product(executed, mechanisms),
            cleared: product(legs, mechanisms),
        },
        results: Left {
            written: written,
            cleared: mechanisms,
        },
        work: Left {
            written: 0,
            cleared: mechanisms,
        },
        messages: Left {
            written: 0,
            cleared: edges,
        },
    }
}

// Whether the next words are this answer, where nothing was refused. None where the line ends too early.
fn same_answer(words: &mut Words<'_>, t: Outcome) -> Option<bool> {
    let converged = words.next()?;
    let executed = words.next()?;
    let total = words.next()?;
    let stores = words.next()?;
    let weight = words.next()?;
    Some(
        converged == t.converged
            && executed == t.executed as u64
            && total == t.total as u64
            && stores == t.stores
            && same_float(float(weight), t.weight),
    )
}

// What the lists must hold, where the next words are this answer; None where they are not. A decode that ran to its end writes every list;
// 30 zeroes every list; any other refusal leaves them.
fn expects(words: &mut Words<'_>, t: Outcome, num_legs: usize, size: Size) -> Option<Expected> {
    let number = words.next()?;
    let place = words.next()?;
    if !is_answer(t.answer, number, place) {
        return None;
    }
    let legs = num_legs.wrapping_add(1);
    let mechanisms = size.mechanisms;
    if number == 0 {
        if !same_answer(words, t)? {
            return None;
        }
        return Some(expected_at(t.executed, mechanisms, legs, mechanisms, size.edges));
    }
    if number == 30 {
        return Some(expected_at(0, 0, legs, mechanisms, size.edges));
    }
    Some(expected_at(0, 0, 0, 0, 0))
}

// Whether the leg i was left so. The line has a leg's state, iterations and weight together.
fn same_leg(
    words: &mut Words<'_>,
    left: Left,
    i: usize,
    leg_state: u8,
    leg_iterations: u32,
    leg_weight: f64,
) -> bool {
    left_at(words, left, i, LENT) == Some(u64::from(leg_state))
        && left_at(words, left, i, LENT) == Some(u64::from(leg_iterations))
        && left_at(words, left, i, LENT_FLOAT).is_some_and(|w| same_float(float(w), leg_weight))
}

// Whether the leg lists were left so.
fn same_legs(
    words: &mut Words<'_>,
    left: Left,
    leg_state: &[u8; 64],
    leg_iterations: &[u32; 64],
    leg_weight: &[f64; 64],
) -> bool {
    leg_state
        .iter()
        .zip(leg_iterations)
        .zip(leg_weight)
        .enumerate()
        .all(|(i, ((state, iterations), weight))| {
            same_leg(words, left, i, *state, *iterations, *weight)
        })
}

// Whether the line goes on with this answer and these lists, and then ends.
pub(crate) fn same_decode(
    words: &mut Words<'_>,
    d: Result<Decoded, Refusal>,
    num_legs: usize,
    size: Size,
    leg_state: &[u8; 64],
    leg_iterations: &[u32; 64],
    leg_weight: &[f64; 64],
    rows: &[u8; 512],
    correction: &[u8; 64],
    posterior: &[f64; 64],
    gamma: &[f64; 64],
    bias: &[f64; 64],
    c_to_v: &[f64; 128],
    v_to_c: &[f64; 128],
) -> bool {
    let Some(e) = expects(words, told(d), num_legs, size) else {
        return false;
    };
    same_legs(words, e.legs, leg_state, leg_iterations, leg_weight)
        && left_bytes(words, e.rows, LENT, rows)
        && left_bytes(words, e.results, LENT, correction)
        && left_floats(words, e.results, LENT_FLOAT, posterior)
        && left_floats(words, e.work, LENT_FLOAT, gamma)
        && left_floats(words, e.work, LENT_FLOAT, bias)
        && left_floats(words, e.messages, LENT_FLOAT, c_to_v)
        && left_floats(words, e.messages, LENT_FLOAT, v_to_c)
        && words.next().is_none()
}
