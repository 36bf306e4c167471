// Inner: reads the oracle's lists of cases: a case a line, words of hexadecimal digits, one space between. For `replay`, the crates of its
// three lists and `replay_shots` alone.
#![tactic(auto)]

ghost use Rattle.std.specs.Prelude.{◌<◌, ◌≤◌, length, IfOk, IfSome};

use graph::Size;
use numbers::is_negative;
use refusals::{Refusal, number_of, place_of};
use std::io::Read;
use std::{io, slice};

// What a byte is worth as a digit, where it is one.
fn digit(b: u8) -> Option<u64>
    ensures { IfSome result (λ d. d < 16) }
{
    match b {
        b'0'..=b'9' => Some(u64::from(b - b'0')),
        b'a'..=b'f' => Some(u64::from(b - b'a' + 10)),
        _ => None,
    }
}

// What is left of a line: its words are the items. A byte that is no digit ends a word and goes with it.
#[derive(Drop)]
pub struct Words<'a>(slice::Iter<'a, u8>);

impl<'a> Words<'a> {
    // All the words of a line.
    pub fn of(line: &'a [u8]) -> Words<'a> {
        Words(line.iter())
    }
}

impl<'a> Iterator for Words<'a> {
    type Item = u64;

    // None behind the last word. Of a longer word the last 16 digits count.
    fn next(&mut self) -> Option<u64> {
        if self.0.len() == 0 {
            return None;
        }
        let digits = self.0.by_ref().map_while(|b| digit(*b));
        Some(digits.fold(0, |value, d| value << 4 | d))
    }
}

// The float of these bits. A NaN's bits carry nothing.
pub fn float(bits: u64) -> f64 {
    if bits % 9223372036854775808 > 9218868437227405312 {
        return 0.0 / 0.0;
    }
    f64::from_bits(bits)
}

// Reads as many floats as the list holds.
pub fn read_floats(words: &mut Words<'_>, list: &mut [f64]) -> Option<()> {
    list.iter_mut().try_for_each(|x| {
        *x = float(words.next()?);
        Some(())
    })
}

// Reads as many numbers as the list holds.
pub fn read_numbers(words: &mut Words<'_>, list: &mut [u32]) -> Option<()> {
    list.iter_mut().try_for_each(|n| {
        *n = (words.next()? % 4294967296) as u32;
        Some(())
    })
}

// Reads as many bytes as the list holds.
pub fn read_bytes(words: &mut Words<'_>, list: &mut [u8]) -> Option<()> {
    list.iter_mut().try_for_each(|b| {
        *b = (words.next()? % 256) as u8;
        Some(())
    })
}

// The three numbers that begin a model.
pub fn read_sizes(words: &mut Words<'_>) -> Option<Size> {
    Some(Size {
        checks: words.next()? as usize,
        mechanisms: words.next()? as usize,
        edges: words.next()? as usize,
    })
}

// Reads a sparse model into lists of its sizes, and builds its graph. Answers what building it answered.
pub fn read_graph(
    words: &mut Words<'_>,
    size: Size,
    priors: &mut [f64],
    offsets: &mut [u32],
    detectors: &mut [u32],
    check_var: &mut [u32],
    check_offset: &mut [u32],
    var_check: &mut [u32],
    var_message: &mut [u32],
    var_offset: &mut [u32],
) -> Option<Result<(), Refusal>> {
    read_floats(words, priors)?;
    read_numbers(words, offsets)?;
    read_numbers(words, detectors)?;
    Some(graph::build_sparse(
        size,
        priors,
        offsets,
        detectors,
        check_var,
        check_offset,
        var_check,
        var_message,
        var_offset,
    ))
}

// Whether the next words are the numbers of the list.
pub fn same_numbers(words: &mut Words<'_>, list: &[u32]) -> bool {
    list.iter().all(|n| words.next() == Some(u64::from(*n)))
}

// Whether two floats have the same bits, where neither is a NaN.
pub fn same_float(a: f64, b: f64) -> bool {
    a == b && is_negative(a) == is_negative(b)
}

// What a call must have left in a list: the line's words in the first `written` elements, zeros up to `cleared`, and behind them what was
// lent.
#[derive(Clone, Copy)]
pub struct Left {
    pub written: usize,
    pub cleared: usize,
}

// The word for the i-th element of such a list, where `kept` was lent. Only a word that is written takes room on the line.
pub fn left_at(words: &mut Words<'_>, left: Left, i: usize, kept: u64) -> Option<u64> {
    if i < left.written {
        words.next()
    } else if i < left.cleared {
        Some(0)
    } else {
        Some(kept)
    }
}

// Whether that was left in a list of bytes.
pub fn left_bytes(words: &mut Words<'_>, left: Left, kept: u64, list: &[u8]) -> bool {
    list.iter().enumerate().all(|(i, b)| left_at(words, left, i, kept) == Some(u64::from(*b)))
}

// Whether that was left in a list of floats; `kept` is a float's bits.
pub fn left_floats(words: &mut Words<'_>, left: Left, kept: u64, list: &[f64]) -> bool {
    list.iter().enumerate().all(|(i, x)| {
        left_at(words, left, i, kept).is_some_and(|w| same_float(float(w), *x))
    })
}

// Whether the next words are the floats of the list.
pub fn same_floats(words: &mut Words<'_>, list: &[f64]) -> bool {
    list.iter()
        .all(|x| words.next().is_some_and(|w| same_float(float(w), *x)))
}

// Whether every float of the list is +0.0.
pub fn is_cleared(list: &[f64]) -> bool {
    list.iter().all(|x| same_float(0.0, *x))
}

// Whether the answer is the refusal of this number and place, and done where the number is 0.
pub fn is_answer(a: Result<(), Refusal>, number: u64, place: u64) -> bool {
    match a {
        Ok(()) => number == 0 && place == 0,
        Err(r) => number_of(r) as u64 == number && place_of(r).unwrap_or(0) as u64 == place,
    }
}

// How many cases came out the same, and how many not.
#[derive(Clone, Copy, Default)]
pub struct Counts {
    pub same: u64,
    pub other: u64,
}

// One case more, which is not the same where its line ends too early.
pub fn count(counts: Counts, same: Option<bool>) -> Counts {
    if same.unwrap_or(false) {
        Counts {
            same: counts.same.wrapping_add(1),
            ..counts
        }
    } else {
        Counts {
            other: counts.other.wrapping_add(1),
            ..counts
        }
    }
}

// Room for the text that a program replays.
pub fn text_room() -> [u8; 1048576] {
    [0u8; 1048576]
}

// Reads standard input to its end, or until the room is full, and answers how many bytes that were.
pub fn read_whole(rt: &impl Input, room: &mut [u8]) -> io::Result<usize>
    ensures { IfOk result (λ n. n ≤ length room.new) }
{
    let mut input = rt.reader();
    let mut done = 0;
    while done < room.len() {
        let n = input.read(&mut room[done..])?;
        if n == 0 {
            break;
        }
        done += n;
    }
    Ok(done)
}

// What `replay` writes of a list.
pub fn report(rt: &impl Print, name: &[u8], counts: Counts) -> io::Result<()> {
    rt.write_all(name)?;
    let same = counts.same;
    let other = counts.other;
    println!(rt; " {same} same, {other} other")
}
