// Inner: the lines that `shots` writes. Each is written at the front of a lent array, and its length is the answer.
#![tactic(auto)]

ghost use Rattle.std.specs.Prelude.{◌≡◌, [], ◌∷◌, map, ◌+◌, ◌<◌, ◌≤◌, length};
ghost use Rattle.numbers.specs.Loops.{over};
ghost use Rattle.stream_lines.specs.Writing.{Put};
ghost use Rattle.stream_lines.specs.Lines.{digits, decimal, numbered, flag as flag_of, bit_digit, bits_after, shot_line};
ghost use Rattle.stream_lines.specs.Lines.{numbers_line, refused_line, stopped_line, end_line, unless_too_long};

use numbers::limits::{ROOM_LINE, ROOM_MECHANISMS};

// Writes a byte.
fn put(byte: u8, out: &mut [u8], at: usize) -> usize
    requires { at < length out.old }
    ensures { (result ≡ at + 1) × Put (byte ∷ []) out.old at out.new result }
{
    out[at] = byte;
    at + 1
}

// Writes a word.
fn put_word(word: &[u8], out: &mut [u8], at: usize) -> usize
    requires { at + length word.now ≤ length out.old }
    ensures { (result ≡ at + length word.now) × Put word.now out.old at out.new result }
{
    let next = at + word.len();
    out[at..next].copy_from_slice(word);
    next
}

// The byte of a digit.
fn digit(d: usize) -> u8
    requires { d < 10 }
    ensures { result ≡ 48 + d }
{
    48 + d as u8
}

// Writes the decimal digits of a number that has at most k.
fn put_digits(k: usize, n: usize, out: &mut [u8], at: usize) -> usize
    requires { at + k ≤ length out.old }
    ensures { (result ≤ at + k) × Put (digits k n) out.old at out.new result }
{
    if k == 0 {
        return at;
    }
    if n < 10 {
        return put(digit(n), out, at);
    }
    let next = put_digits(k - 1, n / 10, out, at);
    put(digit(n % 10), out, next)
}

// Writes a number in decimal.
fn put_decimal(n: usize, out: &mut [u8], at: usize) -> usize
    requires { at + 20 ≤ length out.old }
    ensures { (result ≤ at + 20) × Put (decimal n) out.old at out.new result }
{
    put_digits(20, n, out, at)
}

// The byte of a bit.
fn bit_digit(bit: u8) -> u8
    ensures { result ≡ bit_digit bit }
{
    if bit == 0 {
        return 48;
    }
    49
}

// Writes the bits of a correction.
fn put_bits(bits: &[u8], out: &mut [u8], at: usize) -> usize
    requires { at + length bits.now ≤ length out.old }
    ensures { (result ≡ at + length bits.now) × Put (map bit_digit bits.now) out.old at out.new result }
{
    for (i, bit) in bits.iter().enumerate() {
        out[at + i] = bit_digit(*bit);
    }
    at + bits.len()
}

// Writes them after a space; nothing where there are none.
fn put_after(bits: &[u8], out: &mut [u8], at: usize) -> usize
    requires { at + (1 + length bits.now) ≤ length out.old }
    ensures { (result ≤ at + (1 + length bits.now)) × Put (bits_after bits.now) out.old at out.new result }
{
    if bits.len() == 0 {
        return at;
    }
    let next = put_word(b" ", out, at);
    put_bits(bits, out, next)
}

// `1` or `0`.
fn flag(b: bool) -> usize
    ensures { result ≡ flag_of b }
{
    if b {
        return 1;
    }
    0
}

// Writes a word and a number.
fn put_numbered(word: &[u8], n: usize, out: &mut [u8], at: usize) -> usize
    requires { at + (length word.now + 20) ≤ length out.old }
    ensures { (result ≤ at + (length word.now + 20)) × Put (numbered word.now n) out.old at out.new result }
{
    let next = put_word(word, out, at);
    put_decimal(n, out, next)
}

// A shot that was decoded. More than 256 bits are no line: nothing is said.
pub fn shot_line(
    number: usize,
    converged: bool,
    total: usize,
    legs: usize,
    bits: &[u8],
    out: &mut [u8; ROOM_LINE],
) -> usize
    ensures { (result ≡ length (unless_too_long bits.now (shot_line number converged total legs bits.now)))
        × (out.new
        ≡ over (unless_too_long bits.now (shot_line number converged total legs bits.now)) out.old) }
{
    if ROOM_MECHANISMS < bits.len() {
        return 0;
    }
    let a = put_numbered(b"shot ", number, out, 0);
    let b = put_numbered(b" ", flag(converged), out, a);
    let c = put_numbered(b" ", total, out, b);
    let d = put_numbered(b" ", legs, out, c);
    let e = put_after(bits, out, d);
    put_word(b"\n", out, e)
}

// A line of two words, each with a number behind it.
fn numbers_line(first: &[u8], a: usize, second: &[u8], b: usize, out: &mut [u8; ROOM_LINE]) -> usize
    requires { length first.now + length second.now ≤ 64 }
    ensures { (result ≡ length (numbers_line first.now a second.now b))
        × (out.new ≡ over (numbers_line first.now a second.now b) out.old) }
{
    let x = put_numbered(first, a, out, 0);
    let y = put_numbered(second, b, out, x);
    put_word(b"\n", out, y)
}

// A shot that was refused.
pub fn refused_line(number: usize, code: usize, out: &mut [u8; ROOM_LINE]) -> usize
    ensures { (result ≡ length (refused_line number code)) × (out.new ≡ over (refused_line number code) out.old) }
{
    numbers_line(b"shot ", number, b" refused ", code, out)
}

// A refusal that ends the run.
pub fn stopped_line(code: usize, offset: usize, out: &mut [u8; ROOM_LINE]) -> usize
    ensures { (result ≡ length (stopped_line code offset)) × (out.new ≡ over (stopped_line code offset) out.old) }
{
    numbers_line(b"stopped ", code, b" ", offset, out)
}

// The end of a run without one.
pub fn end_line(shots: usize, out: &mut [u8; ROOM_LINE]) -> usize
    ensures { (result ≡ length (end_line shots)) × (out.new ≡ over (end_line shots) out.old) }
{
    let a = put_numbered(b"end ", shots, out, 0);
    put_word(b"\n", out, a)
}
