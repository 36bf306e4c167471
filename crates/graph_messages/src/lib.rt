// Inner: what min-sum and Relay do alike with messages, one to an edge. Its functions ask that entries name something and that lists fit,
// which a graph that has passed its tests grants.
#![tactic(auto)]

pub mod rows;

ghost use Rattle.std.specs.Prelude.{◌≡◌, cond, map, ◌<◌, length, get_or, replicate};
ghost use Rattle.std.specs.Float.{nan};
ghost use Rattle.std.specs.Float.Ieee.{lt};
ghost use Rattle.numbers.specs.Floats.{zero⁺, abs, is_finite};
ghost use Rattle.refusals.specs.declared.Refusal.TheVariants.{NonFinite};
ghost use Rattle.refusals.specs.Tests.{unless, first_of};
ghost use Rattle.graph_lists.specs.Messages.{scan_of, start_scan, lowered as lowered_of, flipped_by};
ghost use Rattle.graph_lists.specs.Messages.{scanned as scanned_of, scan as scan_to};
ghost use Rattle.graph_lists.specs.Messages.{total as total_of, value_fault};
ghost use Rattle.graph_lists.specs.Sound.{Keys};
ghost use Rattle.graph_messages.specs.Needs.{Ordered};

use refusals::Refusal;

// What the first pass over a check's messages knows: the total sign, the least and the next magnitude, and whose the least is.
#[derive(Clone, Copy)]
pub struct Scan {
    pub total_sign: f64,
    pub min1: f64,
    pub min2: f64,
    pub least: usize,
}

// Before the first message: the least is nobody's.
fn start_scan(odd: bool, nobody: usize) -> Scan
    ensures { scan_of result.total_sign result.min1 result.min2 result.least ≡ start_scan odd nobody }
{
    let top = numbers::infinity();
    if odd {
        return Scan {
            total_sign: -1.0,
            min1: top,
            min2: top,
            least: nobody,
        };
    }
    Scan {
        total_sign: 1.0,
        min1: top,
        min2: top,
        least: nobody,
    }
}

// The lesser of two, by one instruction and no branch.
fn lesser(a: f64, b: f64) -> f64
    ensures { result ≡ cond (lt a b) a b }
{
    if a < b {
        return a;
    }
    b
}

// The greater of two.
fn greater(a: f64, b: f64) -> f64
    ensures { result ≡ cond (lt b a) a b }
{
    if b < a {
        return a;
    }
    b
}

// Whose the least is, after one more magnitude.
fn least_of(magnitude: f64, min1: f64, who: usize, least: usize) -> usize
    ensures { result ≡ cond (lt magnitude min1) who least }
{
    if magnitude < min1 {
        return who;
    }
    least
}

// The next least, after one more magnitude: not below the least, and else the lesser of the two. Branches would be mispredicted: there is
// no telling which message is the least.
fn next_least(message: f64, magnitude: f64, min1: f64, min2: f64) -> f64
    requires magnitude_value { magnitude ≡ abs message }
    requires ordered { Ordered min1 min2 }
    ensures { result ≡ cond (lt magnitude min1) min1 (cond (lt magnitude min2) magnitude min2) }
{
    greater(min1, lesser(magnitude, min2))
}

// The scan, one message further, with its total sign: strict comparison keeps the first minimum.
fn lowered(s: Scan, sign: f64, who: usize, message: f64) -> Scan
    requires { Ordered s.min1 s.min2 }
    ensures scan { let before = scan_of s.total_sign s.min1 s.min2 s.least in
        scan_of result.total_sign result.min1 result.min2 result.least ≡ lowered_of before sign who message }
    ensures ordered { Ordered result.min1 result.min2 }
{
    let magnitude = numbers::magnitude(message);
    let min1 = lesser(magnitude, s.min1);
    let min2 = next_least(message, magnitude, s.min1, s.min2);
    let least = least_of(magnitude, s.min1, who, s.least);
    Scan {
        total_sign: sign,
        min1: min1,
        min2: min2,
        least: least,
    }
}

// -sign below zero, else sign.
fn flipped(sign: f64, message: f64) -> f64
    ensures { result ≡ flipped_by sign message }
{
    if message < 0.0 {
        return -sign;
    }
    sign
}

// The message at a position.
fn scanned(s: Scan, position: usize, message: f64) -> Scan
    requires { Ordered s.min1 s.min2 }
    ensures scan { let before = scan_of s.total_sign s.min1 s.min2 s.least in
        scan_of result.total_sign result.min1 result.min2 result.least ≡ scanned_of before position message }
    ensures ordered { Ordered result.min1 result.min2 }
{
    lowered(s, flipped(s.total_sign, message), position, message)
}

// The first pass over a check's messages.
pub fn scan_check(odd: bool, messages: &[f64]) -> Scan
    ensures { scan_of result.total_sign result.min1 result.min2 result.least ≡ scan_to odd messages.now (length messages.now) }
{
    let mut s = start_scan(odd, 0xFFFFFFFFFFFFFFFF);
    for (i, message) in messages.iter().enumerate() {
        s = scanned(s, i, *message);
    }
    s
}

// The sum of the messages that the entries name, in their order, from -0.0.
pub fn total(entries: &[u32], c_to_v: &[f64]) -> f64
    requires { Keys (length c_to_v.now) entries.now }
    ensures { result ≡ total_of c_to_v.now entries.now }
{
    let mut sum: f64 = -0.0;
    for m in entries {
        sum += c_to_v[*m as usize];
    }
    sum
}

// All zeroed.
// Stays: its must-fail edit, clear_to_negative_zero, names it, and zero is said once.
pub fn clear(xs: &mut [f64])
    ensures { xs.new ≡ replicate (length xs.old) zero⁺ }
{
    xs.fill(0.0);
}

// Each message of a variable set to that variable's value.
pub fn from_variables(check_var: &[u32], values: &[f64], v_to_c: &mut [f64])
    requires keys { Keys (length values.now) check_var.now }
    requires v_to_c_len { length v_to_c.old ≡ length check_var.now }
    ensures { v_to_c.new ≡ map (λ v. get_or values.now v nan) check_var.now }
{
    for (i, v) in check_var.iter().enumerate() {
        v_to_c[i] = values[*v as usize];
    }
}

// 30 for one mechanism.
fn value_fault(v: usize, value: f64) -> Result<(), Refusal>
    ensures { result ≡ unless (is_finite value) (NonFinite v) }
{
    if numbers::is_finite(value) {
        return Ok(());
    }
    Err(Refusal::NonFinite(v))
}

// 30: the first mechanism whose value is not finite.
pub fn first_not_finite(values: &[f64]) -> Result<(), Refusal>
    ensures { result ≡ first_of (length values.now) (value_fault values.now) }
{
    for (v, value) in values.iter().enumerate() {
        value_fault(v, *value)?;
    }
    Ok(())
}
