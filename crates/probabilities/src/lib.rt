// The prior of a probability, for users: the logarithm of (1 - p) / p, cut to -30 .. 30, in whole numbers of 2^-32 and as a float. Every
// call takes every input; a refusal writes nothing.
#![tactic(auto)]

ghost use Rattle.std.specs.Prelude.{◌≡◌, true, map, T, nat_abs, length, ℕ, ◌+◌, ◌-◌, ◌*◌, ◌^◌, ◌≤◌, ◌<◌};
ghost use Rattle.std.specs.Float.Ieee.Positive.{num, den, positive};
ghost use Rattle.std.specs.Prelude.{Ok};
ghost use Rattle.refusals.specs.Tests.{first_of};
ghost use Rattle.probabilities.specs.Logarithm.{terms};
ghost use Rattle.probabilities.specs.Scaled.{slope, nested as nested_of, series as series_of, most, float_of, scaled_of, prior_of};
ghost use Rattle.probabilities.specs.Ratios.{Split, cut_sum, size_of};
ghost use Rattle.probabilities.specs.Calls.{is_probability, probability_fault, prior_answer, priors_outcome, priors_of};

use refusals::Refusal;

// ---- the logarithm, in whole numbers of 2^-32

// The sum within the brackets of the partial sum, from the inside out.
fn nested(u: u64) -> u64
    requires { 9 * u ≤ 2 ^ 32 }
    ensures { result ≡ nested_of terms 0 u }
{
    let mut sum = 0;
    for j in (0..10u64).rev() {
        sum = 4294967296 / (2 * j + 1) + u * sum / 4294967296;
    }
    sum
}

// The first 10 terms of the series of artanh.
fn series(t: u64) -> u64
    requires { 3 * t ≤ 2 ^ 32 }
    ensures { result ≡ series_of t }
{
    t * nested(t * t / 4294967296) / 4294967296
}

// (high - low) / (high + low), not above it also where the two are up to 1 more.
fn slope_of(high: u64, low: u64) -> u64
    requires { (low ≤ high) × (high ≤ 2 * low + 1) × (low < 2 ^ 32) }
    ensures { result ≡ slope high low }
{
    if high == low {
        return 0;
    }
    (high - low - 1) * 4294967296 / (high + low + 2)
}

// The logarithm of 2^twos * high / low, cut to 30.
fn cut_sum(twos: u64, high: u64, low: u64) -> u64
    requires { (low ≤ high) × (high ≤ 2 * low + 1) × (low < 2 ^ 32) × (twos ≤ 160) }
    ensures { result ≡ cut_sum twos high low }
{
    let x = twos * 2977044471 + 2 * series(slope_of(high, low));
    if x < 128849018880 {
        return x;
    }
    128849018880
}

// ---- a ratio taken apart

// A ratio is 2^twos * high / low, where low has 32 bits and high is from low to twice it.
#[derive(Clone, Copy)]
struct Parts {
    twos: u64,
    high: u64,
    low: u64,
}

// 2^d * a / b, where a and b have 53 bits. If a is below b, one of the powers of two makes up for it.
fn split(d: u64, a: u64, b: u64) -> Parts
    requires { (2 ^ 52 ≤ a) × (a < 2 ^ 53) × (2 ^ 52 ≤ b) × (b < 2 ^ 53) × (a < b → 0 < d) }
    ensures { (result.twos ≤ d)
        × ((m n e : ℕ) → a * 2 ^ e ≤ m → m < (a + 1) * 2 ^ e → n * 2 ^ d ≡ b * 2 ^ e → Split m n result.twos result.high result.low) }
{
    if b <= a {
        return Parts {
            twos: d,
            high: a / 2097152,
            low: b / 2097152,
        };
    }
    Parts {
        twos: d - 1,
        high: a / 1048576,
        low: b / 2097152,
    }
}

// (1 - p) / p for p = q / 2^(53 + d), which is below a half. 1 - p is cut off behind 53 bits.
fn below_half(q: u64, d: u64) -> Parts
    requires { (2 ^ 52 ≤ q) × (q < 2 ^ 53) × (0 < d) × (d ≤ 44) }
    ensures { (result.twos ≤ d) × Split (2 ^ (53 + d) - q) q result.twos result.high result.low }
{
    split(d, 9007199254740991 - ((q - 1) >> d), q)
}

// p / (1 - p) for p = q / 2^53, which is a half or more.
fn from_half(q: u64) -> Parts
    requires { (2 ^ 52 ≤ q) × (q < 2 ^ 53) }
    ensures { (result.twos ≤ 64) × Split q (2 ^ 53 - q) result.twos result.high result.low }
{
    let rest = 9007199254740992 - q;
    let shift = u64::leading_zeros(rest) - 11;
    split(shift as u64, q, rest << shift)
}

// ---- the prior

// The size of the prior of a p between 0 and 1, by the exponent's field of its bits: below 2^-45 it is cut.
fn size_of(p: f64) -> u64
    requires { T (positive p) × (num p < den p) }
    ensures { result ≡ size_of p }
{
    let bits = f64::to_bits(p);
    let x = bits / 4503599627370496;
    let q = 4503599627370496 + bits % 4503599627370496;
    if x < 978 {
        return 128849018880;
    }
    if x < 1022 {
        let s = below_half(q, 1022 - x);
        return cut_sum(s.twos, s.high, s.low);
    }
    let s = from_half(q);
    cut_sum(s.twos, s.high, s.low)
}

// The prior of a probability, in whole numbers of 2^-32.
fn scaled_of(p: f64) -> i64
    requires { is_probability p ≡ true }
    ensures { result ≡ scaled_of p }
{
    if p == 0.0 {
        return 128849018880;
    }
    if p == 1.0 {
        return -128849018880;
    }
    let size = size_of(p) as i64;
    if p < 0.5 {
        return size;
    }
    -size
}

// A scaled prior as a float, which holds it exactly.
fn float_of(scaled: i64) -> f64
    requires { nat_abs scaled ≤ most * 2 ^ 32 }
    ensures { result ≡ float_of scaled }
{
    scaled as f64 / 4294967296.0
}

// p is a number from 0 to 1.
pub fn is_probability(p: f64) -> bool
    ensures { result ≡ is_probability p }
{
    0.0 <= p && p <= 1.0
}

// The prior of a probability, times 2^32 as a whole number, and the float made of it.
#[derive(Clone, Copy, Debug)]
pub struct Prior {
    pub scaled: i64,
    pub value: f64,
}

// The prior of the probability p of a mechanism. A NaN and a number outside 0 .. 1 are refused.
pub fn prior_of(p: f64, mechanism: usize) -> Result<Prior, Refusal>
    ensures { result ≡ prior_answer p mechanism }
{
    if !is_probability(p) {
        return Err(Refusal::BadProbability(mechanism));
    }
    let scaled = scaled_of(p);
    let value = float_of(scaled);
    Ok(Prior { scaled, value })
}

// ---- lists of them

// 8: the first that is no probability.
fn probabilities_fault(probabilities: &[f64]) -> Result<(), Refusal>
    ensures { result ≡ first_of (length probabilities.now) (probability_fault probabilities.now) }
{
    for (m, p) in probabilities.iter().enumerate() {
        if !is_probability(*p) {
            return Err(Refusal::BadProbability(m));
        }
    }
    Ok(())
}

// The priors of probabilities, as whole numbers and as floats.
fn write_priors(probabilities: &[f64], priors: &mut [f64], scaled: &mut [i64])
    requires probabilities_value { first_of (length probabilities.now) (probability_fault probabilities.now) ≡ Ok tt }
    requires priors_len { length priors.old ≡ length probabilities.now }
    requires scaled_len { length scaled.old ≡ length probabilities.now }
    ensures { (priors.new ≡ map prior_of probabilities.now)
        × (scaled.new ≡ map scaled_of probabilities.now) }
{
    for (m, p) in probabilities.iter().enumerate() {
        let s = scaled_of(*p);
        priors[m] = float_of(s);
        scaled[m] = s;
    }
}

// The priors of a list of probabilities, into lists of the same length: as floats, and times 2^32 as whole numbers.
pub fn priors_of(
    probabilities: &[f64],
    priors: &mut [f64],
    scaled: &mut [i64],
) -> Result<(), Refusal>
    ensures { priors_outcome result priors.new scaled.new
        ≡ priors_of probabilities.now priors.old scaled.old }
{
    let n = probabilities.len();
    if priors.len() != n || scaled.len() != n {
        return Err(Refusal::ModelListLength);
    }
    probabilities_fault(probabilities)?;
    write_priors(probabilities, priors, scaled);
    Ok(())
}
