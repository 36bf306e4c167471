// Inner: what the decoder reckons with: the limits; a float's magnitude and its signs, bit for bit as the Rust's, but for a NaN, whose bits
// are nobody's: `abs` clears its sign bit, and `magnitude` gives it back as it is; the product modulo 2^64 and the generator SplitMix64,
// with the gamma of a draw. No function asks anything of its caller.
#![tactic(auto)]

pub mod limits;

ghost use Rattle.std.specs.Prelude.{◌≡◌, false};
ghost use Rattle.std.specs.Float.{inf};
ghost use Rattle.numbers.specs.Floats.{abs, is_finite, is_negative, message_sign};
ghost use Rattle.numbers.specs.Draw.{product, advanced, mixed, unit as unit_of, gamma as gamma_of};

// ---- floats

// `x.abs()`: the bits without the sign's, and a NaN as it is. A comparison rules it out, and no branch waits on the sign.
pub fn magnitude(x: f64) -> f64
    ensures { result ≡ abs x }
{
    if x == x {
        return f64::from_bits(f64::to_bits(x) % 9223372036854775808);
    }
    x
}

// `f64::INFINITY`, which no literal can write.
pub fn infinity() -> f64
    ensures { result ≡ inf false }
{
    1.0 / 0.0
}

// `x.is_finite()`.
pub fn is_finite(x: f64) -> bool
    ensures { result ≡ is_finite x }
{
    let top = infinity();
    x < top && -top < x
}

// The sign that `copysign` reads off x, a zero's too: the top bit. A comparison rules out a NaN, which counts as positive.
pub fn is_negative(x: f64) -> bool
    ensures { result ≡ is_negative x }
{
    if x == x {
        return 9223372036854775808 <= f64::to_bits(x);
    }
    false
}

// -1 below zero, else 1: a zero of either sign and a NaN count as positive.
pub fn message_sign(x: f64) -> f64
    ensures { result ≡ message_sign x }
{
    if x < 0.0 { -1.0 } else { 1.0 }
}

// ---- the generator

// a * b modulo 2^64.
pub fn wrapping_mul(a: u64, b: u64) -> u64
    ensures { result ≡ product a b }
{
    a.wrapping_mul(b)
}

// The generator SplitMix64.
#[derive(Clone, Copy)]
pub struct SplitMix64 {
    pub state: u64,
}

// A draw, with the generator that gives the next.
// Stays: the project asks for a method with self that answers the draw with the next state (docs/REFERENCE.md, "A form for each place").
#[derive(Clone, Copy)]
pub struct Drawn {
    pub value: u64,
    pub next: SplitMix64,
}

impl SplitMix64 {
    // The generator that a seed starts.
    pub fn new(seed: u64) -> Self
        ensures { result.state ≡ seed }
    {
        Self { state: seed }
    }

    // A draw: the state advances, and the value is the advanced state, mixed.
    pub fn draw(self) -> Drawn
        ensures value { result.value ≡ mixed (advanced self.state) }
        ensures next { result.next.state ≡ advanced self.state }
    {
        let z = self.state.wrapping_add(0x9E3779B97F4A7C15);
        let a = wrapping_mul(z ^ (z >> 30), 0xBF58476D1CE4E5B9);
        let b = wrapping_mul(a ^ (a >> 27), 0x94D049BB133111EB);
        Drawn {
            value: b ^ (b >> 31),
            next: SplitMix64 { state: z },
        }
    }
}

// A draw as a number from 0 to below 1: its top 53 bits times 2^-53. A float holds each such number exactly.
pub fn unit(draw: u64) -> f64
    ensures { result ≡ unit_of draw }
{
    (draw >> 11) as f64 * 1.1102230246251565e-16
}

// The gamma of a draw, from low to high.
pub fn gamma(low: f64, high: f64, draw: u64) -> f64
    ensures { result ≡ gamma_of low high draw }
{
    low + (high - low) * unit(draw)
}
