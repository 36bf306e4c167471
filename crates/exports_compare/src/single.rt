// Calls over single numbers: a bool passes as 1 or 0, and of a draw its value and the next state by themselves.
ghost use Rattle.std.specs.Prelude.{◌≡◌, false, ◌*◌, leb};
ghost use Rattle.std.specs.Float.{inf};
ghost use Rattle.numbers.specs.Floats.{abs, is_finite, is_negative, message_sign};
ghost use Rattle.numbers.specs.Draw.{product, advanced, mixed, unit as unit_of, gamma as gamma_of};
ghost use Rattle.relay_settings.specs.Settings.{clip_good, alpha_good};
ghost use Rattle.relay_stores.specs.Stores.{max_stores};
ghost use Rattle.exports_values.specs.Codes.{bit_of, clip_given};

use exports_values::answers::bit;
use exports_values::given::clip_of;
use numbers::SplitMix64;

// `numbers::magnitude`.
#[unsafe(no_mangle)]
pub extern "C" fn chowderkite_magnitude(x: f64) -> f64
    ensures { result ≡ abs x }
{
    numbers::magnitude(x)
}

// `numbers::infinity`.
#[unsafe(no_mangle)]
pub extern "C" fn chowderkite_infinity() -> f64
    ensures { result ≡ inf false }
{
    numbers::infinity()
}

// `numbers::is_finite`.
#[unsafe(no_mangle)]
pub extern "C" fn chowderkite_is_finite(x: f64) -> u8
    ensures { result ≡ bit_of (is_finite x) }
{
    bit(numbers::is_finite(x))
}

// `numbers::is_negative`.
#[unsafe(no_mangle)]
pub extern "C" fn chowderkite_is_negative(x: f64) -> u8
    ensures { result ≡ bit_of (is_negative x) }
{
    bit(numbers::is_negative(x))
}

// `numbers::message_sign`.
#[unsafe(no_mangle)]
pub extern "C" fn chowderkite_message_sign(x: f64) -> f64
    ensures { result ≡ message_sign x }
{
    numbers::message_sign(x)
}

// `numbers::wrapping_mul`.
#[unsafe(no_mangle)]
pub extern "C" fn chowderkite_wrapping_mul(a: u64, b: u64) -> u64
    ensures { result ≡ product a b }
{
    numbers::wrapping_mul(a, b)
}

// The state after a draw.
#[unsafe(no_mangle)]
pub extern "C" fn chowderkite_next_state(state: u64) -> u64
    ensures { result ≡ advanced state }
{
    SplitMix64::new(state).draw().next.state
}

// The draw from a state.
#[unsafe(no_mangle)]
pub extern "C" fn chowderkite_draw(state: u64) -> u64
    ensures { result ≡ mixed (advanced state) }
{
    SplitMix64::new(state).draw().value
}

// `numbers::unit`.
#[unsafe(no_mangle)]
pub extern "C" fn chowderkite_unit(draw: u64) -> f64
    ensures { result ≡ unit_of draw }
{
    numbers::unit(draw)
}

// `numbers::gamma`.
#[unsafe(no_mangle)]
pub extern "C" fn chowderkite_gamma(low: f64, high: f64, draw: u64) -> f64
    ensures { result ≡ gamma_of low high draw }
{
    numbers::gamma(low, high, draw)
}

// `relay_settings::clip_good`: 9's test.
#[unsafe(no_mangle)]
pub extern "C" fn chowderkite_clip_good(clip_on: u8, clip: f64) -> u8
    ensures { result ≡ bit_of (clip_good (clip_given clip_on clip)) }
{
    bit(relay_settings::clip_good(clip_of(clip_on as usize, clip)))
}

// `refusals_tests::finite_positive`: 10's test.
#[unsafe(no_mangle)]
pub extern "C" fn chowderkite_alpha_good(alpha: f64) -> u8
    ensures { result ≡ bit_of (alpha_good alpha) }
{
    bit(refusals_tests::finite_positive(alpha))
}

// Test 29 alone, of so many iterations that write so many messages each: 1 if it is passed.
#[unsafe(no_mangle)]
pub extern "C" fn chowderkite_stores_fit(iterations: u64, each: u64) -> u8
    ensures { result ≡ bit_of (leb (iterations * each) max_stores) }
{
    bit(relay_stores::product_fits(iterations, each))
}
