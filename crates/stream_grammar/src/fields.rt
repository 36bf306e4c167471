// The fields of a payload.
ghost use Rattle.std.specs.Prelude.{◌≡◌, suc, ◌+◌, ◌*◌, ◌<◌, ◌≤◌, length, from_bits, slice_index};
ghost use Rattle.std.specs.Float.{nan, binary64};
ghost use Rattle.numbers.specs.Limits.{room_mechanisms, room_edges};
ghost use Rattle.numbers.specs.Loops.{table};
ghost use Rattle.stream_grammar.specs.Stream.{number_at, legs as legs_of, schedule_byte, degree as degree_of, detector as detector_of};
ghost use Rattle.stream_grammar.specs.Fields.{prior, offset, schedule_read, rule_read};

use relay_settings::{DrawRule, Schedule};

// ---- numbers

// A byte as a number.
fn wide(byte: u8) -> usize
    ensures { (result ≡ byte) × (result < 256) }
{
    byte as usize
}

// The byte at a place; 0 past the end.
fn byte_at(bytes: &[u8], at: usize) -> usize
    ensures { (result ≡ slice_index bytes.now at) × (result < 256) }
{
    if at < bytes.len() {
        return wide(bytes[at]);
    }
    0
}

// The number in 4 bytes from a place on, as far as there are bytes.
pub fn number4(bytes: &[u8], at: usize) -> usize
    requires { at < 65536 }
    ensures { (result ≡ number_at 4 at bytes.now) × (result < 4294967296) }
{
    byte_at(bytes, at)
        + 256
            * (byte_at(bytes, at + 1)
                + 256 * (byte_at(bytes, at + 2) + 256 * byte_at(bytes, at + 3)))
}

// The number in 8 bytes from a place on, as far as there are bytes.
pub fn number8(bytes: &[u8], at: usize) -> u64
    requires { at < 65000 }
    ensures { result ≡ number_at 8 at bytes.now }
{
    (number4(bytes, at) + 4294967296 * number4(bytes, at + 4)) as u64
}

// No number.
fn not_a_number() -> f64
    ensures { result ≡ nan }
{
    0.0 / 0.0
}

// The float of these bits. All NaNs are one: which NaN a payload holds decides nothing.
fn float(bits: u64) -> f64
    ensures { result ≡ from_bits binary64 bits }
{
    if bits % 9223372036854775808 > 9218868437227405312 {
        return not_a_number();
    }
    f64::from_bits(bits)
}

// The float in 8 bytes from a place on.
pub fn float_at(bytes: &[u8], at: usize) -> f64
    requires { at < 65000 }
    ensures { result ≡ from_bits binary64 (number_at 8 at bytes.now) }
{
    float(number8(bytes, at))
}

// ---- settings

// The relayed legs of settings.
pub fn legs(payload: &[u8]) -> usize
    ensures { result ≡ legs_of payload.now }
{
    number4(payload, 21)
}

// The schedule byte of settings.
pub fn schedule_byte(payload: &[u8]) -> usize
    ensures { result ≡ schedule_byte payload.now }
{
    byte_at(payload, 0)
}

// The schedule that a byte says.
pub fn schedule_of(byte: usize) -> Schedule
    ensures { result ≡ schedule_read byte }
{
    if byte == 0 {
        return Schedule::Flooding;
    }
    Schedule::CheckSerial
}

// The draw that settings of a kind mean.
pub fn rule_of(kind: usize) -> DrawRule
    ensures { result ≡ rule_read kind }
{
    if kind == 2 {
        return DrawRule::SeedXorLeg;
    }
    DrawRule::ByShot
}

// ---- a model's lists

// The priors.
pub fn priors_in(payload: &[u8], priors: &mut [f64])
    requires { length priors.old ≤ room_mechanisms }
    ensures { priors.new ≡ table (length priors.old) (prior payload.now) }
{
    for (m, x) in priors.iter_mut().enumerate() {
        *x = float_at(payload, 12 + 12 * m);
    }
}

// How many detectors the mechanism m has.
fn degree(payload: &[u8], m: usize) -> u32
    requires { m ≤ suc room_mechanisms }
    ensures { result ≡ degree_of payload.now m }
{
    number4(payload, 20 + 12 * m) as u32
}

// Where the detectors of each mechanism begin, and at the end where they end.
pub fn offsets_in(payload: &[u8], offsets: &mut [u32])
    requires { length offsets.old ≤ suc room_mechanisms }
    ensures { offsets.new ≡ table (length offsets.old) (offset payload.now) }
{
    let mut sum: u32 = 0;
    for (m, x) in offsets.iter_mut().enumerate() {
        *x = sum;
        sum = sum.wrapping_add(degree(payload, m));
    }
}

// The i-th of all the detectors, behind n mechanisms.
fn detector(payload: &[u8], n: usize, i: usize) -> u32
    requires { (n ≤ room_mechanisms) × (i ≤ room_edges) }
    ensures { result ≡ detector_of n payload.now i }
{
    number4(payload, 12 + 12 * n + 4 * i) as u32
}

// All the detectors.
pub fn detectors_in(payload: &[u8], n: usize, detectors: &mut [u32])
    requires { (n ≤ room_mechanisms) × (length detectors.old ≤ room_edges) }
    ensures { detectors.new ≡ table (length detectors.old) (detector_of n payload.now) }
{
    for (i, x) in detectors.iter_mut().enumerate() {
        *x = detector(payload, n, i);
    }
}
