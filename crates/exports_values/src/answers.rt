// How answers pass: a bool as 1 or 0, an answer as one number. And the version of all that passes.
ghost use Rattle.std.specs.Prelude.{◌≡◌};
ghost use Rattle.exports_values.specs.Codes.{bit_of, place_code, code_of, number_in, place_in, version as version_of};

use refusals::{Refusal, number_of, place_of};

// 1 for true, 0 for false.
pub fn bit(b: bool) -> u8
    ensures { result ≡ bit_of b }
{
    if b {
        return 1;
    }
    0
}

// 65,536 times the place, 0 where there is none.
fn place_code(p: Option<usize>) -> usize
    ensures { result ≡ place_code p }
{
    match p {
        None => 0,
        Some(place) => 65536 * (place % 4294967296),
    }
}

// The refusal's number plus 65,536 times its place, 0 where nothing is refused.
pub fn code(a: Result<(), Refusal>) -> u64
    ensures { result ≡ code_of a }
{
    match a {
        Ok(()) => 0,
        Err(r) => (number_of(r) + place_code(place_of(r))) as u64,
    }
}

// A refusal's number, out of its code.
pub fn number_in(code: u64) -> u64
    ensures { result ≡ number_in code }
{
    code % 65536
}

// A refusal's place, out of its code.
pub fn place_in(code: u64) -> u64
    ensures { result ≡ place_in code }
{
    code / 65536
}

// The version of the exported calls.
pub fn version() -> u64
    ensures { result ≡ version_of }
{
    5
}
