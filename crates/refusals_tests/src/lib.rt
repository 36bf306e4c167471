// Inner: small tests that answer a bool, and how tests that follow one another answer. It asks nothing of its caller.
#![tactic(auto)]

ghost use Rattle.std.specs.Prelude.{◌≡◌, ◌&&◌, suc, eqb, leb};
ghost use Rattle.std.specs.Float.Ieee.{lt};
ghost use Rattle.numbers.specs.Floats.{zero⁺, is_finite};
ghost use Rattle.refusals.specs.Tests.{is_done, unless as unless_of, or_else};

use refusals::Refusal;

// ---- of numbers and bools

// a and b are the same number.
// Stays: its must-fail edits, same_or_greater and same_or_less, name it; callers write `==`.
pub fn same_number(a: usize, b: usize) -> bool
    ensures { result ≡ eqb a b }
{
    a == b
}

// a is b + 1, also where that would not fit.
pub fn one_more(a: usize, b: usize) -> bool
    ensures { result ≡ eqb a (suc b) }
{
    if a == 0 {
        return false;
    }
    a - 1 == b
}

// a is at most b.
// Stays: its must-fail edits, at_least and at_most_below, name it; callers write `<=`.
pub fn at_most(a: usize, b: usize) -> bool
    ensures { result ≡ leb a b }
{
    a <= b
}

// a and b both hold.
// Stays: its must-fail edits, both_first and both_second, name it; callers write `&&`.
pub fn both(a: bool, b: bool) -> bool
    ensures { result ≡ (a && b) }
{
    if a {
        return b;
    }
    false
}

// ---- of floats

// x is above zero.
fn is_positive(x: f64) -> bool
    ensures { result ≡ lt zero⁺ x }
{
    0.0 < x
}

// x is finite and above zero.
pub fn finite_positive(x: f64) -> bool
    ensures { result ≡ (is_finite x && lt zero⁺ x) }
{
    both(numbers::is_finite(x), is_positive(x))
}

// ---- of refusals

// Whether nothing is refused.
// Stays: its must-fail edits, done_is_refused and refused_is_done, name it; callers write `?` or `is_err`.
pub fn is_done(a: Result<(), Refusal>) -> bool
    ensures { result ≡ is_done a }
{
    match a {
        Ok(()) => true,
        Err(_) => false,
    }
}

// One test: the refusal, unless it is passed.
// Stays: its must-fail edits, failed_is_done and passed_is_refused, name it; callers write `if !passed { return Err(r); }`.
pub fn unless(passed: bool, r: Refusal) -> Result<(), Refusal>
    ensures { result ≡ unless_of passed r }
{
    if passed {
        return Ok(());
    }
    Err(r)
}

// Two tests, one after the other: the first that refuses.
// Stays: its must-fail edits, last_that_refuses and second_forgotten, name it; callers write `?`.
pub fn or_else(first: Result<(), Refusal>, second: Result<(), Refusal>) -> Result<(), Refusal>
    ensures { result ≡ or_else first second }
{
    if is_done(first) {
        return second;
    }
    first
}
