// Inner: tests 1 to 6 and 8, of sparse and of dense models: sizes, lengths, detector offsets, priors or probabilities, detectors; and 7, of
// lent graph lists. `graph` and `graph_probabilities` alone call it.
#![tactic(auto)]

pub mod seven;

ghost use Rattle.std.specs.Prelude.{◌≡◌, ◌&&◌, suc, ◌+◌, ◌-◌, ◌<◌, ◌≤◌, length, take};
ghost use Rattle.std.specs.Float.Ieee.{le};
ghost use Rattle.numbers.specs.Loops.{every};
ghost use Rattle.refusals.specs.Tests.{first_of};
ghost use Rattle.graph_lists.specs.Lists.{has};
ghost use Rattle.graph_lists.specs.Model.{edges_good, rising, offsets_good, detector_fault, mechanism_fault, counts_good};
ghost use Rattle.graph_lists.specs.Model.{sizes_good, sparse_fits, sparse_fault, dense_fault, graph_lengths, mechanism_test};
ghost use Rattle.graph_lists.specs.Sound.{Offsets, RisesTo};
ghost use Rattle.graph_tests.specs.Numbers.{lowest_of, highest_of, bad_number, given_fault};

use graph_lists::Size;
use graph_lists::indices::at;
use numbers::limits::{MAX_CHECKS, MAX_EDGES, MAX_MECHANISMS};
use refusals::Refusal;
use refusals_tests::one_more;

// What the numbers are that a model gives for its mechanisms.
#[derive(Clone, Copy)]
pub enum Given {
    Priors,
    Probabilities,
}

// ---- 1 and 2

// Checks and mechanisms within their limits.
fn counts_good(checks: usize, mechanisms: usize) -> bool
    ensures { result ≡ counts_good checks mechanisms }
{
    checks <= MAX_CHECKS && mechanisms <= MAX_MECHANISMS
}

// Edges within theirs.
fn edges_good(edges: usize) -> bool
    ensures { result ≡ edges_good edges }
{
    edges <= MAX_EDGES
}

// All three.
pub fn sizes_good(s: Size) -> bool
    ensures { result ≡ sizes_good s.checks s.mechanisms s.edges }
{
    counts_good(s.checks, s.mechanisms) && edges_good(s.edges)
}

// The lengths of a sparse model's three lists.
fn model_fits(s: Size, numbers: usize, off: usize, dets: usize) -> bool
    ensures { result ≡ sparse_fits s.mechanisms s.edges numbers off dets }
{
    numbers == s.mechanisms && one_more(off, s.mechanisms) && dets == s.edges
}

// The lengths of the five graph lists.
pub fn lists_fit(
    s: Size,
    check_var: usize,
    check_offset: usize,
    var_check: usize,
    var_message: usize,
    var_offset: usize,
) -> bool
    ensures { result
        ≡ graph_lengths s.checks s.mechanisms s.edges check_var check_offset var_check var_message
        var_offset }
{
    check_var == s.edges
        && one_more(check_offset, s.checks)
        && var_check == s.edges
        && var_message == s.edges
        && one_more(var_offset, s.mechanisms)
}

// ---- 3

// No offset is below the one before it.
fn rises(rows: usize, off: &[u32]) -> bool
    requires { length off.now ≡ suc rows }
    ensures { result ≡ every rows (rising off.now) }
{
    for r in 0..rows {
        if off[r + 1] < off[r] {
            return false;
        }
    }
    true
}

// Offsets start at 0, don't fall, and end at n.
pub(crate) fn offsets_good(rows: usize, n: usize, off: &[u32]) -> bool
    requires { length off.now ≡ suc rows }
    ensures { result ≡ offsets_good rows n off.now }
{
    at(off, 0) == 0 && rises(rows, off) && at(off, rows) == n
}

// ---- 4 or 8, 5 and 6

// The least number that is good.
fn lowest(given: Given) -> f64
    ensures { result ≡ lowest_of given }
{
    match given {
        Given::Priors => -30.0,
        Given::Probabilities => 0.0,
    }
}

// The greatest.
fn highest(given: Given) -> f64
    ensures { result ≡ highest_of given }
{
    match given {
        Given::Priors => 30.0,
        Given::Probabilities => 1.0,
    }
}

// From low to high, and no NaN.
fn within(low: f64, x: f64, high: f64) -> bool
    ensures { result ≡ (le low x && le x high) }
{
    low <= x && x <= high
}

// Why m's number is refused.
fn bad_number(given: Given, m: usize) -> Refusal
    ensures { result ≡ bad_number given m }
{
    match given {
        Given::Priors => Refusal::BadPrior(m),
        Given::Probabilities => Refusal::BadProbability(m),
    }
}

// The number that is given for m: 4 of a prior, 8 of a probability. Both are asked for two bounds, so that no mechanism's test waits for
// which of the two it is.
fn given_fault(given: Given, numbers: &[f64], m: usize) -> Result<(), Refusal>
    requires { m < length numbers.now }
    ensures { result ≡ given_fault given numbers.now m }
{
    if !within(lowest(given), numbers[m], highest(given)) {
        return Err(bad_number(given, m));
    }
    Ok(())
}

// Whether d is among the first i of ds, one by one.
fn repeated_in_few(ds: &[u32], i: usize, d: usize) -> bool
    requires { i ≤ length ds.now }
    ensures { result ≡ has (take i ds.now) d }
{
    for j in 0..i {
        if at(ds, j) == d {
            return true;
        }
    }
    false
}

// The same to the end of the front, so that several are compared at once. In a model that is built nothing is repeated, and all are looked
// at anyway. Inlined, it moves the loop over few off a multiple of 16, and a build takes up to two fifths more where mechanisms are small.
#[inline(never)]
fn repeated_in_many(ds: &[u32], i: usize, d: usize) -> bool
    requires { i ≤ length ds.now }
    ensures { result ≡ has (take i ds.now) d }
{
    let mut found = false;
    for k in 0..i {
        found |= at(ds, k) == d;
    }
    found
}

// Whether d is among the first i of ds. Tried, `any` proves, but of a mechanism whose thousands of detectors fall a build takes up to twice
// the time of a `while`; with the second form alone a build takes a quarter more where mechanisms are small.
fn repeated(ds: &[u32], i: usize, d: usize) -> bool
    requires { i ≤ length ds.now }
    ensures { result ≡ has (take i ds.now) d }
{
    if i < 16 {
        return repeated_in_few(ds, i, d);
    }
    repeated_in_many(ds, i, d)
}

// The i-th of m's detectors: range before repeat.
fn detector_fault(checks: usize, m: usize, ds: &[u32], i: usize) -> Result<(), Refusal>
    requires { i < length ds.now }
    ensures { result ≡ detector_fault checks m ds.now i }
{
    let d = at(ds, i);
    if checks <= d {
        return Err(Refusal::DetectorOutOfRange(m));
    }
    if repeated(ds, i, d) {
        return Err(Refusal::DetectorRepeated(m));
    }
    Ok(())
}

// Those of m's detectors from a place on, each against all before it: the long way.
fn detectors_fault_from(checks: usize, m: usize, ds: &[u32], from: usize) -> Result<(), Refusal>
    ensures { result ≡ first_of (length ds.now - from) (λ j. detector_fault checks m ds.now (from + j)) }
{
    for i in from..ds.len() {
        detector_fault(checks, m, ds, i)?;
    }
    Ok(())
}

// The place where the rising front of ds ends: each up to it is above the last one.
fn rises_to(ds: &[u32]) -> usize
    requires { 0 < length ds.now }
    ensures { RisesTo ds.now result }
{
    let end = ds.len() - 1;
    for r in 0..end {
        if ds[r + 1] <= ds[r] {
            return r;
        }
    }
    end
}

// All of m's detectors, in list order. Of those that rise none is a repeat, and the last is the highest.
fn detectors_fault(checks: usize, m: usize, ds: &[u32]) -> Result<(), Refusal>
    ensures { result ≡ first_of (length ds.now) (detector_fault checks m ds.now) }
{
    if ds.is_empty() {
        return Ok(());
    }
    let r = rises_to(ds);
    let last = at(ds, r);
    if checks <= last {
        return Err(Refusal::DetectorOutOfRange(m));
    }
    let from = r + 1;
    detectors_fault_from(checks, m, ds, from)
}

// The mechanism m: its number, then its detectors.
fn mechanism_fault(
    checks: usize,
    given: Given,
    numbers: &[f64],
    m: usize,
    ds: &[u32],
) -> Result<(), Refusal>
    requires { m < length numbers.now }
    ensures { result ≡ mechanism_test checks m (given_fault given numbers.now m) ds.now }
{
    given_fault(given, numbers, m)?;
    detectors_fault(checks, m, ds)
}

// All mechanisms.
fn mechanisms_fault(
    checks: usize,
    mechanisms: usize,
    given: Given,
    numbers: &[f64],
    off: &[u32],
    dets: &[u32],
) -> Result<(), Refusal>
    requires offsets { Offsets mechanisms (length dets.now) off.now }
    requires numbers_len { length numbers.now ≡ mechanisms }
    ensures { result
        ≡ first_of mechanisms
        (mechanism_fault checks (given_fault given numbers.now) off.now dets.now) }
{
    for m in 0..mechanisms {
        let start = at(off, m);
        let end = at(off, m + 1);
        mechanism_fault(checks, given, numbers, m, &dets[start..end])?;
    }
    Ok(())
}

// The numbers alone.
pub fn numbers_fault(given: Given, numbers: &[f64]) -> Result<(), Refusal>
    ensures { result ≡ first_of (length numbers.now) (given_fault given numbers.now) }
{
    for i in 0..numbers.len() {
        given_fault(given, numbers, i)?;
    }
    Ok(())
}

// ---- the tests of a sparse model

// 1 to 6, with 8 for 4 where probabilities are given. `fit`: the lists to be written have their lengths.
pub fn sparse_fault(
    s: Size,
    given: Given,
    numbers: &[f64],
    off: &[u32],
    dets: &[u32],
    fit: bool,
) -> Result<(), Refusal>
    ensures { let xs = numbers.now in
        result
        ≡ sparse_fault s.checks s.mechanisms s.edges (length xs) (given_fault given xs)
        off.now dets.now fit }
{
    if !sizes_good(s) {
        return Err(Refusal::SizeAboveLimit);
    }
    if !model_fits(s, numbers.len(), off.len(), dets.len()) || !fit {
        return Err(Refusal::ModelListLength);
    }
    if !offsets_good(s.mechanisms, dets.len(), off) {
        return Err(Refusal::BadDetectorOffsets);
    }
    mechanisms_fault(s.checks, s.mechanisms, given, numbers, off, dets)
}

// ---- the tests of a dense model

// Counts, the lengths of the matrix and the numbers, edges, the lists to be written, the numbers. `bytes`: the matrix's length; the size's
// edges: how many of its bytes are not zero; `fit`: the lists to be written have their lengths.
pub fn dense_fault(
    s: Size,
    given: Given,
    numbers: &[f64],
    bytes: usize,
    fit: bool,
) -> Result<(), Refusal>
    ensures { let xs = numbers.now in
        result ≡ dense_fault s.checks s.mechanisms s.edges (length xs) (given_fault given xs) bytes fit }
{
    if !counts_good(s.checks, s.mechanisms) {
        return Err(Refusal::SizeAboveLimit);
    }
    if bytes != s.checks * s.mechanisms || numbers.len() != s.mechanisms {
        return Err(Refusal::ModelListLength);
    }
    if !edges_good(s.edges) {
        return Err(Refusal::SizeAboveLimit);
    }
    if !fit {
        return Err(Refusal::ModelListLength);
    }
    numbers_fault(given, numbers)
}
