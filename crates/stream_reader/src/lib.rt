// Inner: the record stream, judged record by record. It is read byte by byte, in pieces of any size: what a record says is kept in a small
// struct, its payload in a lent list, and no record's length makes the reading fail or stop. Every call takes every input.
#![tactic(auto)]

mod step;

ghost use Rattle.std.specs.Prelude.{◌≡◌};
ghost use Rattle.stream_reader.specs.Reading.{fresh, is_whole, held, pushed, verdict as verdict_of, at_end};
ghost use Rattle.stream_grammar.specs.Stream.{seed, is_of_shot};
ghost use Rattle.stream_grammar.specs.Fields.{counts_read, model_lists, model_read, settings_read};

use numbers::limits::{ROOM_EDGES, ROOM_MECHANISM_OFFSETS, ROOM_MECHANISMS};
use refusals::Refusal;
use relay_settings::{Clip, GammaSource, Settings};
use stream_grammar::{fields, rules};

// What the bytes of a record have said so far: the record's offset in the stream, how many of its bytes were taken, its payload length and
// kind, and of a model its counts and the sum of its degrees.
#[derive(Clone, Copy)]
pub struct Reader {
    pub offset: usize,
    pub taken: usize,
    pub length: usize,
    pub kind: usize,
    pub checks: usize,
    pub mechanisms: usize,
    pub edges: usize,
    pub degrees: usize,
}

impl Reader {
    // Before the first byte of the record at an offset.
    pub fn new(offset: usize) -> Self
        ensures { result ≡ fresh offset }
    {
        Self {
            offset,
            taken: 0,
            length: 0,
            kind: 0,
            checks: 0,
            mechanisms: 0,
            edges: 0,
            degrees: 0,
        }
    }
}

// Whether the record has been read to its end.
#[tactic(auto, unfolding(crate::specs::Reading::is_whole))]
pub fn is_whole(r: Reader) -> bool
    ensures { result ≡ is_whole r }
{
    r.taken >= 6 && r.taken - 6 == r.length
}

// One byte of the stream. Past a whole record the next begins.
pub fn push(r: Reader, byte: u8, payload: &mut [u8]) -> Reader
    ensures { held result payload.new ≡ pushed (held r payload.old) byte }
{
    let open = step::opened(r);
    step::keep(open.taken, byte, payload);
    step::added(open, byte)
}

// 41 to 45 of a record that has been read to its end. Of settings it reads the legs and the schedule off the payload, so that 49 bytes
// must have been kept.
#[tactic(auto, unfolding(crate::specs::Reading::verdict, stream_grammar::specs::Stream::tested, refusals::specs::Tests::or_else, refusals::specs::Tests::unless))]
pub fn verdict(
    r: Reader,
    payload: &[u8],
    has_model: bool,
    has_settings: bool,
) -> Result<(), Refusal>
    ensures { result ≡ verdict_of has_model has_settings r payload.now }
{
    if !rules::kind_good(r.kind) {
        return Err(Refusal::UnknownKind);
    }
    if !rules::length_good(r.kind, r.length, r.mechanisms, r.edges, r.degrees) {
        return Err(Refusal::PayloadLength);
    }
    if !rules::time_good(r.kind, has_model, has_settings) {
        return Err(Refusal::ShotTooEarly);
    }
    let legs = fields::legs(payload);
    if !rules::room_good(r.kind, r.length, r.checks, r.mechanisms, r.edges, legs) {
        return Err(Refusal::BeyondRoom);
    }
    if !rules::schedule_good(r.kind, fields::schedule_byte(payload)) {
        return Err(Refusal::BadSchedule);
    }
    Ok(())
}

// At the end of the input: 40, unless it ends with a whole record or holds nothing.
#[tactic(auto, unfolding(crate::specs::Reading::at_end, refusals::specs::Tests::unless))]
pub fn at_end(r: Reader) -> Result<(), Refusal>
    ensures { result ≡ at_end r }
{
    let open = step::opened(r);
    if open.taken != 0 {
        return Err(Refusal::CutRecord);
    }
    Ok(())
}

// A model's counts.
pub type Counts = stream_grammar::Counts;

// The counts of a model's payload.
pub fn read_counts(payload: &[u8]) -> Counts
    ensures { result ≡ counts_read payload.now }
{
    Counts {
        checks: fields::number4(payload, 0),
        mechanisms: fields::number4(payload, 4),
        edges: fields::number4(payload, 8),
    }
}

// The lists of a model's payload, as `graph::build_sparse` takes them: the caller's lists have the lengths that the counts say. Lists
// beyond the room are left as they were.
pub fn read_model(
    payload: &[u8],
    priors: &mut [f64],
    detector_offsets: &mut [u32],
    detectors: &mut [u32],
)
    ensures { model_lists priors.new detector_offsets.new detectors.new
        ≡ model_read payload.now (model_lists priors.old detector_offsets.old detectors.old) }
{
    let mechanisms = priors.len();
    if mechanisms > ROOM_MECHANISMS
        || detector_offsets.len() > ROOM_MECHANISM_OFFSETS
        || detectors.len() > ROOM_EDGES
    {
        return;
    }
    fields::priors_in(payload, priors);
    fields::offsets_in(payload, detector_offsets);
    fields::detectors_in(payload, mechanisms, detectors);
}

// Relay's settings out of the payload of either kind, with the clip off and a seeded source.
pub fn read_settings(kind: usize, payload: &[u8]) -> Settings
    ensures { result ≡ settings_read kind payload.now }
{
    Settings {
        schedule: fields::schedule_of(fields::schedule_byte(payload)),
        alpha: fields::float_at(payload, 1),
        clip: Clip::Off,
        gamma0: fields::float_at(payload, 9),
        pre_iterations: fields::number4(payload, 17),
        num_legs: fields::legs(payload),
        leg_iterations: fields::number4(payload, 25),
        gamma_low: fields::float_at(payload, 29),
        gamma_high: fields::float_at(payload, 37),
        stop_after_converged: fields::number4(payload, 45),
        gamma_source: GammaSource::Seeded(fields::rule_of(kind)),
    }
}

// The seed of a shot.
pub fn read_seed(payload: &[u8]) -> u64
    ensures { result ≡ seed payload.now }
{
    fields::number8(payload, 0)
}

// Whether a refusal is one that a shot's line has: any other ends the run.
#[tactic(auto, unfolding(stream_grammar::specs::Stream::is_of_shot))]
pub fn is_of_shot(code: usize) -> bool
    ensures { result ≡ is_of_shot code }
{
    matches!(code, 20 | 21 | 27 | 30)
}
