// The calls of `stream_reader`. A reader passes as its eight words, settings as floats, counts and the byte of their schedule, and counts
// as three words.
ghost use Rattle.std.specs.Prelude.{◌≡◌, [], ◌∷◌};
ghost use Rattle.stream_grammar.specs.Fields.{counts_read, model_lists, model_read, settings_read};
ghost use Rattle.stream_grammar.specs.Stream.{seed as seed_of, is_of_shot};
ghost use Rattle.stream_reader.specs.Reading.{fresh, is_whole, held, pushed, verdict as verdict_of, at_end};
ghost use Rattle.exports_values.specs.Codes.{bit_of, code_of, byte_of, floats_in, counts_in};
ghost use Rattle.exports_session.specs.Words.{reader_of, is_set};
ghost use Rattle.exports_compare.specs.Words.{reader_words};

use crate::words::{put_reader, reader_of};
use exports_values::answers::{bit, code};
use exports_values::told::tell_settings;
use stream_reader::Reader;

// `stream_reader::Reader::new`.
#[unsafe(no_mangle)]
pub extern "C" fn chowderkite_reader_new(offset: usize, reader: &mut [usize; 8])
    ensures { reader.new ≡ reader_words (fresh offset) }
{
    put_reader(Reader::new(offset), reader);
}

// `stream_reader::is_whole`.
#[unsafe(no_mangle)]
pub extern "C" fn chowderkite_is_whole(reader: &[usize; 8]) -> u8
    ensures { result ≡ bit_of (is_whole (reader_of reader.now)) }
{
    bit(stream_reader::is_whole(reader_of(reader)))
}

// `stream_reader::push`.
#[unsafe(no_mangle)]
pub extern "C" fn chowderkite_push(reader: &mut [usize; 8], byte: u8, payload: &mut [u8])
    ensures reader { let h = held (reader_of reader.old) payload.old in
        reader.new ≡ reader_words (pushed h byte).reader }
    ensures payload { let h = held (reader_of reader.old) payload.old in
        payload.new ≡ (pushed h byte).kept }
{
    let next = stream_reader::push(reader_of(reader), byte, payload);
    put_reader(next, reader);
}

// `stream_reader::verdict`.
#[unsafe(no_mangle)]
pub extern "C" fn chowderkite_verdict(
    reader: &[usize; 8],
    payload: &[u8],
    has_model: u8,
    has_settings: u8,
) -> u64
    ensures { let reader = reader_of reader.entry.now in
        result ≡ code_of (verdict_of (is_set has_model) (is_set has_settings) reader payload.now) }
{
    code(stream_reader::verdict(
        reader_of(reader),
        payload,
        has_model != 0,
        has_settings != 0,
    ))
}

// `stream_reader::at_end`.
#[unsafe(no_mangle)]
pub extern "C" fn chowderkite_at_end(reader: &[usize; 8]) -> u64
    ensures { result ≡ code_of (at_end (reader_of reader.now)) }
{
    code(stream_reader::at_end(reader_of(reader)))
}

// `stream_reader::read_counts`.
#[unsafe(no_mangle)]
pub extern "C" fn chowderkite_read_counts(payload: &[u8], counts: &mut [usize; 3])
    ensures { let c = counts_read payload.now in
        counts.new ≡ c.checks ∷ (c.mechanisms ∷ (c.edges ∷ [])) }
{
    let c = stream_reader::read_counts(payload);
    *counts = [c.checks, c.mechanisms, c.edges];
}

// `stream_reader::read_model`.
#[unsafe(no_mangle)]
pub extern "C" fn chowderkite_read_model(
    payload: &[u8],
    priors: &mut [f64],
    detector_offsets: &mut [u32],
    detectors: &mut [u32],
)
    ensures { let before = model_lists priors.old detector_offsets.old detectors.old in
        let after = model_lists priors.new detector_offsets.new detectors.new in
        after ≡ model_read payload.now before }
{
    stream_reader::read_model(payload, priors, detector_offsets, detectors);
}

// `stream_reader::read_settings`.
#[unsafe(no_mangle)]
pub extern "C" fn chowderkite_read_settings(
    kind: usize,
    payload: &[u8],
    floats: &mut [f64; 5],
    counts: &mut [u64; 6],
) -> u8
    ensures schedule { result ≡ byte_of (settings_read kind payload.now).schedule }
    ensures floats { floats.new ≡ floats_in (settings_read kind payload.now) }
    ensures counts { counts.new ≡ counts_in (settings_read kind payload.now) }
{
    tell_settings(stream_reader::read_settings(kind, payload), floats, counts)
}

// `stream_reader::read_seed`.
#[unsafe(no_mangle)]
pub extern "C" fn chowderkite_read_seed(payload: &[u8]) -> u64
    ensures { result ≡ seed_of payload.now }
{
    stream_reader::read_seed(payload)
}

// `stream_reader::is_of_shot`.
#[unsafe(no_mangle)]
pub extern "C" fn chowderkite_is_of_shot(number: usize) -> u8
    ensures { result ≡ bit_of (is_of_shot number) }
{
    bit(stream_reader::is_of_shot(number))
}
