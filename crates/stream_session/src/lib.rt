// A run of `shots`, for users: the session that its stream makes, one byte after the other. It decides nothing itself: `stream_reader`
// reads and judges, `stream_table` tests and decodes with `graph`, `relay_settings` and `relay`, and `stream_lines` has the text. Room: 128
// checks, 256 mechanisms, 512 edges, 16 relayed legs.
#![tactic(auto)]

mod taking;
mod telling;

ghost use Rattle.std.specs.Prelude.{◌≡◌, length};
ghost use Rattle.numbers.specs.Loops.{over};
ghost use Rattle.stream_session.specs.Shots.{start_session, told, taken, left, byte_taken, end_text};

use numbers::limits::ROOM_LINE;
use refusals::number_of;
use relay_settings::Settings;
use stream_reader::Reader;

// What the stream has said of model and settings: how long the model's payload is, whether there is one, the settings, and whether there
// are any.
#[derive(Clone, Copy)]
pub struct Known {
    pub model_length: usize,
    pub has_model: bool,
    pub settings: Settings,
    pub has_settings: bool,
}

// The reader, what is known, the number of the next shot, whether a refusal has ended the run, and how long the line is that is to be
// written now.
#[derive(Clone, Copy)]
pub struct Session {
    pub reader: Reader,
    pub known: Known,
    pub shots: usize,
    pub stopped: bool,
    pub said: usize,
}

impl Session {
    // Before the first byte.
    pub fn new() -> Self
        ensures { result ≡ start_session }
    {
        Self {
            reader: Reader::new(0),
            known: Known {
                model_length: 0,
                has_model: false,
                settings: Settings::published(),
                has_settings: false,
            },
            shots: 0,
            stopped: false,
            said: 0,
        }
    }
}

// One byte of the stream. The payload's bytes are kept in one list and the model's in another; what is to be written now is the line's
// front. A run that has ended says nothing more.
pub fn take(
    s: Session,
    byte: u8,
    payload: &mut [u8],
    model: &mut [u8],
    line: &mut [u8; ROOM_LINE],
) -> Session
    ensures { left (taken (told result line.new) model.new) payload.new
        ≡ byte_taken s byte payload.old model.old line.old }
{
    let before = s.reader;
    if s.stopped {
        return telling::reads(s, before);
    }
    let reader = stream_reader::push(before, byte, payload);
    let next = telling::reads(s, reader);
    if stream_reader::is_whole(reader) {
        return taking::take_record(next, payload, model, line);
    }
    next
}

// The end of the input: how long the last line is.
pub fn finish(s: Session, line: &mut [u8; ROOM_LINE]) -> usize
    ensures { (result ≡ length (end_text s)) × (line.new ≡ over (end_text s) line.old) }
{
    if s.stopped {
        return 0;
    }
    match stream_reader::at_end(s.reader) {
        Err(r) => stream_lines::stopped_line(number_of(r), s.reader.offset, line),
        Ok(()) => stream_lines::end_line(s.shots, line),
    }
}
