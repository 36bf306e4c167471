// A record that has been read to its end.
ghost use Rattle.std.specs.Prelude.{◌≡◌, take};
ghost use Rattle.stream_reader.specs.Reading.{payload_kept};
ghost use Rattle.stream_session.specs.Shots.{told, taken, tells, shot_taken, settings_taken, model_taken, kind_taken, record_taken};
ghost use Rattle.stream_table.specs.Table.{model_fault, settings_answer, shot_decoded};

use crate::{Known, Session, telling};
use numbers::limits::{ROOM_LINE, ROOM_MECHANISMS};

// Settings: they replace earlier ones, of either kind, and the model stays.
fn take_settings(s: Session, payload: &[u8], line: &mut [u8; ROOM_LINE]) -> Session
    ensures { told result line.new
        ≡ settings_taken s (settings_answer s.reader.kind payload.now) payload.now line.old }
{
    let kind = s.reader.kind;
    match stream_table::settings_answer(kind, payload) {
        Err(r) => telling::stop(s, r, line),
        Ok(()) => telling::goes_on(
            s,
            Known {
                settings: stream_reader::read_settings(kind, payload),
                has_settings: true,
                ..s.known
            },
        ),
    }
}

// Keeps a payload at the front of a list, as far as there is room.
fn keep(payload: &[u8], list: &mut [u8])
    ensures { list.new ≡ payload_kept payload.now list.old }
{
    let n = payload.len().min(list.len());
    graph_lists::lists::copy(&payload[..n], &mut list[..n]);
}

// A model: it replaces an earlier one, and the settings stay.
fn take_model(s: Session, payload: &[u8], model: &mut [u8], line: &mut [u8; ROOM_LINE]) -> Session
    ensures { taken (told result line.new) model.new
        ≡ model_taken s (model_fault payload.now) payload.now model.old line.old }
{
    match stream_table::model_fault(payload) {
        Err(r) => telling::stop(s, r, line),
        Ok(()) => {
            keep(payload, model);
            telling::goes_on(
                s,
                Known {
                    model_length: payload.len(),
                    has_model: true,
                    ..s.known
                },
            )
        }
    }
}

// A shot over a model, with a correction of its mechanisms.
fn shot_told(
    s: Session,
    model: &[u8],
    payload: &[u8],
    correction: &mut [u8],
    line: &mut [u8; ROOM_LINE],
) -> Session
    ensures { told result line.new
        ≡ tells s (shot_decoded model.now s.known.settings payload.now correction.old)
        line.old }
{
    let d = stream_table::decode_shot(model, s.known.settings, payload, correction);
    telling::answered(s, d, correction, line)
}

// A shot over a model.
fn take_shot(s: Session, model: &[u8], payload: &[u8], line: &mut [u8; ROOM_LINE]) -> Session
    ensures { told result line.new ≡ shot_taken s model.now payload.now line.old }
{
    let c = stream_reader::read_counts(model);
    let mut correction = [0u8; ROOM_MECHANISMS];
    let n = stream_table::front(&correction, c.mechanisms);
    shot_told(s, model, payload, &mut correction[..n], line)
}

// A record past 41 to 45, by its kind.
fn take_kind(s: Session, payload: &[u8], model: &mut [u8], line: &mut [u8; ROOM_LINE]) -> Session
    ensures { taken (told result line.new) model.new
        ≡ kind_taken s payload.now model.old line.old }
{
    if s.reader.kind == 1 {
        return take_model(s, payload, model, line);
    }
    if stream_grammar::rules::is_settings(s.reader.kind) {
        return take_settings(s, payload, line);
    }
    let n = stream_table::front(model, s.known.model_length);
    take_shot(s, &model[..n], payload, line)
}

// Past 41 to 45 the payload is what was kept of it.
fn take_accepted(s: Session, kept: &[u8], model: &mut [u8], line: &mut [u8; ROOM_LINE]) -> Session
    ensures { taken (told result line.new) model.new
        ≡ kind_taken s (take s.reader.length kept.now) model.old line.old }
{
    let n = stream_table::front(kept, s.reader.length);
    take_kind(s, &kept[..n], model, line)
}

// A record: 41 to 45, and then by its kind.
pub(crate) fn take_record(
    s: Session,
    kept: &[u8],
    model: &mut [u8],
    line: &mut [u8; ROOM_LINE],
) -> Session
    ensures { taken (told result line.new) model.new
        ≡ record_taken s kept.now model.old line.old }
{
    let reader = s.reader;
    let a = stream_reader::verdict(reader, kept, s.known.has_model, s.known.has_settings);
    match a {
        Err(r) => telling::stop(s, r, line),
        Ok(()) => take_accepted(s, kept, model, line),
    }
}
