// Inner: a session whose lines are written to standard output, for `shots` and for the programs that replay streams. The contracts say what
// is left in the session and the lists; what is written is the front of the line, as `stream_session` says. A line that can't be written
// ends the run at once.
#![tactic(auto)]

ghost use Rattle.std.specs.Prelude.{◌≡◌};
ghost use Rattle.numbers.specs.Loops.{over};
ghost use Rattle.stream_session.specs.Shots.{told, taken, left, end_text};
ghost use Rattle.stream_writing.specs.Written.{PieceLeft};

use numbers::limits::{ROOM_LINE, ROOM_PAYLOAD};
use std::io;
use std::io::Read;
use stream_session::Session;

// Writes a list's first n bytes. Answers whether it did.
fn say(rt: &impl Print, line: &[u8], n: usize) -> bool {
    if n <= line.len() {
        return rt.write_all(&line[..n]).is_ok();
    }
    false
}

// A session after bytes of a piece: how many were taken, and whether every line was written.
#[derive(Clone, Copy)]
pub struct Progress {
    pub session: Session,
    pub taken: usize,
    pub written: bool,
}

// A piece of a stream, up to its end or to a line that was not written.
pub fn piece(
    rt: &impl Print,
    before: Session,
    bytes: &[u8],
    payload: &mut [u8],
    model: &mut [u8],
    line: &mut [u8; ROOM_LINE],
) -> Progress
    ensures { PieceLeft bytes.now (left (taken (told before line.old) model.old) payload.old)
        result.written result.taken (left (taken (told result.session line.new) model.new) payload.new) }
{
    let mut s = before;
    for (i, byte) in bytes.iter().enumerate() {
        s = stream_session::take(s, *byte, payload, model, line);
        if !say(rt, line, s.said) {
            return Progress {
                session: s,
                taken: i + 1,
                written: false,
            };
        }
    }
    Progress {
        session: s,
        taken: bytes.len(),
        written: true,
    }
}

// The end of the input. Answers whether the last line was written.
pub fn end(rt: &impl Print, s: Session, line: &mut [u8; ROOM_LINE]) -> bool
    ensures { line.new ≡ over (end_text s) line.old }
{
    let n = stream_session::finish(s, line);
    say(rt, line, n)
}

// A piece, with the session as the answer.
fn heard(
    rt: &impl Print,
    before: Session,
    bytes: &[u8],
    payload: &mut [u8],
    model: &mut [u8],
    line: &mut [u8; ROOM_LINE],
    written: &mut bool,
) -> Session {
    let p = piece(rt, before, bytes, payload, model, line);
    *written = p.written;
    let s = p.session;
    s
}

// A whole run: reads standard input piece by piece, to its end or to the refusal that ends the run. A read or a write that fails ends it
// at once, without a last line, and is the answer. A proved loop has to end, so it counts its turns, up to a number that no run reaches.
pub fn run(rt: &(impl Input + Print)) -> io::Result<()> {
    let mut payload = [0u8; ROOM_PAYLOAD];
    let mut model = [0u8; ROOM_PAYLOAD];
    let mut line = [0u8; ROOM_LINE];
    let mut room = [0u8; 4096];
    let mut input = rt.reader();
    let mut written = true;
    let mut s = Session::new();
    for _ in 0..u64::MAX {
        let n = input.read(&mut room)?;
        if n == 0 {
            if !end(rt, s, &mut line) {
                return Err(io::Error::other("standard output"));
            }
            return Ok(());
        }
        s = heard(
            rt,
            s,
            &room[..n],
            &mut payload,
            &mut model,
            &mut line,
            &mut written,
        );
        if !written {
            return Err(io::Error::other("standard output"));
        }
        if s.stopped {
            return Ok(());
        }
    }
    Ok(())
}
