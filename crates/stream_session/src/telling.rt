// What a session says.
ghost use Rattle.std.specs.Prelude.{◌≡◌, ◌+◌, ◌%◌, ◌^◌};
ghost use Rattle.stream_session.specs.Shots.{session, told, goes_on, reads as reads_on, stops, refuses, finds as finds_of, answers};

use crate::{Known, Session};
use numbers::limits::ROOM_LINE;
use refusals::{Refusal, number_of};
use relay_calls::Decoded;
use stream_reader::Reader;

// Nothing, and this is known from now on.
pub(crate) fn goes_on(s: Session, k: Known) -> Session
    ensures { result ≡ goes_on s k }
{
    Session {
        known: k,
        said: 0,
        ..s
    }
}

// Nothing, and the reader has gone on.
pub(crate) fn reads(s: Session, r: Reader) -> Session
    ensures { result ≡ reads_on s r }
{
    Session {
        reader: r,
        said: 0,
        ..s
    }
}

// A refusal that ends the run.
pub(crate) fn stop(s: Session, r: Refusal, line: &mut [u8; ROOM_LINE]) -> Session
    ensures { told result line.new ≡ stops s r line.old }
{
    let n = stream_lines::stopped_line(number_of(r), s.reader.offset, line);
    Session {
        stopped: true,
        said: n,
        ..s
    }
}

// The session after a shot's line of n bytes.
fn counted(s: Session, n: usize) -> Session
    ensures { result ≡ session s.reader s.known ((s.shots + 1) % 2 ^ 64) s.stopped n }
{
    Session {
        shots: s.shots.wrapping_add(1),
        said: n,
        ..s
    }
}

// A shot's refusal: 20, 21, 27 and 30 are said of the shot, any other ends the run.
pub(crate) fn refused(s: Session, r: Refusal, line: &mut [u8; ROOM_LINE]) -> Session
    ensures { told result line.new ≡ refuses s r line.old }
{
    let code = number_of(r);
    if stream_reader::is_of_shot(code) {
        let n = stream_lines::refused_line(s.shots, code, line);
        return counted(s, n);
    }
    stop(s, r, line)
}

// A decode's outcome.
fn finds(
    s: Session,
    converged: bool,
    total: usize,
    legs: usize,
    bits: &[u8],
    line: &mut [u8; ROOM_LINE],
) -> Session
    ensures { told result line.new ≡ finds_of s converged total legs bits.now line.old }
{
    let n = stream_lines::shot_line(s.shots, converged, total, legs, bits, line);
    counted(s, n)
}

// What a decode answered, with its correction.
pub(crate) fn answered(
    s: Session,
    d: Result<Decoded, Refusal>,
    bits: &[u8],
    line: &mut [u8; ROOM_LINE],
) -> Session
    ensures { told result line.new ≡ answers s d bits.now line.old }
{
    match d {
        Ok(
            Decoded::Converged {
                executed_legs,
                total_iterations,
                stores: _,
                weight: _,
            },
        ) => finds(s, true, total_iterations, executed_legs, bits, line),
        Ok(
            Decoded::NotConverged {
                executed_legs,
                total_iterations,
                stores: _,
            },
        ) => finds(s, false, total_iterations, executed_legs, bits, line),
        Err(r) => refused(s, r, line),
    }
}
