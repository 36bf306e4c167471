// The calls of `stream_session`. A session passes as its 22 words and five floats.
ghost use Rattle.std.specs.Prelude.{◌≡◌, length};
ghost use Rattle.numbers.specs.Loops.{over};
ghost use Rattle.stream_session.specs.Shots.{start_session, byte_taken, end_text};
ghost use Rattle.exports_session.specs.Words.{session_of, session_words, session_floats};

use exports_session::{put_session, session_of};
use stream_session::Session;

// `stream_session::Session::new`.
pub fn session_new(words: &mut [usize; 22], floats: &mut [f64; 5])
    ensures words { words.new ≡ session_words start_session }
    ensures floats { floats.new ≡ session_floats start_session }
{
    put_session(Session::new(), words, floats);
}

// `stream_session::take`.
pub fn take(
    words: &mut [usize; 22],
    floats: &mut [f64; 5],
    byte: u8,
    payload: &mut [u8],
    model: &mut [u8],
    line: &mut [u8; 512],
)
    ensures words { let s = session_of words.old floats.old in
        let l = byte_taken s byte payload.old model.old line.old in
        words.new ≡ session_words l.taken.now.session }
    ensures floats { let s = session_of words.old floats.old in
        let l = byte_taken s byte payload.old model.old line.old in
        floats.new ≡ session_floats l.taken.now.session }
    ensures payload { let s = session_of words.old floats.old in
        let l = byte_taken s byte payload.old model.old line.old in
        payload.new ≡ l.kept }
    ensures model { let s = session_of words.old floats.old in
        let l = byte_taken s byte payload.old model.old line.old in
        model.new ≡ l.taken.model }
    ensures line { let s = session_of words.old floats.old in
        let l = byte_taken s byte payload.old model.old line.old in
        line.new ≡ l.taken.now.line }
{
    let next = stream_session::take(session_of(words, floats), byte, payload, model, line);
    put_session(next, words, floats);
}

// `stream_session::finish`.
pub fn finish(words: &[usize; 22], floats: &[f64; 5], line: &mut [u8; 512]) -> usize
    ensures said { result ≡ length (end_text (session_of words.now floats.now)) }
    ensures line { let s = session_of words.now floats.now in
        line.new ≡ over (end_text s) line.old }
{
    stream_session::finish(session_of(words, floats), line)
}
