// Runs the session of `shots` over many streams, one after the other, each with its length before it, and writes what it says of each: the
// fixed lines in `stdout` are what the published Rust and the stream's rules, written apart, say (`oracle/streams`).
#![tactic(auto)]

use replay_cases::{read_whole, text_room};
use std::io;
use stream_session::Session;

// A stream, whole.
fn stream(rt: &impl Print, bytes: &[u8]) {
    // The longest payload within the room: 12 + 12 * 256 + 4 * 512 bytes.
    let mut payload = [0u8; 5132];
    let mut model = [0u8; 5132];
    let mut line = [0u8; 512];
    let p = stream_writing::piece(
        rt,
        Session::new(),
        bytes,
        &mut payload,
        &mut model,
        &mut line,
    );
    if p.written {
        let s = p.session;
        stream_writing::end(rt, s, &mut line);
    }
}

// Every stream, each behind the 4 bytes of its length.
fn replay(rt: &impl Print, text: &[u8]) {
    let mut rest = text;
    while let Some((length, after)) = rest.split_first_chunk::<4>() {
        let Some((bytes, others)) = after.split_at_checked(u32::from_le_bytes(*length) as usize)
        else {
            return;
        };
        stream(rt, bytes);
        rest = others;
    }
}

fn main(rt: HostRuntime) -> io::Result<()> {
    let mut text = text_room();
    let n = read_whole(&rt, &mut text)?;
    replay(&rt, &text[..n]);
    Ok(())
}
