// Runs the loop of `shots` over one stream of several pieces, with a model that fills the room: a loop that forgot its session, its payload
// or its model between pieces would write something else. The fixed lines in `stdout` are what the published Rust and the stream's rules,
// written apart, say (`oracle/shots expect`).
#![tactic(auto)]

use std::io;

fn main(rt: HostRuntime) -> io::Result<()> {
    stream_writing::run(&rt)
}
