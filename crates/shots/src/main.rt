// `shots`: reads a record stream from standard input, in whatever pieces it comes, and writes a line for each shot and one at the end. It
// decides nothing itself: the session does (`stream_session`), and the loop that feeds it is `stream_writing`'s.
#![tactic(auto)]

use std::io;

fn main(rt: HostRuntime) -> io::Result<()> {
    stream_writing::run(&rt)
}
