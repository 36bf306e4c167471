// Replays the oracle's three lists of cases: runs each case on the proved code and compares with the Rust's answer. It reads them from
// standard input, which the file stdin holds.
#![tactic(auto)]

use replay_cases::{Counts, Words, count, read_whole, report, text_room};
use std::io;

#[derive(Clone, Copy, Default)]
struct Totals {
    graphs: Counts,
    beliefs: Counts,
    decodes: Counts,
}

// The totals with the case of a line, by its first word: 0 a sparse graph, 1 a dense one, 2 beliefs, 3 a decode. A line of any other kind
// is not the same, and stands with the decodes; neither is a line that ends too early.
fn counted(totals: Totals, line: &[u8]) -> Totals {
    let mut words = Words::of(line);
    match words.next() {
        Some(0) => Totals {
            graphs: count(totals.graphs, replay_graphs::case(&mut words, false)),
            ..totals
        },
        Some(1) => Totals {
            graphs: count(totals.graphs, replay_graphs::case(&mut words, true)),
            ..totals
        },
        Some(2) => Totals {
            beliefs: count(totals.beliefs, replay_beliefs::case(&mut words)),
            ..totals
        },
        Some(3) => Totals {
            decodes: count(totals.decodes, replay_decodes::case(&mut words)),
            ..totals
        },
        _ => Totals {
            decodes: count(totals.decodes, None),
            ..totals
        },
    }
}

// Every case, from the second line on: the first has their number.
fn replay(text: &[u8]) -> Totals {
    let mut totals = Totals::default();
    for line in text.split(|b| *b == b'\n').skip(1) {
        if !line.is_empty() {
            totals = counted(totals, line);
        }
    }
    totals
}

fn main(rt: HostRuntime) -> io::Result<()> {
    let mut text = text_room();
    let n = read_whole(&rt, &mut text)?;
    let totals = replay(&text[..n]);
    let graphs = totals.graphs;
    let beliefs = totals.beliefs;
    let decodes = totals.decodes;
    report(&rt, b"graphs", graphs)?;
    report(&rt, b"beliefs", beliefs)?;
    report(&rt, b"decodes", decodes)
}
