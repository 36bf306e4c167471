// Writes the first five draws of SplitMix64 for two seeds; the file stdout has the published ones. Where the second starts, leg 54,919 of
// shot 18 starts too.
#![tactic(auto)]

use numbers::SplitMix64;
use std::io;

// A line with a seed, and one for each of its first five draws.
fn write_draws(rt: &impl Print, seed: u64) -> io::Result<()> {
    println!(rt; "seed {seed}")?;
    let mut generator = SplitMix64::new(seed);
    for _ in 0u64..5 {
        let drawn = generator.draw();
        let value = drawn.value;
        println!(rt; "{value}")?;
        generator = drawn.next;
    }
    Ok(())
}

fn main(rt: HostRuntime) -> io::Result<()> {
    write_draws(&rt, 0)?;
    write_draws(&rt, 1234567)
}
