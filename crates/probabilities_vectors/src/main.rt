// Writes the scaled priors of fixed probabilities, and of some that SplitMix64 draws; the file stdout has what `oracle/priors --vectors`
// works out of the definition.
#![tactic(auto)]

use numbers::SplitMix64;
use std::io;

// One line: the prior times 2^32, or "refused".
fn write_prior(rt: &impl Print, p: f64) -> io::Result<()> {
    match probabilities::prior_of(p, 7) {
        Ok(prior) => {
            let scaled = prior.scaled;
            println!(rt; "{scaled}")
        }
        Err(_) => println!(rt; "refused"),
    }
}

// Five lines of each of n draws: near a half, near 0, near 1, and about the cut.
fn write_draws(rt: &impl Print, n: u64) -> io::Result<()> {
    let mut generator = SplitMix64::new(1);
    for _ in 0u64..n {
        let drawn = generator.draw();
        let p = numbers::unit(drawn.value);
        write_prior(rt, p)?;
        write_prior(rt, p * 0.001)?;
        write_prior(rt, 1.0 - p * 0.000001)?;
        write_prior(rt, p * 2e-13)?;
        write_prior(rt, 1.0 - p * 2e-13)?;
        generator = drawn.next;
    }
    Ok(())
}

fn main(rt: HostRuntime) -> io::Result<()> {
    write_prior(&rt, 0.0)?;
    write_prior(&rt, -0.0)?;
    write_prior(&rt, 1.0)?;
    write_prior(&rt, 0.5)?;
    write_prior(&rt, 0.25)?;
    write_prior(&rt, 0.75)?;
    write_prior(&rt, 5e-324)?;
    write_prior(&rt, -5e-324)?;
    write_prior(&rt, 0.9999999999999999)?;
    write_prior(&rt, 1.0000000000000002)?;
    write_prior(&rt, 2.0)?;
    write_prior(&rt, numbers::infinity())?;
    write_prior(&rt, numbers::infinity() - numbers::infinity())?;
    write_draws(&rt, 100)
}
