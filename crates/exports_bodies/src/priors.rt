// The calls of `probabilities`. An answer passes as its code; the one prior of `prior_of` and its whole number go into lists of one.
ghost use Rattle.std.specs.Prelude.{◌≡◌};
ghost use Rattle.probabilities.specs.Calls.{prior_answer, priors_of};
ghost use Rattle.exports_bodies.specs.Answers.{priors_left, priors_left_by, prior_left_by};

use exports_values::answers::code;
use probabilities::Prior;
use refusals::Refusal;

// A prior into the lists, or the code of why there is none.
fn tell_prior(answer: Result<Prior, Refusal>, prior: &mut [f64; 1], scaled: &mut [i64; 1]) -> u64
    ensures { priors_left result prior.new scaled.new ≡ prior_left_by answer prior.old scaled.old }
{
    match answer {
        Ok(p) => {
            *prior = [p.value];
            *scaled = [p.scaled];
            0
        }
        Err(r) => code(Err(r)),
    }
}

// `probabilities::prior_of`.
pub fn prior_of(
    probability: f64,
    mechanism: usize,
    prior: &mut [f64; 1],
    scaled: &mut [i64; 1],
) -> u64
    ensures { priors_left result prior.new scaled.new
        ≡ prior_left_by (prior_answer probability mechanism) prior.old scaled.old }
{
    let answer = probabilities::prior_of(probability, mechanism);
    tell_prior(answer, prior, scaled)
}

// `probabilities::priors_of`.
pub fn priors_of(probabilities: &[f64], priors: &mut [f64], scaled: &mut [i64]) -> u64
    ensures { priors_left result priors.new scaled.new
        ≡ priors_left_by (priors_of probabilities.now priors.old scaled.old) }
{
    code(probabilities::priors_of(probabilities, priors, scaled))
}
