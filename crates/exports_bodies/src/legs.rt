// The reading of a leg's record. Its state passes as the answer: 2 converged, 1 ran out, 0 not executed; iterations and weight go into
// lists of one.
ghost use Rattle.std.specs.Prelude.{◌≡◌, [], ◌∷◌};
ghost use Rattle.relay_calls.specs.Records.{leg_record, values_of};

use exports_values::told::tell_record;

// `relay::leg_record`.
pub fn leg_record(
    leg_state: &[u8],
    leg_steps: &[u32],
    leg_weight: &[f64],
    leg: usize,
    iterations: &mut [u64; 1],
    weight: &mut [f64; 1],
) -> u64
    ensures state { let found = leg_record leg_state.now leg_steps.now leg_weight.now leg in
        result ≡ (values_of found).leg_state }
    ensures iterations { let found = leg_record leg_state.now leg_steps.now leg_weight.now leg in
        iterations.new ≡ (values_of found).leg_iterations ∷ [] }
    ensures weight { let found = leg_record leg_state.now leg_steps.now leg_weight.now leg in
        weight.new ≡ (values_of found).leg_weight ∷ [] }
{
    let found = relay::leg_record(leg_state, leg_steps, leg_weight, leg);
    tell_record(found, iterations, weight)
}
