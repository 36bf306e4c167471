// The public calls with the C calling convention, for users: numbers and slices only, each one call with its contract. A slice passes as a
// pointer and then a length, a list of fixed length as a pointer alone, a bool as 1 or 0, an answer as its code. No call has a proof of its
// own, so an edit of must-fail/ can comment out those that it does not try.
#![tactic(auto)]

ghost use Rattle.std.specs.Prelude.{◌≡◌, not, [], ◌∷◌, eqb, length};
ghost use Rattle.numbers.specs.Loops.{over};
ghost use Rattle.graph_lists.specs.Graph.{graph};
ghost use Rattle.graph_lists.specs.Model.{build_sparse, count_edges, build_dense, graph_fault};
ghost use Rattle.graph_probabilities.specs.Calls.{build_sparse_probabilities, build_dense_probabilities};
ghost use Rattle.probabilities.specs.Calls.{prior_answer, priors_of};
ghost use Rattle.min_sum.specs.Beliefs.{beliefs_lists, beliefs as beliefs_of};
ghost use Rattle.relay_settings.specs.Settings.{published, check_settings};
ghost use Rattle.relay_step.specs.Step.{state};
ghost use Rattle.relay_calls.specs.Records.{leg_record, values_of};
ghost use Rattle.relay_calls.specs.Calls.{decode_lists, step_lists, iteration_call, decode as decode_of, decode_in_order};
ghost use Rattle.stream_session.specs.Shots.{start_session, byte_taken, end_text};
ghost use Rattle.exports_values.specs.Codes.{code_of, number_in, place_in, schedule_given, settings_given, byte_of};
ghost use Rattle.exports_values.specs.Codes.{clip_given, floats_in, counts_in, version};
ghost use Rattle.exports_session.specs.Words.{session_of, session_words, session_floats};
ghost use Rattle.exports_bodies.specs.Answers.{graph_left, graph_left_by, beliefs_left, beliefs_left_by, step_left, step_left_by};
ghost use Rattle.exports_bodies.specs.Answers.{decode_left, decode_left_by, made_left, made_left_by, priors_left, priors_left_by};
ghost use Rattle.exports_bodies.specs.Answers.{prior_left_by};

use exports_bodies::{beliefs, decodes, graphs, legs, point, priors, sessions, steps};
use exports_values::answers;

// ---- the graph

// `graph::build_sparse`.
#[unsafe(no_mangle)]
pub extern "C" fn chowderkite_build_sparse(
    checks: usize,
    mechanisms: usize,
    edges: usize,
    priors: &[f64],
    detector_offsets: &[u32],
    detectors: &[u32],
    check_var: &mut [u32],
    check_offset: &mut [u32],
    var_check: &mut [u32],
    var_message: &mut [u32],
    var_offset: &mut [u32],
) -> u64
    ensures { let g = graph checks mechanisms check_var.old check_offset.old
        var_check.old var_message.old var_offset.old in
        let after = graph checks mechanisms check_var.new check_offset.new
        var_check.new var_message.new var_offset.new in
        graph_left result after
        ≡ graph_left_by (build_sparse edges priors.now detector_offsets.now detectors.now g) }
{
    graphs::build_sparse(
        checks,
        mechanisms,
        edges,
        priors,
        detector_offsets,
        detectors,
        check_var,
        check_offset,
        var_check,
        var_message,
        var_offset,
    )
}

// `graph::count_edges`.
#[unsafe(no_mangle)]
pub extern "C" fn chowderkite_count_edges(matrix: &[u8]) -> usize
    ensures { result ≡ count_edges matrix.now }
{
    graph::count_edges(matrix)
}

// `graph::build_dense`.
#[unsafe(no_mangle)]
pub extern "C" fn chowderkite_build_dense(
    checks: usize,
    mechanisms: usize,
    priors: &[f64],
    matrix: &[u8],
    check_var: &mut [u32],
    check_offset: &mut [u32],
    var_check: &mut [u32],
    var_message: &mut [u32],
    var_offset: &mut [u32],
) -> u64
    ensures { let g = graph checks mechanisms check_var.old check_offset.old
        var_check.old var_message.old var_offset.old in
        let after = graph checks mechanisms check_var.new check_offset.new
        var_check.new var_message.new var_offset.new in
        graph_left result after ≡ graph_left_by (build_dense priors.now matrix.now g) }
{
    graphs::build_dense(
        checks,
        mechanisms,
        priors,
        matrix,
        check_var,
        check_offset,
        var_check,
        var_message,
        var_offset,
    )
}

// `graph::check_graph`.
#[unsafe(no_mangle)]
pub extern "C" fn chowderkite_check_graph(
    checks: usize,
    mechanisms: usize,
    edges: usize,
    priors: &[f64],
    check_var: &[u32],
    check_offset: &[u32],
    var_check: &[u32],
    var_message: &[u32],
    var_offset: &[u32],
) -> u64
    ensures { let g = graph checks mechanisms check_var.now check_offset.now
        var_check.now var_message.now var_offset.now in
        result ≡ code_of (graph_fault edges priors.now g) }
{
    graphs::check_graph(
        checks,
        mechanisms,
        edges,
        priors,
        check_var,
        check_offset,
        var_check,
        var_message,
        var_offset,
    )
}

// `graph_probabilities::build_sparse_probabilities`.
#[unsafe(no_mangle)]
pub extern "C" fn chowderkite_build_sparse_probabilities(
    checks: usize,
    mechanisms: usize,
    edges: usize,
    probabilities: &[f64],
    detector_offsets: &[u32],
    detectors: &[u32],
    priors: &mut [f64],
    check_var: &mut [u32],
    check_offset: &mut [u32],
    var_check: &mut [u32],
    var_message: &mut [u32],
    var_offset: &mut [u32],
) -> u64
    ensures { let g = graph checks mechanisms check_var.old check_offset.old
        var_check.old var_message.old var_offset.old in
        let after = graph checks mechanisms check_var.new check_offset.new
        var_check.new var_message.new var_offset.new in
        made_left result priors.new after
        ≡ made_left_by
        (build_sparse_probabilities edges probabilities.now detector_offsets.now detectors.now
        priors.old g) }
{
    graphs::build_sparse_probabilities(
        checks,
        mechanisms,
        edges,
        probabilities,
        detector_offsets,
        detectors,
        priors,
        check_var,
        check_offset,
        var_check,
        var_message,
        var_offset,
    )
}

// `graph_probabilities::build_dense_probabilities`.
#[unsafe(no_mangle)]
pub extern "C" fn chowderkite_build_dense_probabilities(
    checks: usize,
    mechanisms: usize,
    probabilities: &[f64],
    matrix: &[u8],
    priors: &mut [f64],
    check_var: &mut [u32],
    check_offset: &mut [u32],
    var_check: &mut [u32],
    var_message: &mut [u32],
    var_offset: &mut [u32],
) -> u64
    ensures { let g = graph checks mechanisms check_var.old check_offset.old
        var_check.old var_message.old var_offset.old in
        let after = graph checks mechanisms check_var.new check_offset.new
        var_check.new var_message.new var_offset.new in
        made_left result priors.new after
        ≡ made_left_by
        (build_dense_probabilities probabilities.now matrix.now priors.old g) }
{
    graphs::build_dense_probabilities(
        checks,
        mechanisms,
        probabilities,
        matrix,
        priors,
        check_var,
        check_offset,
        var_check,
        var_message,
        var_offset,
    )
}

// ---- priors of probabilities

// `probabilities::prior_of`.
#[unsafe(no_mangle)]
pub extern "C" fn chowderkite_prior_of(
    probability: f64,
    mechanism: usize,
    prior: &mut [f64; 1],
    scaled: &mut [i64; 1],
) -> u64
    ensures { priors_left result prior.new scaled.new
        ≡ prior_left_by (prior_answer probability mechanism) prior.old scaled.old }
{
    priors::prior_of(probability, mechanism, prior, scaled)
}

// `probabilities::priors_of`.
#[unsafe(no_mangle)]
pub extern "C" fn chowderkite_priors_of(
    probabilities: &[f64],
    priors: &mut [f64],
    scaled: &mut [i64],
) -> u64
    ensures { priors_left result priors.new scaled.new
        ≡ priors_left_by (priors_of probabilities.now priors.old scaled.old) }
{
    priors::priors_of(probabilities, priors, scaled)
}

// ---- min-sum beliefs

// `min_sum::beliefs`.
#[unsafe(no_mangle)]
pub extern "C" fn chowderkite_beliefs(
    checks: usize,
    mechanisms: usize,
    edges: usize,
    priors: &[f64],
    check_var: &[u32],
    check_offset: &[u32],
    var_check: &[u32],
    var_message: &[u32],
    var_offset: &[u32],
    syndrome: &[u8],
    iterations: usize,
    scale: f64,
    serial: u8,
    posterior: &mut [f64],
    ewa_posterior: &mut [f64],
    c_to_v: &mut [f64],
    v_to_c: &mut [f64],
) -> u64
    ensures { let g = graph checks mechanisms check_var.now check_offset.now
        var_check.now var_message.now var_offset.now in
        let before = beliefs_lists posterior.old ewa_posterior.old c_to_v.old v_to_c.old in
        let after = beliefs_lists posterior.new ewa_posterior.new c_to_v.new v_to_c.new in
        beliefs_left result after
        ≡ beliefs_left_by (beliefs_of edges priors.now g syndrome.now iterations scale (not (eqb serial 0)) before) }
{
    beliefs::beliefs(
        checks,
        mechanisms,
        edges,
        priors,
        check_var,
        check_offset,
        var_check,
        var_message,
        var_offset,
        syndrome,
        iterations,
        scale,
        serial,
        posterior,
        ewa_posterior,
        c_to_v,
        v_to_c,
    )
}

// ---- Relay

// `relay_settings::Settings::published`.
#[unsafe(no_mangle)]
pub extern "C" fn chowderkite_published(floats: &mut [f64; 5], counts: &mut [u64; 6]) -> u8
    ensures schedule { result ≡ byte_of published.schedule }
    ensures floats { floats.new ≡ floats_in published }
    ensures counts { counts.new ≡ counts_in published }
{
    point::published(floats, counts)
}

// `relay_settings::check_settings`.
#[unsafe(no_mangle)]
pub extern "C" fn chowderkite_check_settings(
    schedule: u8,
    alpha: f64,
    clip_on: u8,
    clip: f64,
    gamma0: f64,
    pre_iterations: usize,
    num_legs: usize,
    leg_iterations: usize,
    gamma_low: f64,
    gamma_high: f64,
    stop_after_converged: usize,
    source: u8,
    sets: usize,
    mechanisms: usize,
    gammas: &[f64],
) -> u64
    ensures { let settings = settings_given schedule alpha clip_on clip gamma0 pre_iterations num_legs leg_iterations
        gamma_low gamma_high stop_after_converged source sets in
        result ≡ code_of (check_settings settings mechanisms gammas.now) }
{
    decodes::check_settings(
        schedule,
        alpha,
        clip_on,
        clip,
        gamma0,
        pre_iterations,
        num_legs,
        leg_iterations,
        gamma_low,
        gamma_high,
        stop_after_converged,
        source,
        sets,
        mechanisms,
        gammas,
    )
}

// `relay::decode`.
#[unsafe(no_mangle)]
pub extern "C" fn chowderkite_decode(
    checks: usize,
    mechanisms: usize,
    edges: usize,
    priors: &[f64],
    check_var: &[u32],
    check_offset: &[u32],
    var_check: &[u32],
    var_message: &[u32],
    var_offset: &[u32],
    schedule: u8,
    alpha: f64,
    clip_on: u8,
    clip: f64,
    gamma0: f64,
    pre_iterations: usize,
    num_legs: usize,
    leg_iterations: usize,
    gamma_low: f64,
    gamma_high: f64,
    stop_after_converged: usize,
    source: u8,
    sets: usize,
    gammas: &[f64],
    syndrome: &[u8],
    seed: u64,
    leg_state: &mut [u8],
    leg_steps: &mut [u32],
    leg_weight: &mut [f64],
    rows: &mut [u8],
    correction: &mut [u8],
    posterior: &mut [f64],
    gamma: &mut [f64],
    bias: &mut [f64],
    c_to_v: &mut [f64],
    v_to_c: &mut [f64],
    counts: &mut [u64; 4],
    weight: &mut [f64; 1],
) -> u64
    ensures { let g = graph checks mechanisms check_var.now check_offset.now
        var_check.now var_message.now var_offset.now in
        let settings = settings_given schedule alpha clip_on clip gamma0 pre_iterations num_legs leg_iterations
        gamma_low gamma_high stop_after_converged source sets in
        let before = decode_lists leg_state.old leg_steps.old leg_weight.old rows.old
        correction.old posterior.old gamma.old bias.old
        c_to_v.old v_to_c.old in
        let after = decode_lists leg_state.new leg_steps.new leg_weight.new rows.new
        correction.new posterior.new gamma.new bias.new
        c_to_v.new v_to_c.new in
        decode_left result counts.new weight.new after
        ≡ decode_left_by (decode_of edges (record {
          graph = g;
          prior = priors.now;
          settings = settings;
          gammas = gammas.now;
          order = [];
          syndrome = syndrome.now;
          seed = seed;
        }) before)
        counts.old weight.old }
{
    decodes::decode(
        checks,
        mechanisms,
        edges,
        priors,
        check_var,
        check_offset,
        var_check,
        var_message,
        var_offset,
        schedule,
        alpha,
        clip_on,
        clip,
        gamma0,
        pre_iterations,
        num_legs,
        leg_iterations,
        gamma_low,
        gamma_high,
        stop_after_converged,
        source,
        sets,
        gammas,
        syndrome,
        seed,
        leg_state,
        leg_steps,
        leg_weight,
        rows,
        correction,
        posterior,
        gamma,
        bias,
        c_to_v,
        v_to_c,
        counts,
        weight,
    )
}

// `relay::decode_in_order`.
#[unsafe(no_mangle)]
pub extern "C" fn chowderkite_decode_in_order(
    checks: usize,
    mechanisms: usize,
    edges: usize,
    priors: &[f64],
    check_var: &[u32],
    check_offset: &[u32],
    var_check: &[u32],
    var_message: &[u32],
    var_offset: &[u32],
    schedule: u8,
    alpha: f64,
    clip_on: u8,
    clip: f64,
    gamma0: f64,
    pre_iterations: usize,
    num_legs: usize,
    leg_iterations: usize,
    gamma_low: f64,
    gamma_high: f64,
    stop_after_converged: usize,
    source: u8,
    sets: usize,
    gammas: &[f64],
    syndrome: &[u8],
    seed: u64,
    order: &[u32],
    leg_state: &mut [u8],
    leg_steps: &mut [u32],
    leg_weight: &mut [f64],
    rows: &mut [u8],
    correction: &mut [u8],
    posterior: &mut [f64],
    gamma: &mut [f64],
    bias: &mut [f64],
    c_to_v: &mut [f64],
    v_to_c: &mut [f64],
    counts: &mut [u64; 4],
    weight: &mut [f64; 1],
) -> u64
    ensures { let g = graph checks mechanisms check_var.now check_offset.now
        var_check.now var_message.now var_offset.now in
        let settings = settings_given schedule alpha clip_on clip gamma0 pre_iterations num_legs leg_iterations
        gamma_low gamma_high stop_after_converged source sets in
        let before = decode_lists leg_state.old leg_steps.old leg_weight.old rows.old
        correction.old posterior.old gamma.old bias.old
        c_to_v.old v_to_c.old in
        let after = decode_lists leg_state.new leg_steps.new leg_weight.new rows.new
        correction.new posterior.new gamma.new bias.new
        c_to_v.new v_to_c.new in
        decode_left result counts.new weight.new after
        ≡ decode_left_by (decode_in_order edges (record {
          graph = g;
          prior = priors.now;
          settings = settings;
          gammas = gammas.now;
          order = order.now;
          syndrome = syndrome.now;
          seed = seed;
        }) before)
        counts.old weight.old }
{
    decodes::decode_in_order(
        checks,
        mechanisms,
        edges,
        priors,
        check_var,
        check_offset,
        var_check,
        var_message,
        var_offset,
        schedule,
        alpha,
        clip_on,
        clip,
        gamma0,
        pre_iterations,
        num_legs,
        leg_iterations,
        gamma_low,
        gamma_high,
        stop_after_converged,
        source,
        sets,
        gammas,
        syndrome,
        seed,
        order,
        leg_state,
        leg_steps,
        leg_weight,
        rows,
        correction,
        posterior,
        gamma,
        bias,
        c_to_v,
        v_to_c,
        counts,
        weight,
    )
}

// `relay::leg_record`.
#[unsafe(no_mangle)]
pub extern "C" fn chowderkite_leg_record(
    leg_state: &[u8],
    leg_steps: &[u32],
    leg_weight: &[f64],
    leg: usize,
    iterations: &mut [u64; 1],
    weight: &mut [f64; 1],
) -> u64
    ensures state { let found = leg_record leg_state.now leg_steps.now leg_weight.now leg in
        result ≡ (values_of found).leg_state }
    ensures iterations { let found = leg_record leg_state.now leg_steps.now leg_weight.now leg in
        iterations.new ≡ (values_of found).leg_iterations ∷ [] }
    ensures weight { let found = leg_record leg_state.now leg_steps.now leg_weight.now leg in
        weight.new ≡ (values_of found).leg_weight ∷ [] }
{
    legs::leg_record(leg_state, leg_steps, leg_weight, leg, iterations, weight)
}

// `relay::iteration`.
#[unsafe(no_mangle)]
pub extern "C" fn chowderkite_iteration(
    checks: usize,
    mechanisms: usize,
    edges: usize,
    priors: &[f64],
    check_var: &[u32],
    check_offset: &[u32],
    var_check: &[u32],
    var_message: &[u32],
    var_offset: &[u32],
    schedule: u8,
    alpha: f64,
    clip_on: u8,
    clip: f64,
    gamma: &[f64],
    syndrome: &[u8],
    order: &[u32],
    c_to_v: &mut [f64],
    v_to_c: &mut [f64],
    posterior: &mut [f64],
    bias: &mut [f64],
) -> u64
    ensures { let g = graph checks mechanisms check_var.now check_offset.now
        var_check.now var_message.now var_offset.now in
        let before = step_lists (state c_to_v.old v_to_c.old posterior.old) bias.old in
        let after = step_lists (state c_to_v.new v_to_c.new posterior.new) bias.new in
        step_left result after
        ≡ step_left_by (iteration_call edges priors.now g (schedule_given schedule) alpha (clip_given clip_on clip)
        gamma.now syndrome.now order.now before) }
{
    steps::iteration(
        checks,
        mechanisms,
        edges,
        priors,
        check_var,
        check_offset,
        var_check,
        var_message,
        var_offset,
        schedule,
        alpha,
        clip_on,
        clip,
        gamma,
        syndrome,
        order,
        c_to_v,
        v_to_c,
        posterior,
        bias,
    )
}

// ---- refusals

// `refusals::number_of`, of a refusal that passes as its code.
#[unsafe(no_mangle)]
pub extern "C" fn chowderkite_number_of(code: u64) -> u64
    ensures { result ≡ number_in code }
{
    answers::number_in(code)
}

// `refusals::place_of`, of a refusal that has a place.
#[unsafe(no_mangle)]
pub extern "C" fn chowderkite_place_of(code: u64) -> u64
    ensures { result ≡ place_in code }
{
    answers::place_in(code)
}

// ---- a session of `shots`

// `stream_session::Session::new`.
#[unsafe(no_mangle)]
pub extern "C" fn chowderkite_session_new(words: &mut [usize; 22], floats: &mut [f64; 5])
    ensures words { words.new ≡ session_words start_session }
    ensures floats { floats.new ≡ session_floats start_session }
{
    sessions::session_new(words, floats);
}

// `stream_session::take`.
#[unsafe(no_mangle)]
pub extern "C" fn chowderkite_take(
    words: &mut [usize; 22],
    floats: &mut [f64; 5],
    byte: u8,
    payload: &mut [u8],
    model: &mut [u8],
    line: &mut [u8; 512],
)
    ensures words { let s = session_of words.old floats.old in
        let l = byte_taken s byte payload.old model.old line.old in
        words.new ≡ session_words l.taken.now.session }
    ensures floats { let s = session_of words.old floats.old in
        let l = byte_taken s byte payload.old model.old line.old in
        floats.new ≡ session_floats l.taken.now.session }
    ensures payload { let s = session_of words.old floats.old in
        let l = byte_taken s byte payload.old model.old line.old in
        payload.new ≡ l.kept }
    ensures model { let s = session_of words.old floats.old in
        let l = byte_taken s byte payload.old model.old line.old in
        model.new ≡ l.taken.model }
    ensures line { let s = session_of words.old floats.old in
        let l = byte_taken s byte payload.old model.old line.old in
        line.new ≡ l.taken.now.line }
{
    sessions::take(words, floats, byte, payload, model, line);
}

// `stream_session::finish`.
#[unsafe(no_mangle)]
pub extern "C" fn chowderkite_finish(
    words: &[usize; 22],
    floats: &[f64; 5],
    line: &mut [u8; 512],
) -> usize
    ensures said { result ≡ length (end_text (session_of words.now floats.now)) }
    ensures line { let s = session_of words.now floats.now in
        line.new ≡ over (end_text s) line.old }
{
    sessions::finish(words, floats, line)
}

// ---- the version

// The version of these calls.
#[unsafe(no_mangle)]
pub extern "C" fn chowderkite_version() -> u64
    ensures { result ≡ version }
{
    answers::version()
}

// ---- the end of the calls
