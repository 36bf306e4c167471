// Inner: the table behind 45, for `stream_session` alone: a model by 1 to 6, settings by 10 to 16, a shot by 20, 21, 27 and 30, each out of
// the payload of its record. Each call works in arrays of its own, filled with one value. Room: 128 checks, 256 mechanisms, 512 edges, 16
// relayed legs.
#![tactic(auto)]

ghost use Rattle.std.specs.Prelude.{◌≡◌, ◌≤◌, length, take, drop};
ghost use Rattle.numbers.specs.Limits.{room_checks, room_mechanisms, room_edges};
ghost use Rattle.graph_lists.specs.Graph.{graph};
ghost use Rattle.stream_grammar.specs.Fields.{model_lists};
ghost use Rattle.stream_table.specs.Table.{built_from, model_fault, settings_answer, decoded_from, decoding, found, shot_decoded};
ghost use Rattle.stream_table.specs.Table.{model_room, graph_room, shot_room, within as within_of};
ghost use Rattle.relay_calls.specs.Calls.{decode_lists};

use graph::Size;
use numbers::limits::{
    ROOM_ALL_LEGS, ROOM_CHECK_OFFSETS, ROOM_EDGES, ROOM_MECHANISM_OFFSETS, ROOM_MECHANISMS,
    ROOM_ROWS,
};
use refusals::Refusal;
use relay_calls::Decoded;
use relay_settings::Settings;
use stream_reader::Counts;

// n, or the length of a list that is shorter.
pub fn front(list: &[u8], n: usize) -> usize
    ensures { (result ≤ length list.now)
        × (take result list.now ≡ take n list.now)
        × (drop result list.now ≡ drop n list.now) }
{
    n.min(list.len())
}

// Whether a model is within the room.
fn within(c: Counts) -> bool
    ensures { result ≡ within_of c }
{
    stream_grammar::rules::counts_within(c.checks, c.mechanisms, c.edges)
}

// A model read and built, in lists of its sizes.
fn built(
    size: Size,
    payload: &[u8],
    priors: &mut [f64],
    detector_offsets: &mut [u32],
    detectors: &mut [u32],
    check_var: &mut [u32],
    check_offset: &mut [u32],
    var_check: &mut [u32],
    var_message: &mut [u32],
    var_offset: &mut [u32],
) -> Result<(), Refusal>
    ensures { let g = graph size.checks size.mechanisms check_var.old
        check_offset.old var_check.old var_message.old var_offset.old in
        result
        ≡ (built_from size.edges payload.now
        (model_lists priors.old detector_offsets.old detectors.old) g).answer }
{
    stream_reader::read_model(payload, priors, detector_offsets, detectors);
    graph::build_sparse(
        size,
        priors,
        detector_offsets,
        detectors,
        check_var,
        check_offset,
        var_check,
        var_message,
        var_offset,
    )
}

// A model within the room, read and built in arrays of its own.
fn built_within(c: Counts, payload: &[u8]) -> Result<(), Refusal>
    requires { (c.checks ≤ room_checks) × (c.mechanisms ≤ room_mechanisms) × (c.edges ≤ room_edges) }
    ensures { result ≡ (built_from c.edges payload.now (model_room c) (graph_room c)).answer }
{
    let Counts {
        checks,
        mechanisms,
        edges,
    } = c;
    let size = Size {
        checks,
        mechanisms,
        edges,
    };
    let mut priors = [0.0; ROOM_MECHANISMS];
    let mut detector_offsets = [0u32; ROOM_MECHANISM_OFFSETS];
    let mut detectors = [0u32; ROOM_EDGES];
    let mut check_var = [0u32; ROOM_EDGES];
    let mut check_offset = [0u32; ROOM_CHECK_OFFSETS];
    let mut var_check = [0u32; ROOM_EDGES];
    let mut var_message = [0u32; ROOM_EDGES];
    let mut var_offset = [0u32; ROOM_MECHANISM_OFFSETS];
    built(
        size,
        payload,
        &mut priors[..mechanisms],
        &mut detector_offsets[..mechanisms + 1],
        &mut detectors[..edges],
        &mut check_var[..edges],
        &mut check_offset[..checks + 1],
        &mut var_check[..edges],
        &mut var_message[..edges],
        &mut var_offset[..mechanisms + 1],
    )
}

// A model: 1 to 6.
pub fn model_fault(payload: &[u8]) -> Result<(), Refusal>
    ensures { result ≡ model_fault payload.now }
{
    let c = stream_reader::read_counts(payload);
    if !within(c) {
        return Err(Refusal::BeyondRoom);
    }
    built_within(c, payload)
}

// Settings: 10 to 16.
pub fn settings_answer(kind: usize, payload: &[u8]) -> Result<(), Refusal>
    ensures { result ≡ settings_answer kind payload.now }
{
    let none = [0.0; 1];
    relay_settings::check_settings(stream_reader::read_settings(kind, payload), 0, &none[..0])
}

// A model read and built and a shot decoded over it, in lists of the model's sizes.
fn decoded(
    size: Size,
    settings: Settings,
    model: &[u8],
    syndrome: &[u8],
    seed: u64,
    priors: &mut [f64],
    detector_offsets: &mut [u32],
    detectors: &mut [u32],
    check_var: &mut [u32],
    check_offset: &mut [u32],
    var_check: &mut [u32],
    var_message: &mut [u32],
    var_offset: &mut [u32],
    leg_state: &mut [u8],
    leg_iterations: &mut [u32],
    leg_weight: &mut [f64],
    rows: &mut [u8],
    correction: &mut [u8],
    posterior: &mut [f64],
    gamma: &mut [f64],
    bias: &mut [f64],
    c_to_v: &mut [f64],
    v_to_c: &mut [f64],
) -> Result<Decoded, Refusal>
    ensures { let g = graph size.checks size.mechanisms check_var.old
        check_offset.old var_check.old var_message.old var_offset.old in
        let before = decode_lists leg_state.old leg_iterations.old leg_weight.old rows.old
        correction.old posterior.old gamma.old bias.old c_to_v.old
        v_to_c.old in
        decoding result correction.new
        ≡ found (decoded_from size.edges model.now settings syndrome.now seed
        (model_lists priors.old detector_offsets.old detectors.old) g before) }
{
    stream_reader::read_model(model, priors, detector_offsets, detectors);
    let _ = graph::build_sparse(
        size,
        priors,
        detector_offsets,
        detectors,
        check_var,
        check_offset,
        var_check,
        var_message,
        var_offset,
    );
    let none = [0.0; 1];
    relay::decode(
        size,
        priors,
        check_var,
        check_offset,
        var_check,
        var_message,
        var_offset,
        settings,
        &none[..0],
        syndrome,
        seed,
        leg_state,
        leg_iterations,
        leg_weight,
        rows,
        correction,
        posterior,
        gamma,
        bias,
        c_to_v,
        v_to_c,
    )
}

// A shot's decode over a model within the room.
fn decoded_within(
    c: Counts,
    settings: Settings,
    model: &[u8],
    syndrome: &[u8],
    seed: u64,
    correction: &mut [u8],
) -> Result<Decoded, Refusal>
    requires { (c.checks ≤ room_checks) × (c.mechanisms ≤ room_mechanisms) × (c.edges ≤ room_edges) }
    ensures { decoding result correction.new
        ≡ found (decoded_from c.edges model.now settings syndrome.now seed (model_room c) (graph_room c)
        (shot_room c correction.old)) }
{
    let Counts {
        checks,
        mechanisms,
        edges,
    } = c;
    let size = Size {
        checks,
        mechanisms,
        edges,
    };
    let mut priors = [0.0; ROOM_MECHANISMS];
    let mut detector_offsets = [0u32; ROOM_MECHANISM_OFFSETS];
    let mut detectors = [0u32; ROOM_EDGES];
    let mut check_var = [0u32; ROOM_EDGES];
    let mut check_offset = [0u32; ROOM_CHECK_OFFSETS];
    let mut var_check = [0u32; ROOM_EDGES];
    let mut var_message = [0u32; ROOM_EDGES];
    let mut var_offset = [0u32; ROOM_MECHANISM_OFFSETS];
    let mut leg_state = [0u8; ROOM_ALL_LEGS];
    let mut leg_iterations = [0u32; ROOM_ALL_LEGS];
    let mut leg_weight = [0.0; ROOM_ALL_LEGS];
    let mut rows = [0u8; ROOM_ROWS];
    let mut posterior = [0.0; ROOM_MECHANISMS];
    let mut gamma = [0.0; ROOM_MECHANISMS];
    let mut bias = [0.0; ROOM_MECHANISMS];
    let mut c_to_v = [0.0; ROOM_EDGES];
    let mut v_to_c = [0.0; ROOM_EDGES];
    decoded(
        size,
        settings,
        model,
        syndrome,
        seed,
        &mut priors[..mechanisms],
        &mut detector_offsets[..mechanisms + 1],
        &mut detectors[..edges],
        &mut check_var[..edges],
        &mut check_offset[..checks + 1],
        &mut var_check[..edges],
        &mut var_message[..edges],
        &mut var_offset[..mechanisms + 1],
        &mut leg_state,
        &mut leg_iterations,
        &mut leg_weight,
        &mut rows,
        correction,
        &mut posterior[..mechanisms],
        &mut gamma[..mechanisms],
        &mut bias[..mechanisms],
        &mut c_to_v[..edges],
        &mut v_to_c[..edges],
    )
}

// A shot over a model's payload. The correction has the model's mechanisms.
pub fn decode_shot(
    model: &[u8],
    settings: Settings,
    payload: &[u8],
    correction: &mut [u8],
) -> Result<Decoded, Refusal>
    ensures { decoding result correction.new ≡ shot_decoded model.now settings payload.now correction.old }
{
    let c = stream_reader::read_counts(model);
    if within(c) {
        let from = front(payload, 8);
        let seed = stream_reader::read_seed(payload);
        return decoded_within(c, settings, model, &payload[from..], seed, correction);
    }
    Err(Refusal::BeyondRoom)
}
