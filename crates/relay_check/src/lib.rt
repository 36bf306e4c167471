// Inner: `update_check` of Relay, over the variables and the messages of one check; `relay_step` alone calls it. A first pass finds the
// total sign and the two least magnitudes (`graph_messages`; it knows the least by its place, and a check has a variable at one place
// alone), and a second sends. What a check sends has three values at most, the least minimum's for either sign and the next one's. With
// a clip each is clipped once; without one the update has a function of its own, in which no message waits for a clip.
#![tactic(auto)]

ghost use Rattle.std.specs.Prelude.{◌≡◌, cond, ◌≤◌, length, Float};
ghost use Rattle.std.specs.Float.Ieee.{lt, neg};
ghost use Rattle.numbers.specs.Floats.{◌*ᶠ◌, zero⁺};
ghost use Rattle.numbers.specs.Loops.{part, spliced};
ghost use Rattle.graph_messages.specs.Needs.{PerEdge, Rises};
ghost use Rattle.relay_settings.specs.declared.Clip.{Clip};
ghost use Rattle.relay_settings.specs.declared.Clip.TheVariants.{Off, On};
ghost use Rattle.relay_check.specs.Check.{clamped as clamped_of, clipped, check_messages};
ghost use Rattle.relay_check.specs.Places.{saturated_magnitude, by_signs};

use graph_messages::scan_check;

// A minimum that is not finite becomes 30. It is a magnitude, so that one comparison tells.
fn saturated(minimum: f64) -> f64
    ensures { result ≡ saturated_magnitude minimum }
{
    if minimum < numbers::infinity() {
        return minimum;
    }
    30.0
}

// One of two by the message's sign, by a comparison of floats and so without a branch.
fn by_sign(message: f64, minus: f64, plus: f64) -> f64
    ensures { result ≡ cond (lt message zero⁺) minus plus }
{
    if message < 0.0 {
        return minus;
    }
    plus
}

// A message that is not below the limit's negative.
fn raised(limit: f64, message: f64) -> f64
    ensures { result ≡ cond (lt message (neg limit)) (neg limit) message }
{
    if message < -limit {
        return -limit;
    }
    message
}

// `message.clamp(-limit, limit)`, by two instructions and no branch.
fn clamped(limit: f64, message: f64) -> f64
    ensures { result ≡ clamped_of limit message }
{
    let x = raised(limit, message);
    if limit < x {
        return limit;
    }
    x
}

// (alpha times the total sign) times minimum: what is sent for a sign of 1, and for -1 its negative.
fn weighed(alpha: f64, total_sign: f64, minimum: f64) -> f64
    ensures { result ≡ alpha *ᶠ total_sign *ᶠ saturated_magnitude minimum }
{
    alpha * total_sign * saturated(minimum)
}

// What a check sends if all messages are as that of the least: one of two by sign, at each place.
fn send(minus: f64, plus: f64, v_to_c: &[f64], c_to_v: &mut [f64])
    requires { length c_to_v.old ≡ length v_to_c.now }
    ensures { c_to_v.new ≡ by_signs minus plus v_to_c.now (length v_to_c.now) }
{
    for (i, message) in v_to_c.iter().enumerate() {
        c_to_v[i] = by_sign(*message, minus, plus);
    }
}

// All that a check sends, from all that came in, each as `clip` makes it: the least at all places, and the next at the place of the least.
fn update_with<C: Fn(f64) -> f64>(
    alpha: f64,
    clip: C,
    odd: bool,
    variables: &[u32],
    v_to_c: &[f64],
    c_to_v: &mut [f64],
)
    requires callable { C.IsAlwaysCallable clip }
    requires per_edge { PerEdge (length variables.now) c_to_v.old v_to_c.now }
    requires rises { Rises variables.now }
    ensures { (way : Clip)
        → ((x r : Float) → C.post clip x r → r ≡ clipped way x)
        → c_to_v.new ≡ check_messages alpha way odd variables.now v_to_c.now }
{
    let s = scan_check(odd, v_to_c);
    let least_sent = weighed(alpha, s.total_sign, s.min1);
    let minus = clip(-least_sent);
    let plus = clip(least_sent);
    send(minus, plus, v_to_c, c_to_v);
    let least = s.least;
    if least < v_to_c.len() {
        let next_sent = weighed(alpha, s.total_sign, s.min2);
        let signed = by_sign(v_to_c[least], -next_sent, next_sent);
        c_to_v[least] = clip(signed);
    }
}

// Without a clip.
fn update_check(alpha: f64, odd: bool, variables: &[u32], v_to_c: &[f64], c_to_v: &mut [f64])
    requires per_edge { PerEdge (length variables.now) c_to_v.old v_to_c.now }
    requires rises { Rises variables.now }
    ensures { c_to_v.new ≡ check_messages alpha Off odd variables.now v_to_c.now }
{
    update_with(alpha, |message| message, odd, variables, v_to_c, c_to_v);
}

// With one.
fn clipped_check(
    alpha: f64,
    limit: f64,
    odd: bool,
    variables: &[u32],
    v_to_c: &[f64],
    c_to_v: &mut [f64],
)
    requires per_edge { PerEdge (length variables.now) c_to_v.old v_to_c.now }
    requires rises { Rises variables.now }
    ensures { c_to_v.new ≡ check_messages alpha (On limit) odd variables.now v_to_c.now }
{
    update_with(
        alpha,
        |message| clamped(limit, message),
        odd,
        variables,
        v_to_c,
        c_to_v,
    );
}

// `update_check` for the check whose entries lie from `start` to `end`.
pub fn update_part(
    alpha: f64,
    odd: bool,
    start: usize,
    end: usize,
    check_var: &[u32],
    v_to_c: &[f64],
    c_to_v: &mut [f64],
)
    requires start_le_end { (start ≤ end) × (end ≤ length check_var.now) }
    requires per_edge { PerEdge (length check_var.now) c_to_v.old v_to_c.now }
    requires rises { Rises (part start end check_var.now) }
    ensures { c_to_v.new
        ≡ spliced c_to_v.old start end
        (check_messages alpha Off odd (part start end check_var.now) (part start end v_to_c.now)) }
{
    update_check(
        alpha,
        odd,
        &check_var[start..end],
        &v_to_c[start..end],
        &mut c_to_v[start..end],
    );
}

// `clipped_check` for it. The callers choose between the two, since each is small enough to be inlined into them, and a function that chose
// would not be.
pub fn clipped_part(
    alpha: f64,
    limit: f64,
    odd: bool,
    start: usize,
    end: usize,
    check_var: &[u32],
    v_to_c: &[f64],
    c_to_v: &mut [f64],
)
    requires start_le_end { (start ≤ end) × (end ≤ length check_var.now) }
    requires per_edge { PerEdge (length check_var.now) c_to_v.old v_to_c.now }
    requires rises { Rises (part start end check_var.now) }
    ensures { c_to_v.new
        ≡ spliced c_to_v.old start end
        (check_messages alpha (On limit) odd (part start end check_var.now) (part start end v_to_c.now)) }
{
    clipped_check(
        alpha,
        limit,
        odd,
        &check_var[start..end],
        &v_to_c[start..end],
        &mut c_to_v[start..end],
    );
}
