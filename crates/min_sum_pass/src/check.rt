// One check, over its own messages: a first pass finds the total sign and the two least magnitudes (`graph_messages`), and a second sends.
ghost use Rattle.std.specs.Prelude.{◌≡◌, cond, ◌≤◌, ltb, length};
ghost use Rattle.numbers.specs.Floats.{◌*ᶠ◌};
ghost use Rattle.numbers.specs.Loops.{part, spliced};
ghost use Rattle.graph_lists.specs.Messages.{scan_of};
ghost use Rattle.graph_messages.specs.Needs.{PerEdge};
ghost use Rattle.min_sum_pass.specs.MinSum.{sign_without, sent_to, check_messages};

use graph_messages::scan_check;

// `total_sign.copysign(total_sign * message)`, where the total sign is 1 or -1.
fn sign_without(total_sign: f64, message: f64) -> f64
    ensures { result ≡ sign_without total_sign message }
{
    if numbers::is_negative(total_sign * message) {
        return -1.0;
    }
    1.0
}

// A message sent: (sign times minimum) times scale.
fn sent_at(scale: f64, total_sign: f64, minimum: f64, message: f64) -> f64
    ensures { result ≡ sign_without total_sign message *ᶠ minimum *ᶠ scale }
{
    sign_without(total_sign, message) * minimum * scale
}

// One minimum sent at all positions.
fn send(scale: f64, total_sign: f64, minimum: f64, v_to_c: &[f64], c_to_v: &mut [f64])
    requires { length c_to_v.old ≡ length v_to_c.now }
    ensures { c_to_v.new
        ≡ sent_to scale (scan_of total_sign minimum minimum 0) v_to_c.now (length v_to_c.now) }
{
    for (i, message) in v_to_c.iter().enumerate() {
        c_to_v[i] = sent_at(scale, total_sign, minimum, *message);
    }
}

// All that a check of two entries or more sends, from all that came in: the least at all positions, and the next at the position of the
// least.
fn send_check(scale: f64, odd: bool, v_to_c: &[f64], c_to_v: &mut [f64])
    requires { length c_to_v.old ≡ length v_to_c.now }
    ensures { c_to_v.new ≡ check_messages scale odd v_to_c.now }
{
    let s = scan_check(odd, v_to_c);
    send(scale, s.total_sign, s.min1, v_to_c, c_to_v);
    let least = s.least;
    if least < v_to_c.len() {
        c_to_v[least] = sent_at(scale, s.total_sign, s.min2, v_to_c[least]);
    }
}

// The update of one check, over its entries and its messages: a check with fewer than two entries is skipped. Whether it was.
fn update_check(
    scale: f64,
    odd: bool,
    variables: &[u32],
    v_to_c: &[f64],
    c_to_v: &mut [f64],
) -> bool
    requires { PerEdge (length variables.now) c_to_v.old v_to_c.now }
    ensures skipped { result ≡ ltb (length variables.now) 2 }
    ensures messages { c_to_v.new ≡ cond result c_to_v.old (check_messages scale odd v_to_c.now) }
{
    if variables.len() < 2 {
        return true;
    }
    send_check(scale, odd, v_to_c, c_to_v);
    false
}

// That, for the check whose entries and messages lie from `start` to `end`.
pub(crate) fn update_part(
    scale: f64,
    odd: bool,
    start: usize,
    end: usize,
    check_var: &[u32],
    v_to_c: &[f64],
    c_to_v: &mut [f64],
) -> bool
    requires start_le_end { (start ≤ end) × (end ≤ length check_var.now) }
    requires per_edge { PerEdge (length check_var.now) c_to_v.old v_to_c.now }
    ensures skipped { result ≡ ltb (length (part start end check_var.now)) 2 }
    ensures messages { c_to_v.new
        ≡ cond result c_to_v.old
        (spliced c_to_v.old start end (check_messages scale odd (part start end v_to_c.now))) }
{
    update_check(
        scale,
        odd,
        &check_var[start..end],
        &v_to_c[start..end],
        &mut c_to_v[start..end],
    )
}
