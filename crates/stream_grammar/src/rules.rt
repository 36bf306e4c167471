// The tests 41 to 45, each by itself.
ghost use Rattle.std.specs.Prelude.{◌≡◌};
ghost use Rattle.stream_grammar.specs.Stream.{is_settings, kind_good, counts_fit, length_good, time_good, counts_within};
ghost use Rattle.stream_grammar.specs.Stream.{room_good, schedule_good};

use numbers::limits::{ROOM_CHECKS, ROOM_EDGES, ROOM_LEGS, ROOM_MECHANISMS, ROOM_SHOT};

// Settings, of either kind.
// Stays: a kind is whatever two bytes of a record say, and the definitions of 41 to 45 test it as that number.
#[tactic(auto, unfolding(crate::specs::Stream::is_settings))]
pub fn is_settings(kind: usize) -> bool
    ensures { result ≡ is_settings kind }
{
    kind == 2 || kind == 4
}

// 41: the kind is known.
#[tactic(auto, unfolding(crate::specs::Stream::kind_good))]
pub fn kind_good(kind: usize) -> bool
    ensures { result ≡ kind_good kind }
{
    1 <= kind && kind <= 4
}

// A model's payload is as long as its counts say. No sum is made that could wrap.
fn counts_fit(size: usize, mechanisms: usize, edges: usize) -> bool
    ensures { result ≡ counts_fit size mechanisms edges }
{
    if size < 12 {
        return false;
    }
    let rest = size - 12;
    if rest / 12 < mechanisms {
        return false;
    }
    let last = rest - 12 * mechanisms;
    if last / 4 < edges {
        return false;
    }
    last == 4 * edges
}

// 42: the payload length is right for the kind.
#[tactic(auto, unfolding(crate::specs::Stream::length_good))]
pub fn length_good(kind: usize, size: usize, mechanisms: usize, edges: usize, sum: usize) -> bool
    ensures { result ≡ length_good kind size mechanisms edges sum }
{
    if kind == 1 {
        return 12 <= size && counts_fit(size, mechanisms, edges) && sum == edges;
    }
    if is_settings(kind) {
        return size == 49;
    }
    8 <= size
}

// 43: no shot before model or settings.
#[tactic(auto, unfolding(crate::specs::Stream::time_good))]
pub fn time_good(kind: usize, has_model: bool, has_settings: bool) -> bool
    ensures { result ≡ time_good kind has_model has_settings }
{
    kind != 3 || has_model && has_settings
}

// A model within the room.
#[tactic(auto, unfolding(crate::specs::Stream::counts_within))]
pub fn counts_within(checks: usize, mechanisms: usize, edges: usize) -> bool
    ensures { result ≡ counts_within checks mechanisms edges }
{
    checks <= ROOM_CHECKS && mechanisms <= ROOM_MECHANISMS && edges <= ROOM_EDGES
}

// 44: within the room.
#[tactic(auto, unfolding(crate::specs::Stream::room_good))]
pub fn room_good(
    kind: usize,
    size: usize,
    checks: usize,
    mechanisms: usize,
    edges: usize,
    legs: usize,
) -> bool
    ensures { result ≡ room_good kind size checks mechanisms edges legs }
{
    if kind == 1 {
        return counts_within(checks, mechanisms, edges);
    }
    if is_settings(kind) {
        return legs <= ROOM_LEGS;
    }
    size <= ROOM_SHOT
}

// 45: the schedule byte of settings.
#[tactic(auto, unfolding(crate::specs::Stream::schedule_good))]
pub fn schedule_good(kind: usize, schedule: usize) -> bool
    ensures { result ≡ schedule_good kind schedule }
{
    !is_settings(kind) || schedule <= 1
}
