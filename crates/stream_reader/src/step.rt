// One byte more of a record.
ghost use Rattle.std.specs.Prelude.{◌≡◌, ◌*◌, ◌^◌, ◌<◌, ◌≤◌};
ghost use Rattle.stream_reader.specs.Reading.{grown as grown_to, summed as summed_to, added as added_to, opened as opened_of, byte_kept};

use crate::{Reader, is_whole};

// A byte worth 256^k.
fn placed(byte: u8, k: usize) -> usize
    requires { k < 4 }
    ensures { result ≡ byte * 256 ^ k }
{
    let b = byte as usize;
    if k == 0 {
        return b;
    }
    if k == 1 {
        return b * 256;
    }
    if k == 2 {
        return b * 65536;
    }
    b * 16777216
}

// A number of `size` bytes from place `from` on, after the byte at place `at`.
fn grown(value: usize, from: usize, size: usize, at: usize, byte: u8) -> usize
    requires { size ≤ 4 }
    ensures { result ≡ grown_to value from size at byte }
{
    if at < from {
        return value;
    }
    if size <= at - from {
        return value;
    }
    std::num::wrapping_add_usize(value, placed(byte, at - from))
}

// The sum of degrees after a byte: mechanism by mechanism, the last 4 of 12 bytes.
fn summed(sum: usize, mechanisms: usize, at: usize, byte: u8) -> usize
    ensures { result ≡ summed_to sum mechanisms at byte }
{
    if at < 18 {
        return sum;
    }
    if mechanisms <= (at - 18) / 12 {
        return sum;
    }
    grown(sum, 8, 4, (at - 18) % 12, byte)
}

// One byte more of the same record.
pub(crate) fn added(r: Reader, byte: u8) -> Reader
    ensures { result ≡ added_to r byte }
{
    let at = r.taken;
    Reader {
        offset: r.offset,
        taken: std::num::wrapping_add_usize(at, 1),
        length: grown(r.length, 0, 4, at, byte),
        kind: grown(r.kind, 4, 2, at, byte),
        checks: grown(r.checks, 6, 4, at, byte),
        mechanisms: grown(r.mechanisms, 10, 4, at, byte),
        edges: grown(r.edges, 14, 4, at, byte),
        degrees: summed(r.degrees, r.mechanisms, at, byte),
    }
}

// A reader that takes the next byte: past a whole record the next one begins.
pub(crate) fn opened(r: Reader) -> Reader
    ensures { result ≡ opened_of r }
{
    if is_whole(r) {
        return Reader::new(std::num::wrapping_add_usize(r.offset, r.taken));
    }
    r
}

// Keeps a byte of the payload, where there is room for it.
pub(crate) fn keep(at: usize, byte: u8, payload: &mut [u8])
    ensures { payload.new ≡ byte_kept at byte payload.old }
{
    if at < 6 {
        return;
    }
    let place = at - 6;
    if place < payload.len() {
        payload[place] = byte;
    }
}
