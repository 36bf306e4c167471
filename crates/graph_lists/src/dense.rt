// The five lists of a dense model that has passed its tests: the check lists row by row, and the variable lists by the bucket pass.
ghost use Rattle.std.specs.Prelude.{◌≡◌, ◌++◌, suc, ◌+◌, ◌*◌, ◌<◌, ◌≤◌, length, take};
ghost use Rattle.graph_lists.specs.Lists.{offsets};
ghost use Rattle.graph_lists.specs.Graph.{graph, graph_of, entries, mechanisms_of, marked};
ghost use Rattle.graph_lists.specs.Model.{count_edges};
ghost use Rattle.graph_lists.specs.Steps.{of_byte, marks};

use crate::buckets::bucket;
use crate::indices::put;

// The mechanism m written at `place`, unless its byte is zero. The next place.
fn mark(byte: u8, m: usize, place: usize, out: &mut [u32]) -> usize
    requires { (place + length (of_byte byte m) ≤ length out.old) × (m < 4294967296) }
    ensures { (result ≡ place + length (of_byte byte m)) × (take result out.new ≡ take place out.old ++ of_byte byte m) }
{
    if byte == 0 {
        return place;
    }
    put(out, place, m);
    place + 1
}

// The mechanisms that a row marks, written from `start` on. The next place.
fn mark_row(bytes: &[u8], start: usize, out: &mut [u32]) -> usize
    requires { (start + length (marks bytes.now) ≤ length out.old) × (length bytes.now < 4294967296) }
    ensures { (result ≡ start + length (marks bytes.now))
        × (take result out.new ≡ take start out.old ++ marks bytes.now) }
{
    let mut place = start;
    for (m, byte) in bytes.iter().enumerate() {
        place = mark(*byte, m, place, out);
    }
    place
}

// The check lists of a matrix, row by row.
fn mark_rows(
    checks: usize,
    mechanisms: usize,
    matrix: &[u8],
    check_var: &mut [u32],
    check_offset: &mut [u32],
)
    requires matrix_len { length matrix.now ≡ checks * mechanisms }
    requires mechanisms_bound { (mechanisms < 4294967296) × (count_edges matrix.now < 4294967296) }
    requires check_var_len { (length check_var.old ≡ count_edges matrix.now) × (length check_offset.old ≡ suc checks) }
    ensures { (check_var.new ≡ entries checks mechanisms (marked mechanisms matrix.now))
        × (check_offset.new ≡ offsets checks (mechanisms_of mechanisms (marked mechanisms matrix.now))) }
{
    put(check_offset, 0, 0);
    let mut base = 0;
    let mut place = 0;
    for c in 0..checks {
        let end = base + mechanisms;
        place = mark_row(&matrix[base..end], place, check_var);
        put(check_offset, c + 1, place);
        base = end;
    }
}

// All five lists.
pub fn from_matrix(
    checks: usize,
    mechanisms: usize,
    matrix: &[u8],
    check_var: &mut [u32],
    check_offset: &mut [u32],
    var_check: &mut [u32],
    var_message: &mut [u32],
    var_offset: &mut [u32],
)
    requires matrix_len { length matrix.now ≡ checks * mechanisms }
    requires checks_bound { (checks < 4294967296) × (mechanisms < 4294967296) × (count_edges matrix.now < 4294967296) }
    requires check_var_len { (length check_var.old ≡ count_edges matrix.now)
        × (length check_offset.old ≡ suc checks) }
    requires var_check_len { (length var_check.old ≡ count_edges matrix.now)
        × (length var_message.old ≡ count_edges matrix.now)
        × (length var_offset.old ≡ suc mechanisms) }
    ensures { graph checks mechanisms check_var.new check_offset.new
        var_check.new var_message.new var_offset.new
        ≡ graph_of checks mechanisms (marked mechanisms matrix.now) }
{
    mark_rows(checks, mechanisms, matrix, check_var, check_offset);
    bucket(
        mechanisms,
        checks,
        check_offset,
        check_var,
        var_offset,
        var_check,
        var_message,
    );
}
