// The five lists of a sparse model that has passed its tests: the check lists by one bucket pass over the detectors, and the variable lists
// by another over the check lists.
ghost use Rattle.std.specs.Prelude.{◌≡◌, suc, ◌<◌, length};
ghost use Rattle.graph_lists.specs.Graph.{graph, graph_of, among};
ghost use Rattle.graph_lists.specs.Steps.{Valid};

use crate::buckets::bucket;

// All five, from the detectors. Nothing wants the places of the first pass.
pub fn from_detectors(
    checks: usize,
    mechanisms: usize,
    off: &[u32],
    dets: &[u32],
    check_var: &mut [u32],
    check_offset: &mut [u32],
    var_check: &mut [u32],
    var_message: &mut [u32],
    var_offset: &mut [u32],
)
    requires valid { Valid checks mechanisms off.now dets.now }
    requires checks_bound { (checks < 4294967296) × (mechanisms < 4294967296) × (length dets.now < 4294967296) }
    requires check_var_len { (length check_var.old ≡ length dets.now) × (length check_offset.old ≡ suc checks) }
    requires var_check_len { (length var_check.old ≡ length dets.now)
        × (length var_message.old ≡ length dets.now)
        × (length var_offset.old ≡ suc mechanisms) }
    ensures { graph checks mechanisms check_var.new check_offset.new
        var_check.new var_message.new var_offset.new
        ≡ graph_of checks mechanisms (among off.now dets.now) }
{
    bucket(
        checks,
        mechanisms,
        off,
        dets,
        check_offset,
        check_var,
        &mut var_message[..0],
    );
    bucket(
        mechanisms,
        checks,
        check_offset,
        check_var,
        var_offset,
        var_check,
        var_message,
    );
}
