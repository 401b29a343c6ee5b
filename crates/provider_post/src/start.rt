//! Where the indices of a queue pair's queues begin.
ghost use Rattle.std.specs.Prelude.{◌≡◌, ◌<◌, ◌≤◌, ◌^◌, IsTrue, length};
ghost use Rattle.verbs_types.specs.Lines.{is_among};
ghost use Rattle.verbs_types.specs.declared.declaration.TheConstants.{FIRST_QP};
ghost use Rattle.object_places.specs.Places.{qp_line};

use verbs_types::{Declared, FIRST_QP};

/// The block index of the first request of a queue pair, and of its first receive. The numbers of queue
/// pairs have 24 bits.
pub(crate) fn start_of(d: &Declared, object: u32) -> u64
    requires object { IsTrue (is_among FIRST_QP (length d.now.qps) object) }
    ensures start { result ≡ (qp_line d.now object).start }
    ensures low { result ≤ 2 ^ 32 }
    ensures number { object < 2 ^ 24 }
{
    d.lines().qps.as_slice()[(object - FIRST_QP) as usize].start
}
