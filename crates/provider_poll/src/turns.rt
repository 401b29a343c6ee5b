//! The four kinds of operations of a poll.
ghost use Rattle.std.specs.Prelude.{◌≡◌, ◌<◌, ◌^◌, length, None, true, All};
ghost use Rattle.arrayvec.specs.ArrayVec.{array_vec_len};
ghost use Rattle.bus_core.specs.Port.{Appends};
ghost use Rattle.bus_core.specs.declared.operation.BusEntry.{BusEntry};
ghost use Rattle.owner_ring.specs.Consumer.{next_index};
ghost use Rattle.owner_ring.specs.Turn.{CanServe};
ghost use Rattle.cq_pair.specs.Place.{ring_of};
ghost use Rattle.provider_poll.specs.Stores.{may_store};
ghost use Rattle.provider_poll.specs.Turns.{Looks, LooksUp, Retires, Acknowledges, IsPollingHost, CanServeEach, acked_index, working};
ghost use Rattle.cq_pair.specs.HostView.{PollOne};

use crate::poll_step::{PollStep, after_ack, after_look, after_lookup, after_retire};
use crate::send_queues::SendQueues;
use crate::state::{End, Ends};
use bus_core::{BusPort, Step};
use cq_pair::{CqDone, CqHost};
use cqe_format::Cqe;

/// The host looks at the next entry, or reads it.
pub(crate) fn look<P: BusPort>(
    number: u32,
    host: &mut CqHost,
    queues: &SendQueues,
    max: u32,
    ends: Ends,
    port: &mut P,
) -> PollStep
    requires ends { array_vec_len ends < 16 }
    requires task { IsPollingHost host.old.task }
    requires index { next_index host.old.side < 2 ^ 62 }
    requires port { CanServe (ring_of host.old.place) (P.port port.old) }
    ensures { (e : BusEntry) × Appends (P.port port.old) (P.port port.new) e × Looks number host.old host.new queues.now max ends e result }
{
    begin_look(host);
    let step = host.turn(port);
    after_look(number, queues, max, ends, host.seen().a, step)
}

/// Begins to look at the next entry, where no look is under way.
#[tactic(auto, using(crate::proofs::Hosts::polls_on))]
fn begin_look(host: &mut CqHost)
    requires task { IsPollingHost host.old.task }
    requires index { next_index host.old.side < 2 ^ 62 }
    ensures { host.new ≡ working PollOne host.old }
{
    if host.is_idle() {
        host.begin_poll_one();
    }
}

/// The lookup of a completion goes on, in the queue of this place.
pub(crate) fn look_up<P: BusPort>(
    number: u32,
    seen: u64,
    queues: &mut SendQueues,
    max: u32,
    ends: Ends,
    completion: Cqe,
    queue: usize,
    port: &mut P,
) -> PollStep
    requires ends { array_vec_len ends < 16 }
    requires inside { queue < length queues.old }
    requires port { CanServeEach queues.old (P.port port.old) }
    ensures { (e : BusEntry) × Appends (P.port port.old) (P.port port.new) e × LooksUp number seen queues.old queues.new max ends completion queue e result }
{
    let step = queues.look_up(queue, completion.counter, port);
    after_lookup(number, queues, max, ends, seen, completion, queue, step)
}

/// The first of the ends is stored, in its queue; the others are left.
pub(crate) fn retire<P: BusPort>(
    queues: &mut SendQueues,
    taken: u32,
    empty: Option<u64>,
    first: End,
    left: Ends,
    port: &mut P,
) -> PollStep
    requires may { may_store queues.old first ≡ true }
    requires port { CanServeEach queues.old (P.port port.old) }
    ensures { (e : BusEntry) × Appends (P.port port.old) (P.port port.new) e × Retires queues.old queues.new taken empty first left.items e result }
{
    let pair = queues.retire(first, port);
    after_retire(queues, taken, empty, left, pair, first.end)
}

/// The consumer index is stored.
pub(crate) fn acknowledge<P: BusPort>(
    number: u32,
    host: &mut CqHost,
    taken: u32,
    empty: Option<u64>,
    port: &mut P,
) -> PollStep
    requires idle { host.old.task ≡ None }
    requires port { CanServe (ring_of host.old.place) (P.port port.old) }
    ensures { (e : BusEntry) × Appends (P.port port.old) (P.port port.new) e × Acknowledges number host.old host.new taken empty e result }
{
    host.begin_ack();
    after_ack(number, taken, empty, acked(host.turn(port)))
}

/// The consumer index that was stored.
fn acked(step: Step<(), CqDone>) -> u64
    ensures { result ≡ acked_index step }
{
    match step {
        Step::Done(CqDone::Acked { ci }) => ci,
        _ => 0,
    }
}
