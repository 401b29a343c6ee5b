//! Posts to a receive queue.
ghost use Rattle.std.specs.Prelude.{◌≡◌, ◌<◌, ◌≤◌, ◌+◌, ◌*◌, ◌^◌, ◌↔◌, IsTrue, IsSome, Some, None, length, map};
ghost use Rattle.std.specs.List.{AllByRecursion};
ghost use Rattle.bus_core.specs.Port.{Appends};
ghost use Rattle.bus_core.specs.declared.operation.BusEntry.{BusEntry};
ghost use Rattle.bus_core.specs.Turn.{IsWhole};
ghost use Rattle.counted_ring.specs.Turn.{CanServe};
ghost use Rattle.verbs_types.specs.Lines.{is_among};
ghost use Rattle.verbs_types.specs.declared.completion.Queue.TheVariants.{Recv};
ghost use Rattle.verbs_types.specs.declared.declaration.TheConstants.{FIRST_QP};
ghost use Rattle.verbs_types.specs.declared.request.Item.TheVariants.{Receive as TheReceive};
ghost use Rattle.verbs_types.specs.declared.request.Sge.{Sge};
ghost use Rattle.work_entries.specs.Receive.{IsReal};
ghost use Rattle.work_entries.specs.Receive.{room_of as room_for};
ghost use Rattle.actor_map.specs.Map.{map_of};
ghost use Rattle.actor_map.specs.Sizes.{words_of};
ghost use Rattle.object_places.specs.Places.{receive_of, qp_line, IsWithin};
ghost use Rattle.provider_post.specs.Call.{fresh_call};
ghost use Rattle.provider_post.specs.Item.{IsReceiveEntry};
ghost use Rattle.provider_post.specs.Side.{PostTurn, IsListOf, MayDrop, call_of, forgotten, fresh_view, turns_left, with_call};
ghost use Rattle.provider_post.specs.Queued.{IsBegun};
ghost use Rattle.provider_post.specs.Inside.{IsReceives};

use crate::answer::PostAnswer;
use crate::queue_side::QueueSide;
use crate::start::start_of;
use actor_map::AddressMap;
use bus_core::{BusPort, Note, Step};
use object_places::receive_place;
use std::marker::Model;
use verbs_types::{Declared, Queue, Receive, Sequence, Sge};
use work_entries::{SendWords, encode_recv};

/// Posts the receives of a call to the receive queue of a queue pair, one bus operation a turn. For each
/// receive it loads the tail, and where that leaves room it stores the words of its block, in order, and
/// the id. Where the queue took all receives, or is full, it stores the record, if it took any. So does
/// the rdma-core mlx5 provider.
#[derive(Drop)]
pub struct RecvSide {
    side: QueueSide,
    /// The words of a block.
    stride: u32,
}

impl Model for RecvSide {
    ghost use Rattle.provider_post.specs.Side.{PostView};

    ghost Value = { PostView };

    ghost use Rattle.provider_post.specs.Inside.{IsReceives};

    ghost view = { λ a. a.side };

    ghost invariant = { λ a. IsReceives a.side a.stride };
}

impl RecvSide {
    /// An idle side of the receive queue of the queue pair `object`, on which nothing was posted. It does
    /// not allocate.
    pub fn new(d: &Declared, map: &AddressMap, object: u32) -> RecvSide
        requires object { IsTrue (is_among FIRST_QP (length d.now.qps) object) }
        requires map { map.now ≡ map_of d.now }
        requires fits { words_of d.now ≤ 2 ^ 20 }
        ensures fresh { result ≡ fresh_view (receive_of d.now object) (Recv object) (qp_line d.now object).start }
        ensures low { result.poster.side.index ≤ 2 ^ 32 }
        ensures within { IsWithin (words_of d.now) (receive_of d.now object) }
    {
        let place = receive_place(d, map, object);
        RecvSide {
            side: QueueSide::new(place, Queue::Recv(object), start_of(d, object)),
            stride: place.stride,
        }
    }

    /// Starts a call of `count` receives, 1 to 16. It ends within 64 turns a receive and 64 more.
    pub fn begin(&mut self, count: u32)
        requires idle { self.old.call ≡ None }
        requires some { 0 < count }
        requires few { count ≤ 16 }
        requires posted { self.old.poster.side.count < 2 ^ 61 }
        requires index { self.old.poster.side.index < 2 ^ 61 }
        ensures begun { self.new ≡ with_call self.old (Some (fresh_call count)) }
        ensures soon { turns_left self.new ≤ 64 * count + 64 }
    {
        self.side.begin(count);
    }

    /// Whether no call is under way.
    pub fn is_idle(&self) -> bool
        ensures { IsTrue result ↔ (self.now.call ≡ None) }
    {
        self.side.is_idle()
    }

    /// The note of the last turn's operation, where it is one that makes a history entry: the store of the
    /// record, or the load of the tail that showed the queue full.
    pub fn note(&self) -> Option<Note>
        ensures { result ≡ self.now.noted }
    {
        self.side.note()
    }

    /// Whether the call that is under way may be dropped: no operation of it made a history entry.
    pub fn may_forget(&self) -> bool
        ensures { IsTrue result ↔ MayDrop self.now.call }
    {
        self.side.may_forget()
    }

    /// Drops the call that is under way, with the receives that it wrote: the adapter does not know of
    /// them, and the next call writes over them.
    pub fn forget(&mut self)
        requires { MayDrop self.old.call }
        ensures forgotten { self.new ≡ forgotten self.old }
        ensures dropped { self.new.poster.side.count + (call_of self.old).accepted ≡ self.old.poster.side.count }
        ensures back { self.new.poster.side.index ≤ self.old.poster.side.index }
    {
        self.side.forget();
    }

    /// Makes one operation of the call, whose list this is at each of its turns. Each leaves fewer turns of
    /// the call, of which `begin` says how many there are at most.
    pub fn turn<P: BusPort>(&mut self, port: &mut P, list: &[Receive]) -> Step<(), PostAnswer>
        requires busy { IsSome self.old.call }
        requires list { IsListOf self.old (map TheReceive list.now) }
        requires port { CanServe self.old.poster.place (P.port port.old) }
        ensures made { (e : BusEntry) × Appends (P.port port.old) (P.port port.new) e × PostTurn self.old self.new (map TheReceive list.now) e result }
        ensures whole { IsWhole result }
    {
        begin_next(&mut self.side, self.stride, list);
        self.side.turn(port)
    }
}

/// Begins the entry of the receive that comes next, where one is to be begun.
fn begin_next(side: &mut QueueSide, stride: u32, list: &[Receive])
    requires side { IsReceives side.old stride }
    requires busy { IsSome side.old.call }
    requires list { IsListOf side.old (map TheReceive list.now) }
    ensures { IsBegun side.old side.new (map TheReceive list.now) }
{
    let Some(place) = side.next_item() else {
        return;
    };
    let receive = &list[place as usize];
    side.begin_item(entry_of(&receive.sges, stride), receive.id);
}

/// The block of a receive of these segments.
fn entry_of(sges: &Sequence<Sge>, stride: u32) -> SendWords
    requires few { stride ≤ 16 }
    requires room { length sges.now ≤ room_for stride }
    requires real { AllByRecursion IsReal sges.now }
    ensures { IsReceiveEntry sges.now stride result }
{
    let mut segments = [0; 16];
    encode_recv(sges, stride, &mut segments);
    let mut words = [0; 32];
    words[..16].copy_from_slice(&segments);
    SendWords { blocks: 1, words }
}
