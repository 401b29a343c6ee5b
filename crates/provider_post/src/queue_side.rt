//! The side of a send or receive queue that posts entries.
ghost use Rattle.std.specs.Prelude.{◌≡◌, ◌<◌, ◌≤◌, ◌+◌, ◌^◌, ◌↔◌, IsTrue, IsSome, IfSome, Some, None, slice_index};
ghost use Rattle.bus_core.specs.Port.{Appends};
ghost use Rattle.bus_core.specs.declared.operation.BusEntry.{BusEntry};
ghost use Rattle.bus_core.specs.Turn.{IsWhole};
ghost use Rattle.counted_ring.specs.Place.{IsPlace, span, entry_words};
ghost use Rattle.counted_ring.specs.PosterView.{Posting};
ghost use Rattle.counted_ring.specs.Turn.{CanServe};
ghost use Rattle.provider_post.specs.Call.{fresh_call};
ghost use Rattle.provider_post.specs.Side.{MayDrop, call_of, forgotten, fresh_view, with_call};
ghost use Rattle.provider_post.specs.Queued.{IsQueuePlace, QueueTurn, next_of, with_task};
ghost use Rattle.provider_post.specs.Queued as words;

use crate::answer::PostAnswer;
use crate::call::{Call, answer_with};
use crate::note::note_of;
use bus_core::{BusPort, Note, Step};
use counted_ring::{WqPlace, WqPoster};
use std::marker::Model;
use verbs_types::Queue;
use work_entries::SendWords;

/// Posts the entries of a call to a work queue, one bus operation a turn. For each entry it loads the
/// tail, and where that leaves room it stores the words, in order, the id and, in a send queue, the head
/// word. Where the queue took all entries, or is full, it stores the record and then, in a send queue,
/// the register, if it took any.
#[derive(Drop)]
pub(crate) struct QueueSide {
    poster: WqPoster,
    queue: Queue,
    call: Option<Call>,
    noted: Option<Note>,
}

impl Model for QueueSide {
    ghost use Rattle.provider_post.specs.Side.{PostView};

    ghost Value = { PostView };

    ghost use Rattle.provider_post.specs.Inside.{side_view, IsQueueSide};

    ghost view = { side_view };

    ghost invariant = { IsQueueSide };
}

impl QueueSide {
    /// An idle side of this queue, on which nothing was posted, and whose first block has the index
    /// `start`.
    pub(crate) fn new(place: WqPlace, queue: Queue, start: u64) -> QueueSide
        requires place { IsPlace place }
        requires queue { IsQueuePlace place queue }
        requires start { start ≤ 2 ^ 32 }
        ensures { result ≡ fresh_view place queue start }
    {
        QueueSide {
            poster: WqPoster::new(place, start),
            queue,
            call: None,
            noted: None,
        }
    }

    /// Starts a call of `count` items.
    pub(crate) fn begin(&mut self, count: u32)
        requires idle { self.old.call ≡ None }
        requires some { 0 < count }
        requires few { count ≤ 16 }
        requires posted { self.old.poster.side.count < 2 ^ 61 }
        requires index { self.old.poster.side.index < 2 ^ 61 }
        ensures { self.new ≡ with_call self.old (Some (fresh_call count)) }
    {
        self.call = Some(Call {
            count,
            accepted: 0,
            refused: None,
            recorded: false,
        });
    }

    /// Whether no call is under way.
    pub(crate) fn is_idle(&self) -> bool
        ensures { IsTrue result ↔ (self.now.call ≡ None) }
    {
        self.call.is_none()
    }

    /// The note of the last turn's operation.
    pub(crate) fn note(&self) -> Option<Note>
        ensures { result ≡ self.now.noted }
    {
        self.noted
    }

    /// Whether the call that is under way may be dropped.
    pub(crate) fn may_forget(&self) -> bool
        ensures { IsTrue result ↔ MayDrop self.now.call }
    {
        match &self.call {
            None => true,
            Some(call) => !call.recorded && call.refused.is_none(),
        }
    }

    /// Drops the call that is under way, with the entries that it wrote.
    pub(crate) fn forget(&mut self)
        requires { MayDrop self.old.call }
        ensures forgotten { self.new ≡ forgotten self.old }
        ensures dropped { self.new.poster.side.count + (call_of self.old).accepted ≡ self.old.poster.side.count }
        ensures back { self.new.poster.side.index ≤ self.old.poster.side.index }
    {
        self.poster.forget();
        self.call = None;
    }

    /// The place in the call's list of the item whose entry is to be begun before the next operation, if
    /// one is.
    pub(crate) fn next_item(&self) -> Option<u32>
        ensures next { result ≡ next_of self.now }
        ensures below { IfSome result (λ k. k < (call_of self.now).count) }
    {
        if !self.poster.is_idle() {
            return None;
        }
        self.call.and_then(|call| call.next_item())
    }

    /// The block index at which that entry begins.
    pub(crate) fn index(&self) -> u64
        ensures { result ≡ self.now.poster.side.index }
    {
        self.poster.index()
    }

    /// Begins the entry of that item.
    pub(crate) fn begin_item(&mut self, entry: SendWords, id: u64)
        requires next { IsSome (next_of self.old) }
        requires blocks { entry.blocks ≡ span self.old.poster.place (slice_index entry.words 0) }
        ensures { self.new ≡ with_task self.old (Some (Posting (entry_words self.old.poster.place entry) id)) }
    {
        self.poster.begin_post(entry, id);
    }

    /// Makes one operation of the call.
    pub(crate) fn turn<P: BusPort>(&mut self, port: &mut P) -> Step<(), PostAnswer>
        requires busy { IsSome self.old.call }
        requires begun { next_of self.old ≡ None }
        requires port { CanServe self.old.poster.place (P.port port.old) }
        ensures made { (e : BusEntry) × Appends (P.port port.old) (P.port port.new) e × QueueTurn self.old self.new e result }
        ensures whole { IsWhole result }
    {
        let Some(call) = self.call else {
            unreachable!()
        };
        begin_ring(&mut self.poster);
        let told = call.told(self.poster.turn(port));
        let next = call.after(told);
        self.noted = note_of(self.queue, &call, told, self.poster.seen().a);
        self.call = call.left(next, has_register(self.queue));
        answer_with(self.call, &next)
    }
}

/// Begins the ring, where the poster is idle.
fn begin_ring(poster: &mut WqPoster)
    ensures { words.IsRung poster.old poster.new }
{
    if poster.is_idle() {
        poster.begin_ring();
    }
}

/// Whether the queue has a register: a send queue has.
fn has_register(queue: Queue) -> bool
    ensures { result ≡ words.has_register queue }
{
    matches!(queue, Queue::Send(_))
}
