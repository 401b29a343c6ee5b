//! The side that arms a completion queue.
ghost use Rattle.std.specs.Prelude.{◌≡◌, ◌↔◌, IsTrue, IsSome, Some, None};
ghost use Rattle.bus_core.specs.Port.{Appends};
ghost use Rattle.bus_core.specs.declared.operation.BusEntry.{BusEntry};
ghost use Rattle.bus_core.specs.Turn.{IsWhole, count_note};
ghost use Rattle.cq_arms.specs.Armer.{Ready, KnowsLess};
ghost use Rattle.cq_arms.specs.ArmerView.{ArmerTurn, forgotten};
ghost use Rattle.cq_arms.specs.Turn.{CanServe};

use crate::arm_word::{Arm, Armed, next_arm};
use crate::place::ArmPlace;
use bus_core::{BusPort, Note, Step};
use std::marker::Model;
use verbs_types::ArmKind;

/// What an armer is at: before its load, or with the number that it loaded, or with the arm whose
/// record it stored.
#[derive(Clone, Copy)]
enum Phase {
    Idle,
    Asking,
    Recording(u64),
    Registering(Arm),
}

/// Arms a completion queue, one bus operation a turn: a load of the sequence number, the store of
/// record word 1 and the store of the register, in this order. So does the rdma-core mlx5 provider.
#[derive(Drop)]
pub struct CqArmer {
    place: ArmPlace,
    last: Option<Arm>,
    kind: ArmKind,
    index: u64,
    phase: Phase,
    seen: u64,
}

impl Model for CqArmer {
    ghost use Rattle.cq_arms.specs.ArmerView.{ArmerView};

    ghost Value = { ArmerView };

    ghost use Rattle.cq_arms.specs.ArmerInside.{armer_view};

    ghost view = { armer_view };
}

impl CqArmer {
    /// An idle armer of a queue that was never armed.
    pub fn new(at: ArmPlace) -> CqArmer
        ensures { result ≡ record { place = at; side = record { last = None; stage = Ready }; task = None; seen = 0 } }
    {
        CqArmer {
            place: at,
            last: None,
            kind: ArmKind::Any,
            index: 0,
            phase: Phase::Idle,
            seen: 0,
        }
    }

    /// Starts to arm the queue for a completion of this kind at this index or behind it; `index` is
    /// the consumer index that was stored last. An arm for any completion that is asked for again as
    /// solicited, at the same index and number, stays what it is.
    pub fn begin_arm(&mut self, kind: ArmKind, index: u64)
        requires idle { self.old.task ≡ None }
        ensures { self.new ≡ record self.old { task = Some (record { kind = kind; index = index }) } }
    {
        self.kind = kind;
        self.index = index;
        self.phase = Phase::Asking;
    }

    /// Whether nothing is under way.
    pub fn is_idle(&self) -> bool
        ensures { IsTrue result ↔ (self.now.task ≡ None) }
    {
        matches!(self.phase, Phase::Idle)
    }

    /// The number of events taken that the last load of the sequence number showed, in field `a`; 0
    /// before the first.
    pub fn seen(&self) -> Note
        ensures { result ≡ count_note self.now.seen }
    {
        Note {
            kind: 0,
            object: 0,
            a: self.seen,
            b: 0,
            c: 0,
            d: 0,
        }
    }

    /// Drops an arm that is under way: the armer is idle.
    pub fn forget(&mut self)
        ensures value { self.new ≡ forgotten self.old }
        ensures less { KnowsLess self.new.side self.old.side }
    {
        self.phase = Phase::Idle;
    }

    /// Makes one operation.
    pub fn turn<P: BusPort>(&mut self, port: &mut P) -> Step<(), Armed>
        requires busy { IsSome self.old.task }
        requires port { CanServe self.old.place (P.port port.old) }
        ensures made { (e : BusEntry) × Appends (P.port port.old) (P.port port.new) e × ArmerTurn self.old self.new e result }
        ensures whole { IsWhole result }
    {
        match self.phase {
            Phase::Idle => unreachable!(),
            Phase::Asking => {
                self.seen = port.load(self.place.sn);
                self.phase = Phase::Recording(self.seen);
                Step::More
            }
            Phase::Recording(number) => {
                let arm = next_arm(self.last, self.kind, self.index, number);
                port.store(self.place.arm_record, arm.word());
                self.phase = Phase::Registering(arm);
                Step::More
            }
            Phase::Registering(arm) => {
                port.store(self.place.arm_reg, arm.register(self.place.number));
                self.last = Some(arm);
                self.phase = Phase::Idle;
                Step::Done(arm.shown())
            }
        }
    }
}
