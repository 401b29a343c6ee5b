//! The adapter's side of the arms of a completion queue.
ghost use Rattle.std.specs.Prelude.{◌≡◌, ◌+◌, ◌<◌, ◌^◌, ◌↔◌, IsTrue, None, true, false};
ghost use Rattle.bus_core.specs.Port.{Appends};
ghost use Rattle.bus_core.specs.declared.operation.BusEntry.{BusEntry};
ghost use Rattle.bus_core.specs.Turn.{IsWhole, count_note};
ghost use Rattle.cq_arms.specs.Device.{judged, notice, publish};
ghost use Rattle.cq_arms.specs.DeviceView.{DeviceTurn};
ghost use Rattle.cq_arms.specs.Turn.{CanServe};
ghost use Rattle.cq_arms.specs.Words.{no_arm, arm_note};

use crate::arm_word::{Armed, NO_ARM, note_of};
use crate::place::ArmPlace;
use bus_core::{BusPort, Note, Step};
use std::marker::Model;
use verbs_types::ArmKind;

/// What a look at the arm register came to.
#[derive(Clone, Copy, Debug, PartialEq, Eq)]
pub enum ArmSeen {
    /// The register is as it was when it was loaded last, or as it began.
    NoNews,
    /// The register shows this arm; `due` tells whether an event of the queue is now due.
    Seen {
        kind: ArmKind,
        index: u64,
        sn: u8,
        due: bool,
    },
}

/// Sees the arms of a completion queue and answers one that is passed with an event, once: a look is
/// one load of the register. It is told of what the adapter publishes in the queue, and judges after
/// each publication and each arm seen whether the arm is passed. The number that was answered last
/// begins as 3. An arm with that number arms nothing; any other one replaces an arm that waits. This
/// judgement is this project's own; the Programmer's Reference Manual has the words.
#[derive(Drop)]
pub struct ArmDevice {
    place: ArmPlace,
    index: u64,
    solicited: u64,
    register: u64,
    armed: Option<Armed>,
    answered: u8,
    due: bool,
    looking: bool,
    seen: Note,
}

impl Model for ArmDevice {
    ghost use Rattle.cq_arms.specs.DeviceView.{DeviceView};

    ghost Value = { DeviceView };

    ghost use Rattle.cq_arms.specs.DeviceInside.{device_view, IsDevice};

    ghost view = { device_view };

    ghost invariant = { IsDevice };
}

impl ArmDevice {
    /// The side of a queue whose first completion has the index `start`, before its first arm.
    pub fn new(at: ArmPlace, start: u64) -> ArmDevice
        ensures { result ≡ record {
          place = at;
          side = record { index = start; solicited = 0; register = no_arm; armed = None; answered = 3; due = false };
          looking = false;
          seen = count_note 0;
        } }
    {
        ArmDevice {
            place: at,
            index: start,
            solicited: 0,
            register: NO_ARM,
            armed: None,
            answered: 3,
            due: false,
            looking: false,
            seen: note_of(0, 0, 0),
        }
    }

    /// Starts to look at the register.
    pub fn begin_see_arm(&mut self)
        requires idle { self.old.looking ≡ false }
        requires free { self.old.side.due ≡ false }
        ensures { self.new ≡ record self.old { looking = true } }
    {
        self.looking = true;
    }

    /// Whether nothing is under way.
    pub fn is_idle(&self) -> bool
        ensures { IsTrue result ↔ (self.now.looking ≡ false) }
    {
        !self.looking
    }

    /// Whether an event of the queue is due. It is to be written before the adapter does anything else.
    pub fn is_due(&self) -> bool
        ensures { result ≡ self.now.side.due }
    {
        self.due
    }

    /// The arm that was seen last: its index in field `a`, its number modulo 4 in `b`, and in `c` 1
    /// where it is solicited. All are 0 before the first.
    pub fn seen(&self) -> Note
        ensures { result ≡ self.now.seen }
    {
        self.seen
    }

    /// Tells of a completion that was published in the queue at its next index. The answer is whether
    /// an event of the queue is now due.
    pub fn published(&mut self, solicited: bool) -> bool
        requires idle { self.old.looking ≡ false }
        requires free { self.old.side.due ≡ false }
        requires index { self.old.side.index < 2 ^ 62 }
        ensures value { self.new ≡ record self.old { side = publish self.old.side solicited } }
        ensures due { result ≡ self.new.side.due }
    {
        self.index += 1;
        if solicited {
            self.solicited = self.index;
        }
        self.judge()
    }

    /// Tells that the queue's next index went to the entry that tells of a resize. Nothing is judged.
    pub fn resized(&mut self)
        requires idle { self.old.looking ≡ false }
        requires free { self.old.side.due ≡ false }
        requires index { self.old.side.index < 2 ^ 62 }
        ensures { self.new ≡ record self.old { side = record self.old.side { index = self.old.side.index + 1 } } }
    {
        self.index += 1;
    }

    /// Tells that the event that is due was written.
    pub fn event_written(&mut self)
        requires { IsTrue self.old.side.due }
        ensures { self.new ≡ record self.old { side = record self.old.side { due = false } } }
    {
        self.due = false;
    }

    /// Makes one operation, the load of the register, and is idle.
    pub fn turn<P: BusPort>(&mut self, port: &mut P) -> Step<(), ArmSeen>
        requires busy { IsTrue self.old.looking }
        requires port { CanServe self.old.place (P.port port.old) }
        ensures made { (e : BusEntry) × Appends (P.port port.old) (P.port port.new) e × DeviceTurn self.old self.new e result }
        ensures whole { IsWhole result }
    {
        self.looking = false;
        let word = port.load(self.place.arm_reg);
        if word == self.register {
            return Step::Done(ArmSeen::NoNews);
        }
        let arm = Armed::of_register(self.index, word);
        self.notice(arm, word);
        let due = self.judge();
        Step::Done(ArmSeen::Seen {
            kind: arm.kind,
            index: arm.index,
            sn: arm.sn,
            due,
        })
    }

    /// Takes note of a register that was loaded and shows this arm.
    fn notice(&mut self, arm: Armed, word: u64)
        requires { self.old.looking ≡ false }
        ensures { self.new ≡ record self.old { side = notice self.old.side arm word; seen = arm_note arm } }
    {
        self.register = word;
        self.seen = arm.note();
        if arm.sn != self.answered {
            self.armed = Some(arm);
        }
    }

    /// Answers the arm that waits, if it is passed, and tells whether an event is due.
    fn judge(&mut self) -> bool
        requires { self.old.looking ≡ false }
        ensures value { self.new ≡ record self.old { side = judged self.old.side } }
        ensures due { result ≡ self.new.side.due }
    {
        if let Some(arm) = self.armed
            && arm.is_passed(self.index, self.solicited)
        {
            self.armed = None;
            self.answered = arm.sn;
            self.due = true;
        }
        self.due
    }
}
