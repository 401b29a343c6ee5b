//! The side of a slot that reads commands and answers them.
ghost use Rattle.std.specs.Prelude.{◌≡◌, ◌<◌, ◌≤◌, ◌^◌, ◌↔◌, IsTrue, IsSome, Some, None, [], length, true};
ghost use Rattle.bus_core.specs.Port.{Appends};
ghost use Rattle.bus_core.specs.declared.operation.BusEntry.{BusEntry};
ghost use Rattle.bus_core.specs.Turn.{IsWhole, count_note};
ghost use Rattle.cmd_slots.specs.Place.{IsSlot, touches};
ghost use Rattle.cmd_slots.specs.Device.{Reading, StoresAnswer};
ghost use Rattle.cmd_slots.specs.DeviceView as view;
ghost use Rattle.cmd_slots.specs.DeviceView.{DeviceTurn, MayAnswer, Read, Replies, fresh, turns_left};
ghost use Rattle.cmd_slots.specs.Turn.{CanServe};

use crate::Answer;
use crate::answering::answer;
use crate::place::{answer_word, question_word, stored_next};
use crate::question::judge;
use bus_core::{BusPort, Note, Step};
use cmd_bodies::Command;
use cmd_format::Delivery;
use std::marker::Model;
use std::snapshot::Snapshot;

/// What a read or a reply came to.
#[derive(Clone, Copy, Debug, PartialEq, Eq)]
pub enum SlotDone {
    /// This command is asked.
    Asked(Command),
    /// What is asked is refused with this answer.
    AskedBad(Answer),
    /// The answer was given.
    Replied,
}

/// What a device is at; `Reading` has the number of words read, `Storing` that of the words stored.
#[derive(Clone, Copy)]
enum Phase {
    Waiting,
    Reading(u32),
    Judged,
    Replying,
    Storing(u32),
}

/// Reads a slot's command and answers it, one bus operation a turn: the loads of the entry and of its
/// blocks in order, until all is there or something is refused; and then the stores of the answer, the
/// blocks of its output first and the entry's last word at the end. Entry and blocks are the
/// Programmer's Reference Manual's.
#[derive(Drop)]
pub struct SlotDevice {
    slot: u32,
    answered: u64,
    loaded: [u64; 296],
    question: Snapshot<Result<Command, Answer>>,
    answer: Snapshot<Answer>,
    words: [u64; 147],
    long: u32,
    phase: Phase,
    seen: u64,
}

impl Model for SlotDevice {
    ghost use Rattle.cmd_slots.specs.DeviceView as view;
    ghost use Rattle.cmd_slots.specs.DeviceView.{DeviceView};

    ghost Value = { DeviceView };

    ghost use Rattle.cmd_slots.specs.DeviceInside.{device_view, IsDevice};

    ghost view = { device_view };

    ghost invariant = { IsDevice };
}

impl SlotDevice {
    /// An idle device of a slot, 0 to 31, that answered no command yet.
    pub fn new(slot: u32) -> SlotDevice
        requires { IsSlot slot }
        ensures { result ≡ fresh slot }
    {
        let none = Answer::Refused(Delivery::Reserved);
        SlotDevice {
            slot,
            answered: 0,
            loaded: [0; 296],
            question: Snapshot::of(&Err(none)),
            answer: Snapshot::of(&none),
            words: [0; 147],
            long: 0,
            phase: Phase::Waiting,
            seen: 0,
        }
    }

    /// Starts to read a command, where the slot's bit was found.
    pub fn begin_read(&mut self)
        requires idle { self.old.task ≡ None }
        requires free { self.old.side.stage ≡ Reading [] }
        requires count { self.old.side.answered < 2 ^ 62 }
        ensures begun { self.new ≡ record self.old { task = Some Read } }
        ensures bounded { turns_left self.new.task self.new.side.stage ≤ 1024 }
    {
        self.phase = Phase::Reading(0);
    }

    /// Starts to answer what was read: a command with a reply to it, and what was refused with the
    /// answer that refuses it.
    pub fn begin_reply(&mut self, r: Answer)
        requires idle { self.old.task ≡ None }
        requires answers { MayAnswer self.old.side.stage r }
        ensures begun { self.new ≡ record self.old { task = self.new.task } }
        ensures replies { Replies r self.new.task }
        ensures bounded { turns_left self.new.task self.new.side.stage ≤ 1024 }
    {
        self.long = answer(self.slot, &self.loaded[..8], &r, &mut self.words);
        self.answer = Snapshot::of(&r);
        self.phase = Phase::Replying;
    }

    /// Whether nothing is under way.
    pub fn is_idle(&self) -> bool
        ensures { IsTrue result ↔ (self.now.task ≡ None) }
    {
        matches!(self.phase, Phase::Waiting | Phase::Judged)
    }

    /// How many commands of the slot were asked, by the last question that was read, in field `a`; 0
    /// before the first.
    pub fn seen(&self) -> Note
        ensures { result ≡ count_note self.now.seen }
    {
        Note {
            kind: 0,
            object: 0,
            a: self.seen,
            b: 0,
            c: 0,
            d: 0,
        }
    }

    /// Makes one operation.
    pub fn turn<P: BusPort>(&mut self, port: &mut P) -> Step<(), SlotDone>
        requires busy { IsSome self.old.task }
        requires port { CanServe (P.port port.old) }
        ensures made { (e : BusEntry) × Appends (P.port port.old) (P.port port.new) e × DeviceTurn self.old self.new e result }
        ensures whole { IsWhole result }
    {
        match self.phase {
            Phase::Waiting | Phase::Judged => unreachable!(),
            Phase::Reading(count) => {
                let address = question_word(self.slot, &self.loaded[..count as usize], count);
                self.loaded[count as usize] = port.load(address);
                match judge(self.slot, &self.loaded[..count as usize + 1]) {
                    None => {
                        self.phase = Phase::Reading(count + 1);
                        Step::More
                    }
                    Some(question) => {
                        self.question = Snapshot::of(&question);
                        self.seen = self.answered + 1;
                        self.phase = Phase::Judged;
                        Step::Done(done_of(question))
                    }
                }
            }
            Phase::Replying => {
                store_answer(port, self.slot, &self.words[..self.long as usize], 0);
                self.phase = Phase::Storing(1);
                Step::More
            }
            Phase::Storing(count) => {
                store_answer(port, self.slot, &self.words[..self.long as usize], count);
                if count + 1 == self.long {
                    self.answered += 1;
                    self.phase = Phase::Waiting;
                    Step::Done(SlotDone::Replied)
                } else {
                    self.phase = Phase::Storing(count + 1);
                    Step::More
                }
            }
        }
    }
}

/// What a read of this question came to.
fn done_of(question: Result<Command, Answer>) -> SlotDone
    ensures { result ≡ view.done_of question }
{
    match question {
        Ok(c) => SlotDone::Asked(c),
        Err(refusal) => SlotDone::AskedBad(refusal),
    }
}

/// Stores the next word of an answer.
fn store_answer<P: BusPort>(port: &mut P, slot: u32, words: &[u64], count: u32)
    requires slot { IsSlot slot }
    requires head { 3 ≤ length words.now }
    requires few { length words.now ≤ 147 }
    requires more { count < length words.now }
    requires port { CanServe (P.port port.old) }
    ensures { (e : BusEntry) × Appends (P.port port.old) (P.port port.new) e × StoresAnswer slot words.now count e × (touches e.addr ≡ true) }
{
    let p = stored_next(3, words.len() as u32, count);
    let address = answer_word(slot, p);
    port.store(address, words[p as usize]);
}
