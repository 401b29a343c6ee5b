//! The side of a slot that asks commands.
ghost use Rattle.std.specs.Prelude.{◌≡◌, ◌<◌, ◌≤◌, ◌^◌, ◌↔◌, IsTrue, IsSome, None, length, true};
ghost use Rattle.bus_core.specs.Port.{Appends};
ghost use Rattle.bus_core.specs.declared.operation.BusEntry.{BusEntry};
ghost use Rattle.bus_core.specs.Turn.{count_note};
ghost use Rattle.cmd_bodies.specs.Command.{FitsFields};
ghost use Rattle.cmd_slots.specs.Place.{IsSlot, touches};
ghost use Rattle.cmd_slots.specs.Host.{StoresQuestion, IsFree, KnowsLess};
ghost use Rattle.cmd_slots.specs.HostView.{HostTurn, Asks, fresh, forgotten, turns_left};
ghost use Rattle.cmd_slots.specs.Turn.{CanServe, IsShape};

use crate::Answer;
use crate::asking::ask;
use crate::output::{is_output, read_reply, refusal_in};
use crate::place::{BITS_WORD, entry_word, output_word, question_word, stored_next};
use bus_core::{BusPort, Note, Step};
use cmd_bodies::Command;
use std::marker::Model;

/// The hardware still owned the entry, by its last word, which was loaded.
#[derive(Clone, Copy, Debug, PartialEq, Eq)]
pub struct Waiting {
    pub word: u64,
}

/// What a host is at; `Filling` has the number of words stored, `Taking` that of the words read.
#[derive(Clone, Copy)]
enum Phase {
    Idle,
    Asking,
    Filling(u32),
    Awaiting,
    Taking(u32),
}

/// Asks commands, one bus operation a turn: the stores of a command's blocks and then of its entry,
/// of which the last word gives it to the hardware; the or-ing of the slot's bit; loads of the
/// entry's last word until it gives the entry back; and the loads of the output in order, unless that
/// word has a delivery status. Entry, blocks and bits are the Programmer's Reference Manual's.
#[derive(Drop)]
pub struct SlotHost {
    slot: u32,
    asked: u64,
    command: Command,
    words: [u64; 296],
    long: u32,
    output: [u64; 90],
    phase: Phase,
    seen: u64,
}

impl Model for SlotHost {
    ghost use Rattle.cmd_slots.specs.HostView.{HostView};

    ghost Value = { HostView };

    ghost use Rattle.cmd_slots.specs.HostInside.{host_view, IsHost};

    ghost view = { host_view };

    ghost invariant = { IsHost };
}

impl SlotHost {
    /// An idle host of a slot, 0 to 31, that asked no command yet.
    pub fn new(slot: u32) -> SlotHost
        requires { IsSlot slot }
        ensures { result ≡ fresh slot }
    {
        SlotHost {
            slot,
            asked: 0,
            command: Command::EnableHca,
            words: [0; 296],
            long: 0,
            output: [0; 90],
            phase: Phase::Idle,
            seen: 0,
        }
    }

    /// Starts to ask a command.
    pub fn begin_command(&mut self, c: Command)
        requires idle { self.old.task ≡ None }
        requires count { self.old.side.asked < 2 ^ 62 }
        requires fits { FitsFields c }
        ensures begun { self.new ≡ record self.old { task = self.new.task } }
        ensures asks { Asks self.old.slot c self.new.task }
        ensures bounded { turns_left self.new.task self.new.side.stage ≤ 1024 }
    {
        self.long = ask(self.slot, &c, &mut self.words);
        self.command = c;
        self.phase = Phase::Asking;
    }

    /// Whether no command is under way.
    pub fn is_idle(&self) -> bool
        ensures { IsTrue result ↔ (self.now.task ≡ None) }
    {
        matches!(self.phase, Phase::Idle)
    }

    /// How many commands of the slot the last word of its entry showed as answered, in field `a`; 0
    /// before the first load of it.
    pub fn seen(&self) -> Note
        ensures { result ≡ count_note self.now.seen }
    {
        Note {
            kind: 0,
            object: 0,
            a: self.seen,
            b: 0,
            c: 0,
            d: 0,
        }
    }

    /// Drops a command that was not rung for: the host is idle, and the adapter knows of nothing.
    pub fn forget(&mut self)
        requires unrung { IsFree self.old.side.stage }
        ensures value { self.new ≡ forgotten self.old }
        ensures less { KnowsLess self.new.side self.old.side }
    {
        self.phase = Phase::Idle;
    }

    /// Makes one operation.
    pub fn turn<P: BusPort>(&mut self, port: &mut P) -> Step<Waiting, Answer>
        requires busy { IsSome self.old.task }
        requires port { CanServe (P.port port.old) }
        ensures { (e : BusEntry) × Appends (P.port port.old) (P.port port.new) e × HostTurn self.old self.new e result }
    {
        match self.phase {
            Phase::Idle => unreachable!(),
            Phase::Asking => {
                store_question(port, self.slot, &self.words[..self.long as usize], 0);
                self.phase = Phase::Filling(1);
                Step::More
            }
            Phase::Filling(count) => {
                if count < self.long {
                    store_question(port, self.slot, &self.words[..self.long as usize], count);
                    self.phase = Phase::Filling(count + 1);
                } else {
                    port.set_bits(BITS_WORD, 1 << self.slot);
                    self.asked += 1;
                    self.phase = Phase::Awaiting;
                }
                Step::More
            }
            Phase::Awaiting => {
                let word = port.load(entry_word(self.slot, 7));
                if word & 1 == 1 {
                    self.seen = self.asked - 1;
                    return Step::Gave(Waiting { word });
                }
                self.seen = self.asked;
                match refusal_in(word) {
                    None => {
                        self.phase = Phase::Taking(0);
                        Step::More
                    }
                    Some(fault) => {
                        self.phase = Phase::Idle;
                        Step::Done(Answer::Refused(fault))
                    }
                }
            }
            Phase::Taking(count) => {
                self.output[count as usize] = port.load(output_word(self.slot, count));
                let words = &self.output[..count as usize + 1];
                if is_output(&self.command, words) {
                    let reply = read_reply(&self.command, words);
                    self.phase = Phase::Idle;
                    Step::Done(Answer::Delivered(reply))
                } else {
                    self.phase = Phase::Taking(count + 1);
                    Step::More
                }
            }
        }
    }
}

/// Stores the next word of a question.
fn store_question<P: BusPort>(port: &mut P, slot: u32, words: &[u64], count: u32)
    requires slot { IsSlot slot }
    requires shape { IsShape words.now }
    requires more { count < length words.now }
    requires port { CanServe (P.port port.old) }
    ensures { (e : BusEntry) × Appends (P.port port.old) (P.port port.new) e × StoresQuestion slot words.now count e × (touches e.addr ≡ true) }
{
    let p = stored_next(8, words.len() as u32, count);
    let address = question_word(slot, words, p);
    port.store(address, words[p as usize]);
}
