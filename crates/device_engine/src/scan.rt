//! The scan over all objects.
ghost use Rattle.std.specs.Prelude.{◌≡◌, ◌+◌, ◌^◌, ◌<◌, ◌≤◌, length, slice_set};
ghost use Rattle.bus_core.specs.Port.{Appends};
ghost use Rattle.bus_core.specs.declared.operation.BusEntry.{BusEntry};
ghost use Rattle.verbs_types.specs.declared.declaration.TheConstants.{FIRST_QP};
ghost use Rattle.device_engine.specs.Goes.{goes};
ghost use Rattle.device_engine.specs.Scan.{IsScan, IsStanding, IsPublishing, CanGo, CanPublish, Idle, task_before};
ghost use Rattle.device_engine.specs.State.{Publishing, visiting, working};
ghost use Rattle.device_engine.specs.Turn.{CanScan, Operates};
ghost use Rattle.device_engine.specs.Counts.{CountsBelow};
ghost use Rattle.device_engine.specs.View.{scan_of, rule_of};

use crate::outcome::{NextWork, Outcome};
use crate::pair::Pair;
use crate::publish::publish;
use bus_core::BusPort;
use cq_pair::CqDevice;
use cqe_format::Cqe;
use object_places::ENDED_WORD;
use std::snapshot::Snapshot;
use verbs_types::Declared;

/// What the adapter is at.
#[derive(Drop)]
pub(crate) enum Work {
    /// The visited pair's register.
    Looking,
    /// Its record.
    Recording,
    /// Its next entry.
    Reading,
    /// A completion.
    Publishing { cq: u32, completion: Snapshot<Cqe> },
    /// The word of actors that ended.
    Ending,
}

/// The adapter's sides of all objects, and at which of them it is.
#[derive(Drop)]
pub(crate) struct Scan {
    pub declared: Snapshot<Declared>,
    /// The queue pairs by number.
    pub pairs: Vec<Pair>,
    /// The completion queues by number.
    pub queues: Vec<CqDevice>,
    /// The place of the pair that is visited, or the number of pairs.
    pub visit: usize,
    pub work: Work,
}

impl Scan {
    /// Makes one operation.
    pub fn operate<P: BusPort>(&mut self, port: &mut P) -> Outcome
        requires standing { IsStanding (scan_of self.old) }
        requires low { CountsBelow (2 ^ 61) (rule_of (scan_of self.old)) }
        requires port { CanScan (scan_of self.old).declared (P.port port.old) }
        ensures { (e : BusEntry) × Appends (P.port port.old) (P.port port.new) e × Operates (scan_of self.old) (scan_of self.new) e result }
    {
        match self.work {
            Work::Looking => self.look(port),
            Work::Recording => self.record(port),
            Work::Reading => self.read(port),
            Work::Publishing { cq, .. } => self.publish(cq, port),
            Work::Ending => self.end(port),
        }
    }

    fn look<P: BusPort>(&mut self, port: &mut P) -> Outcome
        requires standing { IsStanding (scan_of self.old) }
        requires work { self.old.work ≡ Work.Looking }
        requires low { CountsBelow (2 ^ 61) (rule_of (scan_of self.old)) }
        requires port { CanScan (scan_of self.old).declared (P.port port.old) }
        ensures { (e : BusEntry) × Appends (P.port port.old) (P.port port.new) e × Operates (scan_of self.old) (scan_of self.new) e result }
    {
        let pair = &mut self.pairs[self.visit];
        Outcome {
            comes: pair.look(port),
            note: None,
        }
    }

    fn record<P: BusPort>(&mut self, port: &mut P) -> Outcome
        requires standing { IsStanding (scan_of self.old) }
        requires work { self.old.work ≡ Work.Recording }
        requires low { CountsBelow (2 ^ 61) (rule_of (scan_of self.old)) }
        requires port { CanScan (scan_of self.old).declared (P.port port.old) }
        ensures { (e : BusEntry) × Appends (P.port port.old) (P.port port.new) e × Operates (scan_of self.old) (scan_of self.new) e result }
    {
        let pair = &mut self.pairs[self.visit];
        Outcome {
            comes: pair.record(port),
            note: None,
        }
    }

    fn read<P: BusPort>(&mut self, port: &mut P) -> Outcome
        requires standing { IsStanding (scan_of self.old) }
        requires work { self.old.work ≡ Work.Reading }
        requires low { CountsBelow (2 ^ 61) (rule_of (scan_of self.old)) }
        requires port { CanScan (scan_of self.old).declared (P.port port.old) }
        ensures { (e : BusEntry) × Appends (P.port port.old) (P.port port.new) e × Operates (scan_of self.old) (scan_of self.new) e result }
    {
        let pair = &mut self.pairs[self.visit];
        pair.read(port)
    }

    fn publish<P: BusPort>(&mut self, cq: u32, port: &mut P) -> Outcome
        requires standing { IsStanding (scan_of self.old) }
        requires work { IsPublishing self.old.work cq }
        requires low { CountsBelow (2 ^ 61) (rule_of (scan_of self.old)) }
        requires port { CanScan (scan_of self.old).declared (P.port port.old) }
        ensures { (e : BusEntry) × Appends (P.port port.old) (P.port port.new) e × Operates (scan_of self.old) (scan_of self.new) e result }
    {
        let queue = &mut self.queues[cq as usize];
        publish(queue, cq, port)
    }

    fn end<P: BusPort>(&mut self, port: &mut P) -> Outcome
        requires standing { IsStanding (scan_of self.old) }
        requires work { self.old.work ≡ Work.Ending }
        requires low { CountsBelow (2 ^ 61) (rule_of (scan_of self.old)) }
        requires port { CanScan (scan_of self.old).declared (P.port port.old) }
        ensures { (e : BusEntry) × Appends (P.port port.old) (P.port port.new) e × Operates (scan_of self.old) (scan_of self.new) e result }
    {
        port.load(ENDED_WORD);
        Outcome {
            comes: NextWork::First,
            note: None,
        }
    }

    /// Goes on to what comes.
    pub fn go(&mut self, comes: NextWork)
        requires scan { IsScan (scan_of self.old) (task_before comes (scan_of self.old)) }
        requires can { CanGo (scan_of self.old) comes }
        ensures standing { IsStanding (scan_of self.new) }
        ensures rule { rule_of (scan_of self.new) ≡ goes (scan_of self.old).declared comes (rule_of (scan_of self.old)) }
        ensures declared { (scan_of self.new).declared ≡ (scan_of self.old).declared }
    {
        match comes {
            NextWork::Same => {}
            NextWork::Record => self.work = Work::Recording,
            NextWork::Read => self.work = Work::Reading,
            NextWork::Publish { cq, completion } => self.begin_publish(cq, completion),
            NextWork::Next => self.visit_pair(self.visit + 1),
            NextWork::First => self.visit_pair(0),
        }
    }

    fn begin_publish(&mut self, cq: u32, completion: Cqe)
        requires scan { IsScan (scan_of self.old) Idle }
        requires visit { self.old.visit < length (scan_of self.old).pairs }
        requires can { CanPublish (scan_of self.old) cq completion }
        ensures standing { IsStanding (scan_of self.new) }
        ensures rule { rule_of (scan_of self.new) ≡ working (Publishing cq completion) (rule_of (scan_of self.old)) }
        ensures declared { (scan_of self.new).declared ≡ (scan_of self.old).declared }
    {
        let queue = &mut self.queues[cq as usize];
        queue.begin_publish(completion);
        self.work = Work::Publishing {
            cq,
            completion: Snapshot::of(&completion),
        };
    }

    /// Visits the pair at this place, or the word of actors that ended where it is that behind the last pair.
    pub fn visit_pair(&mut self, place: usize)
        requires scan { IsScan (scan_of self.old) Idle }
        requires place { place ≤ length (scan_of self.old).pairs }
        ensures standing { IsStanding (scan_of self.new) }
        ensures rule { rule_of (scan_of self.new) ≡ visiting (scan_of self.old).declared (FIRST_QP + place) (rule_of (scan_of self.old)) }
        ensures declared { (scan_of self.new).declared ≡ (scan_of self.old).declared }
    {
        self.visit = place;
        self.work = if place < self.pairs.len() {
            Work::Looking
        } else {
            Work::Ending
        };
    }
}
