//! What earlier lines say of the objects that a line names.
ghost use Rattle.std.specs.Prelude.{◌≡◌};
ghost use Rattle.scenario_text.specs.Calls.{segments_of};
ghost use Rattle.scenario_text.specs.Sofar.{view_of};
ghost use Rattle.scenario_text.specs.Uses as uses;

use crate::slot::Kind;
use crate::sofar::{PairUse, Place, QueueUse, Sofar};
use verbs_types::FIRST_QP;

impl Sofar {
    /// The number of the object of this kind, or of the actor, with this name; 0 where there is none.
    pub fn named(&self, kind: Kind, name: &[u8]) -> u32
        ensures { result ≡ uses.named (view_of self.now) kind name.now }
    {
        self.names.number(kind, name).unwrap_or(0)
    }

    /// The number of the queue pair with this name; 0 where there is none.
    pub fn qp(&self, name: &[u8]) -> u32
        ensures { result ≡ uses.qp_named (view_of self.now) name.now }
    {
        self.named(Kind::Qp, name)
    }

    /// The number of the completion queue with this name; 0 where there is none.
    pub fn cq(&self, name: &[u8]) -> u32
        ensures { result ≡ uses.cq_named (view_of self.now) name.now }
    {
        self.named(Kind::Cq, name)
    }

    /// Whether the queue of the list in which the next line stands has room for one more completion.
    pub fn has_room(&self) -> bool
        ensures { result ≡ uses.has_room (view_of self.now) }
    {
        match self.list_cq() {
            Some(cq) => self.queue_use(cq).room > 0,
            None => true,
        }
    }

    /// The completion queue of the list of requests or receives in which the next line stands.
    pub fn list_cq(&self) -> Option<u32>
        ensures { result ≡ uses.list_cq (view_of self.now) }
    {
        match self.place {
            Place::InPost(qp) => Some(self.send_cq(qp)),
            Place::InRecv(qp) => Some(self.recv_cq(qp)),
            _ => None,
        }
    }

    /// The completion queue of a queue pair's send queue; 0 where there is no such queue pair.
    fn send_cq(&self, qp: u32) -> u32
        ensures { result ≡ uses.send_cq_of (view_of self.now) qp }
    {
        match self.qps.get(qp.saturating_sub(FIRST_QP) as usize) {
            Some(line) => line.send_cq,
            None => 0,
        }
    }

    /// The same of its receive queue.
    fn recv_cq(&self, qp: u32) -> u32
        ensures { result ≡ uses.recv_cq_of (view_of self.now) qp }
    {
        match self.qps.get(qp.saturating_sub(FIRST_QP) as usize) {
            Some(line) => line.recv_cq,
            None => 0,
        }
    }

    /// The most segments of an item of the list in which the next line stands; 0 outside lists.
    pub fn segments(&self) -> u32
        ensures { result ≡ uses.segments_here (view_of self.now) }
    {
        match self.place {
            Place::InPost(qp) | Place::InRecv(qp) => self.segments_of(qp),
            _ => 0,
        }
    }

    fn segments_of(&self, qp: u32) -> u32
        ensures { result ≡ segments_of (view_of self.now).lines qp }
    {
        match self.qps.get(qp.saturating_sub(FIRST_QP) as usize) {
            Some(line) => line.segments,
            None => 0,
        }
    }

    /// How a completion queue is used; one that is not there has no room.
    pub fn queue_use(&self, cq: u32) -> QueueUse
        ensures { result ≡ uses.queue_use (view_of self.now) cq }
    {
        match self.queues.get(cq as usize) {
            Some(used) => *used,
            None => QueueUse {
                poller: None,
                room: 0,
            },
        }
    }

    /// How a queue pair is used.
    pub fn pair_use(&self, qp: u32) -> PairUse
        ensures { result ≡ uses.pair_use (view_of self.now) qp }
    {
        match self.pairs.get(qp.saturating_sub(FIRST_QP) as usize) {
            Some(used) => *used,
            None => PairUse {
                connected: false,
                poster: None,
                receiver: None,
            },
        }
    }
}
