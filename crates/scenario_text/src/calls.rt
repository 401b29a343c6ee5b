//! What the lines of threads add.
ghost use Rattle.std.specs.Prelude.{◌≡◌, ◌<◌, OnOk, IfOk, IsTrue, None, length, map};
ghost use Rattle.verbs_types.specs.Names.{is_name};
ghost use Rattle.scenario_text.specs.AfterCalls as after;
ghost use Rattle.scenario_text.specs.Naming.{meaning_of};
ghost use Rattle.scenario_text.specs.Segments.{segment_in};
ghost use Rattle.scenario_text.specs.Sofar.{view_of};
ghost use Rattle.scenario_text.specs.Text.{split, name_in};

use crate::names::Meaning;
use crate::parts::{Parts, SPACE, part};
use crate::segment;
use crate::slot::has_flag;
use crate::sofar::{PairUse, Place, QueueUse, Sofar};
use crate::values::{name, number, small};
use std::alloc::{AllocError, Global};
use std::mem;
use verbs_types::{Body, Call, FIRST_QP, Op, Receive, Request, Sequence, Sge};

impl Sofar {
    /// Ends the list of requests or receives in which the line stands.
    pub fn close_list(&mut self, alloc: Global) -> Result<(), AllocError>
        ensures closed { OnOk result (view_of self.new ≡ after.close_place (view_of self.old).place (view_of self.old)) }
    {
        match self.place {
            Place::InPost(qp) => self.close_post(alloc, qp),
            Place::InRecv(qp) => self.close_recv(alloc, qp),
            Place::Outside | Place::InThread => Ok(()),
        }
    }

    fn close_post(&mut self, alloc: Global, qp: u32) -> Result<(), AllocError>
        ensures closed { OnOk result (view_of self.new ≡ after.close_post qp (view_of self.old)) }
    {
        let requests = mem::replace(&mut self.requests, Vec::new(alloc));
        self.calls.push(Call::Post {
            qp,
            requests: Sequence::from_vec(requests),
        })?;
        self.place = Place::InThread;
        Ok(())
    }

    fn close_recv(&mut self, alloc: Global, qp: u32) -> Result<(), AllocError>
        ensures closed { OnOk result (view_of self.new ≡ after.close_recv qp (view_of self.old)) }
    {
        let receives = mem::replace(&mut self.receives, Vec::new(alloc));
        self.calls.push(Call::Recv {
            qp,
            receives: Sequence::from_vec(receives),
        })?;
        self.place = Place::InThread;
        Ok(())
    }

    pub fn add_thread(&mut self, alloc: Global, line: &[u8]) -> Result<(), AllocError>
        requires few { length (view_of self.old).lines.threads < 4194304 }
        requires new { meaning_of (view_of self.old).names (name_in (split 32 line.now)) ≡ None }
        requires name { IsTrue (is_name (name_in (split 32 line.now))) }
        ensures added { OnOk result (view_of self.new ≡ after.add_thread (split 32 line.now) (view_of self.old)) }
    {
        let actor = Meaning::Actor(self.threads.len() as u32 + 1);
        self.give(alloc, line, actor)?;
        self.threads.push(name(alloc, line)?)?;
        self.place = Place::InThread;
        Ok(())
    }

    pub fn add_end(&mut self, alloc: Global) -> Result<(), AllocError>
        ensures added { OnOk result (view_of self.new ≡ after.add_end (view_of self.old)) }
    {
        let calls = mem::replace(&mut self.calls, Vec::new(alloc));
        self.programs.push(Sequence::from_vec(calls))?;
        self.place = Place::Outside;
        Ok(())
    }

    pub fn add_post(&mut self, line: &[u8])
        requires few { length (view_of self.old).lines.threads < 4194304 }
        ensures { view_of self.new ≡ after.add_post (split 32 line.now) (view_of self.old) }
    {
        let qp = self.qp(part(line, SPACE, 1));
        self.set_poster(qp);
        self.place = Place::InPost(qp);
    }

    fn set_poster(&mut self, qp: u32)
        requires few { length (view_of self.old).lines.threads < 4194304 }
        ensures { view_of self.new ≡ after.post_by_this qp (view_of self.old) }
    {
        let index = qp.saturating_sub(FIRST_QP) as usize;
        if let Some(used) = self.pairs.get(index) {
            self.pairs[index] = PairUse {
                poster: Some(self.threads.len() as u32),
                ..*used
            };
        }
    }

    pub fn add_recv(&mut self, line: &[u8])
        requires few { length (view_of self.old).lines.threads < 4194304 }
        ensures { view_of self.new ≡ after.add_recv (split 32 line.now) (view_of self.old) }
    {
        let qp = self.qp(part(line, SPACE, 1));
        self.set_receiver(qp);
        self.place = Place::InRecv(qp);
    }

    fn set_receiver(&mut self, qp: u32)
        requires few { length (view_of self.old).lines.threads < 4194304 }
        ensures { view_of self.new ≡ after.receive_by_this qp (view_of self.old) }
    {
        let index = qp.saturating_sub(FIRST_QP) as usize;
        if let Some(used) = self.pairs.get(index) {
            self.pairs[index] = PairUse {
                receiver: Some(self.threads.len() as u32),
                ..*used
            };
        }
    }

    pub fn add_request(&mut self, alloc: Global, line: &[u8]) -> Result<(), AllocError>
        ensures added { OnOk result (view_of self.new ≡ after.add_request (split 32 line.now) (view_of self.old)) }
    {
        self.take_room();
        let flags = part(line, SPACE, 3);
        self.requests.push(Request {
            id: number(line, 1),
            op: Op::Nop,
            wanted: has_flag(flags, b'c'),
            solicited: has_flag(flags, b's'),
            fence: has_flag(flags, b'f'),
            body: Body::Sges(Sequence::from_vec(Vec::new(alloc))),
        })?;
        Ok(())
    }

    pub fn add_receive(&mut self, alloc: Global, line: &[u8]) -> Result<(), AllocError>
        ensures added { OnOk result (view_of self.new ≡ after.add_receive (split 32 line.now) (view_of self.old)) }
    {
        self.take_room();
        let sges = segments(alloc, segment::fields(line))?;
        self.receives.push(Receive {
            id: number(line, 1),
            sges: Sequence::from_vec(sges),
        })?;
        Ok(())
    }

    /// Takes the room of one completion from the queue of the list in which the line stands.
    fn take_room(&mut self)
        ensures { view_of self.new ≡ after.take_room (view_of self.old) }
    {
        if let Some(cq) = self.list_cq() {
            self.take_one(cq);
        }
    }

    fn take_one(&mut self, cq: u32)
        ensures { view_of self.new ≡ after.take_one cq (view_of self.old) }
    {
        let index = cq as usize;
        if let Some(used) = self.queues.get(index) {
            self.queues[index] = QueueUse {
                room: used.room.saturating_sub(1),
                ..*used
            };
        }
    }

    pub fn add_poll(&mut self, line: &[u8]) -> Result<(), AllocError>
        requires few { length (view_of self.old).lines.threads < 4194304 }
        ensures added { OnOk result (view_of self.new ≡ after.add_poll (split 32 line.now) (view_of self.old)) }
    {
        let cq = self.cq(part(line, SPACE, 1));
        self.set_poller(cq);
        self.calls.push(Call::Poll {
            cq,
            max: small(line, 2),
        })?;
        Ok(())
    }

    pub fn add_drain(&mut self, line: &[u8]) -> Result<(), AllocError>
        requires few { length (view_of self.old).lines.threads < 4194304 }
        ensures added { OnOk result (view_of self.new ≡ after.add_drain (split 32 line.now) (view_of self.old)) }
    {
        let cq = self.cq(part(line, SPACE, 1));
        self.set_poller(cq);
        self.calls.push(Call::Drain {
            cq,
            count: small(line, 2),
        })?;
        Ok(())
    }

    fn set_poller(&mut self, cq: u32)
        requires few { length (view_of self.old).lines.threads < 4194304 }
        ensures { view_of self.new ≡ after.poll_by_this cq (view_of self.old) }
    {
        let index = cq as usize;
        if let Some(used) = self.queues.get(index) {
            self.queues[index] = QueueUse {
                poller: Some(self.threads.len() as u32),
                ..*used
            };
        }
    }
}

/// The segments that the fields of a receive spell.
fn segments(alloc: Global, mut fields: Parts) -> Result<Vec<Sge>, AllocError>
    ensures { IfOk result (λ sges. sges.items ≡ map segment_in fields.entry.left) }
{
    let mut sges = Vec::new(alloc);
    while let Some(field) = fields.next_part() {
        sges.push(segment::read(field))?;
    }
    Ok(sges)
}
