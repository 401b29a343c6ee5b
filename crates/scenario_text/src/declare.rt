//! What the lines of objects and connections add.
ghost use Rattle.std.specs.Prelude.{◌≡◌, ◌<◌, OnOk, IsTrue, None, length};
ghost use Rattle.verbs_types.specs.Names.{is_name};
ghost use Rattle.scenario_text.specs.AfterObjects as after;
ghost use Rattle.scenario_text.specs.Naming.{meaning_of};
ghost use Rattle.scenario_text.specs.Sofar.{view_of};
ghost use Rattle.scenario_text.specs.Text.{split, name_in};

use crate::names::Meaning;
use crate::parts::{SPACE, part};
use crate::slot::Kind;
use crate::sofar::{PairUse, QueueUse, Sofar};
use crate::values::{name, number, recv_log, saturated, size, small};
use std::alloc::{AllocError, Global};
use verbs_types::{Connect, CqLine, EqLine, FIRST_PD, FIRST_QP, Object, PdLine, QpLine};

impl Sofar {
    pub fn give(&mut self, alloc: Global, line: &[u8], meaning: Meaning) -> Result<(), AllocError>
        requires new { meaning_of (view_of self.old).names (name_in (split 32 line.now)) ≡ None }
        ensures given { OnOk result (view_of self.new ≡ after.give (split 32 line.now) meaning (view_of self.old)) }
    {
        self.names.give(alloc, part(line, SPACE, 1), meaning)
    }

    pub fn add_eq(&mut self, alloc: Global, line: &[u8]) -> Result<(), AllocError>
        requires few { length (view_of self.old).lines.eqs < 4194304 }
        requires new { meaning_of (view_of self.old).names (name_in (split 32 line.now)) ≡ None }
        requires name { IsTrue (is_name (name_in (split 32 line.now))) }
        ensures added { OnOk result (view_of self.new ≡ after.add_eq (split 32 line.now) (view_of self.old)) }
    {
        let object = Object::Eq(self.eqs.len() as u32);
        self.give(alloc, line, Meaning::Object(object))?;
        self.order.push(object)?;
        self.eqs.push(EqLine {
            name: name(alloc, line)?,
            log: small(line, 2),
        })?;
        Ok(())
    }

    pub fn add_pd(&mut self, alloc: Global, line: &[u8]) -> Result<(), AllocError>
        requires few { length (view_of self.old).lines.pds < 4194304 }
        requires new { meaning_of (view_of self.old).names (name_in (split 32 line.now)) ≡ None }
        requires name { IsTrue (is_name (name_in (split 32 line.now))) }
        ensures added { OnOk result (view_of self.new ≡ after.add_pd (split 32 line.now) (view_of self.old)) }
    {
        let object = Object::Pd(FIRST_PD + self.pds.len() as u32);
        self.give(alloc, line, Meaning::Object(object))?;
        self.order.push(object)?;
        self.pds.push(PdLine {
            name: name(alloc, line)?,
        })?;
        Ok(())
    }

    pub fn add_cq(&mut self, alloc: Global, line: &[u8]) -> Result<(), AllocError>
        requires few { length (view_of self.old).lines.cqs < 4194304 }
        requires new { meaning_of (view_of self.old).names (name_in (split 32 line.now)) ≡ None }
        requires name { IsTrue (is_name (name_in (split 32 line.now))) }
        ensures added { OnOk result (view_of self.new ≡ after.add_cq (split 32 line.now) (view_of self.old)) }
    {
        let object = Object::Cq(self.cqs.len() as u32);
        let eq = self.named(Kind::Eq, part(line, SPACE, 4));
        self.give(alloc, line, Meaning::Object(object))?;
        self.order.push(object)?;
        self.queues.push(QueueUse {
            poller: None,
            room: size(number(line, 2)),
        })?;
        self.cqs.push(CqLine {
            name: name(alloc, line)?,
            log: small(line, 2),
            ceiling: small(line, 3),
            eq,
            start: number(line, 5),
        })?;
        Ok(())
    }

    pub fn add_qp(&mut self, alloc: Global, line: &[u8]) -> Result<(), AllocError>
        requires few { length (view_of self.old).lines.qps < 4194304 }
        requires new { meaning_of (view_of self.old).names (name_in (split 32 line.now)) ≡ None }
        requires name { IsTrue (is_name (name_in (split 32 line.now))) }
        ensures added { OnOk result (view_of self.new ≡ after.add_qp (split 32 line.now) (view_of self.old)) }
    {
        let object = Object::Qp(FIRST_QP + self.qps.len() as u32);
        let pd = self.named(Kind::Pd, part(line, SPACE, 2));
        let send_cq = self.cq(part(line, SPACE, 3));
        let recv_cq = self.cq(part(line, SPACE, 4));
        self.give(alloc, line, Meaning::Object(object))?;
        self.order.push(object)?;
        self.pairs.push(PairUse {
            connected: false,
            poster: None,
            receiver: None,
        })?;
        self.qps.push(QpLine {
            name: name(alloc, line)?,
            pd,
            send_cq,
            recv_cq,
            send_log: small(line, 5),
            recv_log: saturated(recv_log(line)),
            segments: small(line, 7),
            start: number(line, 8),
        })?;
        Ok(())
    }

    pub fn add_connect(&mut self, line: &[u8]) -> Result<(), AllocError>
        ensures added { OnOk result (view_of self.new ≡ after.add_connect (split 32 line.now) (view_of self.old)) }
    {
        let a = self.qp(part(line, SPACE, 1));
        let b = self.qp(part(line, SPACE, 2));
        self.set_connected(a);
        self.set_connected(b);
        self.connects.push(Connect { a, b })?;
        Ok(())
    }

    fn set_connected(&mut self, qp: u32)
        ensures { view_of self.new ≡ after.connect qp (view_of self.old) }
    {
        let index = qp.saturating_sub(FIRST_QP) as usize;
        if let Some(used) = self.pairs.get(index) {
            self.pairs[index] = PairUse {
                connected: true,
                ..*used
            };
        }
    }
}
