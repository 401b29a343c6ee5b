//! What a line adds to what was read.
ghost use Rattle.std.specs.Prelude.{◌≡◌, ◌<◌, OnOk, IfOk, None, map};
ghost use Rattle.scenario_text.specs.After as after;
ghost use Rattle.scenario_text.specs.Fitting.{IsNamed};
ghost use Rattle.scenario_text.specs.Rules.{fault_of};
ghost use Rattle.scenario_text.specs.Sofar.{view_of, IsSmall, IsFew};
ghost use Rattle.scenario_text.specs.Text.{split};

use crate::keyword::Keyword;
use crate::lines::{is_skipped, read_number};
use crate::parts::{Parts, SPACE, part};
use crate::scenario::{Plan, PlanItem};
use crate::slot::{Kind, TIMES};
use crate::sofar::Sofar;
use crate::values::number;
use std::alloc::{AllocError, Global};
use verbs_types::Sequence;

impl Sofar {
    /// Adds a line that breaks no rule.
    pub fn add(&mut self, alloc: Global, line: &[u8]) -> Result<(), AllocError>
        requires small { IsSmall (view_of self.old) }
        requires left { (view_of self.old).count < 4194304 }
        requires good { fault_of (view_of self.old) line.now ≡ None }
        ensures added { OnOk result (view_of self.new ≡ after.after_line (view_of self.old) line.now) }
    {
        self.count += 1;
        if is_skipped(line) {
            return Ok(());
        }
        match self.keyword(part(line, SPACE, 0)) {
            Some(keyword) => self.add_keyword(alloc, keyword, line),
            None => Ok(()),
        }
    }

    fn add_keyword(
        &mut self,
        alloc: Global,
        keyword: Keyword,
        line: &[u8],
    ) -> Result<(), AllocError>
        requires few { IsFew (view_of self.old) }
        requires new { IsNamed (view_of self.old) keyword (split 32 line.now) }
        ensures added { OnOk result (view_of self.new ≡ after.add_line keyword (split 32 line.now) (view_of self.old)) }
    {
        if keyword.is_of_thread() {
            self.close_list(alloc)?;
        }
        self.note_limits(keyword, line);
        if let Some(section) = keyword.section() {
            self.section = section.next();
        }
        match keyword {
            Keyword::Eq => self.add_eq(alloc, line),
            Keyword::Pd => self.add_pd(alloc, line),
            Keyword::Cq => self.add_cq(alloc, line),
            Keyword::Qp => self.add_qp(alloc, line),
            Keyword::Connect => self.add_connect(line),
            Keyword::Thread => self.add_thread(alloc, line),
            Keyword::End => self.add_end(alloc),
            Keyword::Post => {
                self.add_post(line);
                Ok(())
            }
            Keyword::Item => self.add_request(alloc, line),
            Keyword::Recv => {
                self.add_recv(line);
                Ok(())
            }
            Keyword::Receive => self.add_receive(alloc, line),
            Keyword::Poll => self.add_poll(line),
            Keyword::Drain => self.add_drain(line),
            Keyword::Schedule => self.add_schedule(alloc, line),
            Keyword::Rounds => {
                self.plan = Plan::Rounds(number(line, 1));
                Ok(())
            }
        }
    }

    fn add_schedule(&mut self, alloc: Global, line: &[u8]) -> Result<(), AllocError>
        ensures added { OnOk result (view_of self.new ≡ after.add_schedule (split 32 line.now) (view_of self.old)) }
    {
        let mut fields = Parts::of(line, SPACE);
        fields.next_part();
        let items = self.items(alloc, fields)?;
        self.plan = Plan::Schedule(Sequence::from_vec(items));
        Ok(())
    }

    /// What the fields of a schedule stand for.
    fn items(&self, alloc: Global, mut fields: Parts) -> Result<Vec<PlanItem>, AllocError>
        ensures { IfOk result (λ items. items.items ≡ map (after.plan_item (view_of self.now)) fields.entry.left) }
    {
        let mut items = Vec::new(alloc);
        while let Some(field) = fields.next_part() {
            items.push(self.item(field))?;
        }
        Ok(items)
    }

    /// What a field of a schedule stands for.
    fn item(&self, field: &[u8]) -> PlanItem
        ensures { result ≡ after.plan_item (view_of self.now) field.now }
    {
        let actor = self.named(Kind::Actor, part(field, TIMES, 0));
        PlanItem {
            actor: u8::try_from(actor).unwrap_or(u8::MAX),
            times: read_number(part(field, TIMES, 1)),
        }
    }
}
