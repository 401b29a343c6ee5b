//! Which rule a line breaks first.
ghost use Rattle.std.specs.Prelude.{◌≡◌};
ghost use Rattle.std.specs.List.{list_all};
ghost use Rattle.scenario_text.specs.Rules as rules;
ghost use Rattle.scenario_text.specs.Sofar.{view_of};
ghost use Rattle.scenario_text.specs.Text.{split};

use crate::fault::TextRule;
use crate::keyword::Keyword;
use crate::lines::{are_text_bytes, is_skipped};
use crate::parts::{Parts, SPACE, part};
use crate::slot::{Kind, Slot, TIMES};
use crate::sofar::{Place, Sofar};

impl Sofar {
    /// The first rule that this line breaks.
    pub fn fault(&self, line: &[u8]) -> Option<TextRule>
        ensures { result ≡ rules.fault_of (view_of self.now) line.now }
    {
        if !are_text_bytes(line) {
            return Some(TextRule::Byte);
        }
        if is_skipped(line) {
            return None;
        }
        if !self.is_built(line) {
            return Some(TextRule::NotBuilt);
        }
        match self.keyword(part(line, SPACE, 0)) {
            Some(keyword) => self.first_broken(keyword, line),
            None => Some(TextRule::Form),
        }
    }

    /// The first rule that a line with this first word breaks, if its bytes are good and it is built.
    fn first_broken(&self, keyword: Keyword, line: &[u8]) -> Option<TextRule>
        ensures { result ≡ rules.first_broken (view_of self.now) keyword (split 32 line.now) }
    {
        if !self.may_stand(keyword) || !self.fits(TextRule::Form, keyword, line) {
            Some(TextRule::Form)
        } else if !self.fits(TextRule::Number, keyword, line) {
            Some(TextRule::Number)
        } else if !self.fits(TextRule::Double, keyword, line) {
            Some(TextRule::Double)
        } else if !self.fits(TextRule::Name, keyword, line) {
            Some(TextRule::Name)
        } else if !self.fits(TextRule::Side, keyword, line) {
            Some(TextRule::Side)
        } else {
            None
        }
    }

    /// Whether a line with this first word may stand here.
    fn may_stand(&self, keyword: Keyword) -> bool
        ensures { result ≡ rules.may_stand (view_of self.now) keyword }
    {
        match self.place {
            Place::Outside => match keyword.section() {
                Some(section) => section.is_from(self.section),
                None => false,
            },
            Place::InThread => keyword.is_of_thread(),
            Place::InPost(_) => {
                keyword == Keyword::Item || keyword.is_of_thread() && !self.requests.is_empty()
            }
            Place::InRecv(_) => {
                keyword == Keyword::Receive || keyword.is_of_thread() && !self.receives.is_empty()
            }
        }
    }

    /// Whether each field after the first word keeps the rule in its place.
    fn fits(&self, rule: TextRule, keyword: Keyword, line: &[u8]) -> bool
        ensures { result ≡ rules.fits (view_of self.now) rule keyword (split 32 line.now) }
    {
        let mut fields = Parts::of(line, SPACE);
        fields.next_part();
        self.all_keep(rule, keyword.slots(), keyword.more(), fields)
    }

    /// The same of these fields, in these places and those that may follow.
    fn all_keep(
        &self,
        rule: TextRule,
        slots: &[Slot],
        more: Option<Slot>,
        mut fields: Parts,
    ) -> bool
        ensures { result ≡ rules.all_keep (rules.keeps (view_of self.now) rule) slots.now more fields.entry.left }
    {
        match slots {
            [slot, others @ ..] => match fields.next_part() {
                Some(field) => {
                    self.keeps(rule, *slot, field) && self.all_keep(rule, others, more, fields)
                }
                None => false,
            },
            [] => self.all_more(rule, more, fields),
        }
    }

    fn all_more(&self, rule: TextRule, more: Option<Slot>, mut fields: Parts) -> bool
        ensures { result ≡ rules.all_more (rules.keeps (view_of self.now) rule) more fields.entry.left }
    {
        match more {
            Some(slot) => self.each_keeps(rule, slot, fields),
            None => fields.next_part().is_none(),
        }
    }

    fn each_keeps(&self, rule: TextRule, slot: Slot, mut fields: Parts) -> bool
        ensures { result ≡ list_all (rules.keeps (view_of self.now) rule slot) fields.entry.left }
    {
        while let Some(field) = fields.next_part() {
            if !self.keeps(rule, slot, field) {
                return false;
            }
        }
        true
    }

    /// Whether a field keeps the rule in its place.
    fn keeps(&self, rule: TextRule, slot: Slot, field: &[u8]) -> bool
        ensures { result ≡ rules.keeps (view_of self.now) rule slot field.now }
    {
        match rule {
            TextRule::Form => slot.is_formed(field),
            TextRule::Number => slot.has_number(field),
            TextRule::Double => self.is_new(slot, field),
            TextRule::Name => self.is_known(slot, field),
            TextRule::Side => self.is_own(slot, field),
            TextRule::Byte | TextRule::Missing | TextRule::NotBuilt => true,
        }
    }

    /// Whether nothing was given this name, or connected this queue pair, before.
    fn is_new(&self, slot: Slot, field: &[u8]) -> bool
        ensures { result ≡ rules.is_new (view_of self.now) slot field.now }
    {
        match slot {
            Slot::NewName => self.names.find(field).is_none(),
            Slot::Pair => match self.names.number(Kind::Qp, field) {
                Some(qp) => !self.pair_use(qp).connected,
                None => true,
            },
            _ => true,
        }
    }

    /// Whether an earlier line gives the name to what is meant here.
    fn is_known(&self, slot: Slot, field: &[u8]) -> bool
        ensures { result ≡ rules.is_known (view_of self.now) slot field.now }
    {
        match slot {
            Slot::Name(kind) => self.names.number(kind, field).is_some(),
            Slot::Pair | Slot::Poster | Slot::Receiver => {
                self.names.number(Kind::Qp, field).is_some()
            }
            Slot::Poller => self.names.number(Kind::Cq, field).is_some(),
            Slot::Turns => {
                let name = part(field, TIMES, 0);
                self.names.number(Kind::Actor, name).is_some()
            }
            _ => true,
        }
    }

    /// Whether no other thread uses the side.
    fn is_own(&self, slot: Slot, field: &[u8]) -> bool
        ensures { result ≡ rules.is_own (view_of self.now) slot field.now }
    {
        match slot {
            Slot::Poster => self.is_this(self.pair_use(self.qp(field)).poster),
            Slot::Receiver => self.is_this(self.pair_use(self.qp(field)).receiver),
            Slot::Poller => self.is_this(self.queue_use(self.cq(field)).poller),
            _ => true,
        }
    }

    /// Whether it is no other thread than the one whose lines are read.
    fn is_this(&self, user: Option<u32>) -> bool
        ensures { result ≡ rules.is_this (view_of self.now) user }
    {
        match user {
            Some(thread) => thread as usize == self.threads.len(),
            None => true,
        }
    }
}
