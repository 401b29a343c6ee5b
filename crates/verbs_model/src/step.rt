//! The step of verbs queues.
ghost use Rattle.std.specs.Prelude.{◌≡◌, ◌↔◌, Some, OnOk, OnErr, IsErrOf};
ghost use Rattle.verbs_types.specs.declared.entry.Illegal.{Illegal};
ghost use Rattle.verbs_rules.specs.Step.{MayStep, after_entry, first_fault};
ghost use Rattle.verbs_model.specs.Tables.{state_of};

use crate::abstract_state::Abstract;
use std::alloc::AllocError;
use verbs_types::{CheckFault, Entry, Illegal, What};

impl Abstract {
    /// One step: what the entry makes is made. `at` is the entry's place in its history.
    ///
    /// `Illegal` says that the entry has no step here, and by which rule first. After an error the state is
    /// as before.
    pub fn apply(&mut self, at: u64, e: &Entry) -> Result<(), CheckFault>
        ensures allowed { OnOk result (MayStep (state_of self.old) e.now) }
        ensures made { OnOk result (state_of self.new ≡ after_entry (state_of self.old) e.now) }
        ensures illegal { (i : Illegal) → IsErrOf result (CheckFault.Illegal i)
            ↔ ((i.«at» ≡ «at») × (first_fault (state_of self.old) e.now ≡ Some i.rule)) }
        ensures unchanged { OnErr result (self.new ≡ self.old) }
    {
        if let Some(rule) = self.first_fault(e) {
            return Err(CheckFault::Illegal(Illegal { at, rule }));
        }
        match self.make(e) {
            Ok(()) => Ok(()),
            Err(_) => Err(CheckFault::NoMemory),
        }
    }

    /// What an entry makes that breaks no rule. Where memory runs out nothing has changed.
    fn make(&mut self, e: &Entry) -> Result<(), AllocError>
        requires { MayStep (state_of self.old) e.now }
        ensures made { OnOk result (state_of self.new ≡ after_entry (state_of self.old) e.now) }
        ensures unchanged { OnErr result (self.new ≡ self.old) }
    {
        match &e.what {
            What::Post { queue, items } => self.post(*queue, items.as_slice())?,
            What::PostFull { .. } => {}
            What::Poll {
                cq,
                completions,
                ..
            } => self.poll(*cq, completions.as_slice())?,
            What::Retire { queue, count } => self.retire(*queue, *count),
            What::Ack { cq, index } => self.ack(*cq, *index),
            What::Fetch { queue, number } => self.fetch(*queue, *number),
            What::Publish { cq, .. } => self.publish(*cq)?,
            _ => {}
        }
        Ok(())
    }
}
