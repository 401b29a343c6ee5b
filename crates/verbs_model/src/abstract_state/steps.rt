//! What an entry makes of the state.
ghost use Rattle.std.specs.Prelude.{◌≡◌, ◌-◌, length, IsTrue, OnOk, OnErr};
ghost use Rattle.verbs_rules.specs.Rows as rows;
ghost use Rattle.verbs_rules.specs.Rules.{queue_lives, names_living};
ghost use Rattle.verbs_rules.specs.Same.{is_front};
ghost use Rattle.std.specs.List.{list_all};
ghost use Rattle.verbs_model.specs.Tables.{state_of};

use crate::abstract_state::Abstract;
use crate::abstract_state::ends::{end_each, reserve_each};
use crate::work::act_of;
use std::alloc::AllocError;
use verbs_types::{Act, Completion, Item, Queue};

impl Abstract {
    /// The items are posted. Where memory runs out nothing has changed.
    pub(crate) fn post(&mut self, queue: Queue, items: &[Item]) -> Result<(), AllocError>
        requires { IsTrue (queue_lives (state_of self.old) queue) }
        ensures made { OnOk result
            (state_of self.new ≡ rows.post (state_of self.old) queue items.now) }
        ensures unchanged { OnErr result (self.new ≡ self.old) }
    {
        let place = self.place(queue);
        self.queues[place].post(items)
    }

    /// The queue's requests are retired up to this count.
    pub(crate) fn retire(&mut self, queue: Queue, count: u64)
        requires { IsTrue (queue_lives (state_of self.old) queue) }
        ensures { state_of self.new ≡ rows.retire (state_of self.old) queue count }
    {
        let place = self.place(queue);
        self.queues[place].retire(count);
    }

    /// A poll took these completions from the front. Where memory runs out nothing has changed.
    pub(crate) fn poll(&mut self, cq: u32, completions: &[Completion]) -> Result<(), AllocError>
        requires lives { IsTrue ((state_of self.old).device.completions_live cq) }
        requires named { IsTrue (list_all (names_living (state_of self.old)) completions.now) }
        requires front { IsTrue (is_front completions.now ((state_of self.old).unpolled cq)) }
        ensures made { OnOk result (state_of self.new ≡ rows.poll (state_of self.old) cq completions.now) }
        ensures unchanged { OnErr result (self.new ≡ self.old) }
    {
        let polled = &mut self.completions[cq as usize];
        let taken = &polled.unpolled()[..completions.len()];
        reserve_each(&mut self.queues, taken)?;
        end_each(&mut self.queues, taken);
        polled.poll(completions.len());
        Ok(())
    }

    /// The consumer index is now this one.
    pub(crate) fn ack(&mut self, cq: u32, index: u64)
        requires lives { IsTrue ((state_of self.old).device.completions_live cq) }
        requires oldest { index ≡ (state_of self.old).device.produced cq - length ((state_of self.old).unpolled cq) }
        ensures { state_of self.new ≡ rows.ack (state_of self.old) cq index }
    {
        self.completions[cq as usize].ack(index);
    }

    /// The adapter takes the request of this number, and owes for it.
    pub(crate) fn fetch(&mut self, queue: Queue, number: u64)
        requires { IsTrue (queue_lives (state_of self.old) queue) }
        ensures { state_of self.new ≡ rows.fetch (state_of self.old) queue number }
    {
        if let Queue::Send(qp) = queue {
            let item = self.queue(queue).item(number);
            let owed = act_of(self.pair(qp), qp, number, item);
            let place = self.place(queue);
            self.queues[place].take(number);
            self.owed = owed;
        }
    }

    /// The completion that the adapter owes is written. Where memory runs out nothing has changed.
    pub(crate) fn publish(&mut self, cq: u32) -> Result<(), AllocError>
        requires { IsTrue ((state_of self.old).device.completions_live cq) }
        ensures made { OnOk result (state_of self.new ≡ rows.publish (state_of self.old) cq (state_of self.old).device.owed) }
        ensures unchanged { OnErr result (self.new ≡ self.old) }
    {
        if let Some(Act::Complete { owed, .. }) = self.owed {
            self.completions[cq as usize].publish(owed)?;
            self.owed = None;
        }
        Ok(())
    }
}
