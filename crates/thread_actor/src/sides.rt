//! The sides of a thread.
ghost use Rattle.std.specs.Prelude.{◌≡◌, ◌≤◌, ◌-◌, ◌^◌, IsTrue, IfOk, OnOk, None, length, replicate};
ghost use Rattle.std.specs.List.{AllByRecursion};
ghost use Rattle.verbs_types.specs.declared.completion.Queue.TheVariants.{Send, Recv};
ghost use Rattle.verbs_types.specs.Lines.{is_among};
ghost use Rattle.verbs_types.specs.declared.declaration.TheConstants.{FIRST_QP};
ghost use Rattle.actor_map.specs.Map.{map_of};
ghost use Rattle.actor_map.specs.Sizes.{words_of};
ghost use Rattle.thread_actor.specs.Calls.{CanCall};
ghost use Rattle.thread_actor.specs.Inside.{sides_of};
ghost use Rattle.thread_actor.specs.NewSides.{AreNew, Adds, AddsPost, AddsPoll};
ghost use Rattle.thread_actor.specs.Stands.{HasSide};

use actor_map::AddressMap;
use provider_poll::PollSide;
use provider_post::{PostSide, RecvSide};
use std::alloc::Global;
use verbs_types::{Call, Declared, FIRST_QP, NoMemory};

/// The sides of a thread, by place: of the send and the receive queue of each queue pair, and of each completion
/// queue. There are those that its calls name.
#[derive(Drop)]
pub(crate) struct Sides {
    pub sends: Vec<Option<PostSide>>,
    pub receives: Vec<Option<RecvSide>>,
    pub polls: Vec<Option<PollSide>>,
}

/// The place of a queue pair.
pub(crate) fn place_of(qp: u32) -> usize
    requires { FIRST_QP ≤ qp }
    ensures { result ≡ qp - FIRST_QP }
{
    (qp - FIRST_QP) as usize
}

impl Sides {
    /// The idle sides that these calls name.
    pub fn new(
        alloc: Global,
        d: &Declared,
        map: &AddressMap,
        calls: &[Call],
    ) -> Result<Sides, NoMemory>
        requires map { map.now ≡ map_of d.now }
        requires fits { words_of d.now ≤ 2 ^ 20 }
        requires calls { AllByRecursion (CanCall d.now) calls.now }
        ensures fresh { IfOk result (λ s. AreNew d.now (sides_of s)) }
        ensures has { IfOk result (λ s. AllByRecursion (HasSide (sides_of s)) calls.now) }
    {
        let mut sides = Sides::none(alloc, d)?;
        for call in calls {
            sides.add(alloc, d, map, call)?;
        }
        Ok(sides)
    }

    /// No sides.
    fn none(alloc: Global, d: &Declared) -> Result<Sides, NoMemory>
        ensures { IfOk result (λ s. AreNew d.now (sides_of s)) }
    {
        let pairs = d.lines().qps.len();
        Ok(Sides {
            sends: none_of(alloc, pairs)?,
            receives: none_of(alloc, pairs)?,
            polls: none_of(alloc, d.lines().cqs.len())?,
        })
    }

    /// Adds the side that a call names, where it is not there.
    fn add(
        &mut self,
        alloc: Global,
        d: &Declared,
        map: &AddressMap,
        call: &Call,
    ) -> Result<(), NoMemory>
        requires map { map.now ≡ map_of d.now }
        requires fits { words_of d.now ≤ 2 ^ 20 }
        requires can { CanCall d.now call.now }
        requires fresh { AreNew d.now (sides_of self.old) }
        ensures { OnOk result (Adds d.now (sides_of self.old) (sides_of self.new) call.now) }
    {
        match call {
            Call::Post { qp, .. } => {
                self.add_send(d, map, *qp);
                Ok(())
            }
            Call::Recv { qp, .. } => {
                self.add_receive(d, map, *qp);
                Ok(())
            }
            Call::Poll { cq, .. } => self.add_poll(alloc, d, map, *cq),
            Call::Drain { cq, .. } => self.add_poll(alloc, d, map, *cq),
        }
    }

    fn add_send(&mut self, d: &Declared, map: &AddressMap, qp: u32)
        requires map { map.now ≡ map_of d.now }
        requires fits { words_of d.now ≤ 2 ^ 20 }
        requires object { IsTrue (is_among FIRST_QP (length d.now.qps) qp) }
        requires fresh { AreNew d.now (sides_of self.old) }
        ensures { AddsPost d.now (sides_of self.old) (sides_of self.new) (Send qp) }
    {
        let place = place_of(qp);
        if self.sends[place].is_none() {
            self.sends[place] = Some(PostSide::new(d, map, qp));
        }
    }

    fn add_receive(&mut self, d: &Declared, map: &AddressMap, qp: u32)
        requires map { map.now ≡ map_of d.now }
        requires fits { words_of d.now ≤ 2 ^ 20 }
        requires object { IsTrue (is_among FIRST_QP (length d.now.qps) qp) }
        requires fresh { AreNew d.now (sides_of self.old) }
        ensures { AddsPost d.now (sides_of self.old) (sides_of self.new) (Recv qp) }
    {
        let place = place_of(qp);
        if self.receives[place].is_none() {
            self.receives[place] = Some(RecvSide::new(d, map, qp));
        }
    }

    fn add_poll(
        &mut self,
        alloc: Global,
        d: &Declared,
        map: &AddressMap,
        cq: u32,
    ) -> Result<(), NoMemory>
        requires map { map.now ≡ map_of d.now }
        requires fits { words_of d.now ≤ 2 ^ 20 }
        requires object { IsTrue (is_among 0 (length d.now.cqs) cq) }
        requires fresh { AreNew d.now (sides_of self.old) }
        ensures { OnOk result (AddsPoll d.now (sides_of self.old) (sides_of self.new) cq) }
    {
        let place = cq as usize;
        if self.polls[place].is_none() {
            self.polls[place] = Some(PollSide::new(alloc, d, map, cq)?);
        }
        Ok(())
    }
}

/// `count` places without a side.
fn none_of<S: Drop>(alloc: Global, count: usize) -> Result<Vec<Option<S>>, NoMemory>
    ensures { IfOk result (λ sides. sides.items ≡ replicate count None) }
{
    let mut sides = Vec::new(alloc);
    for _ in 0..count {
        match sides.push(None) {
            Ok(()) => {}
            Err(_) => return Err(NoMemory),
        }
    }
    Ok(sides)
}
