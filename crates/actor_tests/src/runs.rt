//! Runs of a scenario in which one thread posts and another drains.

use bus_core::BusOp;
use sample_objects::words;
use scenario_text::parse_scenario;
use std::alloc::Global;
use std::test::Fail;
use world_core::{Outcome, World};

/// Thread `a` posts a request that wants a completion, and thread `b` waits for it.
const POST_AND_DRAIN: &[u8] = b"eq e 1
pd p
cq c 2 2 e 0
qp q p c c 2 rq:0 1 0
connect q q
thread a
post q
+ 5 nop c
end
thread b
drain c 1
end
";

/// What a run by this plan leaves.
fn outcome_of(alloc: Global, plan: &[u8]) -> Result<Outcome, Fail> {
    let mut text = Vec::from_slice(alloc, POST_AND_DRAIN)?;
    text.extend_from_slice(plan)?;
    let scenario = parse_scenario(alloc, text.as_slice())?;
    let mut world = World::from_scenario(alloc, &scenario)?;
    world.run_schedule();
    Ok(world.finish(alloc)?)
}

/// The actor, the address and the operation with this place in the trace, counted from 0.
fn made(outcome: &Outcome, place: usize) -> Option<(u8, u32, BusOp)> {
    let entry = outcome.trace.as_slice().get(place)?.entry();
    Some((entry.actor, entry.addr, entry.op))
}

/// The eight words of the entry are stored behind a look at the tail, then its id and its head word. The record and the
/// register follow, and at last the thread's bit.
#[test]
fn post_stores_the_record_last(rt: HostRuntime) -> Result<(), Fail> {
    let outcome = outcome_of(rt.alloc(), b"schedule a*14\n")?;
    assert_eq!(rt; outcome.trace.len(), 14);
    let operations = [0, 1, 9, 10, 11, 12, 13].map(|k| made(&outcome, k));
    let wanted = [
        Some((1, words::SEND_TAIL, BusOp::Load)),
        Some((1, words::SEND_RING, BusOp::Store(0x0000_0000_0000_4001))),
        Some((1, words::SEND_IDS, BusOp::Store(5))),
        Some((1, words::SEND_HEADS, BusOp::Store(0))),
        Some((1, words::SEND_RECORD, BusOp::Store(1))),
        Some((1, words::REGISTER, BusOp::Store(0x0000_0000_0000_4001))),
        Some((1, words::ENDED, BusOp::SetBits(2))),
    ];
    assert_eq!(rt; operations, wanted);
    Ok(())
}

/// The adapter looks at the register and the record, reads the entry, and where the consumer index leaves room publishes
/// the completion, its owner word last.
#[test]
fn adapter_publishes_the_owner_word_last(rt: HostRuntime) -> Result<(), Fail> {
    let outcome = outcome_of(rt.alloc(), b"schedule a*13 dev*19\n")?;
    let operations = [13, 14, 15, 22, 23, 24, 31].map(|k| made(&outcome, k));
    let wanted = [
        Some((0, words::REGISTER, BusOp::Load)),
        Some((0, words::SEND_RECORD, BusOp::Load)),
        Some((0, words::SEND_RING, BusOp::Load)),
        Some((0, words::SEND_RING + 7, BusOp::Load)),
        Some((0, words::CONSUMER_INDEX, BusOp::Load)),
        Some((0, words::FIRST_AREA, BusOp::Store(0))),
        Some((
            0,
            words::FIRST_OWNER_WORD,
            BusOp::Store(0x0000_0040_0000_0000),
        )),
    ];
    assert_eq!(rt; operations, wanted);
    Ok(())
}

/// The drain looks in vain until the completion is published. It loads its words, and the id and the head word of its
/// request, and then stores the tail and the consumer index.
#[test]
fn drain_waits_for_the_completion(rt: HostRuntime) -> Result<(), Fail> {
    let outcome = outcome_of(rt.alloc(), b"schedule b*2 a*13 dev*19 b*13\n")?;
    assert_eq!(rt; outcome.trace.len(), 47);
    let operations = [0, 1, 34, 42, 43, 44, 45, 46].map(|k| made(&outcome, k));
    let wanted = [
        Some((2, words::FIRST_OWNER_WORD, BusOp::Load)),
        Some((2, words::FIRST_OWNER_WORD, BusOp::Load)),
        Some((2, words::FIRST_OWNER_WORD, BusOp::Load)),
        Some((2, words::SEND_IDS, BusOp::Load)),
        Some((2, words::SEND_HEADS, BusOp::Load)),
        Some((2, words::SEND_TAIL, BusOp::Store(1))),
        Some((2, words::CONSUMER_INDEX, BusOp::Store(1))),
        Some((2, words::ENDED, BusOp::SetBits(4))),
    ];
    assert_eq!(rt; operations, wanted);
    Ok(())
}

/// A post, a fetch, a publication, a poll, a retirement and an acknowledgement.
#[test]
fn each_entry_has_a_marked_operation(rt: HostRuntime) -> Result<(), Fail> {
    let outcome = outcome_of(rt.alloc(), b"rounds 100\n")?;
    assert_eq!(rt; outcome.history.len(), 6);
    assert_eq!(rt; outcome.marks.len(), outcome.trace.len());
    let mut marked: usize = 0;
    for mark in outcome.marks.as_slice() {
        if *mark {
            marked = usize::saturating_add(marked, 1);
        }
    }
    assert_eq!(rt; marked, 6);
    Ok(())
}
