//! A shared receive queue on a plain bus.
ghost use Rattle.std.specs.Prelude.{◌≡◌, ◌+◌, ◌≤◌, ◌<◌, ◌^◌, length, None};

use bus_core::{BusOp, PlainBus, Step};
use srq_list::{SrqDevice, SrqFreed, SrqFreer, SrqPlace, SrqPosted, SrqPoster, SrqTaken};
use std::process::Abort;
use std::test::Fail;

/// Four slots of four words.
const FOUR: SrqPlace = SrqPlace {
    base: 0,
    log: 2,
    stride: 4,
    ids: 16,
    dbr: 20,
    tail: 21,
};

/// Two slots of four words.
const TWO: SrqPlace = SrqPlace {
    base: 0,
    log: 1,
    stride: 4,
    ids: 8,
    dbr: 10,
    tail: 11,
};

const ENTRY: [u64; 16] = [5, 6, 0, 0, 0, 0, 0, 0, 0, 0, 0, 0, 0, 0, 0, 0];

/// Posts one receive to the queue of four slots.
fn post(rt: &impl Abort, poster: &mut SrqPoster, bus: &mut PlainBus, id: u64)
    requires idle { poster.old.task ≡ None }
    requires place { poster.old.place ≡ FOUR }
    requires count { poster.old.side.rung + poster.old.side.written < 2 ^ 32 }
    requires words { length bus.old.start ≡ 22 }
    requires room { 5 ≤ bus.old.room }
    ensures idle { poster.new.task ≡ None }
    ensures place { poster.new.place ≡ FOUR }
    ensures count { poster.new.side.rung + poster.new.side.written ≡ poster.old.side.rung + poster.old.side.written + 1 }
    ensures words { length bus.new.start ≡ 22 }
    ensures room { bus.new.room + 5 ≡ bus.old.room }
{
    poster.begin_post(ENTRY, id);
    assert_eq!(rt; poster.turn(bus), Step::More);
    assert_eq!(rt; poster.turn(bus), Step::More);
    assert_eq!(rt; poster.turn(bus), Step::More);
    assert_eq!(rt; poster.turn(bus), Step::More);
    assert_eq!(rt; poster.turn(bus), Step::Done(SrqPosted::Wrote));
}

#[test]
fn fourth_receive_finds_four_slots_full(rt: HostRuntime) -> Result<(), Fail> {
    let mut bus = PlainBus::new(rt.alloc(), 22, 16)?;
    bus.set_start(0, 0x1_0000_0000);
    bus.set_start(4, 0x2_0000_0000);
    bus.set_start(8, 0x3_0000_0000);
    bus.set_start(21, 3);
    let mut poster = SrqPoster::new(FOUR, 0);
    post(&rt, &mut poster, &mut bus, 0);
    post(&rt, &mut poster, &mut bus, 1);
    post(&rt, &mut poster, &mut bus, 2);
    poster.begin_post(ENTRY, 3);
    assert_eq!(rt;
        poster.turn(&mut bus),
        Step::Done(SrqPosted::Full { at: 3 })
    );
    assert_eq!(rt; poster.seen().a, 0);
    Ok(())
}

#[test]
fn receive_goes_round(rt: HostRuntime) -> Result<(), Fail> {
    let mut bus = PlainBus::new(rt.alloc(), 12, 14)?;
    bus.set_start(0, 0x1_0000_0000);
    bus.set_start(10, 65535);
    bus.set_start(11, 1);
    let mut poster = SrqPoster::new(TWO, 65535);
    poster.begin_post(ENTRY, 90);
    assert_eq!(rt; poster.turn(&mut bus), Step::More);
    assert_eq!(rt; poster.turn(&mut bus), Step::More);
    assert_eq!(rt; poster.turn(&mut bus), Step::More);
    assert_eq!(rt; poster.turn(&mut bus), Step::More);
    assert_eq!(rt; poster.turn(&mut bus), Step::Done(SrqPosted::Wrote));
    poster.begin_ring();
    assert_eq!(rt; poster.turn(&mut bus), Step::Done(SrqPosted::Rung));
    let mut device = SrqDevice::new(TWO, 65535);
    device.begin_take();
    assert_eq!(rt; device.turn(&mut bus), Step::More);
    assert_eq!(rt; device.turn(&mut bus), Step::More);
    assert_eq!(rt; device.turn(&mut bus), Step::More);
    assert_eq!(rt;
        device.turn(&mut bus),
        Step::Done(SrqTaken::Taken {
            slot: 0,
            words: ENTRY
        })
    );
    device.begin_take();
    assert_eq!(rt;
        device.turn(&mut bus),
        Step::Done(SrqTaken::NoneThere { count: 0 })
    );
    let mut freer = SrqFreer::new(TWO);
    freer.begin_lookup(0);
    assert_eq!(rt;
        freer.turn(&mut bus),
        Step::Done(SrqFreed::Found { id: 90 })
    );
    freer.begin_free(0);
    assert_eq!(rt; freer.turn(&mut bus), Step::More);
    assert_eq!(rt; freer.turn(&mut bus), Step::Done(SrqFreed::Freed));
    let trace = bus.trace();
    assert_eq!(rt; trace.len(), 14);
    assert_eq!(rt; trace[5].entry().op, BusOp::Store(0));
    assert_eq!(rt; trace[12].entry().addr, 4);
    assert_eq!(rt; trace[12].entry().op, BusOp::Store(0));
    assert_eq!(rt; trace[13].entry().addr, 11);
    Ok(())
}
