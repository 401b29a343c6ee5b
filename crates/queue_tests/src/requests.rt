//! A send queue across the end of its ring and of its counters.

use bus_core::{BusOp, PlainBus, Step};
use counted_ring::{Posted, Retired, WqDevice, WqPlace, WqPoster, WqRetirer, WqSeen};
use std::test::Fail;
use work_entries::SendWords;

const RING: u32 = 0;

const IDS: u32 = RING + 8;

const HEADS: u32 = IDS + 4;

const TAIL: u32 = HEADS + 4;

const RECORD: u32 = TAIL + 1;

const REGISTER: u32 = RECORD + 1;

const COUNT: u32 = REGISTER + 1;

/// A queue of at most one request, with four blocks of two words.
const QUEUE: WqPlace = WqPlace {
    ring: RING,
    blocks: 4,
    stride: 2,
    ids: IDS,
    heads: HEADS,
    tail: TAIL,
    dbr: RECORD,
    reg: Some(REGISTER),
    max_post: 1,
};

/// The last block of the ring, whose index is 65535 here.
const LAST: u32 = 3;

/// An entry of two blocks: its control segment counts five units.
const TWO_BLOCKS: SendWords = SendWords {
    blocks: 2,
    words: [
        5, 6, 7, 8, 0, 0, 0, 0, 0, 0, 0, 0, 0, 0, 0, 0, 0, 0, 0, 0, 0, 0, 0, 0, 0, 0, 0, 0, 0, 0,
        0, 0,
    ],
};

#[test]
fn post_goes_across_the_end(rt: HostRuntime) -> Result<(), Fail> {
    let mut bus = PlainBus::new(rt.alloc(), COUNT, 9)?;
    let mut poster = WqPoster::new(QUEUE, 65535);
    poster.begin_post(TWO_BLOCKS, 90);
    assert_eq!(rt; poster.turn(&mut bus), Step::More);
    assert_eq!(rt; poster.turn(&mut bus), Step::More);
    assert_eq!(rt; poster.turn(&mut bus), Step::More);
    assert_eq!(rt; poster.turn(&mut bus), Step::More);
    assert_eq!(rt; poster.turn(&mut bus), Step::More);
    assert_eq!(rt; poster.turn(&mut bus), Step::More);
    assert_eq!(rt; poster.turn(&mut bus), Step::Done(Posted::Wrote));
    poster.begin_ring();
    assert_eq!(rt; poster.turn(&mut bus), Step::More);
    assert_eq!(rt; poster.turn(&mut bus), Step::Done(Posted::Rung));
    let trace = bus.trace();
    assert_eq!(rt; trace.len(), 9);
    assert_eq!(rt; trace[1].entry().addr, RING + 2 * LAST);
    assert_eq!(rt; trace[3].entry().addr, RING);
    assert_eq!(rt; trace[5].entry().addr, IDS + LAST);
    assert_eq!(rt; trace[7].entry().op, BusOp::Store(1));
    assert_eq!(rt; trace[8].entry().op, BusOp::Store(5));
    Ok(())
}

#[test]
fn device_reads_across_the_end(rt: HostRuntime) -> Result<(), Fail> {
    let mut bus = PlainBus::new(rt.alloc(), COUNT, 5)?;
    bus.set_start(RECORD, 1);
    bus.set_start(RING + 2 * LAST, 5);
    bus.set_start(RING + 2 * LAST + 1, 6);
    bus.set_start(RING, 7);
    bus.set_start(RING + 1, 8);
    let mut device = WqDevice::new(QUEUE, 65535);
    device.begin_record();
    assert_eq!(rt;
        device.turn(&mut bus),
        Step::Done(WqSeen::Count { ready: 2 })
    );
    device.begin_read();
    assert_eq!(rt; device.turn(&mut bus), Step::More);
    assert_eq!(rt; device.turn(&mut bus), Step::More);
    assert_eq!(rt; device.turn(&mut bus), Step::More);
    assert_eq!(rt; device.turn(&mut bus), Step::Done(WqSeen::Read(TWO_BLOCKS)));
    assert_eq!(rt; device.seen().a, 65537);
    Ok(())
}

#[test]
fn request_retires_by_its_head_word(rt: HostRuntime) -> Result<(), Fail> {
    let mut bus = PlainBus::new(rt.alloc(), COUNT, 3)?;
    bus.set_start(IDS + LAST, 90);
    bus.set_start(HEADS + LAST, 4);
    let mut retirer = WqRetirer::new(QUEUE, 0);
    retirer.begin_lookup(65535);
    assert_eq!(rt; retirer.turn(&mut bus), Step::More);
    assert_eq!(rt;
        retirer.turn(&mut bus),
        Step::Done(Retired::Found { id: 90, end: 5 })
    );
    retirer.begin_retire(5);
    assert_eq!(rt;
        retirer.turn(&mut bus),
        Step::Done(Retired::Tail { tail: 5 })
    );
    Ok(())
}
