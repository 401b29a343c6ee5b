//! Rings of entries.

use bus_core::{BusPort, PlainBus, Step};
use owner_ring::{RingConsumer, RingPlace, RingProducer, Taken, distance};
use std::test::Fail;

const FIRST_ENTRY: u32 = 0;

const CONSUMER_INDEX: u32 = FIRST_ENTRY + 32;

/// A ring of four completions, with its record behind them.
const QUEUE: RingPlace = RingPlace {
    base: FIRST_ENTRY,
    log: 2,
    ci: CONSUMER_INDEX,
    event: false,
};

#[test]
fn owner_bits_tell_the_rounds(rt: HostRuntime) {
    assert_eq!(rt;
        (QUEUE.slot(5, 0), QUEUE.owner_bit(5)),
        (FIRST_ENTRY + 8, 1)
    );
    assert_eq!(rt; (QUEUE.slot(8, 0), QUEUE.owner_bit(8)), (FIRST_ENTRY, 0));
    assert_eq!(rt; distance(0x100_0002, 0xff_fffe), QUEUE.size());
    for index in 0..9 {
        assert!(rt; !QUEUE.is_owned(index, 0xf0));
    }
}

#[test]
fn events_are_written_unasked(rt: HostRuntime) -> Result<(), Fail> {
    let mut bus = PlainBus::new(rt.alloc(), CONSUMER_INDEX + 1, 4)?;
    let place = RingPlace {
        event: true,
        ..QUEUE
    };
    let mut producer = RingProducer::new(place, 0);
    producer.begin_write([0xabcc; 8]);
    assert_eq!(rt; producer.turn(&mut bus), Step::More);
    let mut consumer = RingConsumer::new(place, 0x201);
    consumer.begin_register(3);
    assert_eq!(rt;
        consumer.turn(&mut bus),
        Step::Done(Taken::Acked { ci: 0x201 })
    );
    assert_eq!(rt; bus.load(FIRST_ENTRY), 0xabcc);
    assert_eq!(rt; bus.load(CONSUMER_INDEX), 0x300_0201);
    Ok(())
}
