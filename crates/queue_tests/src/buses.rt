//! A bus.

use bus_core::{BusEntry, BusOp, BusPort, PlainBus};
use std::test::Fail;

/// Actor 3's operation on word 1.
fn entry(op: BusOp, old: Option<u64>) -> BusEntry {
    BusEntry {
        actor: 3,
        addr: 1,
        op,
        old,
    }
}

#[test]
fn each_operation_leaves_its_entry(rt: HostRuntime) -> Result<(), Fail> {
    let mut bus = PlainBus::new(rt.alloc(), 2, 4)?;
    bus.set_start(1, 0x56);
    bus.set_actor(3);
    assert_eq!(rt; bus.load(1), 0x56);
    bus.store(1, 0x0f);
    assert_eq!(rt; bus.set_bits(1, 0xf1), 0x0f);
    assert_eq!(rt; bus.swap(1, 7), 0xff);
    let made = [
        entry(BusOp::Load, Some(0x56)),
        entry(BusOp::Store(0x0f), None),
        entry(BusOp::SetBits(0xf1), Some(0x0f)),
        entry(BusOp::Swap(7), Some(0xff)),
    ];
    let trace = bus.trace();
    assert_eq!(rt; trace.len(), made.len());
    for (kept, entry) in trace.iter().zip(&made) {
        assert_eq!(rt; kept.entry(), *entry);
    }
    Ok(())
}
