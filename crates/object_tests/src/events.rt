//! Turns of both sides of an event queue.
use bus_core::{BusOp, BusPort, PlainBus, Step};
use eq_pair::{EqDevice, EqHost, EqPlace, EqTaken};
use std::test::Fail;
use verbs_types::EventRecord;

/// Event queue 3: four entries from word 17408 on, and its register behind them.
const QUEUE: EqPlace = EqPlace {
    base: 17408,
    log: 2,
    reg: 17440,
    number: 3,
};

const WORDS: u32 = 17441;

/// Turns after which a machine is still at work.
macro_rules! goes_on {
    ($rt:ident, $machine:ident, $bus:ident) => {{
        $machine.turn(&mut $bus);
        assert!($rt; !$machine.is_idle())
    }};
}

macro_rules! goes_on_seven_times {
    ($rt:ident, $machine:ident, $bus:ident) => {
        goes_on!($rt, $machine, $bus);
        goes_on!($rt, $machine, $bus);
        goes_on!($rt, $machine, $bus);
        goes_on!($rt, $machine, $bus);
        goes_on!($rt, $machine, $bus);
        goes_on!($rt, $machine, $bus);
        goes_on!($rt, $machine, $bus)
    };
}

#[test]
fn event_is_written(rt: HostRuntime) -> Result<(), Fail> {
    let mut bus = PlainBus::new(rt.alloc(), WORDS, 8)?;
    let mut device = EqDevice::new(QUEUE);
    device.begin_write(EventRecord::CqError { cq: 7 });
    goes_on_seven_times!(rt, device, bus);
    assert_eq!(rt; device.turn(&mut bus), Step::Done(()));
    assert!(rt; device.is_idle());
    let trace = bus.trace();
    assert_eq!(rt; trace.len(), 8);
    let (first, last) = (trace[0].entry(), trace[7].entry());
    assert_eq!(rt;
        (first.addr, first.op),
        (17408, BusOp::Store(0x0004_0000_0000_0000))
    );
    assert_eq!(rt; trace[4].entry().op, BusOp::Store(0x0000_0007_0000_0000));
    assert_eq!(rt; (last.addr, last.op), (17415, BusOp::Store(0)));
    Ok(())
}

#[test]
fn event_is_taken(rt: HostRuntime) -> Result<(), Fail> {
    let mut bus = PlainBus::new(rt.alloc(), WORDS, 10)?;
    bus.set_start(17408, 0x0004_0000_0000_0000);
    bus.set_start(17412, 0x0000_0007_0000_0000);
    let mut host = EqHost::new(QUEUE);
    host.begin_take();
    goes_on_seven_times!(rt, host, bus);
    goes_on!(rt, host, bus);
    let event = EventRecord::CqError { cq: 7 };
    assert_eq!(rt; host.taken(), Some(event));
    assert_eq!(rt; host.turn(&mut bus), Step::Done(EqTaken::Event(event)));
    assert_eq!(rt; host.seen().a, 1);
    assert_eq!(rt; bus.load(17440), 0x0300_0001);
    Ok(())
}

#[test]
fn fresh_queue_has_no_event(rt: HostRuntime) -> Result<(), Fail> {
    let mut bus = PlainBus::new(rt.alloc(), WORDS, 1)?;
    bus.set_start(17415, 1);
    let mut host = EqHost::new(QUEUE);
    host.begin_take();
    let none = EqTaken::NoEvent { word: 1 };
    assert_eq!(rt; host.turn(&mut bus), Step::Done(none));
    assert!(rt; host.is_idle());
    Ok(())
}
