//! A completion queue in its second round.

use bus_core::{BusOp, BusPort, PlainBus, Step};
use cq_pair::{CqDevice, CqDone, CqHost, CqPlace, CqSeen};
use cqe_format::{Cqe, opcode};
use sample_objects::words;
use std::test::Fail;

/// The completion queue of the sample.
pub(crate) const QUEUE: CqPlace = CqPlace {
    number: 0,
    areas: [words::FIRST_AREA, words::SECOND_AREA],
    ceiling: 2,
    log: 2,
    dbr: words::CONSUMER_INDEX,
    arm_reg: words::ARM_REGISTER,
    sn: words::SEQUENCE_NUMBER,
};

/// The completion of queue pair 0x40's second request, which is one without operation.
const SECOND: Cqe = Cqe {
    opcode: opcode::REQUEST,
    sop: 0,
    qpn: 0x40,
    srqn: 0,
    imm: 0,
    len: 0,
    counter: 1,
    syndrome: 0,
    solicited: false,
    format: 0,
};

/// Its last word in the second round of the queue, with the owner bit 1.
const SECOND_OWNED: u64 = 0x0000_0040_0001_0001;

/// Turns after which a machine is still at work.
macro_rules! goes_on {
    ($rt:ident, $machine:ident, $bus:ident) => {{
        $machine.turn(&mut $bus);
        assert!($rt; !$machine.is_idle())
    }};
}

macro_rules! goes_on_seven_times {
    ($rt:ident, $machine:ident, $bus:ident) => {
        goes_on!($rt, $machine, $bus);
        goes_on!($rt, $machine, $bus);
        goes_on!($rt, $machine, $bus);
        goes_on!($rt, $machine, $bus);
        goes_on!($rt, $machine, $bus);
        goes_on!($rt, $machine, $bus);
        goes_on!($rt, $machine, $bus)
    };
}

#[test]
fn second_round_flips_the_owner_bit(rt: HostRuntime) -> Result<(), Fail> {
    let mut bus = PlainBus::new(rt.alloc(), words::COUNT, 9)?;
    bus.set_start(words::CONSUMER_INDEX, 3);
    let mut device = CqDevice::new(QUEUE, 4);
    device.begin_publish(SECOND);
    goes_on!(rt, device, bus);
    goes_on_seven_times!(rt, device, bus);
    assert_eq!(rt;
        device.turn(&mut bus),
        Step::Done(CqSeen::Published { index: 4 })
    );
    assert_eq!(rt; device.seen().a, 3);
    let trace = bus.trace();
    assert_eq!(rt; trace.len(), 9);
    assert_eq!(rt; trace[8].entry().addr, words::FIRST_OWNER_WORD);
    assert_eq!(rt; trace[8].entry().op, BusOp::Store(SECOND_OWNED));
    Ok(())
}

#[test]
fn completion_is_polled_and_acknowledged(rt: HostRuntime) -> Result<(), Fail> {
    let mut bus = PlainBus::new(rt.alloc(), words::COUNT, 10)?;
    bus.set_start(words::FIRST_OWNER_WORD, SECOND_OWNED);
    let mut host = CqHost::new(QUEUE, 4);
    host.begin_poll_one();
    goes_on_seven_times!(rt, host, bus);
    assert_eq!(rt; host.turn(&mut bus), Step::Done(CqDone::Took(SECOND)));
    assert_eq!(rt; host.seen().a, 5);
    assert!(rt; host.is_idle());
    host.begin_ack();
    assert_eq!(rt; host.turn(&mut bus), Step::Done(CqDone::Acked { ci: 5 }));
    assert_eq!(rt; bus.load(words::CONSUMER_INDEX), 5);
    Ok(())
}
