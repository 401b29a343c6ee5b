//! Arms of a completion queue on a plain bus.
use bus_core::{BusOp, BusPort, PlainBus, Step};
use cq_arms::{ArmDevice, ArmPlace, ArmSeen, Armed, CqArmer, EventReader, Raised};
use std::test::Fail;
use verbs_types::{ArmKind, EventRecord};

/// The words of the arms of queue 7.
const PLACE: ArmPlace = ArmPlace {
    number: 7,
    arm_record: 1,
    arm_reg: 2,
    sn: 3,
};

#[test]
fn largest_fields_fit_their_words(rt: HostRuntime) -> Result<(), Fail> {
    let mut bus = PlainBus::new(rt.alloc(), 4, 3)?;
    bus.set_start(3, 3);
    let mut armer = CqArmer::new(PLACE);
    armer.begin_arm(ArmKind::Solicited, 0xff_ffff);
    assert_eq!(rt; armer.turn(&mut bus), Step::More);
    assert_eq!(rt; armer.turn(&mut bus), Step::More);
    let armed = Armed {
        kind: ArmKind::Solicited,
        index: 0xff_ffff,
        sn: 3,
    };
    assert_eq!(rt; armer.turn(&mut bus), Step::Done(armed));
    let trace = bus.trace();
    assert_eq!(rt; trace.len(), 3);
    assert_eq!(rt; trace[1].entry().op, BusOp::Store(0x31ff_ffff));
    assert_eq!(rt; trace[2].entry().op, BusOp::Store(0x31ff_ffff_0000_0007));
    Ok(())
}

#[test]
fn late_arm_has_its_event_once(rt: HostRuntime) -> Result<(), Fail> {
    let mut bus = PlainBus::new(rt.alloc(), 4, 4)?;
    bus.set_start(2, 0x3_0000_0007);
    let mut device = ArmDevice::new(PLACE, 0);
    assert!(rt; !device.published(false));
    assert!(rt; !device.published(false));
    assert!(rt; !device.published(false));
    assert!(rt; !device.published(false));
    device.begin_see_arm();
    let late = ArmSeen::Seen {
        kind: ArmKind::Any,
        index: 3,
        sn: 0,
        due: true,
    };
    assert_eq!(rt; device.turn(&mut bus), Step::Done(late));
    assert!(rt; device.is_due());
    device.event_written();
    device.begin_see_arm();
    assert_eq!(rt; device.turn(&mut bus), Step::Done(ArmSeen::NoNews));
    bus.store(2, 0x4_0000_0007);
    device.begin_see_arm();
    let repeated = ArmSeen::Seen {
        kind: ArmKind::Any,
        index: 4,
        sn: 0,
        due: false,
    };
    assert_eq!(rt; device.turn(&mut bus), Step::Done(repeated));
    assert!(rt; !device.is_due());
    assert!(rt; !device.published(true));
    Ok(())
}

#[test]
fn completion_events_alone_are_counted(rt: HostRuntime) -> Result<(), Fail> {
    let mut bus = PlainBus::new(rt.alloc(), 4, 2)?;
    let mut reader = EventReader::new(PLACE);
    reader.begin_count(EventRecord::CqError { cq: 7 });
    assert!(rt; reader.is_idle());
    reader.begin_count(EventRecord::Completion { cq: 7 });
    assert_eq!(rt; reader.turn(&mut bus), Step::Done(Raised { number: 1 }));
    assert!(rt; reader.is_idle());
    assert_eq!(rt; bus.load(3), 1);
    Ok(())
}
