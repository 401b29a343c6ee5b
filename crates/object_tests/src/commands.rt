//! Commands that are asked in slot 1 and answered there.
ghost use Rattle.std.specs.Prelude.{◌≡◌, ◌+◌, ◌≤◌, length, IsSome, None};
ghost use Rattle.bus_core.specs.declared.turn.Step.TheVariants.{Done};
ghost use Rattle.cmd_slots.specs.DeviceView.{CanAnswer, MayAnswer, fresh};

use bus_core::{BusOp, BusPort, PlainBus, Step};
use cmd_bodies::{Command, PageUse, Reply};
use cmd_format::Delivery;
use cmd_slots::{Answer, SlotBits, SlotDevice, SlotDone, SlotHost, Waiting};
use std::process::Abort;
use std::test::Fail;

const WORDS: u32 = 17408;

/// The word of the entry that is stored last.
const LAST_WORD: u32 = 527;

/// A turn after which the host is still at work.
fn host_goes_on(rt: &impl Abort, host: &mut SlotHost, bus: &mut PlainBus)
    requires busy { IsSome host.old.task }
    requires words { length bus.old.start ≡ 17408 }
    requires room { 1 ≤ bus.old.room }
    ensures busy { IsSome host.new.task }
    ensures words { length bus.new.start ≡ 17408 }
    ensures room { bus.new.room + 1 ≡ bus.old.room }
{
    host.turn(bus);
    assert!(rt; !host.is_idle());
}

/// The same of the device.
fn device_goes_on(rt: &impl Abort, device: &mut SlotDevice, bus: &mut PlainBus)
    requires busy { IsSome device.old.task }
    requires words { length bus.old.start ≡ 17408 }
    requires room { 1 ≤ bus.old.room }
    ensures busy { IsSome device.new.task }
    ensures words { length bus.new.start ≡ 17408 }
    ensures room { bus.new.room + 1 ≡ bus.old.room }
{
    device.turn(bus);
    assert!(rt; !device.is_idle());
}

/// Asks a command whose question has eight words.
fn fill(rt: &impl Abort, host: &mut SlotHost, bus: &mut PlainBus)
    requires busy { IsSome host.old.task }
    requires words { length bus.old.start ≡ 17408 }
    requires room { 8 ≤ bus.old.room }
    ensures busy { IsSome host.new.task }
    ensures words { length bus.new.start ≡ 17408 }
    ensures room { bus.new.room + 8 ≡ bus.old.room }
{
    host_goes_on(rt, host, bus);
    host_goes_on(rt, host, bus);
    host_goes_on(rt, host, bus);
    host_goes_on(rt, host, bus);
    host_goes_on(rt, host, bus);
    host_goes_on(rt, host, bus);
    host_goes_on(rt, host, bus);
    host_goes_on(rt, host, bus);
}

/// A turn after which the host waits, since this last word gives the entry to the hardware.
fn host_waits(rt: &impl Abort, host: &mut SlotHost, bus: &mut PlainBus, word: u64)
    requires busy { IsSome host.old.task }
    requires words { length bus.old.start ≡ 17408 }
    requires room { 1 ≤ bus.old.room }
    ensures busy { IsSome host.new.task }
    ensures words { length bus.new.start ≡ 17408 }
    ensures room { bus.new.room + 1 ≡ bus.old.room }
{
    assert_eq!(rt; host.turn(bus), Step::Gave(Waiting { word }));
    assert!(rt; !host.is_idle());
}

/// Reads a question of eight words.
fn read(rt: &impl Abort, device: &mut SlotDevice, bus: &mut PlainBus) -> SlotDone
    requires fresh { device.old ≡ fresh 1 }
    requires words { length bus.old.start ≡ 17408 }
    requires room { 8 ≤ bus.old.room }
    ensures answers { CanAnswer device.new.side.stage (Done result) }
    ensures idle { device.new.task ≡ None }
    ensures words { length bus.new.start ≡ 17408 }
    ensures room { bus.new.room + 8 ≡ bus.old.room }
{
    device.begin_read();
    device_goes_on(rt, device, bus);
    device_goes_on(rt, device, bus);
    device_goes_on(rt, device, bus);
    device_goes_on(rt, device, bus);
    device_goes_on(rt, device, bus);
    device_goes_on(rt, device, bus);
    device_goes_on(rt, device, bus);
    match device.turn(bus) {
        Step::Done(question) => question,
        step => panic!(rt; "{step:?}"),
    }
}

/// Stores the first two words of an answer of three words.
fn begin_answer(rt: &impl Abort, device: &mut SlotDevice, bus: &mut PlainBus, answer: Answer)
    requires idle { device.old.task ≡ None }
    requires answers { MayAnswer device.old.side.stage answer }
    requires words { length bus.old.start ≡ 17408 }
    requires room { 2 ≤ bus.old.room }
    ensures busy { IsSome device.new.task }
    ensures words { length bus.new.start ≡ 17408 }
    ensures room { bus.new.room + 2 ≡ bus.old.room }
{
    device.begin_reply(answer);
    device_goes_on(rt, device, bus);
    device_goes_on(rt, device, bus);
}

#[test]
fn command_is_asked_and_answered(rt: HostRuntime) -> Result<(), Fail> {
    let mut bus = PlainBus::new(rt.alloc(), WORDS, 25)?;
    let mut host = SlotHost::new(1);
    host.begin_command(Command::QueryPages(PageUse::Boot));
    fill(&rt, &mut host, &mut bus);
    host_goes_on(&rt, &mut host, &mut bus);

    let mut bits = SlotBits::new();
    bits.begin_sweep();
    assert_eq!(rt; bits.turn(&mut bus), Step::Done(()));
    assert_eq!(rt; bits.lowest(), Some(1));

    let mut device = SlotDevice::new(1);
    let question = read(&rt, &mut device, &mut bus);
    let SlotDone::Asked(Command::QueryPages(PageUse::Boot)) = question else {
        panic!(rt; "{question:?}")
    };
    let answer = Answer::Delivered(Reply {
        status: 0,
        number: 0,
        pages: 8,
        list: [0; 88],
    });
    begin_answer(&rt, &mut device, &mut bus, answer);
    host_waits(&rt, &mut host, &mut bus, 0x0010_2ad4_0001);
    assert_eq!(rt; device.turn(&mut bus), Step::Done(SlotDone::Replied));
    bits.clear(1);
    assert_eq!(rt; bits.lowest(), None);

    host_goes_on(&rt, &mut host, &mut bus);
    host_goes_on(&rt, &mut host, &mut bus);
    assert_eq!(rt; host.turn(&mut bus), Step::Done(answer));
    assert_eq!(rt; (host.seen().a, device.seen().a), (1, 1));

    let trace = bus.trace();
    assert_eq!(rt; trace.len(), 25);
    assert_eq!(rt; trace[0].entry().op, BusOp::Store(0x0700_0000_0000_0010));
    assert_eq!(rt; trace[2].entry().op, BusOp::Store(0x0107_0000_0000_0001));
    assert_eq!(rt; trace[7].entry().op, BusOp::Store(0x0010_2ad4_0001));
    assert_eq!(rt;
        (trace[8].entry().addr, trace[8].entry().op),
        (4, BusOp::SetBits(2))
    );
    assert_eq!(rt;
        (trace[9].entry().addr, trace[9].entry().op),
        (4, BusOp::Swap(0))
    );
    assert_eq!(rt; trace[19].entry().op, BusOp::Store(8));
    assert_eq!(rt;
        (trace[21].entry().addr, trace[21].entry().op),
        (LAST_WORD, BusOp::Store(0x0010_2add_0000))
    );
    Ok(())
}

#[test]
fn damaged_signature_is_told(rt: HostRuntime) -> Result<(), Fail> {
    let mut bus = PlainBus::new(rt.alloc(), WORDS, 22)?;
    let mut host = SlotHost::new(1);
    host.begin_command(Command::EnableHca);
    fill(&rt, &mut host, &mut bus);
    bus.store(LAST_WORD, 0x000c_2acb_0001);
    host_goes_on(&rt, &mut host, &mut bus);

    let mut device = SlotDevice::new(1);
    let question = read(&rt, &mut device, &mut bus);
    let SlotDone::AskedBad(refusal) = question else {
        panic!(rt; "{question:?}")
    };
    assert_eq!(rt; refusal, Answer::Refused(Delivery::Signature));
    begin_answer(&rt, &mut device, &mut bus, refusal);
    assert_eq!(rt; device.turn(&mut bus), Step::Done(SlotDone::Replied));
    assert_eq!(rt; host.turn(&mut bus), Step::Done(refusal));

    let trace = bus.trace();
    assert_eq!(rt; trace.len(), 22);
    assert_eq!(rt; trace[7].entry().op, BusOp::Store(0x000c_2aca_0001));
    assert_eq!(rt; trace[20].entry().op, BusOp::Store(0x000c_2ac9_0002));
    Ok(())
}
