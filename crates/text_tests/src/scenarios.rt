//! A scenario that is read.

use scenario_text::{Plan, PlanItem, parse_scenario};
use std::test::Fail;

const TWO_THREADS: &[u8] = b"eq e 1
pd p
cq c 2 2 e 3
qp q p c c 2 rq:1 2 65535
connect q q
thread a
post q
+ 7 nop -
+ 8 nop c
end
thread b
poll c 1
drain c 1
end
schedule b a dev*3
";

#[test]
fn threads_have_their_calls(rt: HostRuntime) -> Result<(), Fail> {
    let scenario = parse_scenario(rt.alloc(), TWO_THREADS)?;
    match scenario.programs() {
        [poster, poller] => {
            assert_eq!(rt; (poster.as_slice().len(), poller.as_slice().len()), (1, 2));
        }
        _ => return Err(Fail::new("two threads")),
    }
    Ok(())
}

#[test]
fn schedule_has_its_turns(rt: HostRuntime) -> Result<(), Fail> {
    let scenario = parse_scenario(rt.alloc(), TWO_THREADS)?;
    let wanted = [
        PlanItem {
            actor: 2,
            times: None,
        },
        PlanItem {
            actor: 1,
            times: None,
        },
        PlanItem {
            actor: 0,
            times: Some(3),
        },
    ];
    match scenario.plan() {
        Plan::Schedule(items) => assert_eq!(rt; items.as_slice(), wanted.as_slice()),
        Plan::Idle | Plan::Rounds(_) => return Err(Fail::new("a schedule")),
    }
    Ok(())
}
