//! An adapter from its reset to a queue pair that may send, and back.
use crate::steps::{expect, make_objects, start};
use cmd_bodies::{Command, PageUse};
use device_commands::{DeviceTables, QpNow};
use qp_state::QpState;
use sample_objects::one_pair;
use std::test::Fail;
use verbs_types::{FIRST_PD, FIRST_QP};

#[test]
fn queue_pair_is_made_ready(rt: HostRuntime) -> Result<(), Fail> {
    let declared = one_pair(rt.alloc())?;
    let mut tables = DeviceTables::new(rt.alloc(), &declared)?;
    let qp = FIRST_QP;
    expect(&rt, &mut tables, &Command::EnableHca, (0, 0));
    let boot = tables.execute(&Command::QueryPages(PageUse::Boot), None);
    let init = tables.execute(&Command::QueryPages(PageUse::Init), None);
    assert_eq!(rt; (boot.pages, init.pages), (8, 80));
    expect(&rt, &mut tables, &Command::DisableHca, (0, 0));

    start(&rt, &mut tables);
    make_objects(&rt, &mut tables);
    assert!(rt; tables.eq_lives(0) && tables.cq_lives(0));
    expect(&rt, &mut tables, &Command::RstToInit { qp }, (0, 0));
    expect(
        &rt,
        &mut tables,
        &Command::InitToRtr { qp, peer: qp },
        (0, 0),
    );
    expect(&rt, &mut tables, &Command::RtrToRts { qp }, (0, 0));
    let ready = QpNow {
        pd: FIRST_PD,
        state: QpState::Rts,
        peer: Some(qp),
    };
    assert_eq!(rt; tables.qp(qp), Some(ready));
    Ok(())
}

#[test]
fn adapter_is_closed(rt: HostRuntime) -> Result<(), Fail> {
    let declared = one_pair(rt.alloc())?;
    let mut tables = DeviceTables::new(rt.alloc(), &declared)?;
    let qp = FIRST_QP;
    start(&rt, &mut tables);
    make_objects(&rt, &mut tables);
    expect(&rt, &mut tables, &Command::ToErr { qp }, (0, 0));
    expect(&rt, &mut tables, &Command::DestroyQp { qp }, (0, 0));
    expect(&rt, &mut tables, &Command::DestroyCq { cq: 0 }, (0, 0));
    expect(&rt, &mut tables, &Command::DestroyEq { eq: 0 }, (0, 0));
    expect(
        &rt,
        &mut tables,
        &Command::DeallocPd { pd: FIRST_PD },
        (0, 0),
    );
    for page in 0..3 {
        expect(&rt, &mut tables, &Command::DeallocUar { page }, (0, 0));
    }
    expect(&rt, &mut tables, &Command::TeardownHca, (0, 0));
    let back = tables.execute(&Command::ReturnPages { count: 88 }, None);
    assert_eq!(rt;
        (back.status, back.pages, back.list[87]),
        (0, 88, 87 * 4096)
    );
    expect(&rt, &mut tables, &Command::DisableHca, (0, 0));
    assert_eq!(rt; tables.qp(qp), None);
    Ok(())
}
