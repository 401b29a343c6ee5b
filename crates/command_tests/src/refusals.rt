//! A refusal with each status, and one more where another thing is wrong too.
use crate::steps::{CQ, EQ, QP, expect, give, make_objects, start};
use cmd_bodies::{Command, CqContext, EqBlock, QpBlock};
use device_commands::DeviceTables;
use sample_objects::one_pair;
use std::test::Fail;
use verbs_types::{FIRST_PD, FIRST_QP};

#[test]
fn start_order_is_kept(rt: HostRuntime) -> Result<(), Fail> {
    let declared = one_pair(rt.alloc())?;
    let mut tables = DeviceTables::new(rt.alloc(), &declared)?;
    expect(&rt, &mut tables, &Command::AllocPd, (0x04, 0));
    expect(
        &rt,
        &mut tables,
        &Command::DestroyMkey { key: 0 },
        (0x02, 0),
    );
    expect(
        &rt,
        &mut tables,
        &Command::ReturnPages { count: 89 },
        (0x03, 0),
    );
    expect(&rt, &mut tables, &Command::EnableHca, (0, 0));
    expect(&rt, &mut tables, &give(0, 87), (0, 0));
    expect(&rt, &mut tables, &Command::InitHca, (0x0f, 0));
    expect(&rt, &mut tables, &give(87, 2), (0x08, 0));
    expect(&rt, &mut tables, &give(86, 1), (0x03, 0));
    expect(&rt, &mut tables, &give(87, 1), (0, 0));
    expect(&rt, &mut tables, &Command::InitHca, (0, 0));
    expect(&rt, &mut tables, &Command::EnableHca, (0x04, 0));
    Ok(())
}

#[test]
fn objects_are_made_as_declared(rt: HostRuntime) -> Result<(), Fail> {
    let declared = one_pair(rt.alloc())?;
    let mut tables = DeviceTables::new(rt.alloc(), &declared)?;
    start(&rt, &mut tables);
    expect(&rt, &mut tables, &Command::CreateEq(EQ), (0x05, 0));
    expect(&rt, &mut tables, &Command::AllocUar, (0, 0));
    let longer = EqBlock { log: 2, ..EQ };
    expect(&rt, &mut tables, &Command::CreateEq(longer), (0x03, 0));
    let early = CqContext {
        cqe_sz: 1,
        uar_page: 0,
        ..CQ
    };
    expect(&rt, &mut tables, &Command::CreateCq(early), (0x05, 0));
    expect(&rt, &mut tables, &Command::CreateEq(EQ), (0, 0));
    expect(&rt, &mut tables, &Command::CreateEq(EQ), (0x03, 0));
    expect(&rt, &mut tables, &Command::CreateCq(early), (0x03, 0));
    let shared = CqContext { uar_page: 0, ..CQ };
    expect(&rt, &mut tables, &Command::CreateCq(shared), (0x03, 0));
    Ok(())
}

#[test]
fn what_is_used_stays(rt: HostRuntime) -> Result<(), Fail> {
    let declared = one_pair(rt.alloc())?;
    let mut tables = DeviceTables::new(rt.alloc(), &declared)?;
    let qp = FIRST_QP;
    start(&rt, &mut tables);
    make_objects(&rt, &mut tables);
    expect(&rt, &mut tables, &Command::DestroyEq { eq: 0 }, (0x09, 0));
    expect(&rt, &mut tables, &Command::DestroyCq { cq: 0 }, (0x09, 0));
    expect(
        &rt,
        &mut tables,
        &Command::DeallocPd { pd: FIRST_PD },
        (0x09, 0),
    );
    expect(&rt, &mut tables, &Command::DeallocPd { pd: 0 }, (0x05, 0));
    expect(&rt, &mut tables, &Command::RtrToRts { qp }, (0x10, 0));
    expect(
        &rt,
        &mut tables,
        &Command::InitToRtr { qp, peer: qp + 1 },
        (0x05, 0),
    );
    expect(&rt, &mut tables, &Command::DestroyQp { qp }, (0, 0));
    expect(&rt, &mut tables, &Command::RstToInit { qp }, (0x05, 0));
    let shared = QpBlock { srq: 1, ..QP };
    expect(&rt, &mut tables, &Command::CreateQp(shared), (0x05, 0));
    expect(&rt, &mut tables, &Command::CreateQp(QP), (0x03, 0));
    Ok(())
}
