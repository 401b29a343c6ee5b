//! Commands with the status that they are to have, and the sample's parameters.
use cmd_bodies::{Command, CqContext, EqBlock, PageList, QpBlock};
use device_commands::DeviceTables;
use hca_pages::PAGE_SIZE;
use std::process::Abort;
use verbs_types::{FIRST_PD, FIRST_QP};

/// The event queue of the sample.
pub(crate) const EQ: EqBlock = EqBlock {
    log: 1,
    uar: 0,
    addr: 0,
};

/// The completion queue of the sample.
pub(crate) const CQ: CqContext = CqContext {
    cqe_sz: 0,
    log_cq_size: 2,
    uar_page: 1,
    c_eqn: 0,
    dbr_addr: 0,
};

/// The queue pair of the sample.
pub(crate) const QP: QpBlock = QpBlock {
    pd: FIRST_PD,
    send_cq: 0,
    recv_cq: 0,
    send_log: 2,
    recv_log: 0,
    segments: 1,
    srq: 0,
    uar: 2,
    addr: 0,
};

/// Does a command, which is to have this status and to make an object of this number.
pub(crate) fn expect(rt: &impl Abort, tables: &mut DeviceTables, c: &Command, answer: (u8, u32)) {
    let reply = tables.execute(c, None);
    assert_eq!(rt; (reply.status, reply.number), answer);
}

/// MANAGE_PAGES that gives `count` pages from the page of this number on.
pub(crate) fn give(first: u32, count: u32) -> Command {
    let mut pages = [0; 88];
    for k in 0..88 {
        if k < count as usize {
            pages[k] = (u64::from(first) + k as u64) * PAGE_SIZE;
        }
    }
    Command::GivePages(PageList { count, pages })
}

/// Starts an adapter.
pub(crate) fn start(rt: &impl Abort, tables: &mut DeviceTables) {
    expect(rt, tables, &Command::EnableHca, (0, 0));
    expect(rt, tables, &give(0, 8), (0, 0));
    expect(rt, tables, &give(8, 80), (0, 0));
    expect(rt, tables, &Command::InitHca, (0, 0));
}

/// Makes the objects of the sample, each with the doorbell page that its parameters name.
pub(crate) fn make_objects(rt: &impl Abort, tables: &mut DeviceTables) {
    expect(rt, tables, &Command::AllocUar, (0, 0));
    expect(rt, tables, &Command::CreateEq(EQ), (0, 0));
    expect(rt, tables, &Command::AllocPd, (0, FIRST_PD));
    expect(rt, tables, &Command::AllocUar, (0, 1));
    expect(rt, tables, &Command::CreateCq(CQ), (0, 0));
    expect(rt, tables, &Command::AllocUar, (0, 2));
    expect(rt, tables, &Command::CreateQp(QP), (0, FIRST_QP));
}
