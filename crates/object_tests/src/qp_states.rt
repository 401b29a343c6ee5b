//! The way of a queue pair from reset to ready to send.

use qp_state::{BadState, QpMove, QpState, step};
use std::test::Fail;

#[test]
fn queue_pair_gets_ready_in_turn(rt: HostRuntime) -> Result<(), Fail> {
    let init = step(QpState::Reset, QpMove::ToInit)?;
    let rtr = step(init, QpMove::ToRtr { peer: 0x41 })?;
    assert_eq!(rt; step(rtr, QpMove::ToRts), Ok(QpState::Rts));
    assert_eq!(rt; step(init, QpMove::ToRts), Err(BadState { state: init }));
    assert_eq!(rt; step(QpState::Reset, QpMove::ToErr), Ok(QpState::Err));
    Ok(())
}
