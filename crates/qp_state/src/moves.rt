//! The moves of a queue pair.
ghost use Rattle.std.specs.Prelude.{◌≡◌};
ghost use Rattle.std.specs.Option.{ok_or};
ghost use Rattle.qp_state.specs.Moves.{next_state};

use thiserror::Error;
use verbs_types::QpState;

/// A command that moves a queue pair to another state (Programmer's Reference Manual).
#[derive(Clone, Copy, Debug, PartialEq, Eq)]
pub enum QpMove {
    /// RST2INIT_QP.
    ToInit,
    /// INIT2RTR_QP, which names the queue pair at the other end.
    ToRtr { peer: u32 },
    /// RTR2RTS_QP.
    ToRts,
    /// 2ERR_QP.
    ToErr,
}

/// The command does not start from the state that the queue pair is in.
#[derive(Clone, Copy, Debug, PartialEq, Eq, Error)]
#[error("no such move from {state:?}")]
pub struct BadState {
    /// The state that the queue pair is in, and stays in.
    pub state: QpState,
}

/// The state to which a command moves a queue pair.
///
/// The states and their order are those of the InfiniBand specification, the commands those of the
/// Programmer's Reference Manual. A command that the manual has and this table does not (as RTS2RTS_QP or
/// 2RST_QP) is outside this project's profile.
pub fn step(state: QpState, asked: QpMove) -> Result<QpState, BadState>
    ensures { result ≡ ok_or (next_state state asked) (record { state = state }) }
{
    match (state, asked) {
        (QpState::Reset, QpMove::ToInit) => Ok(QpState::Init),
        (QpState::Init, QpMove::ToRtr { .. }) => Ok(QpState::Rtr),
        (QpState::Rtr, QpMove::ToRts) => Ok(QpState::Rts),
        (_, QpMove::ToErr) => Ok(QpState::Err),
        _ => Err(BadState { state }),
    }
}
