//! What the adapter owes for a request that it took.
ghost use Rattle.std.specs.Prelude.{◌≡◌};
ghost use Rattle.std.specs.Option.{option_to_list, option_copied};
ghost use Rattle.verbs_rules.specs.Rows as rows;

use verbs_types::{Act, Completion, Item, Kind, Op, QpState, Queue, QueuePair, Request, Unpolled};

/// Success (`IBV_WC_SUCCESS`).
const SUCCESS: u8 = 0;

/// The request was flushed, since its queue pair is in error (`IBV_WC_WR_FLUSH_ERR`).
const FLUSHED: u8 = 5;

/// Whether the adapter takes requests of a queue pair in this state.
pub(crate) fn works(state: QpState) -> bool
    ensures { result ≡ rows.works state }
{
    matches!(state, QpState::Rts | QpState::Err)
}

/// Whether an item is a request that the adapter can do. Until memory and keys are built that is a NOP.
pub(crate) fn can_do(item: Option<&Item>) -> bool
    ensures { result ≡ rows.can_do (option_copied item.entry) }
{
    matches!(item, Some(Item::Request(Request { op: Op::Nop, .. })))
}

fn status_of(state: QpState) -> u8
    ensures { result ≡ rows.status_of state }
{
    match state {
        QpState::Err => FLUSHED,
        _ => SUCCESS,
    }
}

fn nop_completion(qp: u32, id: u64, status: u8) -> Completion
    ensures { result ≡ rows.nop_completion qp id status }
{
    let failed = status != SUCCESS;
    Completion {
        queue: Queue::Send(qp),
        qp,
        id,
        status,
        kind: if failed { Kind::Failed } else { Kind::Nop },
        len: 0,
        imm: None,
        solicited: failed,
    }
}

/// The completion that is owed for a request, if it is wanted or has failed.
fn completion_owed(pair: QueuePair, qp: u32, number: u64, request: &Request) -> Option<Act>
    ensures { option_to_list result ≡ rows.completion_owed pair qp number request.now }
{
    let status = status_of(pair.state);
    (request.wanted || status != SUCCESS).then_some(Act::Complete {
        cq: pair.send_cq,
        owed: Unpolled {
            completion: nop_completion(qp, request.id, status),
            number,
        },
    })
}

/// What is owed for the item of this number of a queue pair's send queue.
pub(crate) fn act_of(pair: QueuePair, qp: u32, number: u64, item: Option<&Item>) -> Option<Act>
    ensures { option_to_list result ≡ rows.acts_of pair qp number (option_copied item.entry) }
{
    match item {
        Some(Item::Request(request)) => completion_owed(pair, qp, number, request),
        _ => None,
    }
}
