//! The state in which a run begins.
ghost use Rattle.std.specs.Prelude.{◌≡◌, ◌+◌, ◌≤◌, IsTrue, IfOk, map, length};
ghost use Rattle.std.specs.List.{list_any, list_all, flat_map, enumerate_from};
ghost use Rattle.verbs_model.specs.Beginning.{both_queues, pair_from};
ghost use Rattle.verbs_model.specs.Ends.{queue_of};
ghost use Rattle.verbs_types.specs.Lines.{is_declared, is_qp_line, is_cq_line};
ghost use Rattle.verbs_rules.specs.Start as beginning;
ghost use Rattle.verbs_model.specs.Queues.{fresh_completions};
ghost use Rattle.verbs_model.specs.Tables.{state_of};

use crate::abstract_state::Abstract;
use crate::completion_queue::CompletionQueue;
use crate::work_queue::WorkQueue;
use std::alloc::{AllocError, Global};
use verbs_types::{Declared, FIRST_QP, Lines, NoMemory, QpLine, QpState, QueuePair};

/// The state in which a run begins: every declared object lives, nothing was posted, and the queue pairs
/// that are connected may send.
pub fn start(alloc: Global, d: &Declared) -> Result<Abstract, NoMemory>
    ensures { IfOk result (λ a. state_of a ≡ beginning.start d.now) }
{
    match first_state(alloc, d.lines()) {
        Ok(first) => Ok(first),
        Err(_) => Err(NoMemory),
    }
}

fn first_state(alloc: Global, lines: &Lines) -> Result<Abstract, AllocError>
    requires { IsTrue (is_declared lines.now) }
    ensures { IfOk result (λ a. state_of a ≡ beginning.start lines.now) }
{
    Ok(Abstract {
        queues: first_queues(alloc, lines)?,
        pairs: first_pairs(alloc, lines)?,
        completions: first_completions(alloc, lines)?,
        owed: None,
    })
}

fn first_queues(alloc: Global, lines: &Lines) -> Result<Vec<WorkQueue>, AllocError>
    requires { IsTrue (list_all (is_qp_line lines.now) lines.now.qps) }
    ensures { IfOk result (λ v. map queue_of v.items ≡ flat_map both_queues lines.now.qps) }
{
    let mut queues = Vec::new(alloc);
    for line in lines.qps.as_slice() {
        queues.push(WorkQueue::new(alloc, line.send_log, line.segments))?;
        queues.push(WorkQueue::new(alloc, line.recv_log, line.segments))?;
    }
    Ok(queues)
}

fn first_pairs(alloc: Global, lines: &Lines) -> Result<Vec<QueuePair>, AllocError>
    requires { length lines.now.qps ≤ 64 }
    ensures { IfOk result (λ v. v.items ≡ map (pair_from lines.now) (enumerate_from 0 lines.now.qps)) }
{
    lines
        .qps
        .as_slice()
        .iter()
        .enumerate()
        .map(|(place, line)| first_pair(lines, FIRST_QP + place as u32, line))
        .collect(alloc)
}

fn first_completions(alloc: Global, lines: &Lines) -> Result<Vec<CompletionQueue>, AllocError>
    requires { IsTrue (list_all (is_cq_line lines.now) lines.now.cqs) }
    ensures { IfOk result (λ v. v.items ≡ map fresh_completions lines.now.cqs) }
{
    let mut completions = Vec::new(alloc);
    for line in lines.cqs.as_slice() {
        completions.push(CompletionQueue::new(alloc, line.log, line.start))?;
    }
    Ok(completions)
}

/// The queue pair of this number as its line declares it.
fn first_pair(lines: &Lines, qp: u32, line: &QpLine) -> QueuePair
    ensures { result ≡ record { state = beginning.first_state lines.now qp; send_cq = line.now.send_cq; recv_cq = line.now.recv_cq } }
{
    QueuePair {
        state: if is_connected(lines, qp) {
            QpState::Rts
        } else {
            QpState::Reset
        },
        send_cq: line.send_cq,
        recv_cq: line.recv_cq,
    }
}

fn is_connected(lines: &Lines, qp: u32) -> bool
    ensures { result ≡ beginning.is_connected lines.now qp }
{
    lines
        .connects
        .as_slice()
        .iter()
        .any(|connect| connect.a == qp || connect.b == qp)
}
