//! Copies of what a scenario says.
ghost use Rattle.std.specs.Prelude.{◌≡◌, IfOk};

use scenario_text::Plan;
use std::alloc::{AllocError, Global};
use verbs_types::{Call, NoMemory, Receive, Request, Sequence};

/// The same calls of each thread.
pub(crate) fn copy_of_programs(
    alloc: Global,
    programs: &[Sequence<Call>],
) -> Result<Vec<Sequence<Call>>, NoMemory>
    ensures { IfOk result (λ ps. ps.items ≡ programs.now) }
{
    match copy_of_each(alloc, programs) {
        Ok(copies) => Ok(copies),
        Err(_) => Err(NoMemory),
    }
}

fn copy_of_each(
    alloc: Global,
    programs: &[Sequence<Call>],
) -> Result<Vec<Sequence<Call>>, AllocError>
    ensures { IfOk result (λ ps. ps.items ≡ programs.now) }
{
    let mut copies = Vec::with_capacity(alloc, programs.len())?;
    for calls in programs {
        copies.push(copy_of_calls(alloc, calls.as_slice())?)?;
    }
    Ok(copies)
}

/// The same calls.
pub(crate) fn copy_of_calls(alloc: Global, calls: &[Call]) -> Result<Sequence<Call>, AllocError>
    ensures { IfOk result (λ cs. cs ≡ calls.now) }
{
    let mut copies = Vec::with_capacity(alloc, calls.len())?;
    for call in calls {
        copies.push(copy_of_call(alloc, call)?)?;
    }
    Ok(Sequence::from_vec(copies))
}

fn copy_of_call(alloc: Global, call: &Call) -> Result<Call, AllocError>
    ensures { IfOk result (λ c. c ≡ call.now) }
{
    match call {
        Call::Post { qp, requests } => {
            let requests = copy_of_requests(alloc, requests.as_slice())?;
            Ok(Call::Post { qp: *qp, requests })
        }
        Call::Recv { qp, receives } => {
            let receives = copy_of_receives(alloc, receives.as_slice())?;
            Ok(Call::Recv { qp: *qp, receives })
        }
        Call::Poll { cq, max } => Ok(Call::Poll { cq: *cq, max: *max }),
        Call::Drain { cq, count } => Ok(Call::Drain {
            cq: *cq,
            count: *count,
        }),
    }
}

fn copy_of_requests(alloc: Global, requests: &[Request]) -> Result<Sequence<Request>, AllocError>
    ensures { IfOk result (λ rs. rs ≡ requests.now) }
{
    let mut copies = Vec::with_capacity(alloc, requests.len())?;
    for request in requests {
        copies.push(copy_of_request(request)?)?;
    }
    Ok(Sequence::from_vec(copies))
}

fn copy_of_receives(alloc: Global, receives: &[Receive]) -> Result<Sequence<Receive>, AllocError>
    ensures { IfOk result (λ rs. rs ≡ receives.now) }
{
    let mut copies = Vec::with_capacity(alloc, receives.len())?;
    for receive in receives {
        copies.push(copy_of_receive(receive)?)?;
    }
    Ok(Sequence::from_vec(copies))
}

fn copy_of_receive(receive: &Receive) -> Result<Receive, AllocError>
    ensures { IfOk result (λ r. r ≡ receive.now) }
{
    receive.clone()
}

fn copy_of_request(request: &Request) -> Result<Request, AllocError>
    ensures { IfOk result (λ r. r ≡ request.now) }
{
    request.clone()
}

/// The same plan.
pub(crate) fn copy_of_plan(alloc: Global, plan: &Plan) -> Result<Plan, NoMemory>
    ensures { IfOk result (λ p. p ≡ plan.now) }
{
    match plan {
        Plan::Idle => Ok(Plan::Idle),
        Plan::Schedule(items) => match Vec::from_slice(alloc, items.as_slice()) {
            Ok(copies) => Ok(Plan::Schedule(Sequence::from_vec(copies))),
            Err(_) => Err(NoMemory),
        },
        Plan::Rounds(rounds) => Ok(Plan::Rounds(*rounds)),
    }
}
