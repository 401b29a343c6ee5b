//! The weight of a scenario.
ghost use Rattle.std.specs.Prelude.{◌≡◌};
ghost use Rattle.std.specs.List.{sum_by};
ghost use Rattle.actor_map.specs.Weight as weights;

use verbs_types::{Body, Call, Declared, Op, Request, Sequence, Sge};

/// For each declared object.
const OBJECT: u64 = 8;

/// For each connection.
const CONNECTION: u64 = 24;

/// For the opening and for the closing of the adapter.
const OPENING: u64 = 64;

const CLOSING: u64 = 1024;

/// For each call, beside what it asks for.
const CALL: u64 = 8;

/// For each completion that a poll may take, and for each that a drain takes.
const POLLED: u64 = 4;

const DRAINED: u64 = 6;

/// For each receive.
const RECEIVE: u64 = 8;

/// For each request, beside its bytes, and for each byte.
const REQUEST: u64 = 16;

const BYTE: u64 = 4;

/// How many bytes an atomic moves.
const ATOMIC: u64 = 8;

/// The weight of these objects and programs; a weight above 2^64 - 1 counts as that. It does not allocate.
pub fn notes(declared: &Declared, programs: &[Sequence<Call>]) -> u64
    ensures { result ≡ weights.capped (weights.weight declared.now programs.now) }
{
    let lines = declared.lines();
    let objects = (lines.order.len() as u64).saturating_mul(OBJECT);
    let connections = (lines.connects.len() as u64).saturating_mul(CONNECTION);
    objects
        .saturating_add(connections)
        .saturating_add(OPENING + CLOSING)
        .saturating_add(of_programs(programs))
}

fn of_programs(programs: &[Sequence<Call>]) -> u64
    ensures { result ≡ weights.capped (sum_by weights.program_weight programs.now) }
{
    let mut total: u64 = 0;
    for program in programs {
        total = total.saturating_add(of_calls(program.as_slice()));
    }
    total
}

fn of_calls(calls: &[Call]) -> u64
    ensures { result ≡ weights.capped (weights.program_weight calls.now) }
{
    let mut total: u64 = 0;
    for call in calls {
        total = total.saturating_add(of_call(call));
    }
    total
}

fn of_call(call: &Call) -> u64
    ensures { result ≡ weights.capped (weights.call_weight call.now) }
{
    match call {
        Call::Post { requests, .. } => of_requests(requests.as_slice()).saturating_add(CALL),
        Call::Recv { receives, .. } => {
            (receives.len() as u64)
                .saturating_mul(RECEIVE)
                .saturating_add(CALL)
        }
        Call::Poll { max, .. } => CALL + POLLED * *max as u64,
        Call::Drain { count, .. } => CALL + DRAINED * *count as u64,
    }
}

fn of_requests(requests: &[Request]) -> u64
    ensures { result ≡ weights.capped (sum_by weights.request_weight requests.now) }
{
    let mut total: u64 = 0;
    for request in requests {
        total = total.saturating_add(of_request(request));
    }
    total
}

fn of_request(request: &Request) -> u64
    ensures { result ≡ weights.capped (weights.request_weight request.now) }
{
    moved(request).saturating_mul(BYTE).saturating_add(REQUEST)
}

/// How many bytes a request moves.
fn moved(request: &Request) -> u64
    ensures { result ≡ weights.capped (weights.moved request.now.op request.now.body) }
{
    match request.op {
        Op::Cas { .. } | Op::Faa { .. } => ATOMIC,
        _ => body_length(&request.body),
    }
}

fn body_length(body: &Body) -> u64
    ensures { result ≡ weights.capped (weights.body_length body.now) }
{
    match body {
        Body::Sges(sges) => length_of(sges.as_slice()),
        Body::Inline(bytes) => bytes.len() as u64,
    }
}

fn length_of(sges: &[Sge]) -> u64
    ensures { result ≡ weights.capped (sum_by (λ s. s.len) sges.now) }
{
    let mut total: u64 = 0;
    for sge in sges {
        total = total.saturating_add(sge.len as u64);
    }
    total
}
