//! The adapter before its first operation.
ghost use Rattle.std.specs.Prelude.{◌≡◌, ◌<◌, ◌≤◌, ◌^◌, IsTrue, IfOk, length};
ghost use Rattle.verbs_types.specs.Lines.{is_among};
ghost use Rattle.verbs_rules.specs.Start.{is_connected as is_connected_in};
ghost use Rattle.verbs_types.specs.declared.declaration.TheConstants.{FIRST_QP};
ghost use Rattle.actor_map.specs.Map.{map_of};
ghost use Rattle.actor_map.specs.Sizes.{words_of};
ghost use Rattle.object_places.specs.Places.{qp_line};
ghost use Rattle.device_engine.specs.First.{IsFirstPair, IsFirstQueue, AreFirstPairs, AreFirstQueues, IsFresh};
ghost use Rattle.device_engine.specs.Scan.{IsStanding};
ghost use Rattle.device_engine.specs.View.{scan_of};

use crate::pair::Pair;
use crate::scan::{Scan, Work};
use actor_map::AddressMap;
use counted_ring::WqDevice;
use cq_pair::CqDevice;
use object_places::{completion_place, send_place};
use std::alloc::{AllocError, Global};
use std::snapshot::Snapshot;
use verbs_types::{Declared, FIRST_QP, Lines, QpLine};

/// A scan that begins with the first pair, and has seen nothing.
pub(crate) fn first_scan(alloc: Global, d: &Declared, map: &AddressMap) -> Result<Scan, AllocError>
    requires map { map.now ≡ map_of d.now }
    requires fits { words_of d.now ≤ 2 ^ 20 }
    ensures standing { IfOk result (λ s. IsStanding (scan_of s)) }
    ensures fresh { IfOk result (λ s. IsFresh d.now (scan_of s)) }
{
    // The declared lines are within the limits.
    let _ = d.lines();
    let mut scan = Scan {
        declared: Snapshot::of(d),
        pairs: first_pairs(alloc, d, map)?,
        queues: first_queues(alloc, d, map)?,
        visit: 0,
        work: Work::Ending,
    };
    scan.visit_pair(0);
    Ok(scan)
}

fn first_pairs(alloc: Global, d: &Declared, map: &AddressMap) -> Result<Vec<Pair>, AllocError>
    requires map { map.now ≡ map_of d.now }
    requires fits { words_of d.now ≤ 2 ^ 20 }
    ensures { IfOk result (λ v. AreFirstPairs d.now (length d.now.qps) v.items) }
{
    let mut pairs = Vec::new(alloc);
    for place in 0..d.lines().qps.len() {
        pairs.push(first_pair(d, map, FIRST_QP + place as u32))?;
    }
    Ok(pairs)
}

fn first_queues(alloc: Global, d: &Declared, map: &AddressMap) -> Result<Vec<CqDevice>, AllocError>
    requires map { map.now ≡ map_of d.now }
    requires fits { words_of d.now ≤ 2 ^ 20 }
    ensures { IfOk result (λ v. AreFirstQueues d.now (length d.now.cqs) v.items) }
{
    let mut queues = Vec::new(alloc);
    for place in 0..d.lines().cqs.len() {
        queues.push(first_queue(d, map, place as u32))?;
    }
    Ok(queues)
}

/// The queue pair of this number, of which nothing was seen.
fn first_pair(d: &Declared, map: &AddressMap, number: u32) -> Pair
    requires object { IsTrue (is_among FIRST_QP (length d.now.qps) number) }
    requires map { map.now ≡ map_of d.now }
    requires fits { words_of d.now ≤ 2 ^ 20 }
    ensures { IsFirstPair d.now number result }
{
    let place = send_place(d, map, number);
    let may_send = is_connected(d.lines(), number);
    let line = line_of(d, number);
    Pair {
        requests: WqDevice::new(place, line.start),
        place,
        number,
        next: line.start,
        taken: 0,
        may_send,
        send_cq: line.send_cq,
    }
}

/// The line of the queue pair of this number.
fn line_of(d: &Declared, number: u32) -> &QpLine
    requires object { IsTrue (is_among FIRST_QP (length d.now.qps) number) }
    ensures line { result.now ≡ qp_line d.now number }
    ensures start { (qp_line d.now number).start ≤ 2 ^ 32 }
    ensures send_cq { (qp_line d.now number).send_cq < length d.now.cqs }
    ensures number { number < 2 ^ 24 }
{
    &d.lines().qps.as_slice()[(number - FIRST_QP) as usize]
}

/// The completion queue of this number, in which nothing was published.
fn first_queue(d: &Declared, map: &AddressMap, number: u32) -> CqDevice
    requires object { IsTrue (is_among 0 (length d.now.cqs) number) }
    requires map { map.now ≡ map_of d.now }
    requires fits { words_of d.now ≤ 2 ^ 20 }
    ensures { IsFirstQueue d.now number result }
{
    let line = &d.lines().cqs.as_slice()[number as usize];
    CqDevice::new(completion_place(d, map, number), line.start)
}

fn is_connected(lines: &Lines, qp: u32) -> bool
    ensures { result ≡ is_connected_in lines.now qp }
{
    lines
        .connects
        .as_slice()
        .iter()
        .any(|connect| connect.a == qp || connect.b == qp)
}
