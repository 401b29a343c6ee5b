//! What is declared of the objects that a host may make.
ghost use Rattle.std.specs.Prelude.{◌≡◌, ◌+◌, ◌≤◌, IfOk, IsTrue, length, map, vec_len};
ghost use Rattle.verbs_types.specs.Lines.{is_declared};
ghost use Rattle.device_commands.specs.Next as next;
ghost use Rattle.std.specs.List.{filter};
ghost use Rattle.device_commands.specs.Shapes as shape;
ghost use Rattle.device_commands.specs.Shapes.{has_page, eq_shape, cq_shape, qp_shape};

use cmd_bodies::{CqContext, EqBlock, QpBlock};
use std::alloc::{AllocError, Global};
use verbs_types::{Lines, Object};

/// An event queue as it is declared.
#[derive(Clone, Copy, Debug, PartialEq, Eq)]
pub struct EqShape {
    /// The log2 of the number of entries.
    pub log: u32,
}

/// A completion queue as it is declared.
#[derive(Clone, Copy, Debug, PartialEq, Eq)]
pub struct CqShape {
    /// The log2 of the number of entries.
    pub log: u32,
    /// The number of its event queue.
    pub eq: u32,
}

/// A queue pair as it is declared.
#[derive(Clone, Copy, Debug, PartialEq, Eq)]
pub struct QpShape {
    /// The number of its protection domain.
    pub pd: u32,
    /// The number of the completion queue of its send queue.
    pub send_cq: u32,
    /// The number of the completion queue of its receive queue.
    pub recv_cq: u32,
    /// The log2 of the number of requests.
    pub send_log: u32,
    /// The log2 of the number of receives.
    pub recv_log: u32,
    /// The most scatter/gather entries of one request.
    pub segments: u32,
}

/// The objects that a host may make, of each kind in the order of their numbers.
#[derive(Drop)]
pub(crate) struct Shapes {
    pub pds: u32,
    pub eqs: Vec<EqShape>,
    pub cqs: Vec<CqShape>,
    pub qps: Vec<QpShape>,
    /// The object that each doorbell page is for.
    pub owners: Vec<Object>,
}

impl Shapes {
    /// What these lines declare.
    pub(crate) fn of(alloc: Global, lines: &Lines) -> Result<Shapes, AllocError>
        requires { IsTrue (is_declared lines.now) }
        ensures pds { IfOk result (λ s. s.pds ≡ length lines.now.pds) }
        ensures eqs { IfOk result (λ s. s.eqs.items ≡ map eq_shape lines.now.eqs) }
        ensures cqs { IfOk result (λ s. s.cqs.items ≡ map cq_shape lines.now.cqs) }
        ensures qps { IfOk result (λ s. s.qps.items ≡ map qp_shape lines.now.qps) }
        ensures owners { IfOk result (λ s. s.owners.items ≡ filter has_page lines.now.order) }
    {
        let mut eqs = Vec::with_capacity(alloc, lines.eqs.len())?;
        for line in lines.eqs.as_slice() {
            eqs.push(EqShape { log: line.log })?;
        }
        let mut cqs = Vec::with_capacity(alloc, lines.cqs.len())?;
        for line in lines.cqs.as_slice() {
            cqs.push(CqShape {
                log: line.log,
                eq: line.eq,
            })?;
        }
        let mut qps = Vec::with_capacity(alloc, lines.qps.len())?;
        for line in lines.qps.as_slice() {
            qps.push(QpShape {
                pd: line.pd,
                send_cq: line.send_cq,
                recv_cq: line.recv_cq,
                send_log: line.send_log,
                recv_log: line.recv_log,
                segments: line.segments,
            })?;
        }
        let mut owners = Vec::with_capacity(alloc, lines.order.len())?;
        for object in lines.order.as_slice() {
            if has_page(*object) {
                owners.push(*object)?;
            }
        }
        Ok(Shapes {
            pds: lines.pds.len() as u32,
            eqs,
            cqs,
            qps,
            owners,
        })
    }

    /// How many doorbell pages there may be: one for each event queue, completion queue and queue pair.
    pub(crate) fn pages(&self) -> usize
        requires { vec_len self.now.eqs + vec_len self.now.cqs + vec_len self.now.qps ≤ 255 }
        ensures { result ≡ vec_len self.now.eqs + vec_len self.now.cqs + vec_len self.now.qps }
    {
        self.eqs.len() + self.cqs.len() + self.qps.len()
    }
}

/// Whether an object has a doorbell page.
fn has_page(object: Object) -> bool
    ensures { result ≡ shape.has_page object }
{
    match object {
        Object::Eq(_) | Object::Cq(_) | Object::Qp(_) => true,
        Object::Pd(_) => false,
    }
}

/// Whether both are the same object with a doorbell page.
pub(crate) fn is_same(one: Object, other: Object) -> bool
    ensures { result ≡ next.is_same one other }
{
    match (one, other) {
        (Object::Eq(n), Object::Eq(m)) => n == m,
        (Object::Cq(n), Object::Cq(m)) => n == m,
        (Object::Qp(n), Object::Qp(m)) => n == m,
        _ => false,
    }
}

/// Whether a command asks for the event queue as it is declared, its doorbell page and its address aside.
pub(crate) fn is_eq_of(asked: &EqBlock, shape: &EqShape) -> bool
    ensures { result ≡ next.is_eq_of asked.now shape.now }
{
    asked.log == shape.log
}

/// The same of a completion queue.
pub(crate) fn is_cq_of(asked: &CqContext, shape: &CqShape) -> bool
    ensures { result ≡ next.is_cq_of asked.now shape.now }
{
    asked.cqe_sz == 0
        && u32::from(asked.log_cq_size) == shape.log
        && u32::from(asked.c_eqn) == shape.eq
}

/// The same of a queue pair.
pub(crate) fn is_qp_of(asked: &QpBlock, shape: &QpShape) -> bool
    ensures { result ≡ next.is_qp_of asked.now shape.now }
{
    asked.pd == shape.pd
        && asked.send_cq == shape.send_cq
        && asked.recv_cq == shape.recv_cq
        && asked.send_log == shape.send_log
        && asked.recv_log == shape.recv_log
        && asked.segments == shape.segments
}
