//! The objects that a scenario declares.
ghost use Rattle.std.specs.Prelude.{◌≡◌, ◌↔◌, ◌+◌, ◌==◌, IsTrue, IfOk, IsOk};
ghost use Rattle.std.specs.List.{list_all};
ghost use Rattle.verbs_types.specs.Lines as tests;

use crate::name::Name;
use crate::sequence::Sequence;
use std::marker::Model;
use thiserror::Error;

/// The number of the first protection domain.
pub const FIRST_PD: u32 = 1;

/// The number of the first queue pair.
pub const FIRST_QP: u32 = 0x40;

/// The greatest start value of a completion queue's index or a work queue's count.
const MAX_START: u64 = 1 << 32;

/// An event queue of 2^`log` entries.
#[derive(Debug, Drop)]
pub struct EqLine {
    pub name: Name,
    pub log: u32,
}

/// A protection domain.
#[derive(Debug, Drop)]
pub struct PdLine {
    pub name: Name,
}

/// A completion queue of 2^`log` entries, in areas of 2^`ceiling`, whose first index is `start`.
#[derive(Debug, Drop)]
pub struct CqLine {
    pub name: Name,
    pub log: u32,
    pub ceiling: u32,
    /// The number of its event queue.
    pub eq: u32,
    pub start: u64,
}

/// A reliable connected queue pair with a send queue and a receive queue of its own.
#[derive(Debug, Drop)]
pub struct QpLine {
    pub name: Name,
    /// The number of its protection domain.
    pub pd: u32,
    /// The number of the completion queue of its send queue.
    pub send_cq: u32,
    /// The number of the completion queue of its receive queue.
    pub recv_cq: u32,
    /// The send queue has 2^`send_log` places.
    pub send_log: u32,
    /// The receive queue has 2^`recv_log` places.
    pub recv_log: u32,
    /// The most scatter/gather entries of one request.
    pub segments: u32,
    /// The first send block index and the first receive count.
    pub start: u64,
}

/// Two queue pairs, by number, that are connected with each other.
#[derive(Clone, Copy, Debug, PartialEq, Eq)]
pub struct Connect {
    pub a: u32,
    pub b: u32,
}

/// A declared object by its number: event queues and completion queues count from 0, protection domains
/// from 1, queue pairs from 0x40.
#[derive(Clone, Copy, Debug, PartialEq, Eq)]
pub enum Object {
    Eq(u32),
    Pd(u32),
    Cq(u32),
    Qp(u32),
}

/// The lines that declare objects, connect queue pairs and name threads.
#[derive(Debug, Drop)]
pub struct Lines {
    pub eqs: Sequence<EqLine>,
    pub pds: Sequence<PdLine>,
    pub cqs: Sequence<CqLine>,
    pub qps: Sequence<QpLine>,
    /// All objects in the order of their lines.
    pub order: Sequence<Object>,
    pub connects: Sequence<Connect>,
    /// The names of the threads: actor 1 is the first.
    pub threads: Sequence<Name>,
}

/// Lines of which each names declared objects alone and is within the limits.
#[derive(Debug, Drop)]
pub struct Declared {
    lines: Lines,
}

impl Model for Declared {
    ghost use Rattle.std.specs.Prelude.{IsTrue};
    ghost use Rattle.verbs_types.specs.declared.declaration.Lines.{Lines};

    ghost Value = { Lines };

    ghost use Rattle.verbs_types.specs.Lines.{is_declared};

    ghost view = { λ d. d.lines };

    ghost invariant = { λ d. IsTrue (is_declared d.lines) };
}

/// A line names an object that is not declared, or passes a limit.
#[derive(Clone, Copy, Debug, PartialEq, Eq, Error)]
#[error("a line names an object that is not declared or passes a limit")]
pub struct NotDeclared;

impl Declared {
    /// These lines, where each of them names declared objects alone and is within the limits. It does not
    /// allocate.
    pub fn new(lines: Lines) -> Result<Declared, NotDeclared>
        ensures found { IfOk result (λ d. d ≡ lines) }
        ensures only { IsOk result ↔ IsTrue (tests.is_declared lines) }
    {
        if is_declared(&lines) {
            Ok(Declared { lines })
        } else {
            Err(NotDeclared)
        }
    }

    /// The lines.
    pub fn lines(&self) -> &Lines
        ensures lines { result.now ≡ self.now }
        ensures declared { IsTrue (tests.is_declared self.now) }
    {
        &self.lines
    }
}

fn is_declared(lines: &Lines) -> bool
    ensures { result ≡ tests.is_declared lines.now }
{
    are_few(lines)
        && are_in_turn(lines)
        && are_eq_lines(lines)
        && are_cq_lines(lines)
        && are_qp_lines(lines)
        && are_connect_lines(lines)
}

fn are_few(lines: &Lines) -> bool
    ensures { result ≡ tests.are_few lines.now }
{
    lines.eqs.len() <= 8 && lines.pds.len() <= 64 && lines.cqs.len() <= 32 && lines.qps.len() <= 64
}

/// Whether the objects of each kind come by their numbers, and all of them.
fn are_in_turn(lines: &Lines) -> bool
    ensures { result ≡ tests.are_in_turn lines.now 0 FIRST_PD 0 FIRST_QP lines.now.order }
{
    let (mut eq, mut pd, mut cq, mut qp) = (0, FIRST_PD as usize, 0, FIRST_QP as usize);
    for object in lines.order.as_slice() {
        match *object {
            Object::Eq(number) if number as usize == eq => eq += 1,
            Object::Pd(number) if number as usize == pd => pd += 1,
            Object::Cq(number) if number as usize == cq => cq += 1,
            Object::Qp(number) if number as usize == qp => qp += 1,
            _ => return false,
        }
    }
    eq == lines.eqs.len()
        && is_past(pd, FIRST_PD, lines.pds.len())
        && cq == lines.cqs.len()
        && is_past(qp, FIRST_QP, lines.qps.len())
}

/// Whether a number is the first after `count` numbers that begin with `first`.
fn is_past(number: usize, first: u32, count: usize) -> bool
    ensures { result ≡ (number == first + count) }
{
    number >= first as usize && number - first as usize == count
}

fn are_eq_lines(lines: &Lines) -> bool
    ensures { result ≡ list_all tests.is_eq_line lines.now.eqs }
{
    lines.eqs.as_slice().iter().all(is_eq_line)
}

fn are_cq_lines(lines: &Lines) -> bool
    ensures { result ≡ list_all (tests.is_cq_line lines.now) lines.now.cqs }
{
    lines
        .cqs
        .as_slice()
        .iter()
        .all(|line| is_cq_line(lines, line))
}

fn are_qp_lines(lines: &Lines) -> bool
    ensures { result ≡ list_all (tests.is_qp_line lines.now) lines.now.qps }
{
    lines
        .qps
        .as_slice()
        .iter()
        .all(|line| is_qp_line(lines, line))
}

fn are_connect_lines(lines: &Lines) -> bool
    ensures { result ≡ list_all (tests.is_connect_line lines.now) lines.now.connects }
{
    lines
        .connects
        .as_slice()
        .iter()
        .all(|line| is_connect_line(lines, line))
}

/// Whether a number is one of `count`, counted from `first`.
pub fn is_among(first: u32, count: usize, number: u32) -> bool
    ensures { result ≡ tests.is_among first count number }
{
    first <= number && ((number - first) as usize) < count
}

fn is_between(least: u32, most: u32, number: u32) -> bool
    ensures { result ≡ tests.is_between least most number }
{
    least <= number && number <= most
}

fn is_eq_line(line: &EqLine) -> bool
    ensures { result ≡ tests.is_eq_line line.now }
{
    is_between(1, 10, line.log)
}

fn is_cq_line(lines: &Lines, line: &CqLine) -> bool
    ensures { result ≡ tests.is_cq_line lines.now line.now }
{
    is_between(1, 12, line.ceiling)
        && is_between(1, line.ceiling, line.log)
        && is_among(0, lines.eqs.len(), line.eq)
        && line.start <= MAX_START
}

fn is_qp_line(lines: &Lines, line: &QpLine) -> bool
    ensures { result ≡ tests.is_qp_line lines.now line.now }
{
    is_among(FIRST_PD, lines.pds.len(), line.pd)
        && is_among(0, lines.cqs.len(), line.send_cq)
        && is_among(0, lines.cqs.len(), line.recv_cq)
        && line.send_log <= 8
        && line.recv_log <= 8
        && is_between(1, 8, line.segments)
        && line.start <= MAX_START
}

fn is_connect_line(lines: &Lines, line: &Connect) -> bool
    ensures { result ≡ tests.is_connect_line lines.now line.now }
{
    is_among(FIRST_QP, lines.qps.len(), line.a) && is_among(FIRST_QP, lines.qps.len(), line.b)
}
