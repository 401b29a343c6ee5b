//! The objects that were made, and which of them live.
ghost use Rattle.std.specs.Prelude.{◌≡◌, IfOk, IsTrue, slice_index_or, false};
ghost use Rattle.verbs_types.specs.Lines.{is_declared};
ghost use Rattle.device_commands.specs.Shapes.{declared_in};
ghost use Rattle.device_commands.specs.Objects as objects;
ghost use Rattle.device_commands.specs.Next as next;

use crate::shapes::{CqShape, EqShape, QpShape, Shapes, is_cq_of, is_eq_of, is_qp_of, is_same};
use cmd_bodies::{CqContext, EqBlock, QpBlock};
use qp_state::QpState;
use std::alloc::{AllocError, Global};
use std::marker::Model;
use verbs_types::{FIRST_PD, FIRST_QP, Lines, Object};

mod changes;

/// A queue pair that lives.
#[derive(Clone, Copy, Debug, PartialEq, Eq)]
pub struct Pair {
    pub shape: QpShape,
    pub state: QpState,
    /// The queue pair at the other end, once INIT2RTR_QP named it.
    pub peer: Option<u32>,
}

/// The objects of an adapter by number: an item for each that was made, and beside it how many live objects use
/// one. Lookup and change at a number take constant time.
#[derive(Drop)]
pub(crate) struct ObjectTables {
    declared: Shapes,
    pds: Vec<bool>,
    uars: Vec<bool>,
    eqs: Vec<bool>,
    cqs: Vec<Option<CqShape>>,
    qps: Vec<Option<Pair>>,
    pd_users: Vec<u32>,
    eq_users: Vec<u32>,
    cq_users: Vec<u32>,
}

impl Model for ObjectTables {
    ghost use Rattle.device_commands.specs.Objects.{Objects};

    ghost Value = { Objects };

    ghost use Rattle.device_commands.specs.Inside.{objects_view, IsObjectTables};

    ghost view = { objects_view };

    ghost invariant = { IsObjectTables };
}

impl ObjectTables {
    /// No object, with room for all that the lines declare.
    pub(crate) fn new(alloc: Global, lines: &Lines) -> Result<ObjectTables, AllocError>
        requires { IsTrue (is_declared lines.now) }
        ensures { IfOk result (λ o. o ≡ objects.no_objects (declared_in lines.now)) }
    {
        let declared = Shapes::of(alloc, lines)?;
        let pds = declared.pds as usize;
        let eqs = declared.eqs.len();
        let cqs = declared.cqs.len();
        let qps = declared.qps.len();
        Ok(ObjectTables {
            declared,
            pds: Vec::with_capacity(alloc, pds)?,
            uars: Vec::with_capacity(alloc, eqs + cqs + qps)?,
            eqs: Vec::with_capacity(alloc, eqs)?,
            cqs: Vec::with_capacity(alloc, cqs)?,
            qps: Vec::with_capacity(alloc, qps)?,
            pd_users: vec![in alloc; 0; pds]?,
            eq_users: vec![in alloc; 0; eqs]?,
            cq_users: vec![in alloc; 0; cqs]?,
        })
    }

    /// Whether a protection domain lives.
    pub(crate) fn pd_lives(&self, pd: u32) -> bool
        ensures { result ≡ objects.pd_lives self.now pd }
    {
        pd >= FIRST_PD && is_set(self.pds.as_slice(), pd - FIRST_PD)
    }

    /// Whether a doorbell page lives.
    pub(crate) fn uar_lives(&self, page: u32) -> bool
        ensures { result ≡ objects.uar_lives self.now page }
    {
        is_set(self.uars.as_slice(), page)
    }

    /// Whether an event queue lives.
    pub(crate) fn eq_lives(&self, eq: u32) -> bool
        ensures { result ≡ objects.eq_lives self.now eq }
    {
        is_set(self.eqs.as_slice(), eq)
    }

    /// The completion queue of this number, if it lives.
    pub(crate) fn cq(&self, cq: u32) -> Option<CqShape>
        ensures { result ≡ objects.cq_at self.now cq }
    {
        self.cqs.get(cq as usize).copied().flatten()
    }

    /// The queue pair of this number, if it lives.
    pub(crate) fn pair(&self, qp: u32) -> Option<Pair>
        ensures { result ≡ objects.qp_at self.now qp }
    {
        if qp < FIRST_QP {
            return None;
        }
        self.qps.get((qp - FIRST_QP) as usize).copied().flatten()
    }

    /// Whether a live object uses this live one.
    pub(crate) fn is_pd_used(&self, pd: u32) -> bool
        requires { IsTrue (objects.pd_lives self.now pd) }
        ensures { result ≡ objects.is_pd_used self.now pd }
    {
        self.pd_users[(pd - FIRST_PD) as usize] != 0
    }

    pub(crate) fn is_eq_used(&self, eq: u32) -> bool
        requires { IsTrue (objects.eq_lives self.now eq) }
        ensures { result ≡ objects.is_eq_used self.now eq }
    {
        self.eq_users[eq as usize] != 0
    }

    pub(crate) fn is_cq_used(&self, cq: u32) -> bool
        requires { IsTrue (objects.cq_lives self.now cq) }
        ensures { result ≡ objects.is_cq_used self.now cq }
    {
        self.cq_users[cq as usize] != 0
    }

    /// Whether the doorbell page is the one for this object.
    fn is_page_of(&self, page: u32, object: Object) -> bool
        ensures { result ≡ next.is_page_of self.now page object }
    {
        match self.declared.owners.get(page as usize) {
            Some(owner) => is_same(*owner, object),
            None => false,
        }
    }

    pub(crate) fn next_eq(&self, asked: &EqBlock) -> Option<EqShape>
        ensures { result ≡ next.next_eq self.now asked.now }
    {
        let shape = self.declared.eqs.get(self.eqs.len()).copied()?;
        if is_eq_of(asked, &shape)
            && self.is_page_of(asked.uar, Object::Eq(self.eqs.len() as u32))
        {
            Some(shape)
        } else {
            None
        }
    }

    pub(crate) fn next_cq(&self, asked: &CqContext) -> Option<CqShape>
        ensures { result ≡ next.next_cq self.now asked.now }
    {
        let shape = self.declared.cqs.get(self.cqs.len()).copied()?;
        if is_cq_of(asked, &shape)
            && self.is_page_of(asked.uar_page, Object::Cq(self.cqs.len() as u32))
        {
            Some(shape)
        } else {
            None
        }
    }

    pub(crate) fn next_qp(&self, asked: &QpBlock) -> Option<QpShape>
        ensures { result ≡ next.next_qp self.now asked.now }
    {
        let shape = self.declared.qps.get(self.qps.len()).copied()?;
        if is_qp_of(asked, &shape)
            && self.is_page_of(asked.uar, Object::Qp(FIRST_QP + self.qps.len() as u32))
        {
            Some(shape)
        } else {
            None
        }
    }

    /// Whether all that the parameters of a queue pair name lives. No shared receive queue does.
    pub(crate) fn all_live(&self, asked: &QpBlock) -> bool
        ensures { result ≡ objects.all_live self.now asked.now }
    {
        self.pd_lives(asked.pd)
            && self.cq(asked.send_cq).is_some()
            && self.cq(asked.recv_cq).is_some()
            && asked.srq == 0
            && self.uar_lives(asked.uar)
    }
}

/// Whether the item of a place is there and true.
fn is_set(items: &[bool], place: u32) -> bool
    ensures { result ≡ slice_index_or items.now place false }
{
    items.get(place as usize).copied().unwrap_or(false)
}
