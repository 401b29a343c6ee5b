//! What commands make of the objects, once the adapter is running.
ghost use Rattle.std.specs.Prelude.{◌≡◌};
ghost use Rattle.cmd_bodies.specs.declared.command.Command.TheVariants as command;
ghost use Rattle.device_commands.specs.Rules.{object_refusal, move_refusal};
ghost use Rattle.device_commands.specs.Effect.{after_object, answered, number_made, moved, unless_refused};
ghost use Rattle.device_commands.specs.Effect as effects;

use crate::objects::{ObjectTables, Pair};
use crate::refusal::Refusal;
use crate::users::{count_one_less, count_one_more};
use cmd_bodies::{CqContext, EqBlock, QpBlock};
use qp_state::{QpMove, QpState, step};
use verbs_types::{FIRST_PD, FIRST_QP};

impl ObjectTables {
    /// ALLOC_PD: the number of the new protection domain.
    pub(crate) fn alloc_pd(&mut self) -> Result<u32, Refusal>
        ensures answer { result ≡ answered (object_refusal self.old command.AllocPd) (number_made self.old command.AllocPd) }
        ensures after { self.new ≡ after_object self.old command.AllocPd }
    {
        let place = self.pds.len() as u32;
        if place >= self.declared.pds {
            return Err(Refusal::BadParameter);
        }
        self.pds.push_reserved(true);
        Ok(FIRST_PD + place)
    }

    /// DEALLOC_PD.
    pub(crate) fn dealloc_pd(&mut self, pd: u32) -> Result<(), Refusal>
        ensures answer { result ≡ answered (object_refusal self.old (command.DeallocPd pd)) tt }
        ensures after { self.new ≡ after_object self.old (command.DeallocPd pd) }
    {
        if !self.pd_lives(pd) {
            return Err(Refusal::BadResource);
        }
        if self.is_pd_used(pd) {
            return Err(Refusal::Busy);
        }
        self.pds[(pd - FIRST_PD) as usize] = false;
        Ok(())
    }

    /// ALLOC_UAR: the number of the new doorbell page.
    pub(crate) fn alloc_uar(&mut self) -> Result<u32, Refusal>
        ensures answer { result ≡ answered (object_refusal self.old command.AllocUar) (number_made self.old command.AllocUar) }
        ensures after { self.new ≡ after_object self.old command.AllocUar }
    {
        let page = self.uars.len();
        if page >= self.declared.pages() {
            return Err(Refusal::BadParameter);
        }
        self.uars.push_reserved(true);
        Ok(page as u32)
    }

    /// DEALLOC_UAR.
    pub(crate) fn dealloc_uar(&mut self, page: u32) -> Result<(), Refusal>
        ensures answer { result ≡ answered (object_refusal self.old (command.DeallocUar page)) tt }
        ensures after { self.new ≡ after_object self.old (command.DeallocUar page) }
    {
        if !self.uar_lives(page) {
            return Err(Refusal::BadResource);
        }
        self.uars[page as usize] = false;
        Ok(())
    }

    /// CREATE_EQ: the number of the new event queue.
    pub(crate) fn create_eq(&mut self, asked: &EqBlock) -> Result<u32, Refusal>
        ensures answer { result ≡ answered (object_refusal self.old (command.CreateEq asked.now)) (number_made self.old (command.CreateEq asked.now)) }
        ensures after { self.new ≡ after_object self.old (command.CreateEq asked.now) }
    {
        if !self.uar_lives(asked.uar) {
            return Err(Refusal::BadResource);
        }
        if self.next_eq(asked).is_none() {
            return Err(Refusal::BadParameter);
        }
        let eq = self.eqs.len() as u32;
        self.eqs.push_reserved(true);
        Ok(eq)
    }

    /// DESTROY_EQ.
    pub(crate) fn destroy_eq(&mut self, eq: u32) -> Result<(), Refusal>
        ensures answer { result ≡ answered (object_refusal self.old (command.DestroyEq eq)) tt }
        ensures after { self.new ≡ after_object self.old (command.DestroyEq eq) }
    {
        if !self.eq_lives(eq) {
            return Err(Refusal::BadResource);
        }
        if self.is_eq_used(eq) {
            return Err(Refusal::Busy);
        }
        self.eqs[eq as usize] = false;
        Ok(())
    }

    /// CREATE_CQ: the number of the new completion queue.
    pub(crate) fn create_cq(&mut self, asked: &CqContext) -> Result<u32, Refusal>
        ensures answer { result ≡ answered (object_refusal self.old (command.CreateCq asked.now)) (number_made self.old (command.CreateCq asked.now)) }
        ensures after { self.new ≡ after_object self.old (command.CreateCq asked.now) }
    {
        if !self.eq_lives(u32::from(asked.c_eqn)) || !self.uar_lives(asked.uar_page) {
            return Err(Refusal::BadResource);
        }
        let Some(shape) = self.next_cq(asked) else {
            return Err(Refusal::BadParameter);
        };
        let cq = self.cqs.len() as u32;
        count_one_more(&mut self.eq_users, shape.eq);
        self.cqs.push_reserved(Some(shape));
        Ok(cq)
    }

    /// DESTROY_CQ.
    pub(crate) fn destroy_cq(&mut self, cq: u32) -> Result<(), Refusal>
        ensures answer { result ≡ answered (object_refusal self.old (command.DestroyCq cq)) tt }
        ensures after { self.new ≡ after_object self.old (command.DestroyCq cq) }
    {
        let Some(shape) = self.cq(cq) else {
            return Err(Refusal::BadResource);
        };
        if self.is_cq_used(cq) {
            return Err(Refusal::Busy);
        }
        count_one_less(&mut self.eq_users, shape.eq);
        self.cqs[cq as usize] = None;
        Ok(())
    }

    /// CREATE_QP: the number of the new queue pair.
    pub(crate) fn create_qp(&mut self, asked: &QpBlock) -> Result<u32, Refusal>
        ensures answer { result ≡ answered (object_refusal self.old (command.CreateQp asked.now)) (number_made self.old (command.CreateQp asked.now)) }
        ensures after { self.new ≡ after_object self.old (command.CreateQp asked.now) }
    {
        if !self.all_live(asked) {
            return Err(Refusal::BadResource);
        }
        let Some(shape) = self.next_qp(asked) else {
            return Err(Refusal::BadParameter);
        };
        let place = self.qps.len() as u32;
        count_one_more(&mut self.pd_users, shape.pd - FIRST_PD);
        count_one_more(&mut self.cq_users, shape.send_cq);
        count_one_more(&mut self.cq_users, shape.recv_cq);
        self.qps.push_reserved(Some(Pair {
            shape,
            state: QpState::Reset,
            peer: None,
        }));
        Ok(FIRST_QP + place)
    }

    /// DESTROY_QP.
    pub(crate) fn destroy_qp(&mut self, qp: u32) -> Result<(), Refusal>
        ensures answer { result ≡ answered (object_refusal self.old (command.DestroyQp qp)) tt }
        ensures after { self.new ≡ after_object self.old (command.DestroyQp qp) }
    {
        let Some(pair) = self.pair(qp) else {
            return Err(Refusal::BadResource);
        };
        count_one_less(&mut self.pd_users, pair.shape.pd - FIRST_PD);
        count_one_less(&mut self.cq_users, pair.shape.send_cq);
        count_one_less(&mut self.cq_users, pair.shape.recv_cq);
        self.qps[(qp - FIRST_QP) as usize] = None;
        Ok(())
    }

    /// Moves a queue pair to another state.
    pub(crate) fn move_pair(&mut self, qp: u32, asked: QpMove) -> Result<(), Refusal>
        ensures answer { result ≡ answered (move_refusal self.old qp asked) tt }
        ensures after { self.new ≡ unless_refused (move_refusal self.old qp asked) self.old (moved self.old qp asked) }
    {
        let Some(pair) = self.pair(qp) else {
            return Err(Refusal::BadResource);
        };
        let Ok(state) = step(pair.state, asked) else {
            return Err(Refusal::BadQpState);
        };
        self.qps[(qp - FIRST_QP) as usize] = Some(Pair {
            state,
            peer: peer_after(asked, pair.peer),
            ..pair
        });
        Ok(())
    }

    /// INIT2RTR_QP, whose peer has to live too.
    pub(crate) fn connect(&mut self, qp: u32, peer: u32) -> Result<(), Refusal>
        ensures answer { result ≡ answered (object_refusal self.old (command.InitToRtr qp peer)) tt }
        ensures after { self.new ≡ after_object self.old (command.InitToRtr qp peer) }
    {
        if self.pair(peer).is_none() {
            return Err(Refusal::BadResource);
        }
        self.move_pair(qp, QpMove::ToRtr { peer })
    }
}

/// The peer of a queue pair after a move.
fn peer_after(asked: QpMove, before: Option<u32>) -> Option<u32>
    ensures { result ≡ effects.peer_after asked before }
{
    match asked {
        QpMove::ToRtr { peer } => Some(peer),
        QpMove::ToInit | QpMove::ToRts | QpMove::ToErr => before,
    }
}
