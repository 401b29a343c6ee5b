//! The names of actors and objects, by their numbers.
ghost use Rattle.std.specs.Prelude.{◌≡◌};
ghost use Rattle.scenario_text.specs.Heads as heads;
ghost use Rattle.transcript_text.specs.Commands as commands;
ghost use Rattle.transcript_text.specs.Numbers.{IsEq, IsPd, IsCq, IsQp, IsObject, IsActor};
ghost use Rattle.transcript_text.specs.History as texts;

use verbs_types::{ADAPTER, CONTROL, FIRST_PD, FIRST_QP, Lines, Object};

pub(crate) fn eq_name(lines: &Lines, eq: u32) -> &[u8]
    requires { IsEq lines.now eq }
    ensures { result.now ≡ heads.eq_name lines.now eq }
{
    lines.eqs.as_slice()[eq as usize].name.as_bytes()
}

pub(crate) fn pd_name(lines: &Lines, pd: u32) -> &[u8]
    requires { IsPd lines.now pd }
    ensures { result.now ≡ heads.pd_name lines.now pd }
{
    lines.pds.as_slice()[(pd - FIRST_PD) as usize]
        .name
        .as_bytes()
}

pub(crate) fn cq_name(lines: &Lines, cq: u32) -> &[u8]
    requires { IsCq lines.now cq }
    ensures { result.now ≡ heads.cq_name lines.now cq }
{
    lines.cqs.as_slice()[cq as usize].name.as_bytes()
}

pub(crate) fn qp_name(lines: &Lines, qp: u32) -> &[u8]
    requires { IsQp lines.now qp }
    ensures { result.now ≡ heads.qp_name lines.now qp }
{
    lines.qps.as_slice()[(qp - FIRST_QP) as usize]
        .name
        .as_bytes()
}

/// Empty: no shared receive queue can be declared yet, so that none has a name.
pub(crate) fn srq_name(_lines: &Lines, _srq: u32) -> &[u8]
    ensures { result.now ≡ texts.srq_name _lines.now _srq }
{
    b""
}

pub(crate) fn object_name(lines: &Lines, object: Object) -> &[u8]
    requires { IsObject lines.now object }
    ensures { result.now ≡ commands.object_name lines.now object }
{
    match object {
        Object::Eq(eq) => eq_name(lines, eq),
        Object::Pd(pd) => pd_name(lines, pd),
        Object::Cq(cq) => cq_name(lines, cq),
        Object::Qp(qp) => qp_name(lines, qp),
    }
}

/// `dev` for the adapter, `ctl` for the control actor, else the name of the thread.
pub(crate) fn actor_name(lines: &Lines, actor: u8) -> &[u8]
    requires { IsActor lines.now actor }
    ensures { result.now ≡ texts.actor_name lines.now actor }
{
    match actor {
        ADAPTER => b"dev",
        CONTROL => b"ctl",
        thread => lines.threads.as_slice()[thread as usize - 1].as_bytes(),
    }
}
