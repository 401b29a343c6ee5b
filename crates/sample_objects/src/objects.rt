//! The declared lines.
ghost use Rattle.std.specs.Prelude.{◌≡◌, IfOk};
ghost use Rattle.actor_map.specs.Sizes.{words_of};
ghost use Rattle.sample_objects.specs.Pair.{lines_of, pair_of};

use std::alloc::Global;
use std::test::Fail;
use verbs_types::{
    Connect, CqLine, Declared, EqLine, FIRST_PD, FIRST_QP, Lines, Name, Object, PdLine, QpLine,
    Sequence,
};

/// The objects, with the queue pair `qp q p c c 2 rq:0 1 0`.
pub fn one_pair(alloc: Global) -> Result<Declared, Fail>
    ensures lines { IfOk result (λ d. d ≡ lines_of (pair_of 2 0 1)) }
    ensures words { IfOk result (λ d. words_of d ≡ 17662) }
{
    with_pair(alloc, 2, 0, 1)
}

/// The objects with another queue pair: 2^`send_log` requests, and 2^`recv_log` receives of as many
/// scatter/gather entries as `segments`.
pub fn with_pair(
    alloc: Global,
    send_log: u32,
    recv_log: u32,
    segments: u32,
) -> Result<Declared, Fail>
    ensures { IfOk result (λ d. d ≡ lines_of (pair_of send_log recv_log segments)) }
{
    let q = QpLine {
        name: Name::new(alloc, b"q")?,
        pd: FIRST_PD,
        send_cq: 0,
        recv_cq: 0,
        send_log,
        recv_log,
        segments,
        start: 0,
    };
    Ok(Declared::new(lines(alloc, q)?)?)
}

/// The lines with this queue pair.
fn lines(alloc: Global, q: QpLine) -> Result<Lines, Fail>
    ensures { IfOk result (λ d. d ≡ lines_of q) }
{
    let e = EqLine {
        name: Name::new(alloc, b"e")?,
        log: 1,
    };
    let p = PdLine {
        name: Name::new(alloc, b"p")?,
    };
    let c = CqLine {
        name: Name::new(alloc, b"c")?,
        log: 2,
        ceiling: 2,
        eq: 0,
        start: 0,
    };
    let order = [
        Object::Eq(0),
        Object::Pd(FIRST_PD),
        Object::Cq(0),
        Object::Qp(FIRST_QP),
    ];
    let connect = Connect {
        a: FIRST_QP,
        b: FIRST_QP,
    };
    let threads = [Name::new(alloc, b"a")?, Name::new(alloc, b"b")?];
    Ok(Lines {
        eqs: Sequence::from_vec(Vec::from_array(alloc, [e])?),
        pds: Sequence::from_vec(Vec::from_array(alloc, [p])?),
        cqs: Sequence::from_vec(Vec::from_array(alloc, [c])?),
        qps: Sequence::from_vec(Vec::from_array(alloc, [q])?),
        order: Sequence::from_vec(Vec::from_array(alloc, order)?),
        connects: Sequence::from_vec(Vec::from_array(alloc, [connect])?),
        threads: Sequence::from_vec(Vec::from_array(alloc, threads)?),
    })
}
