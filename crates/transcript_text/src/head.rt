//! The declaration and connect lines.
ghost use Rattle.std.specs.Prelude.{◌≡◌, ◌++◌, IsTrue, OnOk};
ghost use Rattle.std.specs.List.{flat_map};
ghost use Rattle.verbs_types.specs.Lines.{is_declared, is_cq_line, is_qp_line, is_connect_line};
ghost use Rattle.scenario_text.specs.Heads as heads;
ghost use Rattle.transcript_text.specs.Fields.{spaced, qp_names, qp_sizes};
ghost use Rattle.transcript_text.specs.Numbers.{IsObject};

use crate::names::{cq_name, eq_name, pd_name, qp_name};
use crate::writer::TextWriter;
use verbs_types::{
    Connect, CqLine, Declared, EqLine, FIRST_PD, FIRST_QP, Lines, NoMemory, Object, PdLine, QpLine,
};

/// Adds the lines that declare objects, in their own order, and then those that connect queue
/// pairs.
pub fn put_head(out: &mut TextWriter, declared: &Declared) -> Result<(), NoMemory>
    ensures { OnOk result (out.new ≡ out.old ++ heads.head_text declared.now) }
{
    let lines = declared.lines();
    put_objects(out, lines)?;
    put_connects(out, lines)
}

fn put_objects(out: &mut TextWriter, lines: &Lines) -> Result<(), NoMemory>
    requires { IsTrue (is_declared lines.now) }
    ensures { OnOk result (out.new ≡ out.old ++ flat_map (heads.object_text lines.now) lines.now.order) }
{
    for object in lines.order.as_slice() {
        put_object(out, lines, *object)?;
    }
    Ok(())
}

fn put_connects(out: &mut TextWriter, lines: &Lines) -> Result<(), NoMemory>
    requires { IsTrue (is_declared lines.now) }
    ensures { OnOk result (out.new
        ≡ out.old ++ flat_map (heads.connect_text lines.now) lines.now.connects) }
{
    for connect in lines.connects.as_slice() {
        put_connect(out, lines, *connect)?;
    }
    Ok(())
}

fn put_object(out: &mut TextWriter, lines: &Lines, object: Object) -> Result<(), NoMemory>
    requires declared { IsTrue (is_declared lines.now) }
    requires object { IsObject lines.now object }
    ensures { OnOk result (out.new ≡ out.old ++ heads.object_text lines.now object) }
{
    match object {
        Object::Eq(eq) => put_eq(out, &lines.eqs.as_slice()[eq as usize]),
        Object::Pd(pd) => put_pd(out, &lines.pds.as_slice()[(pd - FIRST_PD) as usize]),
        Object::Cq(cq) => put_cq(out, lines, &lines.cqs.as_slice()[cq as usize]),
        Object::Qp(qp) => put_qp(out, lines, &lines.qps.as_slice()[(qp - FIRST_QP) as usize]),
    }
}

fn put_eq(out: &mut TextWriter, line: &EqLine) -> Result<(), NoMemory>
    ensures { OnOk result (out.new ≡ out.old ++ heads.eq_text line.now) }
{
    out.put_bytes(b"eq")?;
    out.put_field(line.name.as_bytes())?;
    out.put_number_field(u64::from(line.log))?;
    out.end_line()
}

fn put_pd(out: &mut TextWriter, line: &PdLine) -> Result<(), NoMemory>
    ensures { OnOk result (out.new ≡ out.old ++ heads.pd_text line.now) }
{
    out.put_bytes(b"pd")?;
    out.put_field(line.name.as_bytes())?;
    out.end_line()
}

fn put_cq(out: &mut TextWriter, lines: &Lines, line: &CqLine) -> Result<(), NoMemory>
    requires { IsTrue (is_cq_line lines.now line.now) }
    ensures { OnOk result (out.new ≡ out.old ++ heads.cq_text lines.now line.now) }
{
    out.put_bytes(b"cq")?;
    out.put_field(line.name.as_bytes())?;
    out.put_number_field(u64::from(line.log))?;
    out.put_number_field(u64::from(line.ceiling))?;
    out.put_field(eq_name(lines, line.eq))?;
    out.put_number_field(line.start)?;
    out.end_line()
}

fn put_qp(out: &mut TextWriter, lines: &Lines, line: &QpLine) -> Result<(), NoMemory>
    requires { IsTrue (is_qp_line lines.now line.now) }
    ensures { OnOk result (out.new ≡ out.old ++ heads.qp_text lines.now line.now) }
{
    out.put_bytes(b"qp")?;
    put_qp_names(out, lines, line)?;
    put_qp_sizes(out, line)?;
    out.end_line()
}

/// Adds the names of the queue pair, its protection domain and its completion queues.
fn put_qp_names(out: &mut TextWriter, lines: &Lines, line: &QpLine) -> Result<(), NoMemory>
    requires { IsTrue (is_qp_line lines.now line.now) }
    ensures { OnOk result (out.new ≡ out.old ++ spaced (qp_names lines.now line.now)) }
{
    out.put_field(line.name.as_bytes())?;
    out.put_field(pd_name(lines, line.pd))?;
    out.put_field(cq_name(lines, line.send_cq))?;
    out.put_field(cq_name(lines, line.recv_cq))
}

/// Adds the logs of its places, the segments of a request, and the start value.
fn put_qp_sizes(out: &mut TextWriter, line: &QpLine) -> Result<(), NoMemory>
    ensures { OnOk result (out.new ≡ out.old ++ spaced (qp_sizes line.now)) }
{
    out.put_number_field(u64::from(line.send_log))?;
    out.put_field(b"rq")?;
    out.put_number_part(u64::from(line.recv_log))?;
    out.put_number_field(u64::from(line.segments))?;
    out.put_number_field(line.start)
}

fn put_connect(out: &mut TextWriter, lines: &Lines, connect: Connect) -> Result<(), NoMemory>
    requires { IsTrue (is_connect_line lines.now connect) }
    ensures { OnOk result (out.new ≡ out.old ++ heads.connect_text lines.now connect) }
{
    out.put_bytes(b"connect")?;
    out.put_field(qp_name(lines, connect.a))?;
    out.put_field(qp_name(lines, connect.b))?;
    out.end_line()
}
