//! The texts of requests and receives.
ghost use Rattle.std.specs.Prelude.{◌≡◌, [], ◌∷◌, ◌++◌, codes, decimal, map, OnOk};
ghost use Rattle.std.specs.List.{flat_map};
ghost use Rattle.scenario_text.specs.Requests as texts;
ghost use Rattle.transcript_text.specs.Fields.{spaced};

use crate::writer::TextWriter;
use verbs_types::{Body, Item, NoMemory, Op, Receive, Request, Sge};

/// Adds the items in order, each as in a scenario, from its `+` on.
pub(crate) fn put_items(out: &mut TextWriter, items: &[Item]) -> Result<(), NoMemory>
    ensures { OnOk result (out.new ≡ out.old ++ spaced (flat_map texts.item_fields items.now)) }
{
    for item in items {
        put_item(out, item)?;
    }
    Ok(())
}

fn put_item(out: &mut TextWriter, item: &Item) -> Result<(), NoMemory>
    ensures { OnOk result (out.new ≡ out.old ++ spaced (texts.item_fields item.now)) }
{
    match item {
        Item::Request(request) => put_request(out, request),
        Item::Receive(receive) => put_receive(out, receive),
    }
}

fn put_request(out: &mut TextWriter, request: &Request) -> Result<(), NoMemory>
    ensures { OnOk result (out.new ≡ out.old ++ spaced (texts.request_fields request.now)) }
{
    out.put_field(b"+")?;
    out.put_number_field(request.id)?;
    out.put_field(op_name(&request.op))?;
    out.put_field(flags(request))?;
    put_op_arguments(out, &request.op)?;
    put_body(out, &request.body)
}

fn put_receive(out: &mut TextWriter, receive: &Receive) -> Result<(), NoMemory>
    ensures { OnOk result (out.new ≡ out.old ++ spaced (texts.receive_fields receive.now)) }
{
    out.put_field(b"+")?;
    out.put_number_field(receive.id)?;
    put_sges(out, receive.sges.as_slice())
}

fn op_name(op: &Op) -> &'static [u8]
    ensures { result.now ≡ texts.op_name op.now }
{
    match op {
        Op::Nop => b"nop",
        Op::Send => b"send",
        Op::SendImm { .. } => b"sendimm",
        Op::Write { .. } => b"write",
        Op::WriteImm { .. } => b"writeimm",
        Op::Read { .. } => b"read",
        Op::Cas { .. } => b"cas",
        Op::Faa { .. } => b"faa",
    }
}

fn flags(request: &Request) -> &'static [u8]
    ensures { result.now ≡ texts.flags_text request.now }
{
    match (request.wanted, request.solicited, request.fence) {
        (false, false, false) => b"-",
        (true, false, false) => b"c",
        (false, true, false) => b"s",
        (false, false, true) => b"f",
        (true, true, false) => b"cs",
        (true, false, true) => b"cf",
        (false, true, true) => b"sf",
        (true, true, true) => b"csf",
    }
}

fn put_op_arguments(out: &mut TextWriter, op: &Op) -> Result<(), NoMemory>
    ensures { OnOk result (out.new ≡ out.old ++ spaced (texts.op_arguments op.now)) }
{
    match *op {
        Op::Nop | Op::Send => Ok(()),
        Op::SendImm { imm } => out.put_number_field(u64::from(imm)),
        Op::Write { raddr, rkey } | Op::Read { raddr, rkey } => put_remote(out, raddr, rkey),
        Op::WriteImm { raddr, rkey, imm } => {
            put_remote(out, raddr, rkey)?;
            out.put_number_field(u64::from(imm))
        }
        Op::Cas {
            raddr,
            rkey,
            compare,
            swap,
        } => {
            put_remote(out, raddr, rkey)?;
            out.put_number_field(compare)?;
            out.put_number_field(swap)
        }
        Op::Faa { raddr, rkey, add } => {
            put_remote(out, raddr, rkey)?;
            out.put_number_field(add)
        }
    }
}

/// Adds a remote address and its key.
fn put_remote(out: &mut TextWriter, raddr: u64, rkey: u32) -> Result<(), NoMemory>
    ensures { OnOk result (out.new ≡ out.old ++ spaced (decimal raddr ∷ texts.key_text rkey ∷ [])) }
{
    out.put_number_field(raddr)?;
    put_key(out, rkey)
}

fn put_key(out: &mut TextWriter, key: u32) -> Result<(), NoMemory>
    ensures { OnOk result (out.new ≡ out.old ++ (codes " " ++ texts.key_text key)) }
{
    out.put_field(b"#")?;
    out.put_hex(8, u64::from(key))
}

fn put_body(out: &mut TextWriter, body: &Body) -> Result<(), NoMemory>
    ensures { OnOk result (out.new ≡ out.old ++ spaced (texts.body_fields body.now)) }
{
    match body {
        Body::Sges(sges) => put_sges(out, sges.as_slice()),
        Body::Inline(bytes) => put_inline(out, bytes.as_slice()),
    }
}

fn put_sges(out: &mut TextWriter, sges: &[Sge]) -> Result<(), NoMemory>
    ensures { OnOk result (out.new ≡ out.old ++ spaced (map texts.sge_text sges.now)) }
{
    for sge in sges {
        put_sge(out, sge)?;
    }
    Ok(())
}

fn put_sge(out: &mut TextWriter, sge: &Sge) -> Result<(), NoMemory>
    ensures { OnOk result (out.new ≡ out.old ++ (codes " " ++ texts.sge_text sge.now)) }
{
    put_key(out, sge.key)?;
    out.put_number_part(sge.addr)?;
    out.put_number_part(u64::from(sge.len))
}

/// Adds the bytes that stand in the request itself.
fn put_inline(out: &mut TextWriter, bytes: &[u8]) -> Result<(), NoMemory>
    ensures { OnOk result (out.new ≡ out.old ++ (codes " =" ++ flat_map (texts.hex 2) bytes.now)) }
{
    out.put_field(b"=")?;
    for byte in bytes {
        out.put_hex(2, u64::from(*byte))?;
    }
    Ok(())
}
