//! Send entries.

ghost use Rattle.std.specs.Prelude.{◌≡◌, ◌+◌, ◌-◌, ◌*◌, ◌^◌, ◌<◌, ◌≤◌, IfOk, Ok, length};
ghost use Rattle.prm_fields.specs.Refusal.{RefusesBy};
ghost use Rattle.work_entries.specs.declared.sent.Sent.{Sent};
ghost use Rattle.work_entries.specs.Body.{HasBody, MayCarry, body_units};
ghost use Rattle.work_entries.specs.Found.{IsBodyOf};
ghost use Rattle.work_entries.specs.Opcode.{fixed_units, most_data, opcode_of};
ghost use Rattle.work_entries.specs.Operation.{immediate_of as immediate_for};
ghost use Rattle.work_entries.specs.Rules.{body_rules, send_rules, unused_rules};
ghost use Rattle.work_entries.specs.Send.{IsSend, sent_body, sent_of};
ghost use Rattle.work_entries.specs.Unit.{KeepsOtherWords};

use crate::control::{Control, FENCE, SOLICITED, WANTED, control_at, control_unit, flags_of};
use crate::fault::{BadEntry, EntryRule};
use crate::inline::{inline_at, inline_units, put_inline};
use crate::opcode::Opcode;
use crate::operation::{operation_at, put_operation};
use crate::segments::{begins_inline, put_segments, segments_at};
use crate::sent::{Sent, SentBody};
use crate::units::{SendWords, blocks_of, is_clear, put_unit, unit_at};
use verbs_types::{Body, Op, Request};

/// Writes the data from unit `first` on, and gives how many units it takes.
fn put_body(words: &mut [u64; 32], first: usize, opcode: Opcode, body: &Body) -> usize
    requires carried { MayCarry opcode (sent_body body.now) }
    requires inside { first ≤ 3 }
    ensures value { result ≡ body_units (sent_body body.now) }
    ensures most { result ≤ 8 }
    ensures stored { HasBody (sent_body body.now) words.new first }
    ensures others { KeepsOtherWords words.old words.new (2 * first) (2 * result) }
{
    match body {
        Body::Sges(sges) => {
            put_segments(words, first, sges.as_slice());
            sges.len()
        }
        Body::Inline(bytes) => {
            put_inline(words, first, bytes.as_slice());
            inline_units(bytes.len())
        }
    }
}

/// The immediate of an operation, or 0 where it has none.
fn immediate_of(op: &Op) -> u32
    ensures { result ≡ immediate_for op.now }
{
    match *op {
        Op::SendImm { imm } | Op::WriteImm { imm, .. } => imm,
        _ => 0,
    }
}

/// The entry of a request that is posted at block `index` of the send queue of queue pair `qpn`.
///
/// The request has at most eight segments, each of fewer than 2^31 bytes, or at most 60 inline bytes
/// where its opcode may have them; [`Opcode::Nop`] has no data. What is left of the last block is 0.
pub fn encode_send(r: &Request, index: u16, qpn: u32) -> SendWords
    requires number { qpn < 2 ^ 24 }
    requires carried { MayCarry (opcode_of r.now.op) (sent_body r.now.body) }
    ensures { IsSend (sent_of r.now index qpn) result }
{
    let opcode = Opcode::of(&r.op);
    let first = opcode.fixed_units();
    let mut words = [0; 32];
    let units = first + put_body(&mut words, first, opcode, &r.body);
    put_operation(&mut words, &r.op);
    let control = Control {
        opcode,
        index,
        qpn,
        units,
        flags: flags_of(r.wanted, r.solicited, r.fence),
        imm: immediate_of(&r.op),
    };
    put_unit(&mut words, 0, &control_unit(&control));
    SendWords {
        blocks: blocks_of(units) as u32,
        words,
    }
}

/// The data of an entry of `units` units.
fn body_at(words: &[u64; 32], opcode: Opcode, units: usize) -> Result<SentBody, BadEntry>
    requires least { fixed_units opcode ≤ units }
    requires most { units ≤ fixed_units opcode + most_data opcode }
    ensures found { IfOk result (λ body. IsBodyOf opcode units body words.now) }
    ensures refused { RefusesBy result (body_rules opcode words.now units) }
{
    let first = opcode.fixed_units();
    if opcode.may_inline() && first < units && begins_inline(&unit_at(words, first)) {
        Ok(SentBody::Inline(inline_at(words, first, units - first)?))
    } else {
        Ok(SentBody::Sges(segments_at(words, first, units)?))
    }
}

/// Refuses the first unit from `units` up to `end` that is not 0.
fn check_unused(words: &[u64; 32], units: usize, end: usize) -> Result<(), BadEntry>
    requires { end ≤ 16 }
    ensures { RefusesBy result (unused_rules words.now units (end - units)) }
{
    for k in units..end {
        if !is_clear(words, k) {
            return Err(BadEntry {
                unit: k as u32,
                why: EntryRule::Reserved,
            });
        }
    }
    Ok(())
}

/// What a send entry says, its units being judged in order.
fn sent_at(w: &SendWords) -> Result<Sent, BadEntry>
    ensures found { IfOk result (λ s. IsSend s w.now) }
    ensures refused { RefusesBy result (send_rules w.now) }
{
    let control = control_at(w)?;
    let op = operation_at(&w.words, control.opcode, control.imm)?;
    let body = body_at(&w.words, control.opcode, control.units)?;
    check_unused(&w.words, control.units, 4 * w.blocks as usize)?;
    Ok(Sent {
        op,
        wanted: control.flags & WANTED != 0,
        solicited: control.flags & SOLICITED != 0,
        fence: control.flags & FENCE != 0,
        body,
        index: control.index,
        qpn: control.qpn,
    })
}

/// What a send entry says.
///
/// The units are judged from the first to the last. The control segment is refused by `Opcode`,
/// `Size`, `Flags` and `Reserved`, in this order, and a later unit by `Size` and `Reserved`. Whether the
/// index and the queue pair number are the right ones is for the caller, who knows both.
pub fn decode_send(w: &SendWords) -> Result<Sent, BadEntry>
    ensures found { IfOk result (λ s. IsSend s w.now) }
    ensures only { (s : Sent) → IsSend s w.now → result ≡ Ok s }
    ensures refused { RefusesBy result (send_rules w.now) }
{
    sent_at(w)
}
