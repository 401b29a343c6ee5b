//! The segments of an operation: the remote address, and the operands of an atomic.

ghost use Rattle.std.specs.Prelude.{◌≡◌, ◌+◌, ◌-◌, ◌*◌, ◌<◌, ◌≤◌, ◌∷◌, [], IfOk, length, slice_index};
ghost use Rattle.prm_fields.specs.Refusal.{RefusesBy};
ghost use Rattle.work_entries.specs.Rules.{at_unit, operation_rules, remote_rule};
ghost use Rattle.work_entries.specs.Operation.{HasOperands, HasOperation, HasRemote};
ghost use Rattle.work_entries.specs.Opcode.{fixed_units, opcode_of};
ghost use Rattle.work_entries.specs.Found.{IsOperationOf, addend_rule};
ghost use Rattle.work_entries.specs.Unit.{KeepsOtherWords};

use crate::fault::{BadEntry, EntryRule};
use crate::opcode::Opcode;
use crate::units::{put_unit, unit_at};
use prm_fields::{LayoutName, atomic_rows, field_of, raddr_rows, reserved_clear};
use verbs_types::Op;

/// The remote memory of an operation.
#[derive(Clone, Copy, Debug, PartialEq, Eq)]
struct Remote {
    addr: u64,
    key: u32,
}

/// Writes the remote address as unit 1.
fn put_remote(words: &mut [u64; 32], addr: u64, key: u32)
    ensures stored { HasRemote addr key words.new }
    ensures others { KeepsOtherWords words.old words.new 2 2 }
{
    let mut unit = [0; 16];
    raddr_rows!(field_of[Addr]).put(&mut unit, addr);
    raddr_rows!(field_of[Rkey]).put(&mut unit, key as u64);
    put_unit(words, 1, &unit);
}

/// Writes the operands of an atomic as unit 2.
fn put_operands(words: &mut [u64; 32], swap_or_add: u64, compare: u64)
    ensures stored { HasOperands swap_or_add compare words.new }
    ensures others { KeepsOtherWords words.old words.new 4 2 }
{
    let mut unit = [0; 16];
    atomic_rows!(field_of[SwapOrAdd]).put(&mut unit, swap_or_add);
    atomic_rows!(field_of[Compare]).put(&mut unit, compare);
    put_unit(words, 2, &unit);
}

/// Writes the segments that an operation has between the control segment and the data.
pub(crate) fn put_operation(words: &mut [u64; 32], op: &Op)
    ensures stored { HasOperation op.now words.new }
    ensures others { KeepsOtherWords words.old words.new 2 (2 * (fixed_units (opcode_of op.now) - 1)) }
{
    match *op {
        Op::Nop | Op::Send | Op::SendImm { .. } => {}
        Op::Write { raddr, rkey } | Op::Read { raddr, rkey } => put_remote(words, raddr, rkey),
        Op::WriteImm { raddr, rkey, .. } => put_remote(words, raddr, rkey),
        Op::Cas {
            raddr,
            rkey,
            compare,
            swap,
        } => {
            put_remote(words, raddr, rkey);
            put_operands(words, swap, compare);
        }
        Op::Faa { raddr, rkey, add } => {
            put_remote(words, raddr, rkey);
            put_operands(words, add, 0);
        }
    }
}

/// The remote address in unit 1.
fn remote_at(words: &[u64; 32]) -> Result<Remote, BadEntry>
    ensures found { IfOk result (λ at_remote. HasRemote at_remote.addr at_remote.key words.now) }
    ensures refused { RefusesBy result (remote_rule words.now ∷ []) }
{
    let unit = unit_at(words, 1);
    if !reserved_clear(LayoutName::Raddr, &unit) {
        return Err(BadEntry {
            unit: 1,
            why: EntryRule::Reserved,
        });
    }
    Ok(Remote {
        addr: raddr_rows!(field_of[Addr]).get(&unit),
        key: raddr_rows!(field_of[Rkey]).get(&unit) as u32,
    })
}

/// The number that a fetch and add adds, in unit 2. The other operand is 0.
fn addend_at(words: &[u64; 32]) -> Result<u64, BadEntry>
    ensures found { IfOk result (λ add. HasOperands add 0 words.now) }
    ensures refused { RefusesBy result (addend_rule words.now ∷ []) }
{
    let unit = unit_at(words, 2);
    if atomic_rows!(field_of[Compare]).get(&unit) != 0 {
        return Err(BadEntry {
            unit: 2,
            why: EntryRule::Reserved,
        });
    }
    Ok(atomic_rows!(field_of[SwapOrAdd]).get(&unit))
}

/// The operation of an opcode with its segments and the immediate of its control segment.
pub(crate) fn operation_at(words: &[u64; 32], opcode: Opcode, imm: u32) -> Result<Op, BadEntry>
    ensures found { IfOk result (λ op. IsOperationOf opcode imm op words.now) }
    ensures refused { RefusesBy result (operation_rules opcode words.now) }
{
    match opcode {
        Opcode::Nop => Ok(Op::Nop),
        Opcode::Send => Ok(Op::Send),
        Opcode::SendImm => Ok(Op::SendImm { imm }),
        Opcode::RdmaWrite => {
            let at = remote_at(words)?;
            Ok(Op::Write {
                raddr: at.addr,
                rkey: at.key,
            })
        }
        Opcode::RdmaWriteImm => {
            let at = remote_at(words)?;
            Ok(Op::WriteImm {
                raddr: at.addr,
                rkey: at.key,
                imm,
            })
        }
        Opcode::RdmaRead => {
            let at = remote_at(words)?;
            Ok(Op::Read {
                raddr: at.addr,
                rkey: at.key,
            })
        }
        Opcode::AtomicCs => {
            let at = remote_at(words)?;
            let unit = unit_at(words, 2);
            let compare = atomic_rows!(field_of[Compare]).get(&unit);
            let swap = atomic_rows!(field_of[SwapOrAdd]).get(&unit);
            Ok(Op::Cas {
                raddr: at.addr,
                rkey: at.key,
                compare,
                swap,
            })
        }
        Opcode::AtomicFa => {
            let at = remote_at(words)?;
            let add = addend_at(words)?;
            Ok(Op::Faa {
                raddr: at.addr,
                rkey: at.key,
                add,
            })
        }
    }
}
