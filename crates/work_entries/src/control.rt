//! The control segment, unit 0 of every send entry.

ghost use Rattle.std.specs.Prelude.{◌≡◌, ◌==◌, ◌&&◌, ◌<◌, ◌^◌, ◌≤◌, IfOk, is_some, length, Option, Some, None};
ghost use Rattle.prm_fields.specs.Refusal.{RefusesBy};
ghost use Rattle.prm_fields.specs.Spelling.{Spells};
ghost use Rattle.prm_fields.specs.declared.layout.LayoutName.TheVariants.{Ctrl};
ghost use Rattle.work_entries.specs.Control.{control_values, modifier_at, opcode_at};
ghost use Rattle.work_entries.specs.Control.{flags_of as flags_for};
ghost use Rattle.work_entries.specs.Rules.{control_rules, is_plain as is_plain_control};
ghost use Rattle.work_entries.specs.Rules.{has_size as fits_opcode};
ghost use Rattle.work_entries.specs.Unit.{unit};
ghost use Rattle.work_entries.specs.Found.{HasControl, opcode_found};

use crate::fault::{BadEntry, EntryRule};
use crate::opcode::Opcode;
use crate::units::{SendWords, blocks_of, unit_at};
use prm_fields::{LayoutName, ctrl_rows, field_of, reserved_clear};

/// What a control segment says.
#[derive(Clone, Copy, Debug, PartialEq, Eq)]
pub(crate) struct Control {
    pub opcode: Opcode,
    /// The 16-bit index of the entry's first block.
    pub index: u16,
    /// The queue pair number, 24 bits.
    pub qpn: u32,
    /// How many units the entry has, this one included.
    pub units: usize,
    pub flags: u8,
    /// The immediate, or 0 where the opcode has none.
    pub imm: u32,
}

/// A completion is wanted.
pub(crate) const WANTED: u8 = 0x08;

/// The receiver's completion is solicited.
pub(crate) const SOLICITED: u8 = 0x02;

/// Fence.
pub(crate) const FENCE: u8 = 0x80;

/// The flags of a request.
pub(crate) fn flags_of(wanted: bool, solicited: bool, fence: bool) -> u8
    ensures { result ≡ flags_for wanted solicited fence }
{
    let mut flags = 0;
    if wanted {
        flags |= WANTED;
    }
    if solicited {
        flags |= SOLICITED;
    }
    if fence {
        flags |= FENCE;
    }
    flags
}

/// The segment as bytes.
pub(crate) fn control_unit(c: &Control) -> [u8; 16]
    requires number { c.now.qpn < 2 ^ 24 }
    requires size { c.now.units < 256 }
    ensures { Spells Ctrl (control_values c.now) result }
{
    let mut unit = [0; 16];
    ctrl_rows!(field_of[Index]).put(&mut unit, c.index as u64);
    ctrl_rows!(field_of[Opcode]).put(&mut unit, c.opcode.number() as u64);
    ctrl_rows!(field_of[Qpn]).put(&mut unit, c.qpn as u64);
    ctrl_rows!(field_of[Ds]).put(&mut unit, c.units as u64);
    ctrl_rows!(field_of[Flags]).put(&mut unit, c.flags as u64);
    ctrl_rows!(field_of[Imm]).put(&mut unit, c.imm as u64);
    unit
}

/// The opcode of a control segment whose modifier is 0.
fn opcode_in(unit: &[u8; 16]) -> Option<Opcode>
    ensures { result ≡ opcode_found unit.now }
{
    if ctrl_rows!(field_of[Opmod]).get(unit) != 0 {
        return None;
    }
    Opcode::from_number(ctrl_rows!(field_of[Opcode]).get(unit) as u8)
}

/// Whether an entry of an opcode can have `units` units in `blocks` blocks.
fn has_size(opcode: Opcode, units: usize, blocks: u32) -> bool
    requires { units < 256 }
    ensures { result ≡ fits_opcode opcode units blocks }
{
    let least = opcode.fixed_units();
    least <= units && units <= least + opcode.most_data() && blocks as usize == blocks_of(units)
}

/// Whether a control segment has 0 in its reserved bits, its signature, and an immediate that the
/// opcode does not have.
fn is_plain(unit: &[u8; 16], opcode: Opcode) -> bool
    ensures { result ≡ is_plain_control opcode unit.now }
{
    reserved_clear(LayoutName::Ctrl, unit)
        && ctrl_rows!(field_of[Signature]).get(unit) == 0
        && (opcode.has_immediate() || ctrl_rows!(field_of[Imm]).get(unit) == 0)
}

/// The control segment of an entry, which is refused by its rules in their order.
pub(crate) fn control_at(w: &SendWords) -> Result<Control, BadEntry>
    ensures found { IfOk result (λ c. HasControl c w.now) }
    ensures refused { RefusesBy result (control_rules (unit w.now.words 0) w.now.blocks) }
{
    let unit = unit_at(&w.words, 0);
    let Some(opcode) = opcode_in(&unit) else {
        return Err(BadEntry {
            unit: 0,
            why: EntryRule::Opcode,
        });
    };
    let units = ctrl_rows!(field_of[Ds]).get(&unit) as usize;
    if !has_size(opcode, units, w.blocks) {
        return Err(BadEntry {
            unit: 0,
            why: EntryRule::Size,
        });
    }
    let flags = ctrl_rows!(field_of[Flags]).get(&unit) as u8;
    if flags & !(WANTED | SOLICITED | FENCE) != 0 {
        return Err(BadEntry {
            unit: 0,
            why: EntryRule::Flags,
        });
    }
    if !is_plain(&unit, opcode) {
        return Err(BadEntry {
            unit: 0,
            why: EntryRule::Reserved,
        });
    }
    Ok(Control {
        opcode,
        index: ctrl_rows!(field_of[Index]).get(&unit) as u16,
        qpn: ctrl_rows!(field_of[Qpn]).get(&unit) as u32,
        units,
        flags,
        imm: ctrl_rows!(field_of[Imm]).get(&unit) as u32,
    })
}
