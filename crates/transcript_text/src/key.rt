//! The texts of commands that make and destroy memory keys.
ghost use Rattle.std.specs.Prelude.{◌≡◌, [], ◌∷◌, ◌++◌, codes, false, OnOk};
ghost use Rattle.scenario_text.specs.Requests.{hex, letter};
ghost use Rattle.transcript_text.specs.Commands as texts;
ghost use Rattle.transcript_text.specs.Fields.{spaced};
ghost use Rattle.transcript_text.specs.Numbers.{IsPd};

use crate::names::pd_name;
use crate::writer::TextWriter;
use verbs_types::{Lines, NoMemory, Region, Rights};

pub(crate) fn put_make_key(
    out: &mut TextWriter,
    lines: &Lines,
    region: &Region,
    key: Option<u32>,
) -> Result<(), NoMemory>
    requires { IsPd lines.now region.now.pd }
    ensures { OnOk result (out.new ≡ out.old ++ spaced
        (codes "key" ∷ texts.region_fields lines.now region.now ++ texts.made_key_text key ∷ [])) }
{
    out.put_field(b"key")?;
    put_region(out, lines, region)?;
    match key {
        Some(key) => out.put_hex_field(8, u64::from(key)),
        None => out.put_field(b"-"),
    }
}

fn put_region(out: &mut TextWriter, lines: &Lines, region: &Region) -> Result<(), NoMemory>
    requires { IsPd lines.now region.now.pd }
    ensures { OnOk result (out.new ≡ out.old ++ spaced (texts.region_fields lines.now region.now)) }
{
    out.put_field(region.name.as_bytes())?;
    out.put_field(pd_name(lines, region.pd))?;
    out.put_number_field(region.start)?;
    out.put_number_field(region.len)?;
    put_rights(out, region.rights)?;
    out.put_hex_field(2, u64::from(region.variant))
}

/// Adds a space, and a letter for each right or a dash for none.
fn put_rights(out: &mut TextWriter, rights: Rights) -> Result<(), NoMemory>
    ensures { OnOk result (out.new ≡ out.old ++ (codes " " ++ texts.rights_text rights)) }
{
    if !permits(rights) {
        return out.put_field(b"-");
    }
    out.put_field(b"")?;
    put_letter(out, rights.local_read, b'l')?;
    put_letter(out, rights.local_write, b'w')?;
    put_letter(out, rights.remote_read, b'r')?;
    put_letter(out, rights.remote_write, b'x')?;
    put_letter(out, rights.atomic, b'a')
}

/// Whether there is a right.
fn permits(rights: Rights) -> bool
    ensures { result ≡ texts.permits rights }
{
    rights.local_read
        || rights.local_write
        || rights.remote_read
        || rights.remote_write
        || rights.atomic
}

/// Adds a letter where it is wanted.
fn put_letter(out: &mut TextWriter, wanted: bool, byte: u8) -> Result<(), NoMemory>
    ensures { OnOk result (out.new ≡ out.old ++ letter wanted byte) }
{
    if wanted { out.put_byte(byte) } else { Ok(()) }
}

pub(crate) fn put_destroy_key(out: &mut TextWriter, key: u32) -> Result<(), NoMemory>
    ensures { OnOk result (out.new ≡ out.old ++ spaced (codes "dropkey" ∷ hex 8 key ∷ [])) }
{
    out.put_field(b"dropkey")?;
    out.put_hex_field(8, u64::from(key))
}
