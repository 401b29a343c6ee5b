//! What an entry says of a byte.
ghost use Rattle.std.specs.Prelude.{◌≡◌, ◌∷◌, ◌++◌, OnOk};
ghost use Rattle.transcript_text.specs.Fields.{spaced};
ghost use Rattle.transcript_text.specs.History as texts;

use crate::writer::TextWriter;
use verbs_types::NoMemory;

/// Adds a word, and then an address and the byte there.
pub(crate) fn put_byte_row(
    out: &mut TextWriter,
    word: &[u8],
    addr: u64,
    byte: u8,
) -> Result<(), NoMemory>
    ensures { OnOk result (out.new ≡ out.old ++ spaced (word.now ∷ texts.byte_fields addr byte)) }
{
    out.put_field(word)?;
    out.put_number_field(addr)?;
    out.put_hex_field(2, u64::from(byte))
}
