//! Laws of layouts that hold with no code.

ghost use Rattle.prm_fields.specs.Spelling.{OneSpelling};

/// No two byte strings of a layout spell the same values in its fields and 0 in its reserved bits.
pub fn one_spelling()
    ensures { OneSpelling }
{}
