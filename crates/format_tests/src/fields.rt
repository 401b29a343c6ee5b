//! Rows of layouts, and a field of each width.

use prm_fields::{
    Field, FieldName, FieldRow, LayoutName, byte_of, cqe_rows, field_of, layout_length,
    layout_rows, row, word,
};
use std::test::Fail;

// The last word of a good send completion of QP 0x41, counter 3, owner bit 1.
#[test]
fn put_spells_a_completion(rt: HostRuntime) -> Result<(), Fail> {
    let mut bytes = [0u8; 64];
    cqe_rows!(field_of[Sop]).put(&mut bytes, 0x0a);
    cqe_rows!(field_of[Qpn]).put(&mut bytes, 0x41);
    cqe_rows!(field_of[WqeCounter]).put(&mut bytes, 3);
    cqe_rows!(field_of[Owner]).put(&mut bytes, 1);
    assert_eq!(rt; cqe_rows!(byte_of[Qpn]), 57);
    assert_eq!(rt; word(&bytes, 7), 0x0a00_0041_0003_0001);
    assert_eq!(rt; Field::<456, 24>.get(&bytes), 0x41);
    assert_eq!(rt; Field::<449, 63>.get(&bytes), 0x0a00_0041_0003_0001);
    Ok(())
}

#[test]
fn remote_address_rows(rt: HostRuntime) -> Result<(), Fail> {
    let rkey = FieldRow {
        name: FieldName::Rkey,
        bit: 64,
        width: 32,
    };
    assert_eq!(rt; row(LayoutName::Raddr, 1), Some(rkey));
    assert_eq!(rt; row(LayoutName::Raddr, 3), None);
    assert_eq!(rt; rkey.name.text(), "rkey");
    assert_eq!(rt; LayoutName::Raddr.text(), "raddr");
    assert_eq!(rt; layout_length(LayoutName::Raddr), 16);
    assert_eq!(rt; layout_rows(LayoutName::Raddr).len(), 3);
    Ok(())
}
