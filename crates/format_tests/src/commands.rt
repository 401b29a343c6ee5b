//! Command queue entries and mailbox blocks.

use cmd_format::{
    Block, CmdEntry, Delivery, decode_entry, encode_blocks, encode_entry, read_block,
};
use std::test::Fail;

// ENABLE_HCA, owned by the adapter.
fn enable() -> CmdEntry {
    let mut input = [0; 16];
    input[0] = 0x01;
    input[1] = 0x04;
    CmdEntry {
        in_len: 16,
        in_ptr: 0,
        input,
        output: [0; 16],
        out_ptr: 0,
        out_len: 12,
        token: 0x2a,
        status_own: 1,
    }
}

#[test]
fn signature_of_enable(rt: HostRuntime) -> Result<(), Fail> {
    let mut bytes = encode_entry(&enable());
    assert_eq!(rt; bytes[61], 0xca);
    assert_eq!(rt; decode_entry(&bytes), Ok(enable()));
    bytes[61] = 0xcb;
    assert_eq!(rt; decode_entry(&bytes), Err(Delivery::Signature));
    assert_eq!(rt; Delivery::Signature.number(), 1);
    assert_eq!(rt; Delivery::from_number(16), Some(Delivery::Descriptor));
    Ok(())
}

#[test]
fn blocks_of_513_bytes(rt: HostRuntime) -> Result<(), Fail> {
    let mut blocks = [[0; 576]; 2];
    let rest = [7; 513];
    assert_eq!(rt; encode_blocks(&rest, 0x2a, &[4096, 8192], &mut blocks), 2);
    let first = Block {
        part: [7; 512],
        next: 8192,
    };
    assert_eq!(rt; read_block(&blocks[0], 0x2a, 0), Ok(first));
    let mut part = [0; 512];
    part[0] = 7;
    assert_eq!(rt;
        read_block(&blocks[1], 0x2a, 1),
        Ok(Block { part, next: 0 })
    );
    Ok(())
}
