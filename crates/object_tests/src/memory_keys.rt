//! A region, its key, and what the key permits.

use mkeys::{KeyFault, KeyTable, Right};
use std::test::Fail;
use verbs_types::Rights;

const REMOTE_WRITE: Rights = Rights {
    local_read: false,
    local_write: false,
    remote_read: false,
    remote_write: true,
    atomic: false,
};

#[test]
fn key_permits_its_region_until_it_is_dropped(rt: HostRuntime) -> Result<(), Fail> {
    let mut keys = KeyTable::new(rt.alloc())?;
    let key = keys.register(1, 0, 64, REMOTE_WRITE, 0x5a)?;
    assert_eq!(rt; key, 0x0000_005a);

    let write = Right::RemoteWrite;
    assert_eq!(rt; keys.permits(key, 1, 0, 64, write), Ok(()));
    assert_eq!(rt; keys.permits(key, 1, 64, 0, write), Ok(()));
    assert_eq!(rt; keys.permits(key, 1, 1, 64, write), Err(KeyFault::Range));
    assert_eq!(rt; keys.permits(0x5b, 1, 0, 64, write), Err(KeyFault::Variant));

    assert_eq!(rt; keys.drop_key(key), Ok(()));
    assert_eq!(rt; keys.permits(key, 1, 0, 64, write), Err(KeyFault::Index));
    Ok(())
}
