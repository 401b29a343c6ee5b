//! Cells of data memory on a plain bus.
use bus_core::PlainBus;
use mem_cells::{CellUser, byte_of, count_of, pack, writer_of};
use std::test::Fail;

#[test]
fn cell_is_one_word(rt: HostRuntime) {
    let cell = pack(0xab, 3, 5);
    assert_eq!(rt; cell, 0xab03_0000_0000_0005);
    assert_eq!(rt;
        (byte_of(cell), writer_of(cell), count_of(cell)),
        (0xab, 3, 5)
    );
    assert_eq!(rt; pack(0xff, 0xff, 0xffff_ffff_ffff), u64::MAX);
}

#[test]
fn reader_sees_the_last_write(rt: HostRuntime) -> Result<(), Fail> {
    let mut bus = PlainBus::new(rt.alloc(), 2, 3)?;
    let mut thread = CellUser::new(3);
    bus.set_actor(3);
    assert_eq!(rt; thread.write(&mut bus, 1, 0xab), 0);
    let mut adapter = CellUser::new(0);
    bus.set_actor(0);
    assert_eq!(rt; adapter.read(&mut bus, 1), pack(0xab, 3, 1));
    assert_eq!(rt; adapter.write(&mut bus, 1, 0xcd), pack(0xab, 3, 1));
    assert_eq!(rt; (thread.writes(), adapter.writes()), (1, 1));
    Ok(())
}
