//! Inputs and outputs of commands.
ghost use Rattle.std.specs.Prelude.{IfOk};
ghost use Rattle.cmd_bodies.specs.Command.{FitsFields, FitsPages};

use cmd_bodies::{
    BodyFault, Command, CqContext, EqBlock, MkeyContext, PageList, QpBlock, Reply, SrqBlock,
    decode, decode_reply, encode, encode_reply, output_length,
};
use std::test::Fail;

// The command in the first bytes of a buffer.
fn decoded(to: &[u8; 1040], in_len: u32, out_len: u32) -> Result<Command, BodyFault>
    ensures { IfOk result FitsFields }
{
    decode(&to[..in_len.min(1040) as usize], out_len)
}

// An input that is 0 but for its opcode and its modifier.
fn opening(opcode: u16, modifier: u16) -> [u8; 1040] {
    let mut input = [0; 1040];
    input[..2].copy_from_slice(&opcode.to_be_bytes());
    input[6..8].copy_from_slice(&modifier.to_be_bytes());
    input
}

// Opcode, modifier, input and output length of each command, page addresses aside.
#[test]
fn table_of_commands(rt: HostRuntime) -> Result<(), Fail> {
    for (opcode, modifier, in_len, out_len) in [
        (0x0102, 0, 16, 16),
        (0x0103, 0, 16, 16),
        (0x0104, 0, 16, 12),
        (0x0105, 0, 16, 12),
        (0x0107, 1, 16, 16),
        (0x0107, 2, 16, 16),
        (0x0108, 1, 16, 16),
        (0x0108, 2, 16, 16),
        (0x0200, 0, 80, 16),
        (0x0202, 0, 16, 16),
        (0x0301, 0, 48, 16),
        (0x0302, 0, 16, 16),
        (0x0400, 0, 80, 16),
        (0x0401, 0, 16, 16),
        (0x0403, 1, 80, 16),
        (0x0500, 0, 80, 16),
        (0x0501, 0, 16, 16),
        (0x0502, 0, 16, 16),
        (0x0503, 0, 16, 16),
        (0x0504, 0, 16, 16),
        (0x0507, 0, 16, 16),
        (0x0700, 0, 48, 16),
        (0x0701, 0, 16, 16),
        (0x0800, 0, 16, 16),
        (0x0801, 0, 16, 16),
        (0x0802, 0, 16, 16),
        (0x0803, 0, 16, 16),
    ] {
        let input = opening(opcode, modifier);
        assert_eq!(rt;
            decoded(&input, in_len, out_len ^ 4),
            Err(BodyFault::OutputLength),
            "{opcode}"
        );
        assert_eq!(rt;
            decoded(&input, in_len ^ 8, out_len),
            Err(BodyFault::InputLength),
            "{opcode}"
        );
        match decoded(&input, in_len, out_len) {
            Ok(command) => {
                let mut to = [0; 1040];
                assert_eq!(rt; encode(&command, &mut to), in_len, "{opcode}");
                assert_eq!(rt; to == input, true, "{opcode}");
                assert_eq!(rt; output_length(&command), out_len, "{opcode}");
            }
            Err(fault) => assert_eq!(rt; Some(fault), None, "{opcode}"),
        }
    }
    Ok(())
}

fn two_pages() -> PageList
    ensures { FitsPages result }
{
    let mut pages = [0; 88];
    pages[0] = 0x1000;
    pages[1] = 0x2000;
    PageList { count: 2, pages }
}

#[test]
fn completion_queue_context(rt: HostRuntime) -> Result<(), Fail> {
    let c = Command::CreateCq(CqContext {
        cqe_sz: 0,
        log_cq_size: 5,
        uar_page: 1,
        c_eqn: 2,
        dbr_addr: 0x2_2290,
    });
    let mut to = [0; 1040];
    assert_eq!(rt; encode(&c, &mut to), 80);
    assert_eq!(rt; to[..2] == [4, 0], true);
    assert_eq!(rt; to[28..40] == [5, 0, 0, 1, 0, 0, 0, 0, 0, 0, 0, 2], true);
    assert_eq!(rt; to[72..80] == [0, 0, 0, 0, 0, 2, 0x22, 0x90], true);
    assert_eq!(rt; decoded(&to, 80, 16), Ok(c));
    to[29] = 1;
    to[40] = 1;
    assert_eq!(rt; decoded(&to, 80, 16), Err(BodyFault::Reserved));
    Ok(())
}

#[test]
fn memory_key_context(rt: HostRuntime) -> Result<(), Fail> {
    let c = Command::CreateMkey(MkeyContext {
        a: true,
        rw: false,
        rr: true,
        lw: true,
        lr: false,
        mkey_7_0: 0x5a,
        pd: 1,
        start_addr: 0x40,
        len: 2048,
    });
    let mut to = [0; 1040];
    assert_eq!(rt; encode(&c, &mut to), 80);
    assert_eq!(rt; to[16..24] == [0, 0, 0x58, 0, 0, 0, 0, 0x5a], true);
    assert_eq!(rt; decoded(&to, 80, 16), Ok(c));
    Ok(())
}

// CREATE_QP, CREATE_SRQ and CREATE_EQ, whose words are all different.
#[test]
fn parameter_blocks(rt: HostRuntime) -> Result<(), Fail> {
    let qp = QpBlock {
        pd: 1,
        send_cq: 2,
        recv_cq: 3,
        send_log: 4,
        recv_log: 5,
        segments: 6,
        srq: 7,
        uar: 8,
        addr: 9,
    };
    let mut to = [0; 1040];
    assert_eq!(rt; encode(&Command::CreateQp(qp), &mut to), 80);
    for (place, byte) in [
        (19, 1),
        (23, 2),
        (27, 3),
        (31, 4),
        (35, 5),
        (39, 6),
        (43, 7),
        (47, 8),
        (55, 9),
    ] {
        assert_eq!(rt; to[place % 80], byte, "byte {place}");
    }
    let srq = SrqBlock {
        log: 1,
        segments: 2,
        pd: 3,
        addr: 4,
    };
    assert_eq!(rt; encode(&Command::CreateSrq(srq), &mut to), 48);
    for (place, byte) in [(19, 1), (23, 2), (27, 3), (31, 0), (39, 4)] {
        assert_eq!(rt; to[place % 80], byte, "byte {place}");
    }
    let eq = EqBlock {
        log: 1,
        uar: 2,
        addr: 3,
    };
    assert_eq!(rt; encode(&Command::CreateEq(eq), &mut to), 48);
    for (place, byte) in [(19, 1), (23, 2), (31, 3), (39, 0)] {
        assert_eq!(rt; to[place % 80], byte, "byte {place}");
    }
    Ok(())
}

#[test]
fn page_lists(rt: HostRuntime) -> Result<(), Fail> {
    let give = Command::GivePages(two_pages());
    let mut to = [0; 1040];
    assert_eq!(rt; encode(&give, &mut to), 32);
    assert_eq!(rt; to[28..32] == [0, 0, 0x20, 0], true);
    assert_eq!(rt; decoded(&to, 32, 16), Ok(give));
    assert_eq!(rt; decoded(&to, 24, 16), Err(BodyFault::InputLength));
    to[15] = 89;
    assert_eq!(rt; decoded(&to, 728, 16), Err(BodyFault::Reserved));
    Ok(())
}

#[test]
fn returned_pages(rt: HostRuntime) -> Result<(), Fail> {
    let given = two_pages();
    let list = given.pages;
    let reply = Reply {
        status: 0,
        number: 2,
        pages: 2,
        list,
    };
    let asked = Command::ReturnPages { count: 2 };
    let mut to = [0; 1040];
    assert_eq!(rt; encode_reply(&reply, &mut to), 32);
    assert_eq!(rt; to[8..16] == [0, 0, 0, 2, 0, 0, 0, 0], true);
    assert_eq!(rt; decode_reply(&asked, &to), reply);
    to[0] = 3;
    assert_eq!(rt; decode_reply(&asked, &to).pages, 0);
    Ok(())
}
