//! Entries of send queues and of receive queues.
ghost use Rattle.std.specs.Prelude.{◌≡◌, ◌≤◌, IfOk, [], ◌∷◌, codes};

use std::alloc::{AllocError, Global};
use std::test::Fail;
use verbs_types::{Body, Op, Request, Sequence, Sge};
use work_entries::{
    BadEntry, EntryRule, InlineBytes, Sent, SentBody, SgeArray, decode_recv, decode_send,
    encode_recv, encode_send,
};

const SGE: Sge = Sge {
    key: 0x5a,
    addr: 0x1000,
    len: 8,
};

const RADDR: u64 = 0x1122_3344_5566_7788;

const RKEY: u32 = 0x015b;

/// A request with one segment and a wanted completion.
fn of_one_segment(alloc: Global, op: Op) -> Result<Request, AllocError>
    ensures op { IfOk result (λ r. r.op ≡ op) }
    ensures body { IfOk result (λ r. r.body ≡ Body.Sges (SGE ∷ [])) }
{
    let sges = [SGE].to_vec(alloc)?;
    Ok(Request {
        id: 7,
        op,
        wanted: true,
        solicited: false,
        fence: false,
        body: Body::Sges(Sequence::from_vec(sges)),
    })
}

/// A request with nine bytes inline and the other two flags.
fn of_nine_bytes(alloc: Global, op: Op) -> Result<Request, AllocError>
    ensures op { IfOk result (λ r. r.op ≡ op) }
    ensures body { IfOk result (λ r. r.body ≡ Body.Inline (codes "ninebytes")) }
{
    let bytes = b"ninebytes".to_vec(alloc)?;
    Ok(Request {
        id: 8,
        op,
        wanted: false,
        solicited: true,
        fence: true,
        body: Body::Inline(Sequence::from_vec(bytes)),
    })
}

fn one_segment() -> SentBody {
    let mut sges = SgeArray::new();
    sges.push(SGE);
    SentBody::Sges(sges)
}

// RDMA_WRITE of one segment at block 0x0102 of queue pair 0x41, completion wanted.
#[test]
fn words_of_a_write(rt: HostRuntime) -> Result<(), Fail> {
    let op = Op::Write {
        raddr: RADDR,
        rkey: RKEY,
    };
    let w = encode_send(&of_one_segment(rt.alloc(), op)?, 0x0102, 0x41);
    assert_eq!(rt; w.blocks, 1);
    assert_eq!(rt; w.words[0], 0x0001_0208_0000_4103);
    assert_eq!(rt; w.words[1], 0x0000_0008_0000_0000);
    assert_eq!(rt; w.words[2], RADDR);
    assert_eq!(rt; w.words[3], 0x0000_015b_0000_0000);
    assert_eq!(rt; w.words[4], 0x0000_0008_0000_005a);
    assert_eq!(rt; w.words[5], 0x1000);
    assert_eq!(rt; w.words[6..] == [0; 26], true);
    let sent = Sent {
        op,
        wanted: true,
        solicited: false,
        fence: false,
        body: one_segment(),
        index: 0x0102,
        qpn: 0x41,
    };
    assert_eq!(rt; decode_send(&w), Ok(sent));
    Ok(())
}

#[test]
fn words_of_inline_data(rt: HostRuntime) -> Result<(), Fail> {
    let op = Op::SendImm { imm: 0xcafe };
    let w = encode_send(&of_nine_bytes(rt.alloc(), op)?, 0xffff, 0x40);
    assert_eq!(rt; w.blocks, 1);
    assert_eq!(rt; w.words[0], 0x00ff_ff0b_0000_4002);
    assert_eq!(rt; w.words[1], 0x0000_0082_0000_cafe);
    assert_eq!(rt; w.words[2], 0x8000_0009_6e69_6e65);
    assert_eq!(rt; w.words[3], 0x6279_7465_7300_0000);
    let sent = Sent {
        op,
        wanted: false,
        solicited: true,
        fence: true,
        body: SentBody::Inline(InlineBytes::from_slice(b"ninebytes")),
        index: 0xffff,
        qpn: 0x40,
    };
    assert_eq!(rt; decode_send(&w), Ok(sent));
    Ok(())
}

// One segment where a receive queue has two, and where it has one.
#[test]
fn words_of_a_receive(rt: HostRuntime) -> Result<(), Fail> {
    let sges = Sequence::from_vec([SGE].to_vec(rt.alloc())?);
    let mut words = [7; 16];
    encode_recv(&sges, 4, &mut words);
    assert_eq!(rt;
        words[..4] == [0x0000_0008_0000_005a, 0x1000, 0x0000_0000_0000_0100, 0],
        true
    );
    assert_eq!(rt; words[4..] == [0; 12], true);
    let mut found = SgeArray::new();
    decode_recv(&words, 4, &mut found);
    assert_eq!(rt; found.as_slice() == [SGE].as_slice(), true);
    encode_recv(&sges, 2, &mut words);
    assert_eq!(rt; words[2..] == [0; 14], true);
    decode_recv(&words, 2, &mut found);
    assert_eq!(rt; found.as_slice() == [SGE].as_slice(), true);
    decode_recv(&[0; 16], 16, &mut found);
    assert_eq!(rt; found.len(), 8);
    Ok(())
}

#[test]
fn messages(rt: HostRuntime) -> Result<(), Fail> {
    let bad = BadEntry {
        unit: 2,
        why: EntryRule::Reserved,
    };
    let text = format!(in rt.alloc(); "{bad}")?;
    assert_eq!(rt; text.as_str(), "unit 2: reserved bits are not 0");
    Ok(())
}
