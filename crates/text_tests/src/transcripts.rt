//! Lines of a transcript that no example has.
ghost use Rattle.std.specs.Prelude.{All};
ghost use Rattle.sample_objects.specs.Pair.{lines_of, pair_of};
ghost use Rattle.transcript_text.specs.Numbers.{IsCompletion, IsEntry};
ghost use Rattle.transcript_text.specs.Trace.{IsOperation};

use bus_core::{BusEntry, BusOp, TraceEntry};
use sample_objects::{RECV, SEND, nop_completion, one_pair};
use std::alloc::{AllocError, Global};
use std::test::Fail;
use transcript_text::{print_history, print_trace};
use verbs_types::{
    ADAPTER, Body, CONTROL, Completion, Entry, FIRST_QP, Item, Kind, Op, Request, Sequence, Sge,
    What,
};

const PIECE: Sge = Sge {
    key: 0xabc,
    addr: 64,
    len: 32,
};

const LONG_PIECE: Sge = Sge {
    key: 0xffff_ff00,
    addr: 0,
    len: u32::MAX,
};

/// A request with these flags: a completion is wanted, solicited, fence.
fn request(id: u64, op: Op, flags: (bool, bool, bool), body: Body) -> Item {
    let (wanted, solicited, fence) = flags;
    Item::Request(Request {
        id,
        op,
        wanted,
        solicited,
        fence,
        body,
    })
}

fn no_data(alloc: Global) -> Body {
    Body::Sges(Sequence::from_vec(Vec::new(alloc)))
}

fn send(alloc: Global) -> Result<Item, AllocError> {
    let pieces = Vec::from_array(alloc, [PIECE, LONG_PIECE])?;
    let body = Body::Sges(Sequence::from_vec(pieces));
    Ok(request(u64::MAX, Op::Send, (true, true, true), body))
}

fn send_with_immediate(alloc: Global) -> Result<Item, AllocError> {
    let bytes = Vec::from_array(alloc, [0, 0x9a, 0xff])?;
    let body = Body::Inline(Sequence::from_vec(bytes));
    let op = Op::SendImm { imm: u32::MAX };
    Ok(request(2, op, (false, true, true), body))
}

fn others(alloc: Global) -> [Item; 5] {
    let write = Op::Write {
        raddr: 2048,
        rkey: 0x5a,
    };
    let write_with_immediate = Op::WriteImm {
        raddr: u64::MAX,
        rkey: 0x123,
        imm: 7,
    };
    let read = Op::Read {
        raddr: 0,
        rkey: 0x200,
    };
    let compare_and_swap = Op::Cas {
        raddr: 8,
        rkey: 0x300,
        compare: 9,
        swap: 10,
    };
    let fetch_and_add = Op::Faa {
        raddr: 16,
        rkey: 0x400,
        add: 1,
    };
    [
        request(3, write, (false, false, true), no_data(alloc)),
        request(
            4,
            write_with_immediate,
            (false, true, false),
            no_data(alloc),
        ),
        request(5, read, (true, false, true), no_data(alloc)),
        request(6, compare_and_swap, (true, false, false), no_data(alloc)),
        request(7, fetch_and_add, (true, true, false), no_data(alloc)),
    ]
}

fn posted(items: Vec<Item>) -> Entry
    ensures { IsEntry (lines_of (pair_of 2 0 1)) result }
{
    Entry {
        actor: 1,
        what: What::Post {
            queue: SEND,
            items: Sequence::from_vec(items),
        },
    }
}

/// The text of a history of one entry.
fn printed(alloc: Global, entry: Entry) -> Result<Vec<u8>, Fail>
    requires { IsEntry (lines_of (pair_of 2 0 1)) entry }
{
    let declared = one_pair(alloc)?;
    let history = [entry];
    Ok(print_history(alloc, &declared, &history)?)
}

const OPERATIONS: &[u8] = b"
a post q.s + 18446744073709551615 send csf #00000abc:64:32 #ffffff00:0:4294967295 \
+ 2 sendimm sf 4294967295 =009aff \
+ 3 write f 2048 #0000005a \
+ 4 writeimm s 18446744073709551615 #00000123 7 \
+ 5 read cf 0 #00000200 \
+ 6 cas c 8 #00000300 9 10 \
+ 7 faa cs 16 #00000400 1
end 1
";

#[test]
fn each_operation_has_its_word(rt: HostRuntime) -> Result<(), Fail> {
    let mut items = Vec::new(rt.alloc());
    items.push(send(rt.alloc())?)?;
    items.push(send_with_immediate(rt.alloc())?)?;
    for item in others(rt.alloc()) {
        items.push(item)?;
    }
    let text = printed(rt.alloc(), posted(items))?;
    assert!(rt; text.as_slice().ends_with(OPERATIONS));
    Ok(())
}

/// The completion of a receive of a send with immediate, and of one that was flushed.
const RECEIVED: Completion = Completion {
    queue: RECV,
    qp: FIRST_QP,
    id: 9,
    status: 0,
    kind: Kind::RecvImm,
    len: 32,
    imm: Some(5),
    solicited: true,
};

const FLUSHED: Completion = Completion {
    queue: RECV,
    qp: FIRST_QP,
    id: 9,
    status: 5,
    kind: Kind::Failed,
    len: 0,
    imm: None,
    solicited: true,
};

fn polled(completions: Vec<Completion>) -> Entry
    requires { All (IsCompletion (lines_of (pair_of 2 0 1))) completions.items }
    ensures { IsEntry (lines_of (pair_of 2 0 1)) result }
{
    Entry {
        actor: CONTROL,
        what: What::Poll {
            cq: 0,
            max: 16,
            completions: Sequence::from_vec(completions),
        },
    }
}

const COMPLETIONS: &[u8] = b"
ctl poll c 16 q.r:9:0:recvimm:32:5:s q.r:9:5:failed:0:-:s q.s:8:0:nop:0:-:-
end 1
";

#[test]
fn completions_have_their_parts(rt: HostRuntime) -> Result<(), Fail> {
    let completions = [RECEIVED, FLUSHED, nop_completion(8)];
    let completions = Vec::from_array(rt.alloc(), completions)?;
    let text = printed(rt.alloc(), polled(completions))?;
    assert!(rt; text.as_slice().ends_with(COMPLETIONS));
    Ok(())
}

const OR: BusEntry = BusEntry {
    actor: ADAPTER,
    addr: 1_048_575,
    op: BusOp::SetBits(0x100),
    old: Some(0xff),
};

const SWAP: BusEntry = BusEntry {
    actor: 2,
    addr: u32::MAX,
    op: BusOp::Swap(u64::MAX),
    old: Some(10),
};

const OPERATIONS_OF_A_BUS: &[u8] = b"mlx5 trace
dev or 1048575 0000000000000100 00000000000000ff
b swap 4294967295 ffffffffffffffff 000000000000000a *
end 2
";

#[test]
fn old_words_follow_new_ones(rt: HostRuntime) -> Result<(), Fail> {
    let declared = one_pair(rt.alloc())?;
    let trace = [TraceEntry::of(OR), TraceEntry::of(SWAP)];
    let text = print_trace(rt.alloc(), &declared, &trace, &[false, true])?;
    assert_eq!(rt; text.as_slice(), OPERATIONS_OF_A_BUS);
    Ok(())
}
