//! Replies.

ghost use Rattle.std.specs.Prelude.{◌≡◌, ◌+◌, ◌-◌, ◌*◌, ◌≤◌, length};
ghost use Rattle.prm_fields.specs.Bits.{field_value, KeepsOtherBits};
ghost use Rattle.cmd_bodies.specs.Command.{words_from};
ghost use Rattle.cmd_bodies.specs.Reply.{HasReply, HasReplyHead, answer_of, good_reply, listed_in, listed_of, reply_at, reply_length};

use crate::command::Command;
use crate::decoder::decode_pages;
use crate::encoder::put_pages;
use crate::head::{behind_head, first_bytes};
use prm_fields::Field;

/// The output of a command.
#[derive(Clone, Copy, Debug, PartialEq, Eq)]
pub struct Reply {
    /// The command status of the Programmer's Reference Manual. Where it is not 0, all else is 0.
    pub status: u8,
    /// The number of the object or key that the command made, or of the pages that were returned.
    pub number: u32,
    /// How many pages QUERY_PAGES asks for or MANAGE_PAGES returns, at most 88 of those.
    pub pages: u32,
    /// The addresses of the pages that were returned; those from `pages` on are 0.
    pub list: [u64; 88],
}

/// What the output of a command carries beside the status.
#[derive(Clone, Copy)]
pub(crate) enum Answer {
    Nothing,
    Number,
    PageCount,
    PageAddresses,
}

fn answer_to(c: &Command) -> Answer
    ensures { result ≡ answer_of c.now }
{
    match c {
        Command::QueryPages(_) => Answer::PageCount,
        Command::ReturnPages { .. } => Answer::PageAddresses,
        Command::AllocPd
        | Command::AllocUar
        | Command::CreateMkey(_)
        | Command::CreateEq(_)
        | Command::CreateCq(_)
        | Command::CreateSrq(_)
        | Command::CreateQp(_) => Answer::Number,
        Command::EnableHca
        | Command::DisableHca
        | Command::InitHca
        | Command::TeardownHca
        | Command::GivePages(_)
        | Command::DeallocPd { .. }
        | Command::DeallocUar { .. }
        | Command::DestroyMkey { .. }
        | Command::DestroyEq { .. }
        | Command::DestroyCq { .. }
        | Command::ModifyCq { .. }
        | Command::DestroySrq { .. }
        | Command::DestroyQp { .. }
        | Command::RstToInit { .. }
        | Command::InitToRtr { .. }
        | Command::RtrToRts { .. }
        | Command::ToErr { .. } => Answer::Nothing,
    }
}

// The first 16 bytes: the status, a number and a count of pages.
fn put_reply_head(to: &mut [u8; 1040], status: u8, number: u32, count: u32)
    ensures head { HasReplyHead status number count to.new }
    ensures others { KeepsOtherBits to.old to.new 0 128 }
{
    Field::<0, 8>.put(to, status as u64);
    Field::<8, 56>.put(to, 0);
    Field::<64, 32>.put(to, number as u64);
    Field::<96, 32>.put(to, count as u64);
}

/// Writes the output, and gives its length, 16 to 720 bytes, of which ENABLE_HCA and DISABLE_HCA use 12.
///
/// The syndrome at byte 4 is always 0. The bytes of `to` past that length stay as they were.
pub fn encode_reply(r: &Reply, to: &mut [u8; 1040]) -> u32
    requires { listed_of r.now ≤ 88 }
    ensures length { result ≡ reply_length r.now }
    ensures spelled { HasReply r.now to.new }
    ensures others { KeepsOtherBits to.old to.new 0 (8 * result) }
{
    if r.number == 0 {
        put_reply_head(to, r.status, 0, r.pages);
        16
    } else {
        put_reply_head(to, r.status, r.number, 0);
        put_pages(to, r.pages, &r.list);
        16 + 8 * r.pages
    }
}

const NO_PAGES: [u64; 88] = [0; 88];

// What stands in the first 16 bytes.
#[derive(Clone, Copy)]
struct ReplyHead {
    status: u8,
    number: u32,
    second: u32,
}

#[inline(always)]
fn reply_head(bytes: &[u8]) -> ReplyHead
    ensures status { result.status ≡ field_value bytes.now 0 8 }
    ensures number { result.number ≡ field_value bytes.now 64 32 }
    ensures second { result.second ≡ field_value bytes.now 96 32 }
{
    let head = first_bytes(bytes);
    ReplyHead {
        status: Field::<0, 8>.get(&head) as u8,
        number: Field::<64, 32>.get(&head) as u32,
        second: Field::<96, 32>.get(&head) as u32,
    }
}

// A reply with status 0.
fn reply_with(answer: Answer, number: u32, second: u32, addresses: &[u8]) -> Reply
    ensures { result ≡ good_reply answer number second addresses.now }
{
    let (number, pages, list) = match answer {
        Answer::Nothing => (0, 0, NO_PAGES),
        Answer::Number => (number, 0, NO_PAGES),
        Answer::PageCount => (0, second, NO_PAGES),
        Answer::PageAddresses => (number, number, decode_list(addresses, number)),
    };
    Reply {
        status: 0,
        number,
        pages,
        list,
    }
}

/// The reply to a command that its output carries. What the output lacks is read as 0.
///
/// Of more than 88 pages that MANAGE_PAGES returns the first 88 are listed.
pub fn decode_reply(c: &Command, bytes: &[u8]) -> Reply
    ensures { result ≡ reply_at c.now bytes.now }
{
    let head = reply_head(bytes);
    if head.status == 0 {
        reply_with(answer_to(c), head.number, head.second, behind_head(bytes))
    } else {
        Reply {
            status: head.status,
            number: 0,
            pages: 0,
            list: NO_PAGES,
        }
    }
}

// As many of `count` addresses as the bytes hold, at most 88.
fn decode_list(bytes: &[u8], count: u32) -> [u64; 88]
    ensures { result ≡ words_from bytes.now (listed_in count bytes.now) 0 88 }
{
    let held = (bytes.len() / 8).min(88) as u32;
    decode_pages(bytes, count.min(held))
}
