//! Writing a command's input.

ghost use Rattle.std.specs.Prelude.{◌≡◌, ◌+◌, ◌-◌, ◌*◌, ◌^◌, ◌<◌, ◌≤◌, length, slice_range, take};
ghost use Rattle.prm_fields.specs.Bits.{KeepsOtherBits, KeepsOtherBytes};
ghost use Rattle.cmd_bodies.specs.Command.{FitsFields, IsInput, input_length_of};
ghost use Rattle.cmd_bodies.specs.Encoding.{HasHead, HasPages, HasParameters};

use crate::command::Command;
use crate::contexts::{encode_cq, encode_eq, encode_mkey, encode_qp, encode_srq};
use crate::decoder::input_length;
use prm_fields::{Field, put_word};

// The first 16 bytes: opcode, modifier, a number and a second number.
fn put_head(to: &mut [u8; 1040], code: u32, number: u32, second: u32)
    ensures head { HasHead code number second to.new }
    ensures others { KeepsOtherBits to.old to.new 0 128 }
{
    Field::<0, 16>.put(to, (code / 0x1_0000) as u64);
    Field::<16, 32>.put(to, 0);
    Field::<48, 16>.put(to, (code % 0x1_0000) as u64);
    Field::<64, 32>.put(to, number as u64);
    Field::<96, 32>.put(to, second as u64);
}

#[inline(always)]
fn put_long(to: &mut [u8; 1040], at: usize, block: &[u8; 64])
    requires { at + 64 ≤ 1040 }
    ensures copied { slice_range to.new at (at + 64) ≡ block.now }
    ensures others { KeepsOtherBytes to.old to.new at 64 }
{
    to[at..at + 64].copy_from_slice(block);
}

#[inline(always)]
fn put_short(to: &mut [u8; 1040], at: usize, block: &[u8; 32])
    requires { at + 32 ≤ 1040 }
    ensures copied { slice_range to.new at (at + 32) ≡ block.now }
    ensures others { KeepsOtherBytes to.old to.new at 32 }
{
    to[at..at + 32].copy_from_slice(block);
}

pub(crate) fn put_pages(to: &mut [u8; 1040], count: u32, pages: &[u64; 88])
    requires { count ≤ 88 }
    ensures written { HasPages count pages.now to.new }
    ensures others { KeepsOtherBits to.old to.new 128 (64 * count) }
{
    for k in 0..count {
        put_word(to, 2 + k, pages[k as usize]);
    }
}

// What follows the first 16 bytes.
fn put_parameters(c: &Command, to: &mut [u8; 1040])
    requires { FitsFields c.now }
    ensures parameters { HasParameters c.now to.new }
    ensures others { KeepsOtherBits to.old to.new 128 (8 * (input_length_of c.now - 16)) }
{
    match c {
        Command::CreateMkey(context) => put_long(to, 16, &encode_mkey(*context)),
        Command::CreateEq(block) => put_short(to, 16, &encode_eq(*block)),
        Command::CreateCq(context) => put_long(to, 16, &encode_cq(*context)),
        Command::ModifyCq { context, .. } => put_long(to, 16, &encode_cq(*context)),
        Command::CreateSrq(block) => put_short(to, 16, &encode_srq(*block)),
        Command::CreateQp(block) => put_long(to, 16, &encode_qp(*block)),
        Command::GivePages(list) => put_pages(to, list.count, &list.pages),
        Command::EnableHca
        | Command::DisableHca
        | Command::InitHca
        | Command::TeardownHca
        | Command::QueryPages(_)
        | Command::ReturnPages { .. }
        | Command::AllocPd
        | Command::DeallocPd { .. }
        | Command::AllocUar
        | Command::DeallocUar { .. }
        | Command::DestroyMkey { .. }
        | Command::DestroyEq { .. }
        | Command::DestroyCq { .. }
        | Command::DestroySrq { .. }
        | Command::DestroyQp { .. }
        | Command::RstToInit { .. }
        | Command::InitToRtr { .. }
        | Command::RtrToRts { .. }
        | Command::ToErr { .. } => {}
    }
}

/// Writes the command's input, and gives its length, 16 to 720 bytes.
///
/// The bytes of `to` past that length stay as they were.
pub fn encode(c: &Command, to: &mut [u8; 1040]) -> u32
    requires { FitsFields c.now }
    ensures length { result ≡ input_length_of c.now }
    ensures spelled { IsInput c.now (take result to.new) }
    ensures others { KeepsOtherBits to.old to.new 0 (8 * result) }
{
    put_head(to, c.kind().row().code, c.number(), c.second());
    put_parameters(c, to);
    input_length(c.kind(), c.second()) as u32
}
