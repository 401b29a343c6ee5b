//! Reading a command's input.

ghost use Rattle.std.specs.Prelude.{◌≡◌, ◌+◌, ◌-◌, ◌*◌, ◌≤◌, cond, if◌then◌else◌, Some, None, IfOk, length};
ghost use Rattle.prm_fields.specs.Bits.{field_value};
ghost use Rattle.prm_fields.specs.Refusal.{RefusesBy};
ghost use Rattle.cmd_bodies.specs.Command.{IsInput, are_parameters_clear, between_at, body_rules, code_at, command_at, command_with, row_rules, input_length as input_length_of, is_head_clear, number_at, output_length as output_length_with, output_length_of, second_at, words_from, FitsFields};
ghost use Rattle.cmd_bodies.specs.Fault.{body_status};
ghost use Rattle.cmd_bodies.specs.declared.command.Command.{Command};

use crate::command::{Command, PageList, PageUse};
use crate::contexts::{decode_cq, decode_eq, decode_mkey, decode_qp, decode_srq};
use crate::head::{behind_head, first_bytes};
use crate::kind::Kind;
use prm_fields::{Field, LayoutName, reserved_clear, word};
use thiserror::Error;

/// Why the adapter refuses the body of a command before it executes it.
#[derive(Clone, Copy, Debug, PartialEq, Eq, Error)]
pub enum BodyFault {
    /// No command has this opcode with this modifier.
    #[error("no such opcode with this modifier")]
    BadOpcode,
    /// The input does not have the length of the command's.
    #[error("wrong input length")]
    InputLength,
    /// The output that is wanted does not have the length of the command's.
    #[error("wrong output length")]
    OutputLength,
    /// A bit that the command does not use is 1, or there are more than 88 pages.
    #[error("reserved bits are not 0, or too many pages")]
    Reserved,
}

impl BodyFault {
    /// The command status of the Programmer's Reference Manual.
    pub fn status(self) -> u8
        ensures { result ≡ body_status self }
    {
        match self {
            BodyFault::BadOpcode => 0x02,
            BodyFault::InputLength => 0x50,
            BodyFault::OutputLength => 0x51,
            BodyFault::Reserved => 0x03,
        }
    }
}

// The first 16 bytes of an input.
#[derive(Clone, Copy)]
struct Head {
    code: u32,
    between: u32,
    number: u32,
    second: u32,
}

#[inline(always)]
fn head_of(input: &[u8]) -> Head
    ensures code { result.code ≡ code_at input.now }
    ensures between { result.between ≡ between_at input.now }
    ensures number { result.number ≡ number_at input.now }
    ensures second { result.second ≡ second_at input.now }
{
    let head = first_bytes(input);
    Head {
        code: (Field::<0, 16>.get(&head) * 0x1_0000 + Field::<48, 16>.get(&head)) as u32,
        between: Field::<16, 32>.get(&head) as u32,
        number: Field::<64, 32>.get(&head) as u32,
        second: Field::<96, 32>.get(&head) as u32,
    }
}

/// How many bytes of input a row has.
pub(crate) fn input_length(kind: Kind, second: u32) -> u64
    ensures { result ≡ input_length_of kind second }
{
    match kind {
        Kind::GivePages => 16 + 8 * second as u64,
        _ => kind.row().in_len as u64,
    }
}

/// How many bytes of output a row has.
fn output_length_at(kind: Kind, second: u32) -> u64
    ensures { result ≡ output_length_with kind second }
{
    match kind {
        Kind::ReturnPages => 16 + 8 * second as u64,
        _ => kind.row().out_len as u64,
    }
}

/// How many bytes of output a command wants, 12 to 720.
pub fn output_length(c: &Command) -> u32
    requires { FitsFields c.now }
    ensures { result ≡ output_length_of c.now }
{
    output_length_at(c.kind(), c.second()) as u32
}

fn head_clear(kind: Kind, head: &Head) -> bool
    ensures { result ≡ is_head_clear kind head.now.between head.now.number head.now.second }
{
    let row = kind.row();
    head.between == 0
        && (row.has_number || head.number == 0)
        && (row.has_second || head.second == 0)
}

/// The addresses of a list of pages.
pub(crate) fn decode_pages(parameters: &[u8], count: u32) -> [u64; 88]
    requires few { count ≤ 88 }
    requires long { 8 * count ≤ length parameters.now }
    ensures { result ≡ words_from parameters.now count 0 88 }
{
    let mut pages = [0; 88];
    for k in 0..count {
        pages[k as usize] = word(parameters, k);
    }
    pages
}

#[inline(always)]
fn long_block(parameters: &[u8]) -> [u8; 64]
    requires { length parameters.now ≡ 64 }
    ensures { result ≡ parameters.now }
{
    let mut block = [0; 64];
    block.copy_from_slice(parameters);
    block
}

#[inline(always)]
fn short_block(parameters: &[u8]) -> [u8; 32]
    requires { length parameters.now ≡ 32 }
    ensures { result ≡ parameters.now }
{
    let mut block = [0; 32];
    block.copy_from_slice(parameters);
    block
}

/// The command of a row with its numbers and parameters. None where a reserved bit of the parameters is
/// set or there are too many pages.
fn command_of(kind: Kind, number: u32, second: u32, parameters: &[u8]) -> Option<Command>
    requires { length parameters.now + 16 ≡ input_length_of kind second }
    ensures { result ≡ (if are_parameters_clear kind second parameters.now then Some (command_with kind number second parameters.now) else None) }
{
    Some(match kind {
        Kind::EnableHca => Command::EnableHca,
        Kind::DisableHca => Command::DisableHca,
        Kind::InitHca => Command::InitHca,
        Kind::TeardownHca => Command::TeardownHca,
        Kind::QueryBootPages => Command::QueryPages(PageUse::Boot),
        Kind::QueryInitPages => Command::QueryPages(PageUse::Init),
        Kind::GivePages => {
            if second > 88 {
                return None;
            }
            Command::GivePages(PageList {
                count: second,
                pages: decode_pages(parameters, second),
            })
        }
        Kind::ReturnPages => {
            if second > 88 {
                return None;
            }
            Command::ReturnPages { count: second }
        }
        Kind::AllocPd => Command::AllocPd,
        Kind::DeallocPd => Command::DeallocPd { pd: number },
        Kind::AllocUar => Command::AllocUar,
        Kind::DeallocUar => Command::DeallocUar { page: number },
        Kind::CreateMkey => {
            let block = long_block(parameters);
            if !reserved_clear(LayoutName::MkeyContext, &block) {
                return None;
            }
            Command::CreateMkey(decode_mkey(&block))
        }
        Kind::DestroyMkey => Command::DestroyMkey { key: number },
        Kind::CreateEq => {
            let block = short_block(parameters);
            if !reserved_clear(LayoutName::EqBlock, &block) {
                return None;
            }
            Command::CreateEq(decode_eq(&block))
        }
        Kind::DestroyEq => Command::DestroyEq { eq: number },
        Kind::CreateCq => {
            let block = long_block(parameters);
            if !reserved_clear(LayoutName::CqContext, &block) {
                return None;
            }
            Command::CreateCq(decode_cq(&block))
        }
        Kind::DestroyCq => Command::DestroyCq { cq: number },
        Kind::ModifyCq => {
            let block = long_block(parameters);
            if !reserved_clear(LayoutName::CqContext, &block) {
                return None;
            }
            Command::ModifyCq {
                cq: number,
                area: second,
                context: decode_cq(&block),
            }
        }
        Kind::CreateSrq => {
            let block = short_block(parameters);
            if !reserved_clear(LayoutName::SrqBlock, &block) {
                return None;
            }
            Command::CreateSrq(decode_srq(&block))
        }
        Kind::DestroySrq => Command::DestroySrq { srq: number },
        Kind::CreateQp => {
            let block = long_block(parameters);
            if !reserved_clear(LayoutName::QpBlock, &block) {
                return None;
            }
            Command::CreateQp(decode_qp(&block))
        }
        Kind::DestroyQp => Command::DestroyQp { qp: number },
        Kind::RstToInit => Command::RstToInit { qp: number },
        Kind::InitToRtr => Command::InitToRtr {
            qp: number,
            peer: second,
        },
        Kind::RtrToRts => Command::RtrToRts { qp: number },
        Kind::ToErr => Command::ToErr { qp: number },
    })
}

/// The command of a row that an input carries. Its refusals come in the order of `row_rules`.
#[inline(always)]
fn decode_row(kind: Kind, head: Head, input: &[u8], out_len: u32) -> Result<Command, BodyFault>
    requires between { head.between ≡ between_at input.now }
    requires number { head.number ≡ number_at input.now }
    requires second { head.second ≡ second_at input.now }
    ensures value { IfOk result (λ c. c ≡ command_at kind input.now) }
    ensures refused { RefusesBy result (row_rules (Some kind) input.now out_len) }
{
    if input.len() as u64 != input_length(kind, head.second) {
        return Err(BodyFault::InputLength);
    }
    if out_len as u64 != output_length_at(kind, head.second) {
        return Err(BodyFault::OutputLength);
    }
    if !head_clear(kind, &head) {
        return Err(BodyFault::Reserved);
    }
    match command_of(kind, head.number, head.second, behind_head(input)) {
        Some(command) => Ok(command),
        None => Err(BodyFault::Reserved),
    }
}

/// The command that an input carries, where `out_len` bytes of output are wanted.
///
/// Its refusals come in this order, which is this project's own: opcode or modifier, input length,
/// output length, reserved bits or more than 88 pages. Opcode, modifier and count of pages of an input
/// that is too short for them are read as if it went on with 0.
pub fn decode(input: &[u8], out_len: u32) -> Result<Command, BodyFault>
    ensures found { IfOk result (λ c. IsInput c input.now) }
    ensures fits { IfOk result FitsFields }
    ensures output { IfOk result (λ c. out_len ≡ output_length_of c) }
    ensures only { (c : Command) → IsInput c input.now → out_len ≡ output_length_of c → result ≡ Ok c }
    ensures refused { RefusesBy result (body_rules input.now out_len) }
{
    let head = head_of(input);
    match Kind::from_code(head.code) {
        Some(kind) => decode_row(kind, head, input, out_len),
        None => Err(BodyFault::BadOpcode),
    }
}
