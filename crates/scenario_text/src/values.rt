//! The names and numbers in the places of a line.
ghost use Rattle.std.specs.Prelude.{◌≡◌, IfOk};
ghost use Rattle.scenario_text.specs.Bounds.{recv_log_at, size_of};
ghost use Rattle.scenario_text.specs.Text as text;
ghost use Rattle.scenario_text.specs.Text.{split, number_at};

use crate::lines::read_number;
use crate::parts::{SPACE, part};
use crate::slot::after_rq;
use std::alloc::{AllocError, Global};
use verbs_types::Name;

/// The name that a line gives.
pub fn name(alloc: Global, line: &[u8]) -> Result<Name, AllocError>
    ensures { IfOk result (λ name. name ≡ text.name_in (split 32 line.now)) }
{
    match Name::new(alloc, part(line, SPACE, 1)) {
        Ok(name) => Ok(name),
        Err(_) => Err(AllocError),
    }
}

/// The number in a place of a line; 0 where none is there.
pub fn number(line: &[u8], place: usize) -> u64
    ensures { result ≡ number_at (split 32 line.now) place }
{
    read_number(part(line, SPACE, place)).unwrap_or(0)
}

/// The same, where it is below 2^32, else 2^32 - 1, which passes every limit of such a number.
pub fn small(line: &[u8], place: usize) -> u32
    ensures { result ≡ text.small_at (split 32 line.now) place }
{
    saturated(number(line, place))
}

pub fn recv_log(line: &[u8]) -> u64
    ensures { result ≡ recv_log_at (split 32 line.now) }
{
    read_number(after_rq(part(line, SPACE, 6))).unwrap_or(0)
}

/// The same number, where it is below 2^32, else 2^32 - 1.
pub fn saturated(number: u64) -> u32
    ensures { result ≡ text.small number }
{
    u32::try_from(number).unwrap_or(u32::MAX)
}

/// How many requests may complete into a queue of 2^log entries; past 2^63 it makes no difference.
pub fn size(log: u64) -> u64
    ensures { result ≡ size_of log }
{
    1 << log.min(63)
}
