//! Reading a whole text.
ghost use Rattle.std.specs.Prelude.{◌≤◌, IfOk, IfErr};
ghost use Rattle.mlx5_cli.specs.Reading.{ReadsWhole, StopsReading};

use byte_streams::{Failed, Source};
use std::alloc::{AllocError, Global};
use thiserror::Error;

/// The most bytes that a text may have.
pub const TEXT_LIMIT: usize = 4_194_304;

/// The most bytes that one read asks for.
const PIECE: usize = 4096;

/// Why a text was not read.
#[derive(Clone, Copy, Debug, PartialEq, Eq, Error)]
pub enum ReadError {
    /// A read failed.
    #[error("a read failed")]
    Failed,
    /// There are more bytes than a text may have. One of them too many was read.
    #[error("the text is longer than 4,194,304 bytes")]
    TooLong,
    /// There was no memory for the text.
    #[error("no memory")]
    NoMemory,
}

impl From<Failed> for ReadError {
    ghost use Rattle.std.specs.Prelude.{◌≡◌};
    ghost use Rattle.mlx5_cli.specs.declared.reading.ReadError.TheVariants.{Failed};

    ghost from_gives = { λ _ e. e ≡ Failed };

    fn from(_failed: Failed) -> ReadError {
        ReadError::Failed
    }
}

impl From<AllocError> for ReadError {
    ghost use Rattle.std.specs.Prelude.{◌≡◌};
    ghost use Rattle.mlx5_cli.specs.declared.reading.ReadError.TheVariants.{NoMemory};

    ghost from_gives = { λ _ e. e ≡ NoMemory };

    fn from(_error: AllocError) -> ReadError {
        ReadError::NoMemory
    }
}

/// Reads all bytes that are left, and never asks for more than one past `TEXT_LIMIT`. What was read
/// before an error is lost.
pub fn read_all<S: Source>(alloc: Global, source: &mut S) -> Result<Vec<u8>, ReadError>
    ensures whole { IfOk result (λ text. ReadsWhole (S.state source.old) (S.state source.new) text.items) }
    ensures stops { IfErr result (StopsReading (S.state source.old) (S.state source.new)) }
    ensures never_falls { (S.state source.old).faults ≤ (S.state source.new).faults }
{
    let mut text = Vec::new(alloc);
    let mut piece = [0; PIECE];
    while text.len() <= TEXT_LIMIT {
        let most = PIECE.min(TEXT_LIMIT + 1 - text.len());
        let count = source.read(&mut piece[..most])?;
        if count == 0 {
            return Ok(text);
        }
        text.extend_from_slice(&piece[..count])?;
    }
    Err(ReadError::TooLong)
}
