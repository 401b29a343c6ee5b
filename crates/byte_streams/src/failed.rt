//! The one answer of a stream that could not do what it was asked.

use thiserror::Error;

/// A read or a write failed, and the stream's count of faults rose.
#[derive(Clone, Copy, Debug, PartialEq, Eq, Error)]
#[error("a read or a write failed")]
pub struct Failed;
