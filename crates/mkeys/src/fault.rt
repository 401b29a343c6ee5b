//! Why a key is refused.

use thiserror::Error;

/// The first need that a key does not meet, in this order.
#[derive(Clone, Copy, Debug, PartialEq, Eq, Error)]
pub enum KeyFault {
    #[error("no region has this index")]
    Index,
    #[error("the region of this index has another variant")]
    Variant,
    #[error("the region belongs to another protection domain")]
    Pd,
    #[error("the region lacks this right")]
    Right,
    #[error("the range leaves the region")]
    Range,
}

/// As many keys live as there are places.
#[derive(Clone, Copy, Debug, PartialEq, Eq, Error)]
#[error("no free place for a key")]
pub struct NoFree;
