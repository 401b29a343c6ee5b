//! Why a command of the start order is refused.
ghost use Rattle.std.specs.Prelude.{◌≡◌};
ghost use Rattle.hca_pages.specs.Status.{status_of};

use thiserror::Error;

/// Why a call of `Hca` is refused. Which refusal comes when is this project's own.
#[derive(Clone, Copy, Debug, PartialEq, Eq, Error)]
pub enum HcaFault {
    /// The adapter is not in the phase of this call, or it is to be disabled and still holds pages.
    #[error("wrong system state")]
    BadSystemState,
    /// An address that cannot be given: it is no multiple of the page size, is held, or stands
    /// earlier in the list. Where pages are taken back, `page` is their number, which is more than
    /// are held.
    #[error("bad parameter {page:#x}")]
    BadParameter { page: u64 },
    /// The adapter would hold this many pages, which is more than 88; 2^32 - 1 stands for more.
    #[error("{pages} pages are too many")]
    Limit { pages: u32 },
    /// The adapter needs more pages than it holds.
    #[error("{needed} pages are needed, {held} are held")]
    NoPages { needed: u32, held: u32 },
}

impl HcaFault {
    /// The command status, by the list of the Programmer's Reference Manual.
    pub fn status(self) -> u8
        ensures { result ≡ status_of self }
    {
        match self {
            HcaFault::BadSystemState => 0x04,
            HcaFault::BadParameter { .. } => 0x03,
            HcaFault::Limit { .. } => 0x08,
            HcaFault::NoPages { .. } => 0x0f,
        }
    }
}
