//! Why a command is refused.
ghost use Rattle.std.specs.Prelude.{◌≡◌};
ghost use Rattle.device_commands.specs.Refusal.{code_of};

use hca_pages::HcaFault;
use thiserror::Error;

/// Why a command is refused. Which refusal comes when is this project's own.
#[derive(Clone, Copy, Debug, PartialEq, Eq, Error)]
pub enum Refusal {
    /// The adapter does not do this command: memory keys, shared receive queues, and MODIFY_CQ.
    #[error("command is not done")]
    NotDone,
    /// The start order or the pages do not allow it.
    #[error("{0}")]
    Adapter(HcaFault),
    /// An object that the command names does not live.
    #[error("bad resource")]
    BadResource,
    /// A parameter is not that of the next declared object, or a list has more than 88 pages.
    #[error("bad parameter")]
    BadParameter,
    /// The queue pair is not in the state from which the command moves it.
    #[error("bad state of a queue pair")]
    BadQpState,
    /// Another object uses the one that is to be destroyed.
    #[error("resource is busy")]
    Busy,
}

impl Refusal {
    /// The command status, by the list of the Programmer's Reference Manual.
    pub fn status(self) -> u8
        ensures { result ≡ code_of self }
    {
        match self {
            Refusal::NotDone => 0x02,
            Refusal::Adapter(fault) => fault.status(),
            Refusal::BadResource => 0x05,
            Refusal::BadParameter => 0x03,
            Refusal::BadQpState => 0x10,
            Refusal::Busy => 0x09,
        }
    }
}
