//! The syndromes of errors.

/// Why a request or a receive failed (Programmer's Reference Manual).
#[derive(Clone, Copy, Debug, PartialEq, Eq)]
pub enum Syndrome {
    LocalLength,
    LocalQpOperation,
    LocalProtection,
    /// The queue pair was in the error state.
    Flushed,
    BadResponse,
    LocalAccess,
    RemoteInvalidRequest,
    RemoteAccess,
    RemoteOperation,
    RetriesExceeded,
    /// The responder had no receive ready, too often.
    RnrRetriesExceeded,
    RemoteAborted,
}

impl Syndrome {
    ghost use Rattle.std.specs.Prelude.{◌≡◌};
    ghost use Rattle.cqe_format.specs.Syndrome.{syndrome_for, syndrome_number, syndrome_of, verbs_status};

    /// The number in a completion.
    pub fn number(self) -> u8
        ensures { result ≡ syndrome_number self }
    {
        match self {
            Syndrome::LocalLength => 0x01,
            Syndrome::LocalQpOperation => 0x02,
            Syndrome::LocalProtection => 0x04,
            Syndrome::Flushed => 0x05,
            Syndrome::BadResponse => 0x10,
            Syndrome::LocalAccess => 0x11,
            Syndrome::RemoteInvalidRequest => 0x12,
            Syndrome::RemoteAccess => 0x13,
            Syndrome::RemoteOperation => 0x14,
            Syndrome::RetriesExceeded => 0x15,
            Syndrome::RnrRetriesExceeded => 0x16,
            Syndrome::RemoteAborted => 0x22,
        }
    }

    /// The syndrome with a number. None where no syndrome has it.
    pub fn from_number(number: u8) -> Option<Syndrome>
        ensures { result ≡ syndrome_of number }
    {
        Some(match number {
            0x01 => Syndrome::LocalLength,
            0x02 => Syndrome::LocalQpOperation,
            0x04 => Syndrome::LocalProtection,
            0x05 => Syndrome::Flushed,
            0x10 => Syndrome::BadResponse,
            0x11 => Syndrome::LocalAccess,
            0x12 => Syndrome::RemoteInvalidRequest,
            0x13 => Syndrome::RemoteAccess,
            0x14 => Syndrome::RemoteOperation,
            0x15 => Syndrome::RetriesExceeded,
            0x16 => Syndrome::RnrRetriesExceeded,
            0x22 => Syndrome::RemoteAborted,
            _ => return None,
        })
    }

    /// The status of the work completion, as `ibv_wc_status` of rdma-core numbers it.
    pub fn status(self) -> u8
        ensures { result ≡ verbs_status self }
    {
        match self {
            Syndrome::LocalLength => 1,
            Syndrome::LocalQpOperation => 2,
            Syndrome::LocalProtection => 4,
            Syndrome::Flushed => 5,
            Syndrome::BadResponse => 7,
            Syndrome::LocalAccess => 8,
            Syndrome::RemoteInvalidRequest => 9,
            Syndrome::RemoteAccess => 10,
            Syndrome::RemoteOperation => 11,
            Syndrome::RetriesExceeded => 12,
            Syndrome::RnrRetriesExceeded => 13,
            Syndrome::RemoteAborted => 16,
        }
    }

    /// The syndrome of a work completion's status. None where no syndrome stands for it.
    pub fn from_status(status: u8) -> Option<Syndrome>
        ensures { result ≡ syndrome_for status }
    {
        Some(match status {
            1 => Syndrome::LocalLength,
            2 => Syndrome::LocalQpOperation,
            4 => Syndrome::LocalProtection,
            5 => Syndrome::Flushed,
            7 => Syndrome::BadResponse,
            8 => Syndrome::LocalAccess,
            9 => Syndrome::RemoteInvalidRequest,
            10 => Syndrome::RemoteAccess,
            11 => Syndrome::RemoteOperation,
            12 => Syndrome::RetriesExceeded,
            13 => Syndrome::RnrRetriesExceeded,
            16 => Syndrome::RemoteAborted,
            _ => return None,
        })
    }
}
