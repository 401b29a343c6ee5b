//! Why a command is not delivered.

use thiserror::Error;

/// Why the adapter refuses a command queue entry or a mailbox block before it looks at the command.
///
/// The numbers are the delivery statuses of the Programmer's Reference Manual. Which fault brings
/// which status, and in which order they are judged, is this project's own.
#[derive(Clone, Copy, Debug, PartialEq, Eq, Error)]
pub enum Delivery {
    #[error("wrong signature")]
    Signature,
    #[error("wrong token")]
    Token,
    #[error("wrong block number")]
    BlockNumber,
    #[error("wrong output pointer")]
    OutputPointer,
    #[error("wrong input pointer")]
    InputPointer,
    #[error("wrong input length")]
    InputLength,
    #[error("wrong output length")]
    OutputLength,
    #[error("reserved bits are not 0")]
    Reserved,
    #[error("not a command descriptor")]
    Descriptor,
}

impl Delivery {
    ghost use Rattle.std.specs.Prelude.{◌≡◌};
    ghost use Rattle.cmd_format.specs.Delivery.{delivery_number, delivery_of};

    /// The delivery status, 1 to 16.
    pub fn number(self) -> u8
        ensures { result ≡ delivery_number self }
    {
        match self {
            Delivery::Signature => 1,
            Delivery::Token => 2,
            Delivery::BlockNumber => 3,
            Delivery::OutputPointer => 4,
            Delivery::InputPointer => 5,
            Delivery::InputLength => 7,
            Delivery::OutputLength => 8,
            Delivery::Reserved => 9,
            Delivery::Descriptor => 0x10,
        }
    }

    /// The fault with a delivery status. None where no fault has it.
    pub fn from_number(number: u8) -> Option<Delivery>
        ensures { result ≡ delivery_of number }
    {
        Some(match number {
            1 => Delivery::Signature,
            2 => Delivery::Token,
            3 => Delivery::BlockNumber,
            4 => Delivery::OutputPointer,
            5 => Delivery::InputPointer,
            7 => Delivery::InputLength,
            8 => Delivery::OutputLength,
            9 => Delivery::Reserved,
            0x10 => Delivery::Descriptor,
            _ => return None,
        })
    }
}
