//! Answers to commands.

use cmd_bodies::Reply;
use cmd_format::Delivery;

/// How the adapter answers a command.
#[derive(Clone, Copy, Debug, PartialEq, Eq)]
pub enum Answer {
    /// It was delivered, and executed or refused with the reply's status.
    Delivered(Reply),
    /// It was not delivered: entry or blocks broke a rule.
    Refused(Delivery),
}
