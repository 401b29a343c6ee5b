//! Where the arms of a completion queue lie.
ghost use Rattle.std.specs.Prelude.{◌≡◌};
ghost use Rattle.cq_arms.specs.ReaderView.{counts};

use verbs_types::EventRecord;

/// Where the arms of a completion queue lie, in words of the bus: word 1 of the queue's doorbell
/// record, its arm register and its arm sequence number. `number` is the queue's number. The record
/// and the register are the Programmer's Reference Manual's, a word for the 32 bits of the record;
/// the sequence number is the host's own, as in the rdma-core mlx5 provider; the places on the bus
/// are this project's own.
///
/// Of a queue whose record begins at the word `dbr`, `arm_record` is `dbr + 1`.
#[derive(Clone, Copy, Debug, PartialEq, Eq)]
pub struct ArmPlace {
    pub number: u32,
    pub arm_record: u32,
    pub arm_reg: u32,
    pub sn: u32,
}

impl ArmPlace {
    /// Whether an event tells of a completion in this queue.
    pub(crate) fn is_completion_of(&self, event: EventRecord) -> bool
        ensures { result ≡ counts self.now event }
    {
        match event {
            EventRecord::Completion { cq } => cq == self.number,
            EventRecord::CqError { .. } => false,
        }
    }
}
