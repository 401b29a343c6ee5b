//! The kinds of objects that have words.

/// A kind of objects.
#[derive(Clone, Copy, Debug, PartialEq, Eq)]
pub enum ObjectKind {
    /// Event queues, which count from 0.
    Eq,
    /// Completion queues, which count from 0.
    Cq,
    /// Queue pairs, which count from 0x40.
    Qp,
}
