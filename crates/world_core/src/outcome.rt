//! What a run leaves.

use bus_core::TraceEntry;
use verbs_types::{Entry, Sequence};

/// What a run leaves: its operations, which of them stand for an entry of the history, and the history.
#[derive(Drop)]
pub struct Outcome {
    pub trace: Vec<TraceEntry>,
    pub marks: Vec<bool>,
    pub history: Sequence<Entry>,
}
