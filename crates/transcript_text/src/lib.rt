//! Transcripts: the texts of a history and of a trace, and the writers that they are made with.
#![tactic(auto)]

mod actor_names;
mod byte_row;
mod command;
mod command_row;
mod completion;
mod completion_row;
mod event_row;
mod head;
mod history;
mod key;
mod line;
mod names;
mod queue_row;
mod request;
mod row;
mod run;
mod trace;
mod writer;

pub use head::put_head;
pub use history::{print_history, put_history};
pub use run::print_run;
pub use trace::print_trace;
pub use writer::TextWriter;
