//! Streams of bytes whose faults are counted, under the programs of this repository.
//!
//! - [`Source`] and [`Sink`] are what a program reads from and writes to. [`Failed`] is the answer of a
//!   call that could not do so; the count of faults has then risen.
//! - [`StreamSource`] and [`StreamSink`] are those of the process, [`TextSource`] and [`TextSink`] lie in
//!   memory, tell their bytes, and fail where a test wants them to.
//! - [`write_all`] writes a whole text.
#![tactic(auto)]

mod failed;
mod sink;
mod source;
mod streams;
mod text_sink;
mod text_source;
mod writing;

pub use failed::Failed;
pub use sink::Sink;
pub use source::Source;
pub use streams::{StreamSink, StreamSource};
pub use text_sink::TextSink;
pub use text_source::TextSource;
pub use writing::write_all;

#[cfg(test)]
mod tests;
