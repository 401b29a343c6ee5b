//! `mlx5`: both sides of the programming interface of the ConnectX-4 adapter, as a program over
//! its standard streams.
#![tactic(auto)]

mod command;
mod layouts;
mod line;
mod reading;
mod run;
mod run_text;
mod status;
#[cfg(test)]
mod tests;
mod words;

use byte_streams::{StreamSink, StreamSource};
use run::{run_plain, say};
use status::Status;
use std::process::ExitCode;
use words::words_after_name;

fn main(rt: HostRuntime) -> ExitCode {
    let mut input = StreamSource::new(rt.stdin());
    let mut output = StreamSink::new(rt.stdout());
    let mut errors = StreamSink::new(rt.stderr());
    let status = match words_after_name(&rt) {
        Ok(words) => run_plain(
            rt.alloc(),
            words.as_slice(),
            &mut input,
            &mut output,
            &mut errors,
        ),
        Err(_) => {
            say(&mut errors, Status::NoMemory);
            Status::NoMemory
        }
    };
    ExitCode::from(status.number())
}
