//! `mlx5_dump`: what dumped entries of the ConnectX-4 adapter say, a line each, over the standard
//! streams.
#![tactic(auto)]

mod answer;
mod dump;
mod hex;
mod kind;
mod line;
mod status;
#[cfg(test)]
mod tests;
mod text;

use byte_streams::{StreamSink, StreamSource, write_all};
use dump::dump;
use status::Status;
use std::env::{Env, FillError};
use std::process::ExitCode;

fn main(rt: HostRuntime) -> ExitCode {
    let mut input = StreamSource::new(rt.stdin());
    let mut output = StreamSink::new(rt.stdout());
    let mut errors = StreamSink::new(rt.stderr());
    let status = if has_words(&rt) {
        Status::Usage
    } else {
        dump(rt.alloc(), &mut input, &mut output)
    };
    let _ = write_all(&mut errors, status.line().as_bytes());
    ExitCode::from(status.number())
}

/// Whether there are words after the program's name.
fn has_words<R: Env>(rt: &R) -> bool {
    !matches!(rt.arg(1, &mut []), Err(FillError::NotPresent))
}
