//! Commands over a source and sinks in memory, of which calls fail.

use crate::run::run_plain;
use crate::status::Status;
use crate::words::words_after_name;
use byte_streams::{TextSink, TextSource};
use std::alloc::AllocError;
use std::env::{Env, FillError};
use std::process::Abort;
use std::test::Fail;

const SCENARIO: &[u8] = b"eq e 1\npd p\ncq c 2 2 e 0\nqp q p c c 2 rq:0 1 0\nconnect q q\n\
thread b\npoll c 1\nend\nschedule b\n";

const RUN: &str = "mlx5 history\neq e 1\npd p\ncq c 2 2 e 0\nqp q p c c 2 rq:0 1 0\nconnect q q\n\
b poll c 1 empty\nend 1\nmlx5 trace\nb load 17433 00000000000000f0 *\nend 1\n";

/// What a command is to answer, to write and to say.
#[derive(Clone, Copy)]
struct Answer {
    status: Status,
    output: &'static str,
    line: &'static str,
}

const REMOTE_ADDRESS_ROWS: &str = "addr 0 64\nrkey 64 32\nreserved 96 32\n";

const ROWS_PRINTED: Answer = Answer {
    status: Status::Done,
    output: REMOTE_ADDRESS_ROWS,
    line: "",
};

const READ_FAULT: Answer = Answer {
    status: Status::ReadFault,
    output: "",
    line: "mlx5: read fault\n",
};

/// Runs a command, whose line is taken byte by byte, and asserts its answer.
fn expect<R: Abort + AllocGlobal>(
    rt: &R,
    texts: &[&str],
    source: &mut TextSource<'_>,
    out: &mut TextSink<'_>,
    answer: &Answer,
) -> Result<(), AllocError> {
    let mut words = Vec::new(rt.alloc());
    for text in texts {
        words.push(String::from_str(rt.alloc(), text)?)?;
    }
    let mut err = TextSink::new(rt.alloc());
    err.step = 1;
    let status = run_plain(rt.alloc(), words.as_slice(), source, out, &mut err);
    assert_eq!(rt; status, answer.status);
    assert!(rt; out.written.as_slice() == answer.output.as_bytes());
    assert!(rt; err.written.as_slice() == answer.line.as_bytes());
    Ok(())
}

#[test]
fn the_rows_of_a_layout(rt: HostRuntime) -> Result<(), Fail> {
    for step in [1, 2, 64] {
        let mut source = TextSource::new(SCENARIO);
        let mut out = TextSink::new(rt.alloc());
        out.step = step;
        let words = ["layout", "raddr"];
        expect(&rt, &words, &mut source, &mut out, &ROWS_PRINTED)?;
        assert_eq!(rt; source.calls, 0);
    }
    Ok(())
}

#[test]
fn a_failing_write(rt: HostRuntime) -> Result<(), Fail> {
    for call in 0..RUN.len() {
        let failing = [call as u64];
        let mut source = TextSource::new(SCENARIO);
        let mut out = TextSink::new(rt.alloc());
        out.step = 1;
        out.failing = &failing;
        let answer = Answer {
            status: Status::WriteFault,
            output: RUN.get(..call).unwrap_or("none"),
            line: "mlx5: write fault\n",
        };
        expect(&rt, &["run"], &mut source, &mut out, &answer)?;
    }
    Ok(())
}

#[test]
fn a_failing_read(rt: HostRuntime) -> Result<(), Fail> {
    for call in 0..=SCENARIO.len() {
        let failing = [call as u64];
        let mut source = TextSource::new(SCENARIO);
        source.step = 1;
        source.failing = &failing;
        let mut out = TextSink::new(rt.alloc());
        expect(&rt, &["run"], &mut source, &mut out, &READ_FAULT)?;
        assert_eq!(rt; source.calls, failing[0] + 1);
    }
    Ok(())
}

/// A process with these arguments, the program's name first.
#[derive(Clone, Copy)]
struct Started<'a>(&'a [&'a [u8]]);

impl<'a> Env for Started<'a> {
    fn arg(&self, i: usize, buf: &mut [u8]) -> Result<usize, FillError> {
        let word = self.0.get(i).ok_or(FillError::NotPresent)?;
        if word.len() > buf.len() {
            return Err(FillError::TooLong);
        }
        buf[..word.len()].copy_from_slice(word);
        Ok(word.len())
    }

    fn var(&self, _name: &str, _buf: &mut [u8]) -> Result<usize, FillError> {
        Err(FillError::NotPresent)
    }

    fn var_at(&self, _i: usize, _buf: &mut [u8]) -> Result<usize, FillError> {
        Err(FillError::NotPresent)
    }
}

#[test]
fn words_that_the_program_was_started_with(rt: HostRuntime) -> Result<(), Fail> {
    let long = vec![in rt.alloc(); b'a'; 1000]?;
    let started = (
        Started(&[b"mlx5", b"run", b"\xff", long.as_slice(), b""]),
        rt.alloc(),
    );
    let words = words_after_name(&started)?;
    assert_eq!(rt; words.len(), 4);
    assert_eq!(rt; words[0].as_str(), "run");
    assert_eq!(rt; words[1].as_str(), "");
    assert_eq!(rt; words[2].len(), 1000);
    assert_eq!(rt; words[3].as_str(), "");
    Ok(())
}
