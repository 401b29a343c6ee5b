//! Texts over a source and a sink in memory, of which calls fail.

use crate::dump::dump;
use crate::status::Status;
use byte_streams::{TextSink, TextSource};
use std::alloc::Global;
use std::process::Abort;

/// ENABLE_HCA, once as it is and once with a wrong signature, and a line that is no dump and has no line
/// end.
const LINES: &[u8] = b"entry 07000000000000100000000000000000\
01040000000000000000000000000000\
00000000000000000000000000000000\
00000000000000000000000c2aca0001\n\
entry 07000000000000100000000000000000\
01040000000000000000000000000000\
00000000000000000000000000000000\
00000000000000000000000c2acb0001\n\
entry";

const ANSWERS: &str = "ok type=7 in_len=16 in_ptr=0 input_hi=73183493944770560 input_lo=0 \
output_hi=0 output_lo=0 out_ptr=0 out_len=12 token=42 signature=202 status_own=1\n\
refused delivery 1\n\
malformed\n";

/// What a run answers, and how much of the answers it writes.
fn expect<R: Abort>(
    rt: &R,
    alloc: Global,
    source: &mut TextSource<'_>,
    out: &mut TextSink<'_>,
    status: Status,
    output: &str,
) {
    assert_eq!(rt; dump(alloc, source, out), status);
    assert!(rt; out.written.as_slice() == output.as_bytes());
}

/// The lines of the pieces that were read are answered, and no part of another line.
#[test]
fn a_read_that_fails(rt: HostRuntime) {
    let failing = [2];
    let mut source = TextSource::new(b"x\ny\nz\n");
    source.step = 2;
    source.failing = &failing;
    let mut out = TextSink::new(rt.alloc());
    expect(
        &rt,
        rt.alloc(),
        &mut source,
        &mut out,
        Status::ReadFault,
        "malformed\nmalformed\n",
    );
}

#[test]
fn a_write_that_fails(rt: HostRuntime) {
    for call in 0..ANSWERS.len() {
        let failing = [call as u64];
        let mut source = TextSource::new(LINES);
        let mut out = TextSink::new(rt.alloc());
        out.step = 1;
        out.failing = &failing;
        expect(
            &rt,
            rt.alloc(),
            &mut source,
            &mut out,
            Status::WriteFault,
            ANSWERS.get(..call).unwrap_or("none"),
        );
    }
}
