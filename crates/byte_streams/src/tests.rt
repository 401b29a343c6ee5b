//! Texts that are read and written by small pieces, with calls that fail.

use crate::{Failed, Sink, Source, StreamSink, StreamSource, TextSink, TextSource, write_all};
use std::io;
use std::io::{Read, Write};
use std::test::Fail;

#[test]
fn a_write_that_fails(rt: HostRuntime) -> Result<(), Fail> {
    let failing = [2];
    let mut sink = TextSink::new(rt.alloc());
    sink.step = 2;
    sink.failing = &failing;
    assert_eq!(rt; write_all(&mut sink, b"abcde"), Err(Failed));
    assert!(rt; sink.written.as_slice() == b"abcd".as_slice());
    assert_eq!(rt; sink.faults, 1);
    Ok(())
}

#[test]
fn a_read_that_fails(rt: HostRuntime) {
    let failing = [1];
    let mut source = TextSource::new(b"abc");
    source.step = 2;
    source.failing = &failing;
    let mut room = [0; 4];
    assert_eq!(rt; source.read(&mut room), Ok(2));
    assert_eq!(rt; source.read(&mut room), Err(Failed));
    assert_eq!(rt; source.read(&mut room), Ok(1));
    assert_eq!(rt; source.read(&mut room), Ok(0));
    assert_eq!(rt; room[0], b'c');
    assert_eq!(rt; source.faults, 1);
}

/// A stream that can do nothing.
#[derive(Drop)]
struct Broken;

impl Read for Broken {
    fn read(&mut self, _buf: &mut [u8]) -> io::Result<usize> {
        Err(io::Error::from(io::ErrorKind::Other))
    }
}

impl Write for Broken {
    fn write(&mut self, _buf: &[u8]) -> io::Result<usize> {
        Ok(0)
    }

    fn flush(&mut self) -> io::Result<()> {
        Ok(())
    }
}

#[test]
fn streams_that_are_broken(rt: HostRuntime) {
    let mut source = StreamSource::new(Broken);
    assert_eq!(rt; source.read(&mut [0; 4]), Err(Failed));
    assert_eq!(rt; source.faults, 1);
    let mut sink = StreamSink::new(Broken);
    assert_eq!(rt; sink.write(b""), Ok(0));
    assert_eq!(rt; sink.write(b"a"), Err(Failed));
    assert_eq!(rt; sink.faults, 1);
}
