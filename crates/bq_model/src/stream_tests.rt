// Each source and each sink, used once through its bound.
ghost use Rattle.std.specs.Prelude.{◌<◌, length};

use crate::{Failed, MemorySink, MemorySource, NullSink, ReadSource, Sink, Source, WriteSink};
use std::io::{Error, ErrorKind, Read, Write};
use std::test::Fail;

fn read_once<S: Source>(source: &mut S, buf: &mut [u8]) -> Result<usize, Failed>
    requires { 0 < length buf.old }
{
    source.read(buf)
}

fn write_once<S: Sink>(sink: &mut S, bytes: &[u8]) -> Result<usize, Failed>
    requires { 0 < length bytes.now }
{
    sink.write(bytes)
}

#[test]
fn memory_source_gives_pieces_and_fails_as_told(rt: HostRuntime) -> Result<(), Fail> {
    let bytes = vec![in rt.alloc(); 0, 1, 2, 3, 4, 5, 6, 7, 8, 9]?;
    let failing = vec![in rt.alloc(); 1]?;
    let mut source = MemorySource::new(bytes, 4, failing);
    let mut buf = [77; 6];
    for (wanted, left) in [
        (Ok(4), 6),
        (Err(Failed), 6),
        (Ok(4), 2),
        (Ok(2), 0),
        (Ok(0), 0),
    ] {
        assert_eq!(rt; read_once(&mut source, &mut buf), wanted);
        assert_eq!(rt; source.left().len(), left);
    }
    assert_eq!(rt; buf, [8, 9, 6, 7, 77, 77]);
    Ok(())
}

#[test]
fn memory_sink_takes_pieces_and_fails_as_told_or_full(rt: HostRuntime) -> Result<(), Fail> {
    let failing = vec![in rt.alloc(); 1]?;
    let mut sink = MemorySink::new(rt.alloc(), 5, 3, failing)?;
    for (bytes, wanted) in [
        ("hello", Ok(3)),
        ("lo", Err(Failed)),
        ("lost", Ok(2)),
        ("st", Err(Failed)),
    ] {
        assert!(rt; !bytes.is_empty());
        assert_eq!(rt; write_once(&mut sink, bytes.as_bytes()), wanted);
    }
    assert_eq!(rt; sink.bytes(), b"hello".as_slice());
    Ok(())
}

#[test]
fn null_sink_takes_all(rt: HostRuntime) {
    assert_eq!(rt; write_once(&mut NullSink, b"all of it"), Ok(9));
}

#[test]
fn adapters_pass_bytes_on(rt: HostRuntime) -> Result<(), Fail> {
    let mut source = ReadSource::new(b"abc".as_slice());
    let mut buf = [0; 2];
    assert_eq!(rt; read_once(&mut source, &mut buf), Ok(2));
    assert_eq!(rt; buf, *b"ab");
    assert_eq!(rt; read_once(&mut source, &mut buf), Ok(1));
    assert_eq!(rt; buf, *b"cb");
    assert_eq!(rt; read_once(&mut source, &mut buf), Ok(0));

    let mut bytes = Vec::new(rt.alloc());
    let mut sink = WriteSink::new(&mut bytes);
    assert_eq!(rt; write_once(&mut sink, b"abc"), Ok(3));
    assert_eq!(rt; write_once(&mut sink, b"de"), Ok(2));
    assert_eq!(rt; bytes.as_slice(), b"abcde".as_slice());
    Ok(())
}

// A stream of which each call is an error.
#[derive(Drop)]
struct Broken;

impl Read for Broken {
    fn read(&mut self, _buf: &mut [u8]) -> std::io::Result<usize> {
        Err(Error::from(ErrorKind::BrokenPipe))
    }
}

impl Write for Broken {
    fn write(&mut self, _buf: &[u8]) -> std::io::Result<usize> {
        Err(Error::from(ErrorKind::BrokenPipe))
    }

    fn flush(&mut self) -> std::io::Result<()> {
        Ok(())
    }
}

// A writer that takes nothing.
#[derive(Drop)]
struct Stuck;

impl Write for Stuck {
    fn write(&mut self, _buf: &[u8]) -> std::io::Result<usize> {
        Ok(0)
    }

    fn flush(&mut self) -> std::io::Result<()> {
        Ok(())
    }
}

#[test]
fn adapters_answer_failed_where_the_stream_fails(rt: HostRuntime) {
    assert_eq!(rt;
        read_once(&mut ReadSource::new(Broken), &mut [0; 2]),
        Err(Failed)
    );
    assert_eq!(rt; write_once(&mut WriteSink::new(Broken), b"ab"), Err(Failed));
    assert_eq!(rt; write_once(&mut WriteSink::new(Stuck), b"ab"), Err(Failed));
}
