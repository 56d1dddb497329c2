// Lines of a small text over each source, and each sink once; and that a stream of std is called once a call.
ghost use Rattle.std.specs.Prelude.{◌≤◌, IfOk};

use bench_io::limits::LONGEST_LINE;
use bench_io::{
    DiscardSink, Failed, Line, LineReader, MemorySink, MemorySource, PlainSource, Sink, Source,
    StdSink, StdSource, write_all, write_pieces,
};
use std::alloc::{AllocError, Global};
use std::io::{self, ErrorKind, Read, Write};
use std::test::Fail;

// Five lines: one is empty, one is as long as a line may be, one is longer by a byte, and the last has no newline.
fn text(alloc: Global) -> Result<Vec<u8>, AllocError> {
    let mut text = Vec::from_slice(alloc, b"first\n\n")?;
    text.extend_from_slice(&[b'a'; LONGEST_LINE])?;
    text.push(b'\n')?;
    text.extend_from_slice(&[b'b'; LONGEST_LINE + 1])?;
    text.extend_from_slice(b"\nrest")?;
    Ok(text)
}

// What a reader is to find there, in the words of `found_in`.
fn lines(alloc: Global) -> Result<Vec<u8>, AllocError> {
    let mut lines = Vec::from_slice(alloc, b"text first\ntext \ntext ")?;
    lines.extend_from_slice(&[b'a'; LONGEST_LINE])?;
    lines.extend_from_slice(b"\ntoo long\ntext rest\nend\n")?;
    Ok(lines)
}

// What a reader finds, a line for each answer.
fn found_in<S: Source>(alloc: Global, source: &mut S) -> Result<Vec<u8>, Fail> {
    let mut reader = LineReader::open(alloc)?;
    let mut found = Vec::new(alloc);
    for _ in 0..10 {
        if reader.is_over() {
            break;
        }
        match reader.next_line(source) {
            Ok(Line::Text(line)) => {
                found.extend_from_slice(b"text ")?;
                found.extend_from_slice(line)?;
                found.push(b'\n')?;
            }
            Ok(Line::TooLong) => found.extend_from_slice(b"too long\n")?,
            Ok(Line::End) => found.extend_from_slice(b"end\n")?,
            Err(_) => found.extend_from_slice(b"stopped\n")?,
        }
    }
    Ok(found)
}

#[test]
fn sources(rt: HostRuntime) -> Result<(), Fail> {
    let alloc = rt.alloc();
    let text = text(alloc)?;
    let want = lines(alloc)?;
    for piece in [1, 7, LONGEST_LINE] {
        let mut source = MemorySource::new(text.clone()?, piece, Vec::new(alloc));
        assert!(rt; found_in(alloc, &mut source)? == want, "pieces of {piece}");
    }
    let mut source = PlainSource::new(text.clone()?);
    assert!(rt; found_in(alloc, &mut source)? == want, "a plain source");
    let mut source = StdSource::new(text.as_slice());
    assert!(rt; found_in(alloc, &mut source)? == want, "a reader of std");
    Ok(())
}

#[test]
fn sinks(rt: HostRuntime) -> Result<(), Fail> {
    let alloc = rt.alloc();
    let mut sink = MemorySink::open(alloc, 8, Vec::new(alloc))?;
    write_pieces(&mut sink, &[b"ok", b"", b"\n"])?;
    assert!(rt; sink.held() == b"ok\n".as_slice());
    let mut sink = DiscardSink::new();
    write_pieces(&mut sink, &[b"ok", b"", b"\n"])?;
    assert!(rt; sink.count() == 3);
    let mut written = Vec::new(alloc);
    let mut sink = StdSink::new(&mut written);
    write_all(&mut sink, b"ok\n")?;
    assert!(rt; written.as_slice() == b"ok\n".as_slice());
    Ok(())
}

// A stream that takes or gives one byte a call, but in its second call says that it was interrupted.
#[derive(Drop)]
struct Faltering {
    calls: usize,
}

impl Faltering {
    fn one_byte(&mut self, len: usize) -> io::Result<usize>
        ensures { IfOk result (λ n. n ≤ len) }
    {
        self.calls = self.calls.saturating_add(1);
        if self.calls == 2 {
            return Err(ErrorKind::Interrupted.into());
        }
        Ok(len.min(1))
    }
}

impl Read for Faltering {
    fn read(&mut self, into: &mut [u8]) -> io::Result<usize> {
        self.one_byte(into.len())
    }
}

impl Write for Faltering {
    fn write(&mut self, bytes: &[u8]) -> io::Result<usize> {
        self.one_byte(bytes.len())
    }

    fn flush(&mut self) -> io::Result<()> {
        Ok(())
    }
}

// No contract says how often a stream of std is called, since std's traits tell nothing of their calls.
#[test]
fn an_interrupted_call_is_not_made_again(rt: HostRuntime) -> Result<(), Fail> {
    let mut reader = Faltering { calls: 0 };
    let mut source = StdSource::new(&mut reader);
    let mut into = [0; 4];
    for wanted in [Ok(1), Err(Failed), Ok(1)] {
        assert!(rt; source.read(&mut into) == wanted);
    }
    assert!(rt; reader.calls == 3);
    let mut writer = Faltering { calls: 0 };
    let mut sink = StdSink::new(&mut writer);
    for wanted in [Ok(1), Err(Failed), Ok(1)] {
        assert!(rt; sink.write(b"ok") == wanted);
    }
    assert!(rt; writer.calls == 3);
    Ok(())
}
