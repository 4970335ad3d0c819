//! What no clause says: where the real reader and writer fail, that no call is tried again, and
//! each way that a fault may come in mid-stream.

ghost use Rattle.std.specs.Prelude.{◌≤◌, IfOk};

use std::io;
use std::io::{Read, Write};
use std::test::Fail;
use text_io::{
    Failed, MemorySink, MemorySource, ReadAnswer, Sink, StdSink, StdSource, SteadySink,
    SteadySource, read_all, write_whole,
};

// A source of six bytes is read in as many calls as its longest piece needs, and the one that finds
// the end. A fault at any of these is the answer; a fault at the next is never met.
#[test]
fn reads_fail_at_each_call(rt: HostRuntime) -> Result<(), Fail> {
    for (most, calls) in [(1, 7), (4, 3)] {
        assert!(rt; 1 <= most);
        for call in 1..=calls {
            let fails = [call];
            let mut source = MemorySource::new(b"source", most, &fails);
            let answer = read_all(rt.alloc(), &mut source, 6);
            assert!(rt; matches!(answer, Err(ReadAnswer::Fault)), "fault at {call}");
        }
        let fails = [calls + 1];
        let mut source = MemorySource::new(b"source", most, &fails);
        let bytes = read_all(rt.alloc(), &mut source, 6)?;
        assert_eq!(rt; bytes.as_slice(), b"source".as_slice(), "{most} a call");
    }
    Ok(())
}

// As many bytes as the limit are read, and one more is too long, also past the first buffer.
#[test]
fn reads_up_to_the_limit(rt: HostRuntime) -> Result<(), Fail> {
    let bytes = vec![in rt.alloc(); 7; 10000]?;
    for (limit, fits) in [(0, false), (9999, false), (10000, true), (20000, true)] {
        assert!(rt; limit < 100000);
        let answer = read_all(rt.alloc(), &mut SteadySource::new(&bytes), limit);
        assert_eq!(rt; answer.is_ok(), fits, "at limit {limit}");
    }
    Ok(())
}

// A sink with room for five bytes fails at a listed call and once it is full, and shows the front
// that it took.
#[test]
fn writes_fail_at_each_call(rt: HostRuntime) -> Result<(), Fail> {
    for (most, call, want) in [(1, 1, ""), (1, 3, "si"), (3, 2, "sin"), (3, 3, "sink")] {
        assert!(rt; 1 <= most);
        let fails = [call];
        let mut sink = MemorySink::new(rt.alloc(), 5, most, &fails)?;
        let answer = write_whole(&mut sink, b"sink");
        assert_eq!(rt; answer.is_ok(), want.len() == 4, "fault at {call}");
        assert_eq!(rt; sink.bytes(), want.as_bytes(), "fault at {call}");
    }
    let mut sink = MemorySink::new(rt.alloc(), 5, 4, &[])?;
    assert_eq!(rt; write_whole(&mut sink, b"sinking"), Err(Failed));
    assert_eq!(rt; sink.bytes(), b"sinki".as_slice());
    assert_eq!(rt; write_whole(&mut SteadySink::new(), b"sinking"), Ok(()));
    Ok(())
}

// Gives or takes a byte a call but at one call, which is interrupted or, of a writer, takes nothing;
// and counts its calls.
#[derive(Drop)]
struct Device {
    at: u8,
    takes_nothing: bool,
    calls: u8,
}

impl Device {
    fn new(at: u8, takes_nothing: bool) -> Device {
        Device {
            at,
            takes_nothing,
            calls: 0,
        }
    }

    fn call(&mut self, len: usize) -> io::Result<usize>
        ensures { IfOk result (λ n. n ≤ len) }
    {
        self.calls = self.calls.saturating_add(1);
        if self.calls != self.at {
            Ok(len.min(1))
        } else if self.takes_nothing {
            Ok(0)
        } else {
            Err(io::Error::from(io::ErrorKind::Interrupted))
        }
    }
}

impl Read for Device {
    fn read(&mut self, buffer: &mut [u8]) -> io::Result<usize> {
        self.call(buffer.len())
    }
}

impl Write for Device {
    fn write(&mut self, piece: &[u8]) -> io::Result<usize> {
        self.call(piece.len())
    }

    fn flush(&mut self) -> io::Result<()> {
        Ok(())
    }
}

// The call that fails is the last one: neither the adapter nor the loop over it tries again.
#[test]
fn no_call_is_tried_again(rt: HostRuntime) -> Result<(), Fail> {
    for at in [1, 2] {
        let mut reader = Device::new(at, false);
        let answer = read_all(rt.alloc(), &mut StdSource::new(&mut reader), 6);
        assert!(rt; matches!(answer, Err(ReadAnswer::Fault)));
        assert_eq!(rt; reader.calls, at);
        for takes_nothing in [false, true] {
            let mut writer = Device::new(at, takes_nothing);
            let answer = write_whole(&mut StdSink::new(&mut writer), b"writer");
            assert_eq!(rt; answer, Err(Failed));
            assert_eq!(rt; writer.calls, at);
        }
    }
    Ok(())
}

// Takes every piece, and fails to flush it.
#[derive(Drop)]
struct Unflushed;

impl Write for Unflushed {
    fn write(&mut self, piece: &[u8]) -> io::Result<usize> {
        Ok(piece.len())
    }

    fn flush(&mut self) -> io::Result<()> {
        Err(io::Error::from(io::ErrorKind::Interrupted))
    }
}

#[test]
fn readers_and_writers_of_std(rt: HostRuntime) -> Result<(), Fail> {
    let bytes = read_all(rt.alloc(), &mut StdSource::new(b"reader".as_slice()), 6)?;
    assert_eq!(rt; bytes.as_slice(), b"reader".as_slice());

    let mut written = Vec::new(rt.alloc());
    assert_eq!(rt;
        write_whole(&mut StdSink::new(&mut written), b"writer"),
        Ok(())
    );
    assert_eq!(rt; written.as_slice(), b"writer".as_slice());

    // A writer over a slice takes nothing once it is full.
    let mut place = [0; 3];
    let answer = write_whole(&mut StdSink::new(place.as_mut_slice()), b"writer");
    assert_eq!(rt; answer, Err(Failed));
    assert_eq!(rt; place, *b"wri");
    assert_eq!(rt; StdSink::new(Unflushed).write(b"writer"), Err(Failed));
    Ok(())
}
