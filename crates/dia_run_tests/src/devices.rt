//! Devices that fail.

ghost use Rattle.std.specs.Prelude.{None};

use dia_dict::base_text;
use dia_run::{
    Command, Exit, Failed, Feed, FromReader, Input, InputFault, Inputs, RunFault, Sink, ToWriter,
    read_input, run,
};
use std::io;
use std::io::{Read, Write};
use std::process::Abort;

/// Takes seven bytes a call, and fails at a call.
#[derive(Drop)]
struct FailingSink {
    taken: Vec<u8>,
    calls_left: usize,
    failed: bool,
}

impl Sink for FailingSink {
    ghost written = { λ _. None };

    ghost has_failed = { λ s. s.failed };

    fn put(&mut self, piece: &[u8]) -> Result<usize, Failed> {
        let count = piece.len().min(7);
        if self.calls_left == 0 || self.taken.extend_from_slice(&piece[..count]).is_err() {
            self.failed = true;
            return Err(Failed);
        }
        self.calls_left -= 1;
        Ok(count)
    }

    fn failed(&self) -> bool {
        self.failed
    }
}

/// Shows a message to sinks of which each fails at a later call, up to one that doesn't.
fn stops_at_each_call(rt: &(impl AllocGlobal + Abort), inputs: &Inputs, lines: &[u8]) {
    let calls = lines.len().div_ceil(7);
    for calls_left in 0..calls + 1 {
        let mut sink = FailingSink {
            taken: Vec::new(rt.alloc()),
            calls_left,
            failed: false,
        };
        let result = run(rt.alloc(), &Command::Show, inputs, &mut sink);
        let stops = calls_left < calls;
        let wanted = if stops {
            Err(RunFault::Device)
        } else {
            Ok(Exit::Yes)
        };
        assert!(rt; result == wanted && sink.failed() == stops);
        let taken = sink.taken.as_slice();
        assert!(rt; taken.len() == lines.len().min(calls_left.saturating_mul(7)));
        assert!(rt; lines.starts_with(taken));
    }
}

/// A device watchdog request, and its lines under the base dictionary and under the empty one.
const REQUEST: &str =
    "0100002c80000118000000000000000100000002000001084000000b612e6200000001284000000962000000";

const BASE_LINES: &str = "\
header flags 80 code 280 app 0 hop 1 end 2 length 44
20 0 264 - 40 11 Origin-Host \"a.b\"
32 0 296 - 40 9 Origin-Realm \"b\"
";

const EMPTY_LINES: &str = "\
header flags 80 code 280 app 0 hop 1 end 2 length 44
20 0 264 - 40 11 ? x612e62
32 0 296 - 40 9 ? x62
";

/// Shows the request under a dictionary to sinks that fail.
fn stops(rt: &(impl AllocGlobal + Abort), dictionary: &str, lines: &str) {
    let alloc = rt.alloc();
    let inputs = Inputs {
        first: Input::Bytes(Vec::from_slice(alloc, dictionary.as_bytes()).expect(rt, "memory")),
        second: Input::Bytes(Vec::new(alloc)),
        table: Input::Bytes(Vec::new(alloc)),
        message: Input::Bytes(Vec::from_slice(alloc, REQUEST.as_bytes()).expect(rt, "memory")),
    };
    stops_at_each_call(rt, &inputs, lines.as_bytes());
}

#[test]
fn stops_at_the_call_that_fails(rt: HostRuntime) {
    stops(&rt, "", EMPTY_LINES);
    stops(&rt, base_text(), BASE_LINES);
}

/// Gives a thousand bytes a call, and fails at a call.
#[derive(Drop)]
struct FailingFeed {
    bytes_left: usize,
    calls_left: usize,
    failed: bool,
}

impl Feed for FailingFeed {
    ghost remaining = { λ _. None };

    ghost has_failed = { λ s. s.failed };

    fn get(&mut self, buffer: &mut [u8]) -> Result<usize, Failed> {
        if self.calls_left == 0 {
            self.failed = true;
            return Err(Failed);
        }
        self.calls_left -= 1;
        let count = buffer.len().min(1000).min(self.bytes_left);
        self.bytes_left -= count;
        Ok(count)
    }

    fn failed(&self) -> bool {
        self.failed
    }
}

#[test]
fn records_a_feed_that_fails(rt: HostRuntime) {
    for calls_left in 0..12 {
        let mut feed = FailingFeed {
            bytes_left: 10_000,
            calls_left,
            failed: false,
        };
        let result = read_input(rt.alloc(), &mut feed, 10_000);
        if calls_left < 11 {
            assert!(rt; matches!(result, Err(InputFault::Device)) && feed.failed());
        } else {
            assert!(rt; result.is_ok_and(|bytes| bytes.len() == 10_000) && !feed.failed());
        }
    }
}

#[test]
fn keeps_the_limit_of_an_input(rt: HostRuntime) {
    let alloc = rt.alloc();
    let mut ten = FromReader::new(b"0123456789".as_slice());
    let read = read_input(alloc, &mut ten, 10).expect(&rt, "ten bytes");
    assert!(rt; read.as_slice() == b"0123456789".as_slice());
    let mut eleven = FromReader::new(b"0123456789a".as_slice());
    assert!(rt; matches!(read_input(alloc, &mut eleven, 10), Err(InputFault::TooLong)));
}

/// Is interrupted at the first call, and gives `a` at each later one.
#[derive(Drop)]
struct Interrupted {
    once: bool,
}

impl Read for Interrupted {
    fn read(&mut self, buffer: &mut [u8]) -> io::Result<usize> {
        if self.once {
            self.once = false;
            return Err(io::Error::from(io::ErrorKind::Interrupted));
        }
        match buffer.first_mut() {
            Some(place) => {
                *place = b'a';
                Ok(1)
            }
            None => Ok(0),
        }
    }
}

impl Write for Interrupted {
    fn write(&mut self, piece: &[u8]) -> io::Result<usize> {
        if self.once {
            self.once = false;
            return Err(io::Error::from(io::ErrorKind::Interrupted));
        }
        Ok(piece.len())
    }

    fn flush(&mut self) -> io::Result<()> {
        Ok(())
    }
}

/// Takes nothing.
#[derive(Drop)]
struct Full;

impl Write for Full {
    fn write(&mut self, _piece: &[u8]) -> io::Result<usize> {
        Ok(0)
    }

    fn flush(&mut self) -> io::Result<()> {
        Ok(())
    }
}

fn is_interrupted(failure: Option<io::Error>) -> bool {
    matches!(failure, Some(error) if error.kind() == io::ErrorKind::Interrupted)
}

/// Checks what a call answers.
fn records(rt: &impl Abort, recorded: Result<usize, Failed>, wanted: Result<usize, Failed>) {
    assert!(rt; recorded == wanted);
}

#[test]
fn an_interrupted_call_of_a_feed_is_a_failure(rt: HostRuntime) {
    let mut buffer = [0u8; 4];
    let mut feed = FromReader::new(Interrupted { once: true });
    records(&rt, feed.get(&mut buffer), Err(Failed));
    assert!(rt; feed.failed());
    assert!(rt; is_interrupted(feed.failure()));
    records(&rt, feed.get(&mut buffer), Ok(1));
    assert!(rt; feed.failed());
}

#[test]
fn an_interrupted_call_of_a_sink_is_a_failure(rt: HostRuntime) {
    let mut sink = ToWriter::new(Interrupted { once: true });
    records(&rt, sink.put(b"text"), Err(Failed));
    assert!(rt; sink.failed());
    assert!(rt; is_interrupted(sink.failure()));
    records(&rt, sink.put(b"text"), Ok(4));
    assert!(rt; sink.failed());
}

#[test]
fn a_writer_that_takes_nothing_fails(rt: HostRuntime) {
    let mut sink = ToWriter::new(Full);
    records(&rt, sink.put(b""), Ok(0));
    assert!(rt; !sink.failed());
    records(&rt, sink.put(b"text"), Err(Failed));
    assert!(rt; sink.failed());
}
