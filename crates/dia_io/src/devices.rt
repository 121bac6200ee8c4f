//! The readers and writers of std as feeds and sinks.

ghost use Rattle.std.specs.Prelude.{◌≡◌, None, false, is_some};
ghost use Rattle.dia_io.specs.Devices.{IsTaken, answer_of, failure_after};

use crate::streams::{Failed, Feed, Sink};
use std::io;
use std::io::{Read, Write};

/// A reader of std. Each `Err` of it is a failure, that of an interrupted call too.
#[derive(Drop)]
pub struct FromReader<R: Read> {
    pub reader: R,
    failure: Option<io::Error>,
}

/// A writer of std. Each `Err` of it is a failure, and so is a write that takes nothing.
#[derive(Drop)]
pub struct ToWriter<W: Write> {
    pub writer: W,
    failure: Option<io::Error>,
}

impl<R: Read> FromReader<R> {
    /// A feed that hasn't failed.
    pub fn new(reader: R) -> FromReader<R>
        ensures remaining { ⟦<FromReader<R> as Feed>⟧.remaining result ≡ R.remaining reader }
        ensures sound { ⟦<FromReader<R> as Feed>⟧.has_failed result ≡ false }
    {
        FromReader {
            reader,
            failure: None,
        }
    }

    /// What the system said at the last call that failed.
    pub fn failure(&self) -> Option<io::Error>
        ensures { is_some result ≡ ⟦<FromReader<R> as Feed>⟧.has_failed self.now }
    {
        self.failure
    }
}

impl<W: Write> ToWriter<W> {
    /// A sink that hasn't failed.
    pub fn new(writer: W) -> ToWriter<W>
        ensures written { ⟦<ToWriter<W> as Sink>⟧.written result ≡ W.contents writer }
        ensures sound { ⟦<ToWriter<W> as Sink>⟧.has_failed result ≡ false }
    {
        ToWriter {
            writer,
            failure: None,
        }
    }

    /// What the system said at the last call that failed.
    pub fn failure(&self) -> Option<io::Error>
        ensures { is_some result ≡ ⟦<ToWriter<W> as Sink>⟧.has_failed self.now }
    {
        self.failure
    }
}

impl<R: Read> Feed for FromReader<R> {
    ghost use Rattle.std.specs.Prelude.{is_some};

    ghost remaining = { λ s. R.remaining s.reader };

    ghost has_failed = { λ s. is_some s.failure };

    fn get(&mut self, buffer: &mut [u8]) -> Result<usize, Failed> {
        let read = self.reader.read(buffer);
        answer(read, &mut self.failure)
    }

    fn failed(&self) -> bool {
        self.failure.is_some()
    }
}

impl<W: Write> Sink for ToWriter<W> {
    ghost use Rattle.std.specs.Prelude.{is_some};

    ghost written = { λ s. W.contents s.writer };

    ghost has_failed = { λ s. is_some s.failure };

    fn put(&mut self, piece: &[u8]) -> Result<usize, Failed> {
        let written = taken(self.writer.write(piece), piece.len());
        answer(written, &mut self.failure)
    }

    fn failed(&self) -> bool {
        self.failure.is_some()
    }
}

/// What a device answers where the system answers this. A failure is retained.
fn answer(said: io::Result<usize>, failure: &mut Option<io::Error>) -> Result<usize, Failed>
    ensures answer { result ≡ answer_of said }
    ensures failure { failure.new ≡ failure_after failure.old said }
{
    match said {
        Ok(count) => Ok(count),
        Err(error) => {
            *failure = Some(error);
            Err(Failed)
        }
    }
}

/// What a write of so many bytes comes to: to take nothing of a piece that isn't empty is a failure.
fn taken(written: io::Result<usize>, length: usize) -> io::Result<usize>
    ensures { IsTaken written length result }
{
    match written {
        Ok(0) if length > 0 => Err(io::Error::from(io::ErrorKind::WriteZero)),
        said => said,
    }
}
