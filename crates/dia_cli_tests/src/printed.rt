//! Standard output and standard error that keep what they take, or fail.

use dia_cli::{Ending, finish};
use dia_run::ToWriter;
use std::alloc::Global;
use std::io;
use std::io::Write;

/// Fails at each write.
#[derive(Drop)]
pub struct Broken;

impl Write for Broken {
    fn write(&mut self, _buf: &[u8]) -> io::Result<usize> {
        Err(io::Error::from(io::ErrorKind::BrokenPipe))
    }

    fn flush(&mut self) -> io::Result<()> {
        Ok(())
    }
}

/// Whether the program ends with this status, and these texts on standard output and on standard error.
pub fn ends_with(
    alloc: Global,
    ending: Ending<'_>,
    status: u8,
    on_output: &str,
    on_error: &str,
) -> bool {
    let mut out = ToWriter::new(Vec::new(alloc));
    let mut err = ToWriter::new(Vec::new(alloc));
    finish(alloc, Err(ending), &mut out, &mut err) == status
        && out.writer.as_slice() == on_output.as_bytes()
        && err.writer.as_slice() == on_error.as_bytes()
}

/// Whether the program ends with status 3 where standard output is broken, and this text on standard error.
pub fn fails_with(alloc: Global, ending: Ending<'_>, on_error: &str) -> bool {
    let mut out = ToWriter::new(Broken);
    let mut err = ToWriter::new(Vec::new(alloc));
    finish(alloc, Err(ending), &mut out, &mut err) == 3
        && err.writer.as_slice() == on_error.as_bytes()
}

/// Whether the program ends with status 3 where both streams are broken.
pub fn fails(alloc: Global, ending: Ending<'_>) -> bool {
    let mut out = ToWriter::new(Broken);
    let mut err = ToWriter::new(Broken);
    finish(alloc, Err(ending), &mut out, &mut err) == 3
}
