//! A run over files that are values.

use dia_cli::Opener;
use dia_io::ToWriter;
use dia_program::run;
use std::alloc::{AllocError, Global};
use std::io;
use std::io::Write;
use std::test::Fail;

/// Files by their names, and standard input.
#[derive(Drop)]
pub struct Shelf<'a> {
    pub files: &'a [(&'a str, &'a str)],
    pub input: &'a str,
}

impl<'a> Opener for Shelf<'a> {
    ghost use Rattle.std.specs.Prelude.{None};

    type File = &'a [u8];

    type StandardInput = &'a [u8];

    ghost content = { λ _ _. None };

    ghost input = { λ _. None };

    fn open(&self, path: &str) -> io::Result<&'a [u8]> {
        for (name, text) in self.files {
            if *name == path {
                return Ok(text.as_bytes());
            }
        }
        Err(io::Error::from(io::ErrorKind::NotFound))
    }

    fn standard_input(&self) -> &'a [u8] {
        self.input.as_bytes()
    }
}

/// A device on which each write fails in this way.
#[derive(Drop)]
pub struct Broken(pub io::ErrorKind);

impl Write for Broken {
    fn write(&mut self, _buf: &[u8]) -> io::Result<usize> {
        Err(io::Error::from(self.0))
    }

    fn flush(&mut self) -> io::Result<()> {
        Ok(())
    }
}

/// What the program wrote, and its status.
#[derive(Drop)]
pub struct Outcome {
    pub status: u8,
    pub out: Vec<u8>,
    pub err: Vec<u8>,
}

impl Outcome {
    /// Whether the program ended so.
    pub fn is(&self, status: u8, out: &str, err: &str) -> bool {
        self.status == status
            && self.out.as_slice() == out.as_bytes()
            && self.err.as_slice() == err.as_bytes()
    }
}

/// The words of a text, with one blank between two of them.
fn words_of(alloc: Global, text: &str) -> Result<Vec<String>, AllocError> {
    let mut words = Vec::new(alloc);
    for word in text.split(" ") {
        words.push(String::from_str(alloc, word)?)?;
    }
    Ok(words)
}

/// Runs these words, after the program's own name.
pub fn ran<R: AllocGlobal + Eprint>(
    rt: &R,
    shelf: &Shelf<'_>,
    words: &str,
) -> Result<Outcome, Fail> {
    let words = words_of(rt.alloc(), words)?;
    let mut out = ToWriter::new(Vec::new(rt.alloc()));
    let mut err = ToWriter::new(Vec::new(rt.alloc()));
    let status = run(rt, shelf, "1.2.3", words.as_slice(), &mut out, &mut err);
    let (out, err) = (out.writer, err.writer);
    Ok(Outcome { status, out, err })
}

/// Runs these words where standard output fails in this way. The status, and the text on standard error.
pub fn ran_on_broken<R: AllocGlobal + Eprint>(
    rt: &R,
    shelf: &Shelf<'_>,
    words: &str,
    kind: io::ErrorKind,
) -> Result<Outcome, Fail> {
    let words = words_of(rt.alloc(), words)?;
    let mut out = ToWriter::new(Broken(kind));
    let mut err = ToWriter::new(Vec::new(rt.alloc()));
    let status = run(rt, shelf, "1.2.3", words.as_slice(), &mut out, &mut err);
    let (out, err) = (Vec::new(rt.alloc()), err.writer);
    Ok(Outcome { status, out, err })
}
