//! What files and standard input hold, as far as a proof may know it.

ghost use Rattle.std.specs.Prelude.{List, ℕ, Option, IfOk};
ghost use Rattle.dia_cli.specs.OpenedInputs.{Gives};

use std::io::Read;
use std::rt::Files;
use std::{fs, io};

/// Opens files by their names, and standard input.
pub trait Opener {
    type File: Read + Drop;

    type StandardInput: Read + Drop;

    // The bytes of the file of this name, where they are known.
    ghost content: { Self → List ℕ → Option (List ℕ) };

    // The bytes of standard input, where they are known.
    ghost input: { Self → Option (List ℕ) };

    /// A reader of a file, from its first byte on.
    fn open(&self, path: &str) -> io::Result<Self::File>
        ensures { IfOk result (λ file. Gives (content self.now path.now) (Self.File.remaining file)) };

    /// A reader of standard input.
    fn standard_input(&self) -> Self::StandardInput
        ensures { Gives (input self.now) (Self.StandardInput.remaining result) };
}

/// The files and the standard input of the process. What they hold isn't known.
#[derive(Clone, Copy)]
pub struct OfProcess<'a, R> {
    rt: &'a R,
}

impl<'a, R: Files + Input> OfProcess<'a, R> {
    pub fn new(rt: &'a R) -> OfProcess<'a, R> {
        OfProcess { rt }
    }
}

impl<'a, R: Files + Input> Opener for OfProcess<'a, R> {
    ghost use Rattle.std.specs.Prelude.{None};

    type File = R::File;

    type StandardInput = R::Reader;

    ghost content = { λ _ _. None };

    ghost input = { λ _. None };

    fn open(&self, path: &str) -> io::Result<R::File> {
        fs::open(self.rt, path)
    }

    fn standard_input(&self) -> R::Reader {
        self.rt.reader()
    }
}
