//! Inputs that are files.

use dia_cli::{Ending, OfProcess, Opener, Origin, Origins, open_inputs};
use dia_dict::base_text;
use dia_run::Input as Text;
use std::io;
use std::process::Abort;
use std::rt::Files;
use std::test::Fail;

/// Two inputs of a command, and the other two that it doesn't look at.
fn origins<'a>(first: Origin<'a>, message: Origin<'a>) -> Origins<'a> {
    Origins {
        first,
        second: Origin::Nowhere,
        table: Origin::Nowhere,
        message,
        messages: Origin::Nowhere,
    }
}

/// Whether the input is these bytes.
fn holds(text: &Text, wanted: &[u8]) -> bool {
    match text {
        Text::Bytes(bytes) => bytes.as_slice() == wanted,
        Text::TooLong => false,
    }
}

#[test]
fn opens_the_files_that_are_named(rt: HostRuntime) -> Result<(), Fail> {
    let zeros = Origin::of_dictionary("/dev/zero");
    let opener = OfProcess::new(&rt);
    let wanted = origins(zeros, Origin::of_message("/dev/null"));
    let Ok(inputs) = open_inputs(rt.alloc(), &opener, &wanted) else {
        return Err(Fail::from("the files can't be read"));
    };
    assert!(rt; matches!(inputs.first, Text::TooLong));
    assert!(rt; holds(&inputs.message, b""));
    assert!(rt; holds(&inputs.second, b"") && holds(&inputs.table, b""));
    let wanted = origins(Origin::Base, Origin::Nowhere);
    let Ok(inputs) = open_inputs(rt.alloc(), &opener, &wanted) else {
        return Err(Fail::from("the files can't be read"));
    };
    assert!(rt; holds(&inputs.first, base_text().as_bytes()));
    Ok(())
}

/// Checks that the inputs can't be read, since a device of this name failed.
fn fails<R: AllocGlobal + Files + Input + Abort>(rt: &R, inputs: &Origins<'_>, wanted: &str) {
    let result = open_inputs(rt.alloc(), &OfProcess::new(rt), inputs);
    assert!(rt;
        matches!(&result, Err(Ending::Device { name, error: Some(_) }) if *name == wanted),
        "{wanted}"
    );
}

#[test]
fn an_input_that_cannot_be_read_is_a_failed_device(rt: HostRuntime) {
    let empty = Origin::of_message("/dev/null");
    let missing = "/no/such/file";
    // the base dictionary's word is the name of a file in the place of a message
    for name in [missing, "/", "@base"].iter() {
        fails(&rt, &origins(Origin::Base, Origin::of_message(name)), name);
    }
    for name in [missing, "/"].iter() {
        fails(&rt, &origins(Origin::of_dictionary(name), empty), name);
    }
    // the dictionary is read first
    fails(
        &rt,
        &origins(Origin::of_dictionary(missing), Origin::of_message("/")),
        missing,
    );
}

/// A file of this name, and standard input.
#[derive(Drop)]
struct Shelf<'a> {
    name: &'a str,
    file: &'a [u8],
    input: &'a [u8],
}

impl<'a> Opener for Shelf<'a> {
    ghost use Rattle.std.specs.Prelude.{None, Some, if◌then◌else◌};
    ghost use Rattle.std.specs.Str.{bytes_eq};

    type File = &'a [u8];

    type StandardInput = &'a [u8];

    ghost content = { λ s name. if bytes_eq name s.name.now then Some s.file.now else None };

    ghost input = { λ s. Some s.input.now };

    fn open(&self, path: &str) -> io::Result<&'a [u8]> {
        if path == self.name {
            Ok(self.file)
        } else {
            Err(io::Error::from(io::ErrorKind::NotFound))
        }
    }

    fn standard_input(&self) -> &'a [u8] {
        self.input
    }
}

#[test]
fn inputs_are_what_their_words_name(rt: HostRuntime) -> Result<(), Fail> {
    let shelf = Shelf {
        name: "d.txt",
        file: b"%avp",
        input: b"0100",
    };
    let file = |limit| Origin::File {
        path: "d.txt",
        limit,
    };
    let input = Origin::StandardInput { limit: 4 };
    let Ok(inputs) = open_inputs(rt.alloc(), &shelf, &origins(file(4), input)) else {
        return Err(Fail::from("the inputs can't be read"));
    };
    assert!(rt; holds(&inputs.first, b"%avp"));
    assert!(rt; holds(&inputs.message, b"0100"));
    let Ok(inputs) = open_inputs(rt.alloc(), &shelf, &origins(file(3), Origin::Nowhere)) else {
        return Err(Fail::from("the inputs can't be read"));
    };
    assert!(rt; matches!(inputs.first, Text::TooLong));
    let missing = Origin::of_message("m.hex");
    let result = open_inputs(rt.alloc(), &shelf, &origins(file(4), missing));
    assert!(rt;
        matches!(&result, Err(Ending::Device { name, error: Some(_) }) if *name == "m.hex")
    );
    Ok(())
}
