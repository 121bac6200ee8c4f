//! Dictionaries at the limit of parts, and above it.

use crate::running::{input, no_inputs, writes};
use dia_run::{Command, Input};
use std::alloc::{AllocError, Global};

/// So many declarations, of distinct names and codes.
fn declarations(alloc: Global, count: u32) -> Result<Vec<u8>, AllocError> {
    let mut text = String::new(alloc);
    for place in 0..count {
        write!(text, "%avp X{place} {place} Time any\n")?;
    }
    Ok(text.into_bytes())
}

/// A header alone, and its line.
const HEADER: &str = "0100001480000118000000000000000100000002";

const LINE: &str = "0 header flags 80 code 280 app 0 hop 1 end 2 length 20\n";

#[test]
fn a_dictionary_has_16384_declarations_at_most(rt: HostRuntime) {
    let mut inputs = no_inputs(rt.alloc());
    inputs.message = input(&rt, HEADER);
    for (count, wanted) in [(16_384, LINE), (16_385, "2 dictionary 1: limit - -\n")] {
        inputs.first = Input::Bytes(declarations(rt.alloc(), count).expect(&rt, "memory"));
        writes(&rt, &Command::Show, &inputs, wanted.as_bytes(), wanted);
    }
}
