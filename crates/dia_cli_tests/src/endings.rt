//! How the program ends where there was no run, and what is then reported.

use super::printed::{ends_with, fails, fails_with};
use dia_cli::{Ending, finish, parse_words};
use dia_run::{Exit, ToWriter};
use std::alloc::Global;
use std::io;
use std::test::Fail;

/// How the program ends for words that ask for nothing to run.
pub fn ending_of<'a>(alloc: Global, words: &'a [&'a str]) -> Result<Ending<'a>, Fail> {
    match parse_words(alloc, "1.0.0", words) {
        Ok(_) => Err(Fail::from("the words are read")),
        Err(ending) => Ok(ending),
    }
}

/// A device of this name that failed, with what the system said.
const fn device(name: &str, error: Option<io::Error>) -> Ending<'_> {
    Ending::Device { name, error }
}

#[test]
fn other_endings_go_to_standard_error(rt: HostRuntime) {
    let alloc = rt.alloc();
    let missing = Some(io::Error::from_raw_os_error(2));
    let recorded = "device failed\nnofile.hex: No such file or directory (os error 2)\n";
    assert!(rt; ends_with(alloc, device("nofile.hex", missing), 3, "", recorded));
    assert!(rt; ends_with(alloc, device("-", None), 3, "", "device failed\n"));
    assert!(rt; ends_with(alloc, Ending::NoMemory, 3, "", "no memory\n"));
    let recorded =
        "error: a word of the command line isn't UTF-8\n\nFor more information, try '--help'.\n";
    assert!(rt; ends_with(alloc, Ending::NotText, 2, "", recorded));
}

#[test]
fn a_stream_that_fails_is_a_failed_device(rt: HostRuntime) -> Result<(), Fail> {
    let alloc = rt.alloc();
    assert!(rt; fails(alloc, ending_of(alloc, &["diacmd", "--help"])?));
    assert!(rt; fails(alloc, ending_of(alloc, &["diacmd"])?));
    assert!(rt; fails(alloc, Ending::NotText));
    assert!(rt; fails(alloc, Ending::ReadTwice));
    assert!(rt; fails(alloc, device("-", None)));
    assert!(rt; fails(alloc, Ending::NoMemory));
    // Where standard error doesn't fail, it is reported there.
    let recorded = "device failed\nstandard output: broken pipe\n";
    assert!(rt; fails_with(alloc, ending_of(alloc, &["diacmd", "--help"])?, recorded));
    Ok(())
}

/// Whether a run with this exit ends with the status, and nothing is written.
fn exits_with(alloc: Global, exit: Exit, status: u8) -> bool {
    let mut out = ToWriter::new(Vec::new(alloc));
    let mut err = ToWriter::new(Vec::new(alloc));
    let ended = finish(alloc, Ok(exit), &mut out, &mut err);
    ended == status && out.writer.is_empty() && err.writer.is_empty()
}

#[test]
fn the_status_of_a_run_is_that_of_its_exit(rt: HostRuntime) {
    let alloc = rt.alloc();
    assert!(rt; exits_with(alloc, Exit::Yes, 0));
    assert!(rt; exits_with(alloc, Exit::No, 1));
    assert!(rt; exits_with(alloc, Exit::Bad, 2));
}
