//! Whole runs: what is written, and the status. Notes are turned off.

use super::running::{Shelf, ran, ran_on_broken};
use std::io;
use std::test::Fail;

/// The sender's dictionary: any number of reports.
const MANY: &str = "%avp Session-Id 263 UTF8String must
%avp Usage-Report 9002 vendor 32473 Unsigned32 any
<Usage> ::= < Diameter Header: 302, REQ >
  < Session-Id >
  * [ Usage-Report ]
";

/// The receiver's: at most three.
const THREE: &str = "%avp Session-Id 263 UTF8String must
%avp Usage-Report 9002 vendor 32473 Unsigned32 any
<Usage> ::= < Diameter Header: 302, REQ >
  < Session-Id >
  *3 [ Usage-Report ]
";

/// A message with four reports.
const FOUR: &str = "010000608000012e000000000000000100000002000001074000000b613b3100
0000232a8000001000007ed9000000010000232a8000001000007ed900000002
0000232a8000001000007ed9000000030000232a8000001000007ed900000004
";

const FILES: &[(&str, &str)] = &[("a.txt", MANY), ("b.txt", THREE), ("usage.hex", FOUR)];

fn shelf() -> Shelf<'static> {
    Shelf {
        files: FILES,
        input: FOUR,
    }
}

#[test]
fn a_message_is_checked(rt: HostRuntime) -> Result<(), Fail> {
    let shelf = shelf();
    let of_sender = ran(&rt, &shelf, "diacmd check --quiet a.txt usage.hex")?;
    assert!(rt; of_sender.is(0, "valid Usage\n", ""));
    let of_receiver = ran(&rt, &shelf, "diacmd check --quiet b.txt -")?;
    assert!(rt; of_receiver.is(1, "fault 5009 at 80 too-many Usage-Report\n", ""));
    let refuted = ran(&rt, &shelf, "diacmd refute --quiet a.txt b.txt usage.hex")?;
    assert!(rt; refuted.is(0, "refutes\n", ""));
    Ok(())
}

#[test]
fn the_first_dictionary_is_the_sender_s(rt: HostRuntime) -> Result<(), Fail> {
    let shelf = shelf();
    let there = ran(&rt, &shelf, "diacmd breaking --quiet a.txt b.txt")?;
    let line = "Usage: too-many Usage-Report: 0..* sent, 0..3 accepted\n";
    assert!(rt; there.is(1, line, ""));
    let back = ran(&rt, &shelf, "diacmd breaking --quiet b.txt a.txt")?;
    assert!(rt; back.is(0, "nothing breaks\n", ""));
    Ok(())
}

#[test]
fn the_version_is_shown(rt: HostRuntime) -> Result<(), Fail> {
    assert!(rt; ran(&rt, &shelf(), "diacmd --version")?.is(0, "diacmd 1.2.3\n", ""));
    Ok(())
}

#[test]
fn what_is_no_request_ends_with_2(rt: HostRuntime) -> Result<(), Fail> {
    let recorded =
        "error: '-' is given twice, and standard input can be read once: name a file for one of the two\n\n\
                For more information, try '--help'.\n";
    assert!(rt; ran(&rt, &shelf(), "diacmd check - -")?.is(2, "", recorded));
    assert!(rt; ran(&rt, &shelf(), "diacmd check")?.status == 2);
    let refused = ran(&rt, &shelf(), "diacmd check --quiet usage.hex usage.hex")?;
    assert!(rt; refused.status == 2 && refused.err.is_empty());
    Ok(())
}

#[test]
fn what_fails_ends_with_3(rt: HostRuntime) -> Result<(), Fail> {
    let shelf = shelf();
    let missing = ran(&rt, &shelf, "diacmd check --quiet no.txt usage.hex")?;
    assert!(rt; missing.is(3, "", "device failed\nno.txt: entity not found\n"));
    let words = "diacmd check --quiet a.txt usage.hex";
    let full = ran_on_broken(&rt, &shelf, words, io::ErrorKind::StorageFull)?;
    assert!(rt; full.is(3, "", "device failed\nstandard output: no storage space\n"));
    // a pipe that nobody reads any more
    let unread = ran_on_broken(&rt, &shelf, words, io::ErrorKind::BrokenPipe)?;
    assert!(rt; unread.is(3, "", ""));
    Ok(())
}
