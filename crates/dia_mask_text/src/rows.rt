//! Whole texts, and what they become.
//!
//! ```text
//! == WHAT; keep NAMES; mask NAMES; only NAMES; status STATUS
//! the lines of the messages
//! --
//! the lines of the answer
//! --
//! the summary, or the hint
//! ```
//!
//! `$H` stands for the rest of a header of command 302, and `json` in the head asks for JSON.

use crate::{Options, mask};
use dia_io::{FromReader, Input, ToWriter};
use std::alloc::{AllocError, Global};
use std::process::Abort;

const DICTIONARY: &str = "%avp S 9005 UTF8String any
%avp N 9002 Unsigned32 any
%avp E 9003 Enumerated any ( 1 2 )
%avp P 269 UTF8String any
%avp I 96 Unsigned64 any
%avp Long-Name 9006 UTF8String any
<G> ::= < AVP Header: 9100 > * [ AVP ]
<T> ::= < Diameter Header: 302, REQ > * [ AVP ]
";

const H: &str = "8000012e000000000000000100000002";

const ROWS: &str = "== a text, a number; status 0
0100002c$H0000232d0000000b616231000000232a0000000c00000000
--
0100002c$H0000232d0000000b616130000000232a0000000c00000000
--
1 line: 1 value of 1 AVP replaced
left as they are: N 1
== in a group; unknown; padding; status 0
01000034$H0000238c000000140000232d0000000971000000000000070000000aaabb1122
--
01000034$H0000238c000000140000232d0000000961000000000000070000000a00000000
--
1 line: 2 values of 2 AVPs replaced
== a bad Length; status 0
0100002c$H0000232d0000000c616231320000232d000000ff61626364
--
0100002c$H0000232d0000000c616130300000232d000000ff00000000
--
1 line: 1 value of 1 AVP replaced
4 bytes zeroed after bad lengths
== bad in a group, good behind it; status 0
01000034$H0000238c000000140000232d00000007616263640000232d000000097a000000
--
01000034$H0000238c000000140000232d00000007000000000000232d0000000961000000
--
1 line: 1 value of 1 AVP replaced
4 bytes zeroed after bad lengths
== cut; status 0
01000020$H0000232d0000000c7a7a
--
01000020$H0000232d0000000c0000
--
1 line: 0 values of 0 AVPs replaced
2 bytes zeroed after bad lengths
== too long; status 0
01000020$H0000232d000000097a0000007365637265742e2e
--
01000020$H0000232d00000009610000000000000000000000
--
1 line: 1 value of 1 AVP replaced
8 bytes zeroed after bad lengths
== fewer bytes than a header, a bad version and a bad Message Length; status 0
0100001C
02000020$H0000232d000000097a000000
01000021$H0000232d000000097a000000
--
0100001c
02000020$H000000000000000000000000
01000021$H000000000000000000000000
--
3 lines: 0 values of 0 AVPs replaced
24 bytes zeroed after bad lengths
== lines; status 1
01000020$H0000232d000000097a000000

xyz
 01000020 $H 0000232d000000097b000000 
01000020$H0000232d0000000979000000
--
01000020$H0000232d0000000961000000

message: not hexadecimal
01000020$H0000232d000000097b000000
01000020$H0000232d0000000962000000
--
5 lines: 3 values of 1 AVP replaced
1 line without a message, first in line 3
== unknown AVPs stay; keep AVP; status 0
01000034$H0000238c000000140000232d0000000971000000000000070000000aaabb1122
--
01000034$H0000238c000000140000232d0000000961000000000000070000000aaabb1122
--
1 line: 1 value of 1 AVP replaced
left as they are: AVP 1
== numbers are masked, too; mask N; status 0
0100002c$H0000232d0000000b616231ff0000232a0000000c00000009
--
0100002c$H0000232d0000000b616130000000232a0000000c00000000
--
1 line: 2 values of 2 AVPs replaced
== numbers alone; only N; status 0
0100002c$H0000232d0000000b616231ff0000232a0000000c00000009
--
0100002c$H0000232d0000000b616231ff0000232a0000000c00000000
--
1 line: 1 value of 1 AVP replaced
left as they are: S 1
== by code; status 0
01000030$H0000010d0000000b6162630000000060000000100000000000000007
--
01000030$H0000010d0000000b6162630000000060000000100000000000000000
--
1 line: 1 value of 1 AVP replaced
left as they are: P 1
== one that would stay; mask P; status 0
01000020$H0000010d0000000b61626300
--
01000020$H0000010d0000000b61616100
--
1 line: 1 value of 1 AVP replaced
== unknown AVPs alone; only AVP; status 0
01000034$H0000238c000000140000232d0000000971000000000000070000000aaabb1122
--
01000034$H0000238c000000140000232d0000000971000000000000070000000a00000000
--
1 line: 1 value of 1 AVP replaced
left as they are: S 1
== two names; keep S,AVP; mask N; status 0
01000034$H0000238c000000140000232d0000000971000000000000070000000aaabb1122
0100002c$H0000232d0000000b616231ff0000232a0000000c00000009
--
01000034$H0000238c000000140000232d0000000971000000000000070000000aaabb1122
0100002c$H0000232d0000000b616231ff0000232a0000000c00000000
--
2 lines: 1 value of 1 AVP replaced
left as they are: AVP 1, S 2
== json; status 0
0100002c$H0000232d0000000b616231000000232a0000000c00000000
0100002c$H0000232d0000000b616232000000232a0000000c00000000
--
0100002c$H0000232d0000000b616130000000232a0000000c00000000
0100002c$H0000232d0000000b616131000000232a0000000c00000000
--
{\"avp\":\"N\",\"masked\":false,\"values\":2,\"distinct\":1}
{\"avp\":\"S\",\"masked\":true,\"values\":2,\"distinct\":2}
{\"lines\":2,\"unread\":0,\"zeroed\":0}
== no such AVP; keep S,X; status 2
--
mask: no AVP X
--
hint: none of the dictionary's 7 AVPs has a similar name: `diacmd render D` prints them
== a name that is nearly one; keep S,long-name; status 2
--
mask: no AVP long-name
--
hint: did you mean Long-Name?
== the name of a command; mask T; status 2
--
mask: no AVP T
--
hint: T is a command there, and AVPs are asked for
== an Enumerated with a list; mask E; status 2
--
mask: E can't be masked
--
hint: name the members of a group; of an Enumerated with a list no other value is valid
== a group; only G; status 2
--
mask: G can't be masked
--
hint: name the members of a group; of an Enumerated with a list no other value is valid
== an AVP in two lists; keep S; mask N,S; status 2
--
mask: S in two lists
--
hint: leave it in one of the lists
== unknown AVPs in two lists; keep S,AVP; mask AVP; status 2
--
mask: AVP in two lists
--
hint: leave it in one of the lists
== the first of several; mask N,G,X; status 2
--
mask: G can't be masked
--
hint: name the members of a group; of an Enumerated with a list no other value is valid
== those that stay come first; keep X; mask G; status 2
--
mask: no AVP X
--
hint: none of the dictionary's 7 AVPs has a similar name: `diacmd render D` prints them
== in two lists comes last; keep S; mask S,X; status 2
--
mask: no AVP X
--
hint: none of the dictionary's 7 AVPs has a similar name: `diacmd render D` prints them
== an empty name; only S,; status 2
--
mask: no AVP 
--
hint: none of the dictionary's 7 AVPs has a similar name: `diacmd render D` prints them
== an empty list; only ; status 2
--
mask: no AVP 
--
hint: none of the dictionary's 7 AVPs has a similar name: `diacmd render D` prints them
";

#[test]
fn texts_are_masked(rt: HostRuntime) {
    let alloc = rt.alloc();
    for row in ROWS.split("== ").skip(1) {
        let row = row.replace(alloc, "$H", H).expect(&rt, "memory");
        has_answer(&rt, row.as_str());
    }
}

/// Asserts what a text becomes, how the command ends, and its summary.
fn has_answer(rt: &(impl AllocGlobal + Abort), row: &str) {
    let (head, rest) = row.split_once("\n").unwrap_or((row, ""));
    let (text, rest) = rest.split_once("--\n").unwrap_or((rest, ""));
    let (answer, summary) = rest.split_once("--\n").unwrap_or((rest, ""));
    let found = masked(rt.alloc(), head, text).expect(rt, "memory");
    assert!(rt; found.answer.as_slice() == answer.as_bytes(), "{head}");
    assert!(rt; found.notes.as_str() == summary, "{head}");
    assert!(rt; head.ends_with(word_of(found.status)), "{head}");
}

#[derive(Drop)]
struct Found {
    answer: Vec<u8>,
    notes: String,
    status: u8,
}

fn masked(alloc: Global, head: &str, text: &str) -> Result<Found, AllocError> {
    let options = Options {
        keep: list_of(head, "keep "),
        mask: list_of(head, "mask "),
        only: list_of(head, "only "),
        json: head.contains("json"),
    };
    let dictionary = Input::Bytes(Vec::from_slice(alloc, DICTIONARY.as_bytes())?);
    let mut notes = String::new(alloc);
    let mut feed = FromReader::new(text.as_bytes());
    let mut sink = ToWriter::new(Vec::new(alloc));
    let reported = mask(
        alloc,
        &options,
        &dictionary,
        &mut notes,
        &mut feed,
        &mut sink,
    );
    let status = reported.map(|reported| reported.exit.status()).unwrap_or(9);
    let answer = sink.writer;
    Ok(Found {
        answer,
        notes,
        status,
    })
}

/// The names of a list in a head.
fn list_of<'a>(head: &'a str, word: &str) -> Option<&'a str> {
    for part in head.split("; ") {
        if let Some(names) = part.strip_prefix(word) {
            return Some(names);
        }
    }
    None
}

fn word_of(status: u8) -> &'static str {
    match status {
        0 => "status 0",
        1 => "status 1",
        2 => "status 2",
        _ => "no status",
    }
}
