//! What breaks between worked pairs of dictionaries: the lines, as `breaking` writes them, each followed by a message. The lines
//! and the messages were worked out from the rules alone, by hand and by a program that shares nothing with this one. Where
//! another message is as short, it would be right, too.
//!
//! ```text
//! SENDS | A | B => LINES
//! ```
//!
//! SENDS is `any`, `known`, `filled` or `listed`; the side of B accepts unknown AVPs. Blanks in a message count for nothing, and a long one
//! isn't made, but given by its length. Each row is asked of each pair of books.

use crate::books::{indexed_of, plain_of, same, sends_of};
use dia_breaking::{Breaks, Line, MOST_CHECKED_TOGETHER, Sends, Unknown, Upgrade};
use dia_dict::Book;
use dia_rows::{Names, Row, field};
use dia_wire::HEADER_LENGTH;
use std::alloc::{AllocError, Global};
use std::process::Abort;
use std::test::Fail;

const ROWS: &str = r"
# Two numbers, the head of a request, and groups that hold each other.
let X = %avp X 9002 Unsigned32 any
let Y = %avp Y 9003 Unsigned32 any
let T = <T> ::= < Diameter Header: 302, REQ >
let S2 = <Node> ::= < AVP Header: 9001 > * [ Node ] <T> ::= < Diameter Header: 301, REQ > * [ Node ]

# Flags, code, application and identifiers of the request, and X and Y with the number 0.
let H = 8000012e000000000000000000000000
let X0 = 0000232a0000000c00000000
let Y0 = 0000232b0000000c00000000

# Nothing changed. Counts.
any | $X $T { X } | $X $T { X } => nothing breaks\n
any | $X $T 1*3 { X } | $X $T { X } => T: too-many X: 1..3 sent, 1 accepted\n  0100002c $H $X0 $X0\n
any | $X $T [ X ] | $X $T { X } => T: missing X: 0..1 sent, 1 accepted\n  01000014 $H\n
any | $X $T *0 [ X ] | $X $T { X } => T: missing X: 0 sent, 1 accepted\n  01000014 $H\n

# An AVP that is fixed at its place: alone in the level, behind another, and in another order.
any | $X $T { X } | $X $T < X > => nothing breaks\n
any | $X $Y $T { X } [ Y ] | $X $Y $T < X > [ Y ] => T: order X: behind Y sent\n  0100002c $H $Y0 $X0\n
any | $X $Y $T < X > < Y > | $X $Y $T < Y > < X > => T: order Y: behind X sent\n  0100002c $H $X0 $Y0\n

# An AVP that B doesn't list, and a wildcard that B doesn't have.
any | $X $Y $T { X } [ Y ] | $X $Y $T { X } => T: not-allowed Y: 0..1 sent\n  0100002c $H $X0 $Y0\n
any | $X $T { X } * [ AVP ] | $X $T { X } => T: not-allowed AVP: 0..* sent\n  01000028 $H $X0 0000000000000008\n
known | $X $T { X } * [ AVP ] | $X $T { X } => nothing breaks\n
listed | $X $T { X } * [ AVP ] | $X $T { X } => nothing breaks\n
any | $X $T { X } *0 [ AVP ] | $X $T { X } => nothing breaks\n

# Counts of wildcards.
any | $X $T { X } *2 [ AVP ] | $X $T { X } *1 [ AVP ] => T: too-many AVP: 0..1 accepted\n  01000030 $H $X0 0000000000000008 0000000000000008\n
any | $X $T { X } * [ AVP ] | $X $T { X } 1* { AVP } => T: missing AVP: 1..* accepted\n  01000020 $H $X0\n

# B knows more AVPs, and lists more.
any | $X $T { X } * [ AVP ] | $X $Y $T { X } * [ AVP ] => T: format Y: any data sent, Unsigned32 accepted\n  01000028 $H $X0 0000232b00000008\n
known | $X $T { X } * [ AVP ] | $X $Y $T { X } * [ AVP ] => nothing breaks\n
any | $X $T { X } * [ AVP ] | $X %avp Y 9003 OctetString mustnot $T { X } * [ AVP ] => nothing breaks\n
any | $X $T { X } * [ AVP ] | $X %avp Y 9003 OctetString any $T { X } [ Y ] * [ AVP ] => T: too-many Y: 0..* sent, 0..1 accepted\n  01000030 $H $X0 0000232b00000008 0000232b00000008\n

# Formats: another, one with the same data, a URI read as an address, and a list that lacks a number.
any | $X $T { X } | %avp X 9002 Unsigned64 any $T { X } => T: format X: Unsigned32 sent, Unsigned64 accepted\n  01000020 $H $X0\n
any | $X $T { X } | %avp X 9002 Time any $T { X } => nothing breaks\n
any | %avp X 9002 DiameterURI any $T { X } | %avp X 9002 Address any $T { X } => nothing breaks\n
any | %avp X 9002 Enumerated any ( 0..3 ) $T { X } | %avp X 9002 Enumerated any ( 0..1 3 ) $T { X } => T: format X: 2 sent, not in the list\n  01000020 $H 0000232a0000000c00000002\n

# Lists: all numbers that B lacks, however the lists are cut, and each side's list.
let E03 = %avp X 9002 Enumerated any ( 0..1 3 )
any | %avp X 9002 Enumerated any ( 0..9 ) $T { X } | %avp X 9002 Enumerated any ( 0..1 3 7 ) $T { X } => T: format X: 2 4..6 8..9 sent, not in the list\n  01000020 $H 0000232a0000000c00000002\n
any | %avp X 9002 Enumerated any ( 7..9 2 3 0..2 ) $T { X } | %avp X 9002 Enumerated any ( 9..12 8 1 ) $T { X } => T: format X: 0 2..3 7 sent, not in the list\n  01000020 $H $X0\n
any | %avp X 9002 Enumerated any $T { X } | $E03 $T { X } => T: format X: Enumerated sent, Enumerated ( 0..1 3 ) accepted\n  01000020 $H 0000232a0000000c00000002\n
any | $X $T { X } | $E03 $T { X } => T: format X: Unsigned32 sent, Enumerated ( 0..1 3 ) accepted\n  01000020 $H 0000232a0000000c00000002\n
any | %avp X 9002 Enumerated any ( 1 ) $T { X } | %avp Y 9003 Time any <X> ::= < AVP Header: 9002 > [ Y ] $T { X } => T: format X: Enumerated ( 1 ) sent, Grouped accepted\n  01000020 $H 0000232a0000000c00000001\n
any | $X $T { X } * [ AVP ] | $X %avp Y 9003 Enumerated any ( 1 ) $T { X } * [ AVP ] => T: format Y: any data sent, Enumerated ( 1 ) accepted\n  01000028 $H $X0 0000232b00000008\n

# The M flag: a rule for it, an AVP that B doesn't know, and the same with M clear.
any | $X $T { X } | %avp X 9002 Unsigned32 must $T { X } => T: m-bit X: M clear sent, M set accepted\n  01000020 $H $X0\n
any | $X $T { X } | %avp Z 9004 Time any $T * [ AVP ] => T: unknown X: M set sent, not known\n  01000020 $H 0000232a4000000c00000000\n
any | %avp X 9002 Unsigned32 mustnot $T { X } | $T * [ AVP ] => nothing breaks\n

# Commands: another one for an application, none for some, and none at all. The P flag.
any | $X $T { X } | $X $T { X } <T5> ::= < Diameter Header: 302, REQ, 5 > 2 * { X } => T[application 5]: missing X: 1 sent, 2..* accepted\n  01000020 8000012e000000050000000000000000 $X0\n
any | $X $T { X } | $X <T> ::= < Diameter Header: 302, REQ, 5 > { X } => T: application 0: not accepted\n  01000020 $H $X0\n
any | $X $T { X } | $X <T> ::= < Diameter Header: 302 > { X } => T: command -: not accepted\n  01000020 $H $X0\n
any | $X <T> ::= < Diameter Header: 302, REQ, PXY > { X } | $X $T { X } => T: proxiable -: P set sent\n  01000020 c000012e000000000000000000000000 $X0\n

# The P flag never passes: the levels are compared all the same.
any | $X <T> ::= < Diameter Header: 302, REQ, PXY > [ X ] | $X $T { X } => T: proxiable -: P set sent\n  01000014 c000012e000000000000000000000000\nT: missing X: 0..1 sent, 1 accepted\n  01000014 c000012e000000000000000000000000\n
any | $X <G> ::= < AVP Header: 9100 > [ X ] <T> ::= < Diameter Header: 302, REQ, PXY > [ G ] | $X <G> ::= < AVP Header: 9100 > { X } $T [ G ] => T: proxiable -: P set sent\n  01000014 c000012e000000000000000000000000\nT/G: missing X: 0..1 sent, 1 accepted\n  0100001c c000012e000000000000000000000000 0000238c00000008\n

# Another application: the levels are compared with those of the one that B alone names, if there is one alone.
let T5 = <T> ::= < Diameter Header: 302, REQ, 5 >
let T6 = <T> ::= < Diameter Header: 302, REQ, 6 >
let U6 = <U> ::= < Diameter Header: 302, REQ, 6 >
let U7 = <U> ::= < Diameter Header: 302, REQ, 7 >
let H5 = 8000012e000000050000000000000000
let P5 = c000012e000000050000000000000000
any | $X $T5 [ X ] | $X $T6 { X } => T: application 5: not accepted\n  01000014 $H5\nT[application 6]: missing X: 0..1 sent, 1 accepted\n  01000014 $H5\n
any | $X <T> ::= < Diameter Header: 302, REQ, PXY, 5 > [ X ] | $X $T6 { X } => T: application 5: not accepted\n  01000014 $P5\nT[application 6]: proxiable -: P set sent\n  01000014 $P5\nT[application 6]: missing X: 0..1 sent, 1 accepted\n  01000014 $P5\n
any | $X <G> ::= < AVP Header: 9100 > [ X ] $T5 [ G ] | $X <G> ::= < AVP Header: 9100 > { X } $T6 [ G ] => T: application 5: not accepted\n  01000014 $H5\nT[application 6]/G: missing X: 0..1 sent, 1 accepted\n  0100001c $H5 0000238c00000008\n
any | $X $T5 [ X ] | $X $T6 { X } $U7 { X } => T: application 5: not accepted\n  01000014 $H5\n
any | $X $T5 [ X ] $U6 { X } | $X $T6 { X } => T: application 5: not accepted\n  01000014 $H5\n

# Groups in themselves, and groups that no message can hold.
any | $S2 | $S2 => nothing breaks\n
any | <P> ::= < AVP Header: 9100 > { Q } <Q> ::= < AVP Header: 9101 > { P } $X $T [ P ] { X } | <P> ::= < AVP Header: 9100 > <Q> ::= < AVP Header: 9101 > $X $T { X } => nothing breaks\n

# As much as a message can hold: a header, and 1,398,099 AVPs of 12 bytes. One more, and there is no such message.
any | $X $T 1398099*1398099 { X } | $T [ AVP ] => T: too-many AVP: 0..1 accepted\n  16777208 bytes\nT: unknown X: M set sent, not known\n  16777208 bytes\n
any | $X $T 1398100*1398100 { X } | $T [ AVP ] => nothing breaks\n

# A group in a group.
let G = <G> ::= < AVP Header: 9100 > [ H ] <H> ::= < AVP Header: 9101 >
any | $X $G * [ X ] $T [ G ] | $X $G *2 [ X ] $T [ G ] => T/G/H: too-many X: 0..* sent, 0..2 accepted\n  01000048 $H 0000238c00000034 0000238d0000002c $X0 $X0 $X0\n

# Two places of an AVP or a group where the message is shortest: the one to which rules alone lead is before one by a wildcard,
# of its level or of a group around it; of two by wildcards the first. A shorter one by a wildcard is before both.
let M = %avp X 9002 Unsigned32 must
let GW = <G> ::= < AVP Header: 9100 > * [ AVP ]
let GX = <G> ::= < AVP Header: 9100 > [ X ]
let HW = <H> ::= < AVP Header: 9101 > * [ AVP ]
let HX = <H> ::= < AVP Header: 9101 > [ X ]
let HK = <H> ::= < AVP Header: 9101 > [ K ]
let BIT = m-bit X: M clear sent, M set accepted
any | $X $GW $HX $T [ G ] [ H ] | $M $GW $HX $T [ G ] [ H ] => T/H: $BIT\n  01000028 $H 0000238d00000014 $X0\n
any | $X $GW $HW $T [ G ] [ H ] | $M $GW $HW $T [ G ] [ H ] => T/G: $BIT\n  01000028 $H 0000238c00000014 $X0\n
known | $X $GX $HX $T *0 [ X ] [ H ] * [ AVP ] | $M $GX $HX $T *0 [ X ] [ H ] * [ AVP ] => T/H: $BIT\n  01000028 $H 0000238d00000014 $X0\n
known | $X $GW $HK <K> ::= < AVP Header: 9102 > [ X ] $T [ G ] [ H ] | $X $GW $HK <K> ::= < AVP Header: 9102 > { X } $T [ G ] [ H ] => T/H/K: missing X: 0..1 sent, 1 accepted\n  01000024 $H 0000238d00000010 0000238e00000008\n
known | $X $GX $T [ G ] * [ AVP ] | $M $GX $T [ G ] * [ AVP ] => T: $BIT\n  01000020 $H $X0\n

# A group read as any bytes and as a number, and any bytes read as a group.
let G1 = <G> ::= < AVP Header: 9100 > [ X ] $X
any | $G1 $T [ G ] | %avp G 9100 OctetString any $T [ G ] => nothing breaks\n
any | $G1 $T [ G ] | %avp G 9100 Unsigned32 any $T [ G ] => T: format G: Grouped sent, Unsigned32 accepted\n  0100001c $H 0000238c00000008\n
any | %avp G 9100 OctetString any $T [ G ] | $G1 $T [ G ] => T: format G: OctetString sent, Grouped accepted\n  01000020 $H 0000238c0000000961000000\n

# Numbers read as text: in UTF-8 a byte above 7f doesn't stand alone.
let TEXT = %avp X 9002 UTF8String any
any | %avp X 9002 Enumerated any ( 0..300 ) $T { X } | $TEXT $T { X } => T: format X: Enumerated ( 0..300 ) sent, UTF8String accepted\n  01000020 $H 0000232a0000000c00000080\n
any | %avp X 9002 Enumerated any ( 0..127 ) $T { X } | $TEXT $T { X } => nothing breaks\n
";

/// Bytes of the longest message that is made, without its header.
const LONGEST: u64 = 1_000;

/// Which lines of an answer are reported.
#[derive(Clone, Copy)]
pub enum Asked {
    Breaks,
    Meanings,
}

impl Asked {
    fn lines(self, breaks: &Breaks) -> &[Line] {
        match self {
            Asked::Breaks => breaks.lines.as_slice(),
            Asked::Meanings => breaks.meanings.as_slice(),
        }
    }

    /// What is reported where there are none.
    fn none(self) -> &'static str {
        match self {
            Asked::Breaks => "nothing breaks\n",
            Asked::Meanings => "no other meaning\n",
        }
    }
}

/// What the side of A sends, and what is then reported, for the dictionaries of a row.
#[derive(Clone, Copy)]
struct Task<'a> {
    asked: Asked,
    sends: Sends,
    wanted: &'a str,
    row: &'a Row<'a>,
}

/// Checks each row of a text.
pub fn check_rows(
    rt: &(impl AllocGlobal + Abort),
    names: &mut Names,
    asked: Asked,
    text: &str,
) -> Result<(), Fail> {
    for line in text.lines() {
        if let Some(row) = names.row(line)? {
            check_row(rt, names, asked, &row)?;
        }
    }
    Ok(())
}

/// Checks a row.
fn check_row(
    rt: &(impl AllocGlobal + Abort),
    names: &Names,
    asked: Asked,
    row: &Row<'_>,
) -> Result<(), Fail> {
    let wanted = wanted_of(rt.alloc(), names, row.wanted)?;
    let sends = sends_of(field(row.call, 0))?;
    let task = Task {
        asked,
        sends,
        wanted: wanted.as_str(),
        row,
    };
    check_senders(rt, names, task)
}

/// Checks what is reported for both books of A.
fn check_senders(
    rt: &(impl AllocGlobal + Abort),
    names: &Names,
    task: Task<'_>,
) -> Result<(), Fail> {
    let plain = plain_of(rt.alloc(), names, field(task.row.call, 1))?;
    check_receivers(rt, names, &*plain, task)?;
    let indexed = indexed_of(rt.alloc(), names, field(task.row.call, 1))?;
    check_receivers(rt, names, &*indexed, task)
}

/// Checks what is reported for a book of A and both books of B.
fn check_receivers<A: Book>(
    rt: &(impl AllocGlobal + Abort),
    names: &Names,
    a: &A,
    task: Task<'_>,
) -> Result<(), Fail> {
    let plain = plain_of(rt.alloc(), names, field(task.row.call, 2))?;
    check_pair(rt, a, &*plain, task)?;
    let indexed = indexed_of(rt.alloc(), names, field(task.row.call, 2))?;
    check_pair(rt, a, &*indexed, task)
}

/// Checks what is reported for two books.
fn check_pair<A: Book, B: Book>(
    rt: &(impl AllocGlobal + Abort),
    a: &A,
    b: &B,
    task: Task<'_>,
) -> Result<(), Fail> {
    let upgrade = Upgrade::new(rt.alloc(), a, b, task.sends, Unknown::Kept)?;
    let found = lines_of(rt.alloc(), &upgrade, task.asked)?;
    same(rt, found.as_str(), task.wanted, task.row.line);
    Ok(())
}

/// The lines of all commands, or that there are none.
fn lines_of<A: Book, B: Book>(
    alloc: Global,
    upgrade: &Upgrade<'_, A, B>,
    asked: Asked,
) -> Result<String, AllocError> {
    let mut text = String::new(alloc);
    let a = upgrade.sender();
    let mut left = MOST_CHECKED_TOGETHER;
    for place in 0..a.commands() {
        let breaks = upgrade.breaks(alloc, a.command_at(place), &mut left)?;
        push_lines(alloc, &mut text, upgrade, asked, &breaks)?;
    }
    if text.is_empty() {
        text.push_str(asked.none())?;
    }
    Ok(text)
}

/// Adds the lines of a command.
fn push_lines<A: Book, B: Book>(
    alloc: Global,
    text: &mut String,
    upgrade: &Upgrade<'_, A, B>,
    asked: Asked,
    breaks: &Breaks,
) -> Result<(), AllocError> {
    for line in asked.lines(breaks) {
        upgrade.push_words(alloc, text, breaks, line)?;
        text.push_str("\n  ")?;
        push_message(alloc, text, upgrade, breaks, line)?;
        text.push('\n')?;
    }
    Ok(())
}

/// Adds the message of a line, or its length.
fn push_message<A: Book, B: Book>(
    alloc: Global,
    text: &mut String,
    upgrade: &Upgrade<'_, A, B>,
    breaks: &Breaks,
    line: &Line,
) -> Result<(), AllocError> {
    if line.length > LONGEST {
        let length = line.length.saturating_add(HEADER_LENGTH as u64);
        write!(text, "{length}bytes")?;
        return Ok(());
    }
    let message = upgrade.message(alloc, breaks, line)?;
    let digits = hex::encode(alloc, message)?;
    text.push_str(digits.as_str())
}

/// The text that a row wants, without the blanks in its messages.
fn wanted_of(alloc: Global, names: &Names, text: &str) -> Result<String, Fail> {
    let text = names.text(text)?;
    let mut wanted = String::new(alloc);
    for line in str::from_utf8(text.as_slice())?.lines() {
        match line.strip_prefix("  ") {
            Some(message) => push_without_blanks(&mut wanted, message)?,
            None => wanted.push_str(line)?,
        }
        wanted.push('\n')?;
    }
    Ok(wanted)
}

fn push_without_blanks(text: &mut String, message: &str) -> Result<(), AllocError> {
    text.push_str("  ")?;
    for part in message.split(' ') {
        text.push_str(part)?;
    }
    Ok(())
}

#[test]
fn records_what_breaks(rt: HostRuntime) -> Result<(), Fail> {
    let mut names = Names::new(rt.alloc());
    check_rows(&rt, &mut names, Asked::Breaks, ROWS)
}
