//! All faults of a message, by `dia_faults`, for both kinds of book. A row is
//!
//! ```text
//! POLICY LEVELS MOST | DICTIONARY | MESSAGE => STATUS TEXT
//! ```
//!
//! TEXT is what `report_faults` writes of at most MOST faults.

use crate::books::Books;
use crate::rows::known_names;
use crate::words::{levels_of, number_of, policy_of, same};
use dia_check::{Fault, Levels, Reason, Subject, Unknown};
use dia_dict::Book;
use dia_faults::all_faults;
use dia_rows::{Names, Row, bytes_of, field, word};
use dia_run::{Exit, report_faults};
use std::process::Abort;

const ROWS: &str = r"
# Fixed A, required B, and at most one group N, which has to have C.
let RULES = %avp A 9001 Unsigned32 must %avp B 9002 Unsigned32 must %avp C 9003 DiameterIdentity any <N> ::= < AVP Header: 9009 > { C } $T < A > { B } *1 [ N ]
let A = 000023294000000c00000001
let A_CLEAR_SHORT = 000023290000000a00010000
let B = 0000232a4000000c00000001
let S = 000001074000000961000000
let N_EMPTY = 0000233100000008
let N_OF_BAD_C = 00002331000000100000232b00000008
let N_BROKEN = 00002331000000100000232b00000007
let UNKNOWN = 0000270f40000008

# A valid message; the version and the length alone; and what is cut off, or goes on.
kept any 9 | $base | $REQUEST => 0 valid DWR\n
kept any 9 | $base | 0200002cc0000118 $I $OH $OR => 1 fault 5011 at 0 version -\n
kept any 9 | $base | 0100002ec0000118 $I $OH $OR => 1 fault 5015 at 1 length -\n
kept any 9 | $base | 0100002cc0000118 $I $OH => 1 truncated\n
kept any 9 | $base | 0100002080000118 $I $OH 00 => 1 trailing\n

# Flags of the header don't end the list; a command that isn't selected does.
kept any 9 | $base | 01000014a0000119 $I => 1 fault 5013 at 4 bits -\nfault 3001 at 5 command -\n
kept any 9 | <T> ::= < Diameter Header: 302, REQ, 5 > | 01000014a000012e $I => 1 fault 5013 at 4 bits -\nfault 3007 at 8 application -\n
kept any 9 | $base | 01000028c0000118 $I 0000010840000008 $OR => 1 fault 3008 at 4 proxiable -\nfault 5004 at 20 leaf-value Origin-Host\n
kept any 9 | $base | 01000028a0000118 $I $OH $UNKNOWN => 1 fault 5013 at 4 bits -\nfault 5001 at 32 unknown 9999:0\nfault 5005 at 40 missing Origin-Realm\n
kept any 9 | $base | 01000028e0000118 $I $OH $UNKNOWN => 1 fault 5013 at 4 bits -\nfault 3008 at 4 proxiable -\nfault 5001 at 32 unknown 9999:0\nfault 5005 at 40 missing Origin-Realm\n

# All that is missing at the end of a level, in the order of the rules; of one level before those round it.
kept any 9 | $base | 0100001480000118 $I => 1 fault 5005 at 20 missing Origin-Host\nfault 5005 at 20 missing Origin-Realm\n
kept any 9 | $base | 0100002880000118 $I $OH 0000011740000008 => 1 fault 5005 at 40 missing AVP\nfault 5005 at 40 missing Origin-Realm\n

# Each rule once: A is missing where its run ends, and not again at the end.
kept any 9 | $RULES | 0100002c8000012e $I $B $A => 1 fault 5005 at 20 missing A\nfault 5008 at 32 not-allowed A\n
kept any 9 | $RULES | 010000148000012e $I => 1 fault 5005 at 20 missing A\nfault 5005 at 20 missing B\n
kept any 9 | $S1 | 010000448000012c $I $S $S $OH $S => 1 fault 5009 at 32 too-many Session-Id\nfault 5008 at 56 not-allowed Session-Id\n
kept any 9 | $S1 | 010000508000012c $I $S $S $S $OH $S => 1 fault 5009 at 32 too-many Session-Id\nfault 5008 at 68 not-allowed Session-Id\n

# All that is wrong with one AVP, in the order of the reasons; and the next one.
kept any 9 | $RULES | 010000208000012e $I $A_CLEAR_SHORT => 1 fault 3009 at 20 m-bit A\nfault 5014 at 20 leaf-length A\nfault 5005 at 32 missing B\n
refused any 9 | $RULES | 010000348000012e $I $UNKNOWN $A $B => 1 fault 5001 at 20 unknown 9999:0\nfault 5005 at 20 missing A\nfault 5008 at 20 not-allowed 9999:0\nfault 5008 at 28 not-allowed A\n

# Groups, each judged by itself: one that can't be read ends where no AVP begins, and what follows it is judged.
kept any 9 | $RULES | 0100003c8000012e $I $A $N_BROKEN $B => 1 fault 5014 at 40 avp-length -\n
kept any 9 | $RULES | 010000408000012e $I $A $N_OF_BAD_C $N_BROKEN => 1 fault 5004 at 40 leaf-value C\nfault 5009 at 48 too-many N\nfault 5014 at 56 avp-length -\nfault 5005 at 64 missing B\n
kept any 9 | $base | 0100003080000118 $I $OH 00000117400000100000270f00000007 => 1 fault 5014 at 40 avp-length -\nfault 5005 at 48 missing Origin-Realm\n
kept 0 9 | $base | 0100003080000118 $I $OH 00000117400000100000270f40000008 => 1 fault 5012 at 32 depth Failed-AVP\nfault 5005 at 48 missing Origin-Realm\n
kept any 9 | $RULES | 0100002c8000012e $I $A 0000233100000007 00000000 => 1 fault 5014 at 32 avp-length -\n

# No more than were asked for.
kept any 2 | $RULES | 010000148000012e $I => 1 fault 5005 at 20 missing A\nfault 5005 at 20 missing B\n
kept any 1 | $RULES | 010000148000012e $I => 1 fault 5005 at 20 missing A\nmore\n
kept any 0 | $RULES | 010000148000012e $I => 1 more\n
kept any 0 | $base | $REQUEST => 0 valid DWR\n
";

#[test]
fn all_faults_are_listed(rt: HostRuntime) {
    let mut names = known_names(&rt);
    for line in ROWS.lines() {
        if let Some(row) = names.row(line).expect(&rt, line) {
            lists(&rt, &names, &row);
        }
    }
}

/// Checks a row.
fn lists(rt: &(impl AllocGlobal + Abort), names: &Names, row: &Row<'_>) {
    let text = names.text(field(row.call, 1)).expect(rt, row.line);
    let digits = names.text(field(row.call, 2)).expect(rt, row.line);
    let wanted = names.text(row.wanted).expect(rt, row.line);
    let books = Books::new(rt, text.as_slice());
    let message = bytes_of(rt.alloc(), digits.as_slice()).expect(rt, row.line);
    let call = field(row.call, 0);
    let task = Task {
        unknown: policy_of(rt, word(call, 0)),
        levels: levels_of(rt, word(call, 1)),
        most: number_of(rt, word(call, 2)) as usize,
        message: message.as_slice(),
    };
    is_listed(rt, &*books.plain, &task, wanted.as_slice(), row.line);
    is_listed(rt, &*books.indexed, &task, wanted.as_slice(), row.line);
}

/// A message, under a policy and a limit, and how many of its faults are asked for.
#[derive(Clone, Copy)]
struct Task<'a> {
    unknown: Unknown,
    levels: Levels,
    most: usize,
    message: &'a [u8],
}

/// Checks what is written of the faults with a book, and the status.
fn is_listed<B: Book>(
    rt: &(impl AllocGlobal + Abort),
    book: &B,
    task: &Task<'_>,
    wanted: &[u8],
    line: &str,
) {
    let Task {
        unknown,
        levels,
        most,
        message,
    } = *task;
    let recorded = report_faults(rt.alloc(), book, unknown, levels, most, message).expect(
        rt, "memory",
    );
    let status = match recorded.exit {
        Exit::Yes => 0,
        Exit::No => 1,
        _ => 2,
    };
    let found = format!(in rt.alloc(); "{status} {}", recorded.text.as_str()).expect(rt, "memory");
    same(rt, found.as_bytes(), wanted, line);
}

#[test]
fn a_fault_has_its_place_code_and_reason(rt: HostRuntime) {
    let books = Books::new(&rt, b"<T> ::= < Diameter Header: 302, REQ >".as_slice());
    let message = [
        1, 0, 0, 20, 0xa0, 0, 1, 0x2e, 0, 0, 0, 0, 0, 0, 0, 1, 0, 0, 0, 2,
    ];
    let listed = all_faults(
        rt.alloc(),
        &*books.plain,
        Unknown::Kept,
        Levels::Any,
        9,
        message.as_slice(),
    )
    .expect(&rt, "a whole message");
    let bits = Fault {
        place: 4,
        code: 5013,
        reason: Reason::Bits,
        subject: Subject::Nothing,
    };
    assert!(&rt;
        listed.faults.as_slice() == [bits].as_slice(),
        "the flags alone"
    );
    assert!(&rt; !listed.more, "no more");
}
