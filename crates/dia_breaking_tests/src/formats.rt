//! Shortest data that are sent by one format and not accepted by another. The expected data were worked out by hand from
//! RFC 6733 and from docs/FORMATS.md.
//!
//! ```text
//! A, A.. | B, B.. => DATA
//! ```
//!
//! Each A and B is a dictionary that has X, or doesn't know it, and a row is asked of each pair of them. DATA is `x` and the
//! data in hexadecimal, or `-` where all that is sent is accepted. For a group `site` says that B has a group, too, `level` that
//! a least level isn't accepted, `eight` that those of 8 bytes alone are, and `undecided` that some levels may be.

use crate::books::{X, indexed_of, plain_of, same};
use dia_breaking_avps::{DataBreak, avp_breaks};
use dia_data::{Format, Leaf, accepts, print_value};
use dia_dict::Book;
use dia_rows::{Names, Row, field};
use dia_terms::{Sends, Unknown};
use std::process::Abort;
use std::test::Fail;

/// The 16 formats. Those that accept the same data are together.
const FORMATS: &str = r"
let D = %avp X 9002
let E = $D Enumerated any
let OCTETS = $D OctetString any, $D IPFilterRule any, $D QoSFilterRule any
let FOUR = $D Integer32 any, $D Unsigned32 any, $D Float32 any, $D Time any, $E
let EIGHT = $D Integer64 any, $D Unsigned64 any, $D Float64 any
let ADDRESS = $D Address any
let TEXT = $D UTF8String any
let IDENTITY = $D DiameterIdentity any
let URI = $D DiameterURI any
let GROUP = <X> ::= < AVP Header: 9002 > [ X ]
";

/// All pairs of the 16 formats, with a group that asks for no AVP.
const PAIRS: &str = r"
# Any bytes: the empty data are text, and a level.
$OCTETS | $OCTETS => -
$OCTETS | $TEXT => xff
$OCTETS | $GROUP => x61
$OCTETS | $FOUR, $EIGHT, $ADDRESS, $IDENTITY, $URI => x

# Any 4 bytes: 1 and 2 as the family of an address are followed by 4 and 16 bytes.
$FOUR | $OCTETS, $FOUR => -
$FOUR | $TEXT => xffffffff
$FOUR | $ADDRESS => x00010000
$FOUR | $EIGHT, $IDENTITY, $URI, $GROUP => x00000000

# Any 8 bytes: an AVP Length of 0 is that of no AVP.
$EIGHT | $OCTETS, $EIGHT => -
$EIGHT | $TEXT => xffffffffffffffff
$EIGHT | $ADDRESS => x0001000000000000
$EIGHT | $FOUR, $IDENTITY, $URI, $GROUP => x0000000000000000

# Addresses: a family without more.
$ADDRESS | $OCTETS, $ADDRESS => -
$ADDRESS | $TEXT => xffff
$ADDRESS | $FOUR, $EIGHT, $IDENTITY, $URI, $GROUP => x0000

# Text: none at all is too short for each other leaf.
$TEXT | $OCTETS, $TEXT => -
$TEXT | $GROUP => x61
$TEXT | $FOUR, $EIGHT, $ADDRESS, $IDENTITY, $URI => x

# Identities: `a` is too short for each other leaf but text.
$IDENTITY | $OCTETS, $TEXT, $IDENTITY => -
$IDENTITY | $FOUR, $EIGHT, $ADDRESS, $URI, $GROUP => x61

# URIs: `aaa://a` has 7 bytes. A URI begins with a letter, so as an address it is of neither family 1 nor 2.
$URI | $OCTETS, $TEXT, $IDENTITY, $URI, $ADDRESS => -
$URI | $FOUR, $EIGHT, $GROUP => x6161613a2f2f61

# Groups: a level isn't 4 bytes long, and is empty or has a byte of 0.
$GROUP | $OCTETS => -
$GROUP | $GROUP => site
$GROUP | $FOUR, $IDENTITY, $URI => level
$GROUP | $EIGHT => eight
$GROUP | $ADDRESS => level
$GROUP | $TEXT => undecided
";

/// Other groups, what a side doesn't know, and Enumerated with lists.
const OTHERS: &str = r"
# A group that asks for an AVP: the empty data are no level.
let ASKING = %avp Y 9003 Time any <X> ::= < AVP Header: 9002 > { Y }
$OCTETS, $TEXT | $ASKING => x
$FOUR, $E ( 0..3 ) | $ASKING => x00000000
$EIGHT | $ASKING => x0000000000000000
$ADDRESS | $ASKING => x0000
$IDENTITY | $ASKING => x61
$URI | $ASKING => x6161613a2f2f61
$ASKING | $GROUP, $ASKING => site
$ASKING | $FOUR, $E ( 0 ) => level
$ASKING | $EIGHT => eight

# A level that isn't empty, as an address: the first two bytes of a code are 1 from 65536 on, and 3 from 196608 on. A wildcard may
# let in such a code.
$ASKING | $ADDRESS => -
let FAMILY = <X> ::= < AVP Header: 9002 > { Y }
%avp Y 65535 Time any $FAMILY, %avp Y 196608 Time any $FAMILY | $ADDRESS => -
%avp Y 65536 Time any $FAMILY, %avp Y 196607 Time any $FAMILY | $ADDRESS => undecided
%avp Y 9003 Time any %avp Z 131072 Time any <X> ::= < AVP Header: 9002 > { Y } [ Z ] | $ADDRESS => undecided
$ASKING [ AVP ] | $ADDRESS => undecided

# Of an AVP that A doesn't know any bytes are sent. Of one that B doesn't know all are accepted.
let NONE = %avp Y 9003 Time any
$NONE | $OCTETS, $NONE => -
$NONE | $TEXT => xff
$NONE | $GROUP => x61
$NONE | $FOUR, $E ( 0..2147483647 ), $EIGHT, $ADDRESS, $IDENTITY, $URI, $ASKING => x
$OCTETS, $FOUR, $EIGHT, $ADDRESS, $TEXT, $IDENTITY, $URI, $GROUP, $ASKING | $NONE => -

# 4 bytes read by a list: the first number that it lacks.
$FOUR | $E ( 0..2 ) => x00000003
$FOUR | $E ( 1..2147483647 ), $E ( 7 ) => x00000000
$FOUR | $E ( 0..2147483646 ) => x7fffffff
$FOUR | $E ( 1..2 0 4..5 ) => x00000003
$FOUR | $E ( 0..2147483647 ), $E ( 9..2147483647 0..8 ) => x80000000

# Other leaves read by a list: none of another length is accepted.
$OCTETS, $TEXT | $E ( 0..2147483647 ) => x
$EIGHT | $E ( 0..2147483647 ) => x0000000000000000
$ADDRESS | $E ( 0..2147483647 ) => x0000
$IDENTITY | $E ( 0..2147483647 ) => x61
$URI | $E ( 0..2147483647 ) => x6161613a2f2f61

# A list read as other leaves.
$E ( 7..9 ) | $OCTETS, $FOUR => -
$E ( 7..9 5..7 ) | $EIGHT, $URI, $GROUP => x00000005
$E ( 3 ) | $EIGHT, $URI, $GROUP => x00000003

# Text of 4 bytes: each byte up to 7f, or c2 to df and one of 80 to bf behind it.
$E ( 0..127 ) | $TEXT => -
$E ( 0..300 ) | $TEXT => x00000080
$E ( 49792..49855 ) | $TEXT => -
$E ( 49855..49856 ) | $TEXT => x0000c2c0
$E ( 0..127 49856 ) | $TEXT => x0000c2c0

# Identities of 4 bytes, from `aaa!` to `aaa~`.
$E ( 1633771809..1633771902 ) | $IDENTITY => -
$E ( 1633771809..1633771903 ) | $IDENTITY => x6161617f
$E ( 1633771808..1633771902 ) | $IDENTITY => x61616120

# Families of addresses: 1 and 2 have no address with 2 bytes behind the family.
$E ( 0..65535 ), $E ( 196608..2147483647 ) | $ADDRESS => -
$E ( 1..65540 ) | $ADDRESS => x00010000
$E ( 0 196607..196608 ) | $ADDRESS => x0002ffff

# A list read by a list.
$E ( 0..3 ) | $E ( 0..3 ), $E ( 2..3 0..1 ), $E ( 0..9 ) => -
$E ( 0..3 ) | $E ( 0..1 3 ) => x00000002
$E ( 3 0..1 ) | $E ( 1..3 ) => x00000000
$E ( 3 0..1 ) | $E ( 0 2..5 ) => x00000001
$E ( 3 0..1 ) | $E ( 7 ) => x00000000
";

/// Checks each row of a text. How many pairs of dictionaries were asked comes back.
fn check_rows(
    rt: &(impl AllocGlobal + Abort),
    names: &mut Names,
    text: &str,
) -> Result<usize, Fail> {
    let mut count = 0usize;
    for line in text.lines() {
        if let Some(row) = names.row(line)? {
            count = count.saturating_add(check_row(rt, names, &row)?);
        }
    }
    Ok(count)
}

/// Checks a row.
fn check_row(rt: &(impl AllocGlobal + Abort), names: &Names, row: &Row<'_>) -> Result<usize, Fail> {
    let senders = names.text(field(row.call, 0))?;
    check_senders(rt, names, str::from_utf8(senders.as_slice())?, row)
}

/// Checks each dictionary of A.
fn check_senders(
    rt: &(impl AllocGlobal + Abort),
    names: &Names,
    senders: &str,
    row: &Row<'_>,
) -> Result<usize, Fail> {
    let mut count = 0usize;
    for sender in senders.split(',') {
        let a = plain_of(rt.alloc(), names, sender)?;
        count = count.saturating_add(check_sender(rt, names, &*a, row)?);
    }
    Ok(count)
}

/// Checks a dictionary of A, and each of B.
fn check_sender<A: Book>(
    rt: &(impl AllocGlobal + Abort),
    names: &Names,
    a: &A,
    row: &Row<'_>,
) -> Result<usize, Fail> {
    let receivers = names.text(field(row.call, 1))?;
    check_receivers(rt, names, a, str::from_utf8(receivers.as_slice())?, row)
}

fn check_receivers<A: Book>(
    rt: &(impl AllocGlobal + Abort),
    names: &Names,
    a: &A,
    receivers: &str,
    row: &Row<'_>,
) -> Result<usize, Fail> {
    let mut count = 0usize;
    for receiver in receivers.split(',') {
        let b = indexed_of(rt.alloc(), names, receiver)?;
        check_pair(rt, a, &*b, row)?;
        count = count.saturating_add(1);
    }
    Ok(count)
}

/// Checks what breaks of the data of X.
fn check_pair<A: Book, B: Book>(
    rt: &(impl AllocGlobal + Abort),
    a: &A,
    b: &B,
    row: &Row<'_>,
) -> Result<(), Fail> {
    let found = avp_breaks(a, b, X, Sends::Any, Unknown::Kept);
    let recorded = match found.data {
        DataBreak::Data(data) => return check_data(rt, a, b, data.as_slice(), row),
        DataBreak::Fits => "-",
        DataBreak::Groups { .. } => "site",
        DataBreak::LeastLevel => "level",
        DataBreak::EightBytes => "eight",
        DataBreak::Undecided => "undecided",
    };
    same(rt, recorded, row.wanted, row.line);
    Ok(())
}

/// Checks the shortest data.
fn check_data<A: Book, B: Book>(
    rt: &(impl AllocGlobal + Abort),
    a: &A,
    b: &B,
    data: &[u8],
    row: &Row<'_>,
) -> Result<(), Fail> {
    let recorded = print_value(rt.alloc(), &Format::OctetString, data)?;
    same(rt, recorded.as_str(), row.wanted, row.line);
    is_shortest(rt, a, b, data, row.line);
    Ok(())
}

/// Data of one byte throughout.
const TRIED: [[u8; 8]; 3] = [[0; 8], [0xff; 8], [b'a'; 8]];

/// The data are sent and not accepted; of those that are a byte shorter what is tried is accepted, if it is sent.
fn is_shortest<A: Book, B: Book>(rt: &impl Abort, a: &A, b: &B, data: &[u8], line: &str) {
    assert!(rt; takes(a, data), "{line}");
    assert!(rt; is_group(b) || !takes(b, data), "{line}");
    let Some((_, front)) = data.split_last() else {
        return;
    };
    is_accepted(rt, a, b, front, line);
    for bytes in &TRIED {
        if let Some(shorter) = bytes.get(..front.len()) {
            is_accepted(rt, a, b, shorter, line);
        }
    }
}

fn is_accepted<A: Book, B: Book>(rt: &impl Abort, a: &A, b: &B, data: &[u8], line: &str) {
    assert!(rt; !takes(a, data) || takes(b, data), "{line}: {data:?}");
}

/// Whether the format of X accepts the data, as it does of a group and of an AVP that isn't known.
fn takes<B: Book>(book: &B, data: &[u8]) -> bool {
    match book.avp(X) {
        Some(entry) => accepts(book.format(entry), data) == Leaf::Fine,
        None => true,
    }
}

fn is_group<B: Book>(book: &B) -> bool {
    match book.avp(X) {
        Some(entry) => book.group(entry).is_some(),
        None => false,
    }
}

#[test]
fn records_all_pairs_of_formats(rt: HostRuntime) -> Result<(), Fail> {
    let mut names = Names::new(rt.alloc());
    names.learn_all(FORMATS)?;
    let count = check_rows(&rt, &mut names, PAIRS)?;
    assert_eq!(&rt; count, 256);
    Ok(())
}

#[test]
fn records_shortest_data(rt: HostRuntime) -> Result<(), Fail> {
    let mut names = Names::new(rt.alloc());
    names.learn_all(FORMATS)?;
    check_rows(&rt, &mut names, OTHERS)?;
    Ok(())
}
