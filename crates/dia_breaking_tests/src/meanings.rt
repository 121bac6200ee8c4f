//! AVPs that break nothing and are read as another format, in rows like those of `worked`, worked out by hand.

use crate::worked::{Asked, check_rows};
use dia_rows::Names;
use std::test::Fail;

const TEXTS: &str = r"
let X = %avp X 9002 Unsigned32 any
let F = %avp X 9002 Float32 any
let Y = %avp Y 9003 Unsigned32 any
let T = <T> ::= < Diameter Header: 302, REQ >
let U = <U> ::= < Diameter Header: 303, REQ >
let G = <G> ::= < AVP Header: 9100 > { X }
let M = meaning X: Unsigned32 sent, Float32 read

# Flags, code, application and identifiers of the requests, and X and Y with the number 0.
let H = 8000012e000000000000000000000000
let HU = 8000012f000000000000000000000000
let X0 = 0000232a0000000c00000000
let Y0 = 0000232b0000000c00000000
";

const MEANINGS: &str = r"
# Nothing differs; the same bytes are another number; data that break; formats of which one stands below the other.
any | $X $T { X } | $X $T { X } => no other meaning\n
any | $X $T { X } | $F $T { X } => T: $M\n  01000020 $H $X0\n
any | $X $T { X } | %avp X 9002 Time any $T { X } => T: meaning X: Unsigned32 sent, Time read\n  01000020 $H $X0\n
any | %avp X 9002 Unsigned64 any $T { X } | %avp X 9002 Time any $T { X } => no other meaning\n
any | %avp X 9002 OctetString any $T { X } | %avp X 9002 UTF8String any $T { X } => no other meaning\n
any | %avp X 9002 OctetString any $T { X } | %avp X 9002 IPFilterRule any $T { X } => T: meaning X: OctetString sent, IPFilterRule read\n  0100001c $H 0000232a00000008\n
any | %avp X 9002 UTF8String any $T { X } | %avp X 9002 OctetString any $T { X } => no other meaning\n
any | %avp X 9002 DiameterIdentity any $T { X } | %avp X 9002 UTF8String any $T { X } => no other meaning\n
any | %avp X 9002 DiameterIdentity any $T { X } | %avp X 9002 DiameterURI any $T { X } => no other meaning\n
any | %avp X 9002 DiameterURI any $T { X } | %avp X 9002 DiameterIdentity any $T { X } => T: meaning X: DiameterURI sent, DiameterIdentity read\n  01000024 $H 0000232a0000000f 6161613a2f2f6100\n

# Lists.
any | %avp X 9002 Enumerated any ( 1 3..4 ) $T { X } | $X $T { X } => T: meaning X: Enumerated ( 1 3..4 ) sent, Unsigned32 read\n  01000020 $H 0000232a0000000c00000001\n
any | %avp X 9002 Enumerated any ( 1 3..4 ) $T { X } | %avp X 9002 Integer32 any $T { X } => no other meaning\n
any | %avp X 9002 Enumerated any ( 1 3..4 ) $T { X } | %avp X 9002 Enumerated any ( 1..4 ) $T { X } => no other meaning\n
any | %avp X 9002 Integer32 any $T { X } | %avp X 9002 Enumerated any $T { X } => T: meaning X: Integer32 sent, Enumerated read\n  01000020 $H $X0\n

# M flags: B wants M set, and A sends it set or clear; B wants it clear; and no M flag that both allow.
any | $X $T { X } | %avp X 9002 Float32 must $T { X } => T: $M\n  01000020 $H 0000232a4000000c00000000\n
any | $X $T { X } | %avp X 9002 Float32 mustnot $T { X } => T: $M\n  01000020 $H $X0\n
any | %avp X 9002 Unsigned32 must $T { X } | %avp X 9002 Float32 mustnot $T { X } => no other meaning\n

# A group within; the shorter way; two commands; two AVPs; a line beside.
any | $X $G $T [ G ] | $F $G $T [ G ] => T/G: $M\n  01000028 $H 0000238c00000014 $X0\n
any | $X $G $T [ G ] [ X ] | $F $G $T [ G ] [ X ] => T: $M\n  01000020 $H $X0\n
any | $X $T [ X ] $U { X } | $F $T [ X ] $U { X } => T: $M\n  01000020 $H $X0\nU: $M\n  01000020 $HU $X0\n
any | $X $Y $T [ X ] [ Y ] | $F %avp Y 9003 Integer32 any $T [ X ] [ Y ] => T: $M\n  01000020 $H $X0\nT: meaning Y: Unsigned32 sent, Integer32 read\n  01000020 $H $Y0\n
any | $X $Y $T { X } [ Y ] | $F $Y $T { X } => T: $M\n  01000020 $H $X0\n

# Through a wildcard; what no rule lists, where only such AVPs are sent; and what A doesn't know.
known | $X $T * [ AVP ] | $F $T * [ AVP ] => T: $M\n  01000020 $H $X0\n
listed | $X $T * [ AVP ] | $F $T * [ AVP ] => no other meaning\n
any | $Y $T * [ AVP ] | $F $T * [ AVP ] => no other meaning\n

# Behind a P flag and an application that B refuses.
any | $X <T> ::= < Diameter Header: 302, REQ, PXY > { X } | $F $T { X } => T: $M\n  01000020 c000012e000000000000000000000000 $X0\n
any | $X <T> ::= < Diameter Header: 302, REQ, 5 > { X } | $F <T> ::= < Diameter Header: 302, REQ, 6 > { X } => T[application 6]: $M\n  01000020 8000012e000000050000000000000000 $X0\n

# Groups that B reads as leaves: of a format that takes any data, and of Addresses, where each level is one. The AVPs in them have no line.
any | $X $G $T [ G ] | %avp G 9100 OctetString any $T [ G ] => T: meaning G: Grouped sent, OctetString read\n  01000028 $H 0000238c00000014 $X0\n
any | $Y <X> ::= < AVP Header: 9002 > [ Y ] $T { X } | %avp X 9002 IPFilterRule any $T { X } => T: meaning X: Grouped sent, IPFilterRule read\n  0100001c $H 0000232a00000008\n
any | $X $G $T [ G ] | $F %avp G 9100 QoSFilterRule any $T [ G ] => T: meaning G: Grouped sent, QoSFilterRule read\n  01000028 $H 0000238c00000014 $X0\n
any | $X $G $T [ G ] | %avp G 9100 Address any $T [ G ] => T: meaning G: Grouped sent, Address read\n  01000028 $H 0000238c00000014 $X0\n

# In a group of both; M flags; through a wildcard; and what no rule lists.
any | <G> ::= < AVP Header: 9100 > <K> ::= < AVP Header: 9101 > [ G ] $T [ K ] | %avp G 9100 OctetString any <K> ::= < AVP Header: 9101 > [ G ] $T [ K ] => T/K: meaning G: Grouped sent, OctetString read\n  01000024 $H 0000238d00000010 0000238c00000008\n
any | $X $G $T [ G ] | %avp G 9100 OctetString must $T [ G ] => T: meaning G: Grouped sent, OctetString read\n  01000028 $H 0000238c40000014 $X0\n
any | %avp G 9100 Grouped must <G> ::= < AVP Header: 9100 > $T [ G ] | %avp G 9100 OctetString mustnot $T [ G ] => no other meaning\n
known | <G> ::= < AVP Header: 9100 > $T * [ AVP ] | %avp G 9100 OctetString any $T * [ AVP ] => T: meaning G: Grouped sent, OctetString read\n  0100001c $H 0000238c00000008\n
listed | <G> ::= < AVP Header: 9100 > $T * [ AVP ] | %avp G 9100 OctetString any $T * [ AVP ] => no other meaning\n

# Groups whose levels aren't all data of B's leaf, or not known to be; and leaves that B reads as groups: some data of each format are no level.
any | $X <G> ::= < AVP Header: 9100 > [ X ] $T [ G ] | %avp G 9100 Address any $T [ G ] => no other meaning\n
any | $X $G $T [ G ] | %avp G 9100 UTF8String any $T [ G ] => no other meaning\n
any | $X $G $T [ G ] | %avp G 9100 Unsigned32 any $T [ G ] => no other meaning\n
any | %avp X 9002 OctetString any $T { X } | $Y <X> ::= < AVP Header: 9002 > [ Y ] $T { X } => no other meaning\n
any | $X $T { X } | $Y <X> ::= < AVP Header: 9002 > [ Y ] $T { X } => no other meaning\n

# Groups that no message can hold.
any | $X <P> ::= < AVP Header: 9100 > { P } { X } $T [ P ] | $F <P> ::= < AVP Header: 9100 > { P } { X } $T [ P ] => no other meaning\n
any | <P> ::= < AVP Header: 9100 > { P } $T [ P ] | %avp P 9100 OctetString any $T [ P ] => no other meaning\n

# As much as a message can hold, and one more.
any | $X $T 1398099*1398099 { X } | $F $T 1398099*1398099 { X } => T: $M\n  16777208 bytes\n
any | $X $T 1398100*1398100 { X } | $F $T 1398100*1398100 { X } => no other meaning\n
";

const LINES: &str = r"
# Meanings are no lines.
any | $X $T { X } | $F $T { X } => nothing breaks\n
any | $X $G $T [ G ] | %avp G 9100 OctetString any $T [ G ] => nothing breaks\n
any | $X $Y $T { X } [ Y ] | $F $Y $T { X } => T: not-allowed Y: 0..1 sent\n  0100002c $H $X0 $Y0\n
any | $X $T { X } | %avp X 9002 Float32 must $T { X } => T: m-bit X: M clear sent, M set accepted\n  01000020 $H $X0\n
";

#[test]
fn records_what_is_read_as_another_format(rt: HostRuntime) -> Result<(), Fail> {
    let mut names = Names::new(rt.alloc());
    names.learn_all(TEXTS)?;
    check_rows(&rt, &mut names, Asked::Meanings, MEANINGS)?;
    check_rows(&rt, &mut names, Asked::Breaks, LINES)
}
