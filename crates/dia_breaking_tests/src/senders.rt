//! What breaks, by what the side of A sends: the lines and messages were worked out by a model that shares nothing with this
//! program. The head of `worked.rt` lists the fields of a row.

use crate::worked::{Asked, check_rows};
use dia_rows::Names;
use std::test::Fail;

const ROWS: &str = r"
# Two numbers, and the same as longer ones; the heads of two groups and of a request; and what a message of it begins with, and
# one of the command 303.
let X = %avp X 9002 Unsigned32 any
let Y = %avp Y 9003 Unsigned32 any
let X8 = %avp X 9002 Unsigned64 any
let Y8 = %avp Y 9003 Unsigned64 any
let G = <G> ::= < AVP Header: 9100 >
let H = <H> ::= < AVP Header: 9101 >
let T = <T> ::= < Diameter Header: 302, REQ >
let HEAD = 8000012e000000000000000000000000
let UHEAD = 8000012f000000000000000000000000

# A group that says nothing.
listed | $X $G * [ AVP ] $T [ G ] | $X8 $G * [ AVP ] $T [ G ] => nothing breaks\n
filled | $X $G * [ AVP ] $T [ G ] | $X8 $G * [ AVP ] $T [ G ] => T/G: format X: Unsigned32 sent, Unsigned64 accepted\n  01000028 $HEAD 0000238c000000140000232a0000000c00000000\n

# A command that says nothing.
filled | $X $T * [ AVP ] | $X8 $T * [ AVP ] => T: format X: Unsigned32 sent, Unsigned64 accepted\n  01000020 $HEAD 0000232a0000000c00000000\n

# A rule beside the wildcard says something, and one that forbids doesn't.
filled | $X $Y $G [ X ] * [ AVP ] $T [ G ] | $X $Y8 $G [ X ] * [ AVP ] $T [ G ] => nothing breaks\n
known | $X $Y $G [ X ] * [ AVP ] $T [ G ] | $X $Y8 $G [ X ] * [ AVP ] $T [ G ] => T/G: format Y: Unsigned32 sent, Unsigned64 accepted\n  01000028 $HEAD 0000238c000000140000232b0000000c00000000\n
filled | $X $Y $G *0 [ X ] * [ AVP ] $T [ G ] | $X8 $Y8 $G * [ AVP ] $T [ G ] => T/G: format Y: Unsigned32 sent, Unsigned64 accepted\n  01000028 $HEAD 0000238c000000140000232b0000000c00000000\n

# The wildcard's counts.
filled | $X $G [ AVP ] $T [ G ] | $X8 $G [ AVP ] $T [ G ] => T/G: format X: Unsigned32 sent, Unsigned64 accepted\n  01000028 $HEAD 0000238c000000140000232a0000000c00000000\n
filled | $X $G *0 [ AVP ] $T [ G ] | $X8 $G * [ AVP ] $T [ G ] => nothing breaks\n
filled | $X $G *2 [ AVP ] $T [ G ] | $X $G *1 [ AVP ] $T [ G ] => T/G: too-many AVP: 0..1 accepted\n  0100002c $HEAD 0000238c000000180000238c000000080000238c00000008\n

# B has rules, or wants an AVP, or has no rule at all.
filled | $X $Y $G * [ AVP ] $T [ G ] | $X $Y $G [ X ] $T [ G ] => T/G: too-many X: 0..* sent, 0..1 accepted\n  01000034 $HEAD 0000238c000000200000232a0000000c000000000000232a0000000c00000000\nT/G: not-allowed AVP: 0..* sent\n  01000024 $HEAD 0000238c000000100000238c00000008\n
filled | $X $G * [ AVP ] $T [ G ] | $X $G { X } * [ AVP ] $T [ G ] => T/G: missing X: 0..* sent, 1 accepted\n  0100001c $HEAD 0000238c00000008\nT/G: too-many X: 0..* sent, 1 accepted\n  01000034 $HEAD 0000238c000000200000232a0000000c000000000000232a0000000c00000000\n
filled | $X $G * [ AVP ] $T [ G ] | $X $G $T [ G ] => T/G: not-allowed AVP: 0..* sent\n  01000024 $HEAD 0000238c000000100000238c00000008\n

# AVPs that B alone knows.
filled | $X $G * [ AVP ] $T [ G ] | $X $Y $G * [ AVP ] $T [ G ] => nothing breaks\n
any | $X $G * [ AVP ] $T [ G ] | $X $Y $G * [ AVP ] $T [ G ] => T/G: format Y: any data sent, Unsigned32 accepted\n  01000024 $HEAD 0000238c000000100000232b00000008\n

# A group in a group, and rules of a group that only another holds.
filled | $X $G * [ AVP ] $H [ X ] $T [ G ] | $X8 $G * [ AVP ] $H [ X ] $T [ G ] => T/G: format X: Unsigned32 sent, Unsigned64 accepted\n  01000028 $HEAD 0000238c000000140000232a0000000c00000000\n
filled | $X $G * [ AVP ] $H * [ X ] $T [ G ] | $X $G * [ AVP ] $H *2 [ X ] $T [ G ] => T/G/H: too-many X: 0..* sent, 0..2 accepted\n  01000048 $HEAD 0000238c000000340000238d0000002c0000232a0000000c000000000000232a0000000c000000000000232a0000000c00000000\n
listed | $X $G * [ AVP ] $H * [ X ] $T [ G ] | $X $G * [ AVP ] $H *2 [ X ] $T [ G ] => nothing breaks\n

# An AVP that a rule of another command names, too.
filled | $X $G * [ AVP ] $T [ G ] <U> ::= < Diameter Header: 303, REQ > [ X ] | $X8 $G * [ AVP ] $T [ G ] <U> ::= < Diameter Header: 303, REQ > [ X ] => T/G: format X: Unsigned32 sent, Unsigned64 accepted\n  01000028 $HEAD 0000238c000000140000232a0000000c00000000\nU: format X: Unsigned32 sent, Unsigned64 accepted\n  01000020 $UHEAD 0000232a0000000c00000000\n

# A wildcard that asks for AVPs: none of its group is sent.
filled | $X $G 1* { AVP } $T [ G ] | $X8 $G 1* { AVP } $T [ G ] => nothing breaks\n
filled | $X $G 1* { AVP } $T [ G ] | $X $T => nothing breaks\n
filled | $X $G 1* { AVP } $T { G } [ X ] | $X8 $G 1* { AVP } $T { G } [ X ] => nothing breaks\n

# The M flag, another code, and a group read as a number.
filled | $X $G * [ AVP ] $T [ G ] | %avp X 9002 Unsigned32 must $G * [ AVP ] $T [ G ] => T/G: m-bit X: M clear sent, M set accepted\n  01000028 $HEAD 0000238c000000140000232a0000000c00000000\n
filled | %avp X 9002 Unsigned32 must $G * [ AVP ] $T [ G ] | %avp X 9102 Unsigned32 must $G * [ AVP ] $T [ G ] => T/G: unknown X: M set sent, not known\n  01000028 $HEAD 0000238c000000140000232a4000000c00000000\n
filled | %avp X 9002 Unsigned32 mustnot $G * [ AVP ] $T [ G ] | %avp X 9102 Unsigned32 mustnot $G * [ AVP ] $T [ G ] => nothing breaks\n
filled | $X $G * [ AVP ] $T [ G ] | $X %avp G 9100 Unsigned32 any $T [ G ] => T: format G: Grouped sent, Unsigned32 accepted\n  0100001c $HEAD 0000238c00000008\n

# Nothing is sent.
filled | $X $T | $X8 $T => nothing breaks\n
";

#[test]
fn records_what_breaks_by_sender(rt: HostRuntime) -> Result<(), Fail> {
    let mut names = Names::new(rt.alloc());
    check_rows(&rt, &mut names, Asked::Breaks, ROWS)
}
