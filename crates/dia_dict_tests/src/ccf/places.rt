//! Each place of the grammar, with a token that is refused there.

pub(super) const ROWS: &str = r"
# A definition's name and head: eight tokens.
let HEAD = T ::= < AVP Header: 1 >
let N = n
let BLANK = \x20

# What no text begins with.
> => syntax 1 1
{ => syntax 1 1
} => syntax 1 1
[ => syntax 1 1
] => syntax 1 1
( => syntax 1 1
) => syntax 1 1
* => syntax 1 1
, => syntax 1 1
.. => syntax 1 1
::= => syntax 1 1
: => syntax 1 1
7 => syntax 1 1
@ => syntax 1 1
. => syntax 1 1
- => syntax 1 1
é => syntax 1 1
\xef\xbb\xbf => syntax 1 1
AVP => syntax 1 1

# No declarations.
%avp => syntax 2 1
%avp < => syntax 2 1
%avp AVP 1 Time any => syntax 2 1
%avp X Y => syntax 3 1
%avp X 1 vendor Time => syntax 5 1
%avp X 1 vendor 5 vendor => syntax 6 1
%avp X 1 { => syntax 4 1
%avp X 1 time any => syntax 4 1
%avp X 1 Time Must => syntax 5 1
%avp X 1 Time any ( 1 ) => syntax 6 1
%avp X 1 Enumerated any ( ) => syntax 7 1
%avp X 1 Enumerated any ( 1 .. ) => syntax 9 1
%avp X 1 Enumerated any ( 1 . 2 ) => syntax 8 1
%avp X 1 Enumerated any ( 1, 2 ) => syntax 8 1
%avp X 1 Enumerated any ( 1..2..3 ) => syntax 10 1
%avp X 1 Enumerated any ( 3..2 ) => number 1
%avp X 1 Enumerated any ( 2147483648 ) => number 1
%avp X 1 Enumerated any ( 2147483647 ) => fine

# No heads of groups.
T => syntax 2 1
T : => syntax 2 1
< < => syntax 2 1
< T ] => syntax 3 1
< T > < => syntax 4 1
T ::= { => syntax 3 1
T ::= < Foo => syntax 4 1
T ::= < AVP => syntax 5 1
T ::= < AVP : => syntax 5 1
T ::= < AVP Header => syntax 6 1
T ::= < AVP-Header Header => syntax 5 1
T ::= < AVP Header: X => syntax 7 1
T ::= < AVP Header: 1 X => syntax 8 1
T ::= < AVP Header: 1 2 3 > => syntax 9 1
T ::= < AVP Header: 1, > => syntax 9 1
T ::= < AVP Header: 1, 2 > => fine

# No heads of commands.
T ::= < Diameter : => syntax 5 1
T ::= < Diameter Header 1 => syntax 6 1
T ::= < Diameter Header: REQ => syntax 7 1
T ::= < Diameter Header: 1 ERR => syntax 8 1
T ::= < Diameter Header: 1, > => syntax 9 1
T ::= < Diameter Header: 1 REQ REQ => syntax 9 1
T ::= < Diameter Header: 1, PXY, REQ > => syntax 11 1
T ::= < Diameter Header: 1 5 4294967296 => syntax 9 1
T ::= < Diameter Header: code, REQ > => syntax 9 1
T ::= < Diameter Header: code > => syntax 8 1
T ::= < Diameter Header: code ERR 5 => syntax 9 1
T ::= < Diameter Header: code ERR, [ => syntax 10 1
T ::= < Diameter Header: code ERR [ > => syntax 10 1
T ::= < Diameter Header: code ERR [, > => syntax 11 1
T ::= < Diameter Header: code ERR [ PXY > => syntax 11 1
T ::= < Diameter Header: 1 4294967296 => number 1
T ::= < Diameter Header: 16777216 > => number 1
T ::= < diameter-HEADER: CODE, err [, pxy] > => fine
T ::= < Diameter Header: 16777215 > => fine

# No rules.
$HEAD ) => syntax 9 1
$HEAD 3 X => syntax 10 1
$HEAD * X => syntax 10 1
$HEAD *2 X => syntax 11 1
$HEAD { < => syntax 10 1
$HEAD [ < => syntax 10 1
$HEAD { A ] => syntax 11 1
$HEAD [ A } => syntax 11 1
$HEAD < A ] => syntax 11 1
$HEAD * < A ] => syntax 12 1
$HEAD < A > ) => syntax 12 1
$HEAD { A } ) => syntax 12 1
$HEAD * < AVP > => syntax 11 1
$HEAD { A } * < B > => syntax 13 1
$HEAD { A } < B > => syntax 15 1
$HEAD { A } < B > { => syntax 15 1
$HEAD < AVP > => syntax 10 1
$HEAD 4294967296 => number 1
$HEAD * 4294967296 => number 1
$HEAD < A > 1*2 < B > [ C ] * { AVP } < D > ::= < AVP Header: 2 > => fine
$HEAD { avp } < must > ::= < AVP Header: 2 > => fine

# Lines are counted by line feeds.
\r\r@ => syntax 1 1
\n\n@ => syntax 1 3
; é\r\n@ => syntax 1 2
%avp ; no line feed => syntax 2 1
%avp X\n\n => syntax 3 3
%avp X\n4294967296 Time any @ => number 2
; \xef\xbb\xbf < ( a comment => fine

# Names have 128 bytes at most.
%avp $N*128 1 Time any => fine
%avp $N*129 1 Time any => limit 1
$N*129 ::= => limit 1
%avp X 1 Time any $N*129 => limit 1
T ::= < AVP Header: 1 > $N*129 => limit 1
T ::= < AVP Header: 1 > { A } < $N*129 => limit 1
T ::= < AVP Header: 1 > { $N*129 } => limit 1

# What is refused before the name counts.
%avp X 1 $N*129 => syntax 4 1
%avp X 1 Time $N*129 => syntax 5 1
T ::= < $N*129 => syntax 4 1
T ::= < AVP $N*129 => syntax 5 1
T ::= < AVP Header: 1 > { A $N*129 => syntax 11 1
T $N*129 => syntax 2 1
%avp 4294967296 $N*129 => syntax 2 1
%avp $N*1 4294967296 => number 1

# Texts have 1,048,576 bytes at most.
$BLANK*1048576 => fine
$BLANK*1048577 => limit 0
%avp X 9002 Unsigned32 any <T> ::= < Diameter Header: 302, REQ > { X }$BLANK*1048506 => fine
%avp X 9002 Unsigned32 any <T> ::= < Diameter Header: 302, REQ > { X }$BLANK*1048507 => limit 0
";
