//! Which bytes are one token, by the token that a text is refused at, and by the names and the numbers that are read.

pub(super) const ROWS: &str = r"
# A definition's name and head: eight tokens. A declaration up to its values: six tokens.
let HEAD = T ::= < AVP Header: 1 >
let VALUES = %avp E 1 Enumerated any (

# The longest sign is taken.
%avpX %avp7 => syntax 3 1
%avpX 7 Time any %avp7 => syntax 7 1
%avp7 => syntax 2 1
%AVP %avp-x => syntax 1 1
%avp-x => syntax 2 1
:: :::= => syntax 1 1
T :: < AVP Header: 1 > => syntax 2 1
T :::= < AVP Header: 1 > => syntax 2 1
T ::= < AVP Header:: 1 > => syntax 7 1
T ::= < AVP Header:::= 1 > => syntax 7 1
1..2 ... => syntax 1 1
<>{}[]()*, => syntax 2 1
%avp E 1 Enumerated any()*, => syntax 7 1
$HEAD <>{}[]()*, => syntax 10 1
$HEAD {}[]()*, => syntax 10 1
$HEAD []()*, => syntax 10 1
$HEAD *, => syntax 10 1
$VALUES 1..2 ... => syntax 10 1
$VALUES 1 ... => syntax 9 1

# Texts with few blanks.
%avpX 7 Time any => renders %avp X 7 Time any\n
%avp E 1 Enumerated any(1..2) => renders %avp E 1 Enumerated any ( 1..2 )\n
<T>::=<Diameter Header:300,REQ>{A}*[B] => renders <T> ::= < Diameter Header: 300, REQ >\n  { A }\n  * [ B ]\n

# The longest run of letters, digits and dashes is taken.
300REQ 3GPP-IMSI 1-2 -a => syntax 2 1
%avp 300REQ 3GPP-IMSI 1-2 -a => syntax 3 1
%avp X 1-2 Time any => syntax 3 1
%avp -a 1 Time any => syntax 2 1
%avp X 007 4294967295 4294967296 => syntax 4 1
%avp 300REQ 007 Time any => renders %avp 300REQ 7 Time any\n
%avp 3GPP-IMSI 4294967295 Time any => renders %avp 3GPP-IMSI 4294967295 Time any\n
%avp X 4294967296 Time any => number 1

# A number has any count of digits.
let ZERO = 0
let SEVEN = 7
%avp X $ZERO*1000000$SEVEN Time any => renders %avp X 7 Time any\n

# Comments, and characters that no token has.
a;é<\rb\nc ; d => syntax 2 2
%avp a;é<\rb\nc ; d => syntax 3 2
aéb => syntax 2 1
%avp aéb 1 Time any => syntax 3 1
%avp a;é<\rb\n1 Time any ; d => renders %avp a 1 Time any\n
";
