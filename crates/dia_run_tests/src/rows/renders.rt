//! Dictionary texts, rendered.

pub const ROWS: &str = r"
# Canonical texts.
render | t ::= <diameter-header:300 req pxy 5>{X}*[AVP] <Y>::=<AVP Header:9003 0>*2<X> => 0 <Y> ::= < AVP Header: 9003 >\n  *2 < X >\n<t> ::= < Diameter Header: 300, REQ, PXY, 5 >\n  { X }\n  * [ AVP ]\n
render | $base => 0 $base

# The ranges of an Enumerated list: one of a single number is that number.
render | %avp E 9004 Enumerated any (0..3 7..7 10) => 0 %avp E 9004 Enumerated any ( 0..3 7 10 )\n

# The greatest command code.
render | <T> ::= < Diameter Header: 16777215, REQ > => 0 <T> ::= < Diameter Header: 16777215, REQ >\n

# Why a text is no dictionary.
render | <T> ::= < => 2 dictionary 1: syntax at line 1\n
render | <T> ::= < Diameter Header: 300, REQ >\n< AVP > => 2 dictionary 1: syntax at line 2\n
render | <T> ::= < Diameter Header: 300, REQ > { A }\n< B > => 2 dictionary 1: syntax at line 2\n
render | <T> ::= < Diameter Header: 16777216, REQ > => 2 dictionary 1: number at line 1\n
render | %avp X\n4294967296 Time any => 2 dictionary 1: number at line 2\n
render | %avp E 9004 Enumerated any ( 3..2 ) => 2 dictionary 1: number at line 1\n

# A text has 1,048,576 bytes at most, and a name 128.
let BLANK = \x20
let N = N
render | $BLANK*1048576 => 0
render | $BLANK*1048577 => 2 dictionary 1: too long\n
render | %avp $N*129 1 Time any => 2 dictionary 1: limit at line 1\n
";
