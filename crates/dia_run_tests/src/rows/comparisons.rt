//! Comparisons of two dictionaries.

pub const ROWS: &str = r"
# A second request of the same code, for one application. Groups that hold each other, under their names in each dictionary.
let T5 = <T5> ::= < Diameter Header: 302, REQ, 5 > { X }
let P_AND_Q = <P> ::= < AVP Header: 9100 > { Q } <Q> ::= < AVP Header: 9101 > { P }
let P2_AND_Q2 = <P2> ::= < AVP Header: 9100 > { Q2 } <Q2> ::= < AVP Header: 9101 > { P2 }
let E = %avp E 9004 Enumerated any

# Pairs of the requests, of X, and of the Enumerated E.
let REQUESTS = command T = T\n
let PAIRS = command T = T\navp X = X\n
let E_PAIRS = command T = T\navp E = E\n

# Rules and the same rules with other counts, places and AVPs.
compare kept | $X $T { X } | $X $T 1*3 { X } | $PAIRS => 0 yes\n
compare kept | $X $T 1*3 { X } | $X $T { X } | $PAIRS => 1 no command T = T N2\n
compare kept | $X $T *0 [ X ] | $X $T { X } | $PAIRS => 1 no command T = T N2\n
compare kept | $X $T { X } * [ AVP ] | $X $T { X } | $PAIRS => 1 no command T = T N6\n
compare kept | $X $T { X } * [ AVP ] | $X $Y $T { X } * [ AVP ] | $PAIRS => 1 no command T = T N9\n
compare kept | $X $T { X } * [ AVP ] | $X $Y $T { X } [ Y ] * [ AVP ] | $PAIRS => 1 no command T = T N5\n
compare kept | $X $T { X } | $X $T < X > | $PAIRS => 1 no command T = T N1\n
compare kept | $X $T < X > | $X $T { X } | $PAIRS => 0 yes\n
compare kept | $X $Y $T { X } [ Y ] | $X $Y $T { X } | $PAIRS avp Y = Y => 1 no command T = T N3\n
compare kept | $X $T { X } *2 [ AVP ] | $X $T { X } *1 [ AVP ] | $PAIRS => 1 no command T = T N7\n
compare kept | $X $T { X } * [ AVP ] | $X $T { X } 1* { AVP } | $PAIRS => 1 no command T = T N8\n
compare kept | $X $T { X } | %avp X 9003 Unsigned32 any $T { X } | $PAIRS => 1 no command T = T N3\n
compare kept | $X $T { X } * [ AVP ] | %avp X 9003 Unsigned32 any $T { X } * [ AVP ] | $PAIRS => 1 no command T = T N4\n
compare kept | %avp X 9002 Unsigned32 mustnot $T { X } * [ AVP ] | $T * [ AVP ] | $REQUESTS => 0 yes\n

# Rules under the policy that refuses unknown AVPs.
compare refused | $X $T { X } * [ AVP ] | $X $Y $T { X } * [ AVP ] | $PAIRS => 0 yes\n
compare refused | $X $T { X } * [ AVP ] | $X $Y $T { X } [ Y ] * [ AVP ] | $PAIRS => 0 yes\n
compare refused | %avp X 9002 Unsigned32 mustnot $T { X } * [ AVP ] | $T * [ AVP ] | $REQUESTS => 1 no command T = T N4\n

# Pairs of commands, of groups and of Enumerated AVPs.
compare kept | $X $T { X } | $X $T { X } $T5 | $PAIRS => 1 no command T = T N10\n
compare kept | $X $T { X } | $X $T { X } $T5 | $PAIRS command T = T5 => 0 yes\n
compare kept | $S2 | $S2 | $REQUESTS avp Node = Node => 0 yes\n
compare kept | $S2 | $S2 | $REQUESTS => 1 no command T = T N4\n
compare kept | $P_AND_Q $T { P } | $P2_AND_Q2 $T { P2 } | $REQUESTS avp P = P2\navp Q = Q2 => 0 yes\n
compare kept | $X $T { X } | $X $T 1*3 { X } | => 0 yes\n
compare kept | $X $T { X } | $X $T 1*3 { X } | $PAIRS avp Z = Z => 1 no avp Z = Z N10\n
compare kept | $E ( 0..3 ) $T { E } | $E ( 2..3 0..1 ) $T { E } | $E_PAIRS => 0 yes\n
compare kept | $E ( 2..3 0..1 ) $T { E } | $E ( 0..3 ) $T { E } | $E_PAIRS => 0 yes\n
compare kept | $E ( 0..3 ) $T { E } | $E ( 0..1 3 ) $T { E } | $E_PAIRS => 1 no avp E = E N10\n
compare kept | $E ( 0..1 3 ) $T { E } | $E ( 0..3 ) $T { E } | $E_PAIRS => 0 yes\n
compare kept | $E $T { E } | $E ( 0..2147483647 ) $T { E } | $E_PAIRS => 1 no avp E = E N10\n

# The base dictionary with itself, without the pair of one AVP, with a pair of names that it doesn't have, and without any pair.
let COMMANDS = command CER = CER\ncommand CEA = CEA\ncommand DWR = DWR\ncommand DWA = DWA\ncommand DPR = DPR\ncommand DPA = DPA\ncommand answer-message = answer-message\n
compare kept | $base | $base | $COMMANDS $BASE_AVPS avp User-Name = User-Name => 0 yes\n
compare kept | $base | $base | $COMMANDS $BASE_AVPS => 1 no command CER = CER N9\n
compare refused | $base | $base | $COMMANDS $BASE_AVPS avp User-Name = User-Name => 0 yes\n
compare kept | $base | $base | $COMMANDS $BASE_AVPS avp User-Name = User-Name\navp Z = Z => 1 no avp Z = Z N10\n
compare kept | $base | $base | => 0 yes\n

# Inputs are refused in the order of the words.
compare kept | $X $T { X } | $X $T { X } | $REQUESTS avp X X => 2 table: syntax at line 2\n
compare kept | $X $T { X } | $X $T { X } | avp X=X => 2 table: syntax at line 1\n
compare kept | $X $T { X } | %avp | avp X=X => 2 dictionary 2: syntax at line 1\n
compare kept | $X $T { X } | $T { X } | avp X=X => 2 dictionary 2: undefined-name T X\n
compare kept | %avp | %avp | avp X=X => 2 dictionary 1: syntax at line 1\n
compare kept | $X $T { X } | $X $T { X } | \xff => 2 table: not text\n

# A table has 65,536 pairs at most, and a name 128 bytes.
let LINE = avp X = X\n
let N = N
compare kept | $X $T { X } | $X $T 1*3 { X } | $REQUESTS$LINE*65535 => 0 yes\n
compare kept | $X $T { X } | $X $T 1*3 { X } | $REQUESTS$LINE*65535 avp X = X => 2 table: limit at line 65537\n
compare kept | $X $T { X } | $X $T 1*3 { X } | avp $N*129 = X => 2 table: limit at line 1\n

# A name of 128 bytes in dictionaries and in a table.
let LONG = %avp $N*128 9002 Unsigned32 any $T { $N*128 }
compare kept | $LONG | $LONG | $REQUESTS avp $N*128 = $N*128 => 0 yes\n

# A dictionary has 1,048,576 bytes at most, blanks counted.
let BLANK = \x20
compare kept | $X $T { X }$BLANK*1048506 | $X $T 1*3 { X } | $PAIRS => 0 yes\n
compare kept | $X $T { X }$BLANK*1048507 | $X $T 1*3 { X } | $PAIRS => 2 dictionary 1: too long\n

# 65,536 pairs of commands, and a line at fault behind as many as may stand before it.
compare kept | $T | $T | $REQUESTS*65536 => 0 yes\n
compare kept | $T | $T | $REQUESTS*65537 => 2 table: limit at line 65537\n
compare kept | $T | $T | $REQUESTS*65535 avp X X => 2 table: syntax at line 65536\n
";
