//! Tables that are proposed, and compared with.

pub const ROWS: &str = r"
# A second request of the same code, for one application. Groups that hold each other, under their names in each dictionary.
let T5 = <T5> ::= < Diameter Header: 302, REQ, 5 > { X }
let P_AND_Q = <P> ::= < AVP Header: 9100 > { Q } <Q> ::= < AVP Header: 9101 > { P }
let P2_AND_Q2 = <P2> ::= < AVP Header: 9100 > { Q2 } <Q2> ::= < AVP Header: 9101 > { P2 }

# What is proposed, and the line of a comparison with it.
propose refused T | $X $T { X } * [ AVP ] | $X $Y $T { X } * [ AVP ] => 0 command T = T\navp X = X\n
compare refused | $X $T { X } * [ AVP ] | $X $Y $T { X } * [ AVP ] | command T = T\navp X = X\n => 0 yes\n
propose kept T | $X $T { X } * [ AVP ] | $X $Y $T { X } * [ AVP ] => 0 command T = T\navp X = X\n
compare kept | $X $T { X } * [ AVP ] | $X $Y $T { X } * [ AVP ] | command T = T\navp X = X\n => 1 no command T = T N9\n
propose kept T T | $X $T { X } | $X $T { X } $T5 => 0 command T = T\ncommand T = T5\navp X = X\n
compare kept | $X $T { X } | $X $T { X } $T5 | command T = T\ncommand T = T5\navp X = X\n => 0 yes\n
propose kept T | $P_AND_Q $T { P } | $P2_AND_Q2 $T { P2 } => 0 command T = T\navp P = P2\navp Q = Q2\n
compare kept | $P_AND_Q $T { P } | $P2_AND_Q2 $T { P2 } | command T = T\navp P = P2\navp Q = Q2\n => 0 yes\n
propose kept T | $X $T { X } | $X => 0 command T = T\navp X = X\n
compare kept | $X $T { X } | $X | command T = T\navp X = X\n => 1 no command T = T N10\n
propose kept | $X | $X => 0
compare kept | $X | $X | => 0 yes\n

# The commands of the base dictionary stand at their first mention. Their wildcards let in all its AVPs.
propose kept DWR CER DWR | $base | $base => 0 command DWR = DWR\ncommand CER = CER\navp User-Name = User-Name\n$BASE_AVPS
propose refused | $base | $base => 0
propose kept DWR Q R | $base | $base => 2 propose: no command Q\n

# The first name of no command.
propose kept T Q | $X $T { X } | $X $T 1*3 { X } => 2 propose: no command Q\n
propose kept T Q R | $X $T { X } | $X $T 1*3 { X } => 2 propose: no command Q\n

# The empty name is no command's.
propose kept - | $X $T { X } | $X $T { X } => 2 propose: no command \n
propose kept T - | $X $T { X } | $X $T { X } => 2 propose: no command \n
";
