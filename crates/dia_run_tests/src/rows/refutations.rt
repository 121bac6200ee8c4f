//! Messages against two dictionaries.

pub const ROWS: &str = r"
# An X, and then an AVP of Y's code whose length is no AVP's of Y's format: the first dictionary doesn't know it.
let UNLIKE = 0100002c8000012e $I 0000232a4000000c000000070000232b00000009ff000000
let ALIKE = 010000208000012e $I 0000232a4000000c00000007

# The first dictionary, and the second.
let FIRST = $X $T { X } * [ AVP ]
let SECOND = $X $Y $T { X } * [ AVP ]

refute kept any | $FIRST | $SECOND | $UNLIKE => 0 refutes\n
refute kept any | $SECOND | $FIRST | $UNLIKE => 1 does not refute\n
refute kept any | $FIRST | $SECOND | $ALIKE => 1 does not refute\n
refute kept any | $FIRST | $SECOND | 0 => 2 message: not hexadecimal\n
refute kept any | $FIRST | %avp | 0 => 2 dictionary 2: syntax at line 1\n
refute kept any | %avp | %avp | 0 => 2 dictionary 1: syntax at line 1\n
";
