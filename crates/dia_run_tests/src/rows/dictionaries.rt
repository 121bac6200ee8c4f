//! Dictionaries that are refused, each by the line of its first fault.

pub const ROWS: &str = r"
# Each kind of fault.
show | $X $T 0* { X } | $REQUEST => 2 dictionary 1: required-min T X\n
show | $X $T 2*1 { X } | $REQUEST => 2 dictionary 1: min-over-max T X\n
show | %avp A 1 Time any %avp B 1 Time any | $REQUEST => 2 dictionary 1: duplicate-key B -\n
show | %avp G 5 Grouped any | $REQUEST => 2 dictionary 1: no-group-format G -\n
show | %avp G 5 Time any <G> ::= < AVP Header: 5 > | $REQUEST => 2 dictionary 1: header-mismatch G -\n
show | $X $T { X } [ X ] | $REQUEST => 2 dictionary 1: repeated-slot T X\n
show | $X $X $T { Z } | $REQUEST => 2 dictionary 1: duplicate-name X -\n
show | $X $T { Z } | $REQUEST => 2 dictionary 1: undefined-name T Z\n

# A definition has 1,024 rules at most.
let RULE = [ X ]
show | $X $T $RULE*1024 | $REQUEST => 2 dictionary 1: repeated-slot T X\n
show | $X $T $RULE*1025 | $REQUEST => 2 dictionary 1: limit T -\n

# Bytes that are no text.
show | \xff | $REQUEST => 2 dictionary 1: not text\n

# The dictionary is judged before the message.
show | %avp | 0 => 2 dictionary 1: syntax at line 1\n
";
