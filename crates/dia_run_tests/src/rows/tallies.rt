//! How often the rules of levels in one another are met.

pub const ROWS: &str = r"
# A number X at most twice, nodes, and a number Y: once in each node, and once or more in the request.
let NODES = $X $Y <Node> ::= < AVP Header: 9001 > *2 [ X ] * [ Node ] { Y } $T *2 [ X ] * [ Node ] 1* { Y }
let ONE_X = 0000232a0000000c00000001
let ONE_Y = 0000232b0000000c00000001

# A level's counts go on behind a node, which has its own.
check kept any | $NODES | 010000648000012e $I $ONE_X 000023290000002c $ONE_X $ONE_X $ONE_Y $ONE_X $ONE_Y => 0 valid T\n
check kept any | $NODES | 010000648000012e $I $ONE_X $ONE_X 000023290000002c $ONE_X $ONE_X $ONE_Y $ONE_Y => 0 valid T\n
check kept any | $NODES | 010000588000012e $I $ONE_X $ONE_X 0000232900000014 $ONE_Y $ONE_X $ONE_Y => 1 fault 5009 at 64 too-many X\n
check kept any | $NODES | 010000588000012e $I 0000232900000038 $ONE_X $ONE_X $ONE_X $ONE_Y $ONE_Y => 1 fault 5009 at 52 too-many X\n
check kept any | $NODES | 010000348000012e $I $ONE_Y 0000232900000014 $ONE_X => 1 fault 5005 at 52 missing Y\n
check kept any | $NODES | 010000288000012e $I 0000232900000014 $ONE_Y => 1 fault 5005 at 40 missing Y\n

# A node in a node, and one behind another.
check kept any | $NODES | 010000788000012e $I 0000232900000058 $ONE_X 000023290000002c $ONE_X $ONE_X $ONE_Y $ONE_X $ONE_Y $ONE_Y => 0 valid T\n
check kept any | $NODES | 010000848000012e $I 0000232900000064 $ONE_X 000023290000002c $ONE_X $ONE_X $ONE_Y $ONE_X $ONE_X $ONE_Y $ONE_Y => 1 fault 5009 at 96 too-many X\n
check kept any | $NODES | 010000788000012e $I 000023290000002c $ONE_X $ONE_X $ONE_Y 000023290000002c $ONE_X $ONE_X $ONE_Y $ONE_Y => 0 valid T\n
check kept any | $NODES | 010000488000012e $I 0000232900000014 $ONE_Y 0000232900000014 $ONE_X $ONE_Y => 1 fault 5005 at 60 missing Y\n

# Rules that are met in another order than theirs, and again.
check kept any | $NODES | 010000408000012e $I $ONE_Y 0000232900000014 $ONE_Y $ONE_X => 0 valid T\n
check kept any | $NODES | 010000708000012e $I $ONE_Y $ONE_X $ONE_Y $ONE_X 0000232900000020 $ONE_Y $ONE_X $ONE_Y => 0 valid T\n
check kept any | $NODES | 0100007c8000012e $I $ONE_Y $ONE_X $ONE_Y $ONE_X 0000232900000020 $ONE_Y $ONE_X $ONE_Y $ONE_X => 1 fault 5009 at 112 too-many X\n

# The first of three that is missing.
let THREE = $X $Y %avp Z 9004 Unsigned32 any $T { X } { Y } { Z }
let ONE_Z = 0000232c0000000c00000001
check kept any | $THREE | 010000388000012e $I $ONE_Z $ONE_Y $ONE_X => 0 valid T\n
check kept any | $THREE | 0100002c8000012e $I $ONE_Z $ONE_Y => 1 fault 5005 at 44 missing X\n
check kept any | $THREE | 0100002c8000012e $I $ONE_Z $ONE_X => 1 fault 5005 at 44 missing Y\n
check kept any | $THREE | 0100002c8000012e $I $ONE_Y $ONE_X => 1 fault 5005 at 44 missing Z\n
check kept any | $THREE | 010000208000012e $I $ONE_Z => 1 fault 5005 at 32 missing X\n
";
