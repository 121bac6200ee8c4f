//! The rows of each reason of a fault, in the order of the reasons: alone, and with other faults before and after it. At one AVP
//! the order of the reasons says which fault is reported, else the offset.

pub const ROWS: &str = r"
# A Session-Id `a`, an empty Failed-AVP, and the Result-Code of an error answer.
let S = 000001074000000961000000
let FAILED = 0000011740000008
let RESULT = 0000010c4000000c00000bb9

# One required number, and an Enumerated list with a gap.
let NUMBER = $X $T { X }
let GAP = %avp E 9004 Enumerated any ( 0..1 3 ) $T { E }

# Rules in the order fixed, required, forbidden, optional. E and K are known, and no rule lists them.
let RULES = %avp A 9001 Unsigned32 must %avp B 9002 Unsigned32 must %avp C 9003 DiameterIdentity any %avp D 9006 DiameterIdentity must %avp E 9007 DiameterIdentity any %avp H 9005 Grouped must <G> ::= < AVP Header: 9004 > [ C ] <H> ::= < AVP Header: 9005 > [ C ] <K> ::= < AVP Header: 9008 > [ C ] <N> ::= < AVP Header: 9009 > { C } $T < A > { B } *0 [ G ] [ C ] [ D ] [ H ] [ N ]

# AVPs, some with M clear, some with data that their formats refuse.
let A = 000023294000000c00000001
let A_CLEAR = 000023290000000c00000001
let A_SHORT = 000023294000000a00010000
let A_CLEAR_SHORT = 000023290000000a00010000
let B = 0000232a4000000c00000001
let B_CLEAR = 0000232a0000000c00000001
let B_SHORT = 0000232a4000000a00010000
let C = 0000232b0000000961000000
let C_EMPTY = 0000232b00000008
let D_EMPTY = 0000232e40000008
let D_CLEAR_EMPTY = 0000232e00000008
let E_EMPTY = 0000232f00000008
let G = 0000232c00000008
let H = 0000232d40000008
let H_CLEAR = 0000232d00000008
let K = 0000233000000008
let N_EMPTY = 0000233100000008
let N_OF_C = 00002331000000140000232b0000000961000000

# An unknown AVP with M set, and one with M clear.
let UNKNOWN = 0000270f40000008
let UNLISTED = 0000270f00000008

# version.
check kept any | $base | 0200002c80000118 $I $OH $OR => 1 fault 5011 at 0 version -\n
# version, reported once there are 20 bytes, and before the length.
fronts 0..20 check kept any | $base | 0200002c80000118 $I $OH $OR => 1 truncated\n
fronts 20..45 check kept any | $base | 0200002c80000118 $I $OH $OR => 1 fault 5011 at 0 version -\n
fronts 0..20 check kept any | $base | 0000002c80000118 $I $OH $OR => 1 truncated\n
fronts 20..45 check kept any | $base | 0000002c80000118 $I $OH $OR => 1 fault 5011 at 0 version -\n

# length.
check kept any | $base | 0100002e80000118 $I $OH $OR => 1 fault 5015 at 1 length -\n
# length, reported once there are 20 bytes.
fronts 0..20 check kept any | $base | 0100002d80000118 $I $OH $OR => 1 truncated\n
fronts 20..45 check kept any | $base | 0100002d80000118 $I $OH $OR => 1 fault 5015 at 1 length -\n
fronts 0..20 check kept any | $base | 0100001080000118 $I $OH $OR => 1 truncated\n
fronts 20..45 check kept any | $base | 0100001080000118 $I $OH $OR => 1 fault 5015 at 1 length -\n
fronts 0..20 check kept any | $base | 0100000080000118 $I $OH $OR => 1 truncated\n
fronts 20..45 check kept any | $base | 0100000080000118 $I $OH $OR => 1 fault 5015 at 1 length -\n

# bits.
check kept any | $base | 0100002ca0000118 $I $OH $OR => 1 fault 5013 at 4 bits -\n
check kept any | $base | 0100002c10000118 $I $OH $OR => 1 fault 5013 at 4 bits -\n

# command: also where the dictionary has no command, and where it has a request alone.
check kept any | $base | 0100002c80000119 $I $OH $OR => 1 fault 3001 at 5 command -\n
check kept any | | $REQUEST => 1 fault 3001 at 5 command -\n
check kept any | $NUMBER | 010000142000012e $I => 1 fault 3001 at 5 command -\n
check kept any | $base | 0100002c8000012e $I $OH $OR => 1 fault 3001 at 5 command -\n

# application: and a message of the command's own.
check kept any | <T> ::= < Diameter Header: 302, REQ, 5 > | 010000148000012e $I => 1 fault 3007 at 8 application -\n
check kept any | <T> ::= < Diameter Header: 302, REQ, 5 > | 010000148000012e000000050000000100000002 => 0 valid T\n

# proxiable.
check kept any | $base | 0100002cc0000118 $I $OH $OR => 1 fault 3008 at 4 proxiable -\n

# avp-length.
check kept any | $base | 0100002c80000118 $I 0000010840000007612e6200 $OR => 1 fault 5014 at 20 avp-length -\n
check kept any | $base | 0100002c80000118 $I 00000108c000000b612e6200 $OR => 1 fault 5014 at 20 avp-length -\n
check kept any | $base | 0100002c80000118 $I 0000010840000000612e6200 $OR => 1 fault 5014 at 20 avp-length -\n
check kept any | $base | 0100002c80000118 $I 0000010840000001612e6200 $OR => 1 fault 5014 at 20 avp-length -\n
check kept any | $base | 0100002c80000118 $I 0000010840000002612e6200 $OR => 1 fault 5014 at 20 avp-length -\n
check kept any | $base | 0100002c80000118 $I 0000010840000003612e6200 $OR => 1 fault 5014 at 20 avp-length -\n
check kept any | $base | 0100002c80000118 $I 0000010840000004612e6200 $OR => 1 fault 5014 at 20 avp-length -\n
check kept any | $base | 0100002c80000118 $I 0000010840000005612e6200 $OR => 1 fault 5014 at 20 avp-length -\n
check kept any | $base | 0100002c80000118 $I 0000010840000006612e6200 $OR => 1 fault 5014 at 20 avp-length -\n
check kept any | $base | 0100002c80000118 $I 0000010840000007612e6200 $OR => 1 fault 5014 at 20 avp-length -\n
check kept any | $base | 0100002c80000118 $I 0000010840000019612e6200 $OR => 1 fault 5014 at 20 avp-length -\n
check kept any | $base | 0100002c80000118 $I 00000108c0000000612e6200 $OR => 1 fault 5014 at 20 avp-length -\n
check kept any | $base | 0100002c80000118 $I 00000108c0000001612e6200 $OR => 1 fault 5014 at 20 avp-length -\n
check kept any | $base | 0100002c80000118 $I 00000108c0000002612e6200 $OR => 1 fault 5014 at 20 avp-length -\n
check kept any | $base | 0100002c80000118 $I 00000108c0000003612e6200 $OR => 1 fault 5014 at 20 avp-length -\n
check kept any | $base | 0100002c80000118 $I 00000108c0000004612e6200 $OR => 1 fault 5014 at 20 avp-length -\n
check kept any | $base | 0100002c80000118 $I 00000108c0000005612e6200 $OR => 1 fault 5014 at 20 avp-length -\n
check kept any | $base | 0100002c80000118 $I 00000108c0000006612e6200 $OR => 1 fault 5014 at 20 avp-length -\n
check kept any | $base | 0100002c80000118 $I 00000108c0000007612e6200 $OR => 1 fault 5014 at 20 avp-length -\n
check kept any | $base | 0100002c80000118 $I 00000108c0000008612e6200 $OR => 1 fault 5014 at 20 avp-length -\n
check kept any | $base | 0100002c80000118 $I 00000108c0000009612e6200 $OR => 1 fault 5014 at 20 avp-length -\n
check kept any | $base | 0100002c80000118 $I 00000108c000000a612e6200 $OR => 1 fault 5014 at 20 avp-length -\n
check kept any | $base | 0100002c80000118 $I 00000108c000000b612e6200 $OR => 1 fault 5014 at 20 avp-length -\n

# unknown.
check kept any | $base | 0100003480000118 $I $OH $OR 0000270f40000008 => 1 fault 5001 at 44 unknown 9999:0\n
check kept any | $base | 0100003c80000118 $I $OH $OR 00000117400000100000270f40000008 => 1 fault 5001 at 52 unknown 9999:0\n
check kept any | $base | 0100002c80000118 $I 00000108c000000c612e6200 $OR => 1 fault 5001 at 20 unknown 264:1630429696\n
# unknown, under the policy that refuses what is unknown.
check refused any | $base | 0100003480000118 $I $OH $OR 0000270f00000008 => 1 fault 5001 at 44 unknown 9999:0\n
check refused any | $base | 0100003480000118 $I $OH $OR 0000270f40000008 => 1 fault 5001 at 44 unknown 9999:0\n
# unknown, reported before an AVP that is missing or not allowed, and after a group that lacks nothing.
check kept any | $RULES | 0100001c8000012e $I $UNKNOWN => 1 fault 5001 at 20 unknown 9999:0\n
check kept any | $RULES | 010000348000012e $I $A $B $UNKNOWN => 1 fault 5001 at 44 unknown 9999:0\n
check kept any | $RULES | 010000488000012e $I $A $B $N_OF_C $UNKNOWN => 1 fault 5001 at 64 unknown 9999:0\n

# m-bit.
check kept any | %avp X 9002 Unsigned32 must $T { X } | 010000208000012e $I 0000232a0000000c00000007 => 1 fault 3009 at 20 m-bit X\n
# m-bit, reported before an AVP that is missing, not allowed or one too many, and before the AVP's data and depth.
check kept any | $RULES | 010000208000012e $I $B_CLEAR => 1 fault 3009 at 20 m-bit B\n
check kept any | $RULES | 010000388000012e $I $A $B $A_CLEAR => 1 fault 3009 at 44 m-bit A\n
check kept any | $RULES | 0100002c8000012e $I $A $A_CLEAR => 1 fault 3009 at 32 m-bit A\n
check kept any | $RULES | 010000208000012e $I $A_CLEAR_SHORT => 1 fault 3009 at 20 m-bit A\n
check kept any | $RULES | 010000348000012e $I $A $B $D_CLEAR_EMPTY => 1 fault 3009 at 44 m-bit D\n
check kept 0 | $RULES | 010000348000012e $I $A $B $H_CLEAR => 1 fault 3009 at 44 m-bit H\n

# missing.
check kept any | $base | 0100001480000118 $I => 1 fault 5005 at 20 missing Origin-Host\n
check kept any | $base | 0100002080000118 $I $OH => 1 fault 5005 at 32 missing Origin-Realm\n
check kept any | $base | 0100003480000118 $I $OH $OR $FAILED => 1 fault 5005 at 52 missing AVP\n
check kept any | $base | 0100002880000118 $I $OH $FAILED => 1 fault 5005 at 40 missing AVP\n
check kept any | $base | 0100003c80000118 $I $OH $FAILED 0000270f40000008 $OR => 1 fault 5005 at 40 missing AVP\n
# missing, reported before an AVP that isn't allowed or is one too many, and before the AVP's data and depth.
check kept any | $RULES | 0100001c8000012e $I $UNLISTED => 1 fault 5005 at 20 missing A\n
check kept any | $RULES | 010000208000012e $I $B_SHORT => 1 fault 5005 at 20 missing A\n
check kept any | $RULES | 0100001c8000012e $I $G => 1 fault 5005 at 20 missing A\n
check kept any | $RULES | 0100001c8000012e $I $C_EMPTY => 1 fault 5005 at 20 missing A\n
check kept 0 | $RULES | 0100001c8000012e $I $H => 1 fault 5005 at 20 missing A\n
# missing, at the end of a level, which is reported before what follows it.
check kept any | $RULES | 010000148000012e $I => 1 fault 5005 at 20 missing A\n
check kept any | $RULES | 010000208000012e $I $A => 1 fault 5005 at 32 missing B\n
check kept any | $RULES | 010000288000012e $I $A $N_EMPTY => 1 fault 5005 at 40 missing C\n
check kept any | $RULES | 010000348000012e $I $A $N_OF_C => 1 fault 5005 at 52 missing B\n
check kept any | $RULES | 0100003c8000012e $I $A $B $N_EMPTY $UNKNOWN => 1 fault 5005 at 52 missing C\n

# not-allowed.
check kept any | $base | 0100005020000118 $I $S $OH $S $OR $RESULT => 1 fault 5008 at 44 not-allowed Session-Id\n
check kept any | $S1 | 010000388000012c $I $S $OH $S => 1 fault 5008 at 44 not-allowed Session-Id\n
check kept any | $RULES | 010000348000012e $I $A $B $UNLISTED => 1 fault 5008 at 44 not-allowed 9999:0\n
# not-allowed, reported before the AVP's data and depth.
check kept any | $RULES | 010000388000012e $I $A $B $A_SHORT => 1 fault 5008 at 44 not-allowed A\n
check kept any | $RULES | 010000348000012e $I $A $B $E_EMPTY => 1 fault 5008 at 44 not-allowed E\n
check kept 0 | $RULES | 010000348000012e $I $A $B $K => 1 fault 5008 at 44 not-allowed K\n

# too-many.
check kept any | $S1 | 010000388000012c $I $S $S $OH => 1 fault 5009 at 32 too-many Session-Id\n
check kept any | $base | 0100003880000118 $I $OH $OH $OR => 1 fault 5009 at 32 too-many Origin-Host\n
# too-many, reported before the AVP's data and depth.
check kept any | $RULES | 0100002c8000012e $I $A $A_SHORT => 1 fault 5009 at 32 too-many A\n
check kept any | $RULES | 010000388000012e $I $A $B $B_SHORT => 1 fault 5009 at 44 too-many B\n
check kept any | $RULES | 010000408000012e $I $A $B $C $C_EMPTY => 1 fault 5009 at 56 too-many C\n
check kept 0 | $RULES | 010000348000012e $I $A $B $G => 1 fault 5009 at 44 too-many G\n

# leaf-length.
check kept any | $NUMBER | 010000208000012e $I 0000232a0000000a00070000 => 1 fault 5014 at 20 leaf-length X\n
check kept any | $base | 010000388000011a $I $OH $OR 000001114000000a00000000 => 1 fault 5014 at 44 leaf-length Disconnect-Cause\n
# leaf-length, of an AVP with which nothing else is wrong.
check kept any | $RULES | 010000208000012e $I $A_SHORT => 1 fault 5014 at 20 leaf-length A\n

# leaf-value.
check kept any | $base | 0100002880000118 $I 0000010840000008 $OR => 1 fault 5004 at 20 leaf-value Origin-Host\n
check kept any | $base | 010000388000011a $I $OH $OR 000001114000000c00000003 => 1 fault 5004 at 44 leaf-value Disconnect-Cause\n
# leaf-value, of an Enumerated list with a gap, and a value after the gap.
check kept any | $GAP | 010000208000012e $I 0000232c4000000c00000002 => 1 fault 5004 at 20 leaf-value E\n
check kept any | $GAP | 010000208000012e $I 0000232c4000000c00000003 => 0 valid T\n
# leaf-value, of AVPs with which nothing else is wrong.
check kept any | $RULES | 010000348000012e $I $A $B $C_EMPTY => 1 fault 5004 at 44 leaf-value C\n
check kept any | $RULES | 010000348000012e $I $A $B $D_EMPTY => 1 fault 5004 at 44 leaf-value D\n

# depth.
check kept 0 | $base | 0100003c80000118 $I $OH $OR 00000117400000100000270f00000008 => 1 fault 5012 at 44 depth Failed-AVP\n
check kept 0 | $base | 0100003480000118 $I $OH $OR 0000011740000008 => 1 fault 5012 at 44 depth Failed-AVP\n
check kept 0 | $base | 0100003c80000118 $I $OH $OR 0000011740000010 0000270f00000008 => 1 fault 5012 at 44 depth Failed-AVP\n
check kept 0 | $base | 0100003480000118 $I $OH $OR 0000011740000008 => 1 fault 5012 at 44 depth Failed-AVP\n
# depth, of groups with which nothing else is wrong, and reported before a missing AVP in the group.
check kept 0 | $RULES | 010000348000012e $I $A $B $H => 1 fault 5012 at 44 depth H\n
check kept 0 | $RULES | 010000348000012e $I $A $B $N_EMPTY => 1 fault 5012 at 44 depth N\n
";
