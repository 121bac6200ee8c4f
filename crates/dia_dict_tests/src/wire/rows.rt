//! Bytes, and what is read of them; and AVPs that are written.

pub(super) const ROWS: &str = r"
# A device watchdog request of the smallest kind: Origin-Host `a.b` and Origin-Realm `b`.
let HEADER = 0100002c 80 000118 00000000 00000001 00000002
let HOST = 00000108 40 00000b 612e62 00
let REALM = 00000128 40 000009 62 000000
header | $HEADER => 80 280 0 1 2 R 44
message | $HEADER $HOST $REALM => 80 280 0 1 2 R 264:0 40 M 11 612e62;296:0 40 M 9 62;
avps | $HOST $REALM => 264:0 40 M 11 612e62;296:0 40 M 9 62;
avps | =>

# A level ends behind its first fault: here the Origin-Realm is cut off.
avps | $HOST 00000128 => 264:0 40 M 11 612e62;fault

# AVP Lengths: 7 bytes are no head, and neither are 11 with a Vendor-ID. 13 bytes and more aren't there.
avps | 00000108 40 000007 00000000 => fault
avps | 00000108 c0 00000b 00000000 => fault
avps | 00000108 40 00000d 00000000 => fault
avps | 00000108 40 ffffff 00000000 => fault
avps | 00000108 40 0000 => fault
head 12 | 00000108 40 000007 00000000 => Length
head 12 | 00000108 c0 00000b 00000000 => Length
head 12 | 00000108 40 00000d 00000000 => Length
head 12 | 00000108 40 ffffff 00000000 => Length

# A head before its data, without and with a Vendor-ID.
head 24 | 00000108 40 0000 => more
head 24 | 00000108 40 00000b => 264:0 11
head 12 | 00000108 c0 00000c 000028 => more
head 12 | 00000108 c0 00000c 000028af => 264:10415 12

# The V and the P flag make no AVP mandatory.
avps | 00000578 a0 00000d 000028af 07 000000 => 1400:10415 a0 13 07;

# No headers, and no messages: each byte that is changed, and missing and further bytes.
header | 0100002c 80 000118 00000000 00000001 000000 => Short
header | 0200002c 80 000118 00000000 00000001 00000002 => Version
header | 0100002b 80 000118 00000000 00000001 00000002 => Length
message | 0100002c 80 000118 00000000 00000001 000000 => Short
message | $HEADER $HOST 00000128 40 000009 => Truncated
message | 0200002c 80 000118 00000000 00000001 00000002 $HOST $REALM => Version
message | 01000010 80 000118 00000000 00000001 00000002 $HOST $REALM => Length
message | 0100002b 80 000118 00000000 00000001 00000002 $HOST $REALM => Length
message | 01000030 80 000118 00000000 00000001 00000002 $HOST $REALM => Truncated
message | 01000028 80 000118 00000000 00000001 00000002 $HOST $REALM => Trailing

# The Command Flags.
header | 01000014 0f 000118 00000000 00000001 00000002 => 0f 280 0 1 2 20
header | 01000014 40 000118 00000000 00000001 00000002 => 40 280 0 1 2 P 20
header | 01000014 20 000118 00000000 00000001 00000002 => 20 280 0 1 2 E 20
header | 01000014 10 000118 00000000 00000001 00000002 => 10 280 0 1 2 T 20

# Numbers of 32 bits.
number | 00000bb9 => 3001
number | 000000 => -
number | 0000000000 => -

# AVPs written, with their padding.
put 64 264 - | 612e62 => 000001084000000b612e6200
put 192 1400 10415 | 07 => 00000578c000000d000028af07000000
put 128 1 - | => disagrees
put 0 1 10415 | => disagrees
";
