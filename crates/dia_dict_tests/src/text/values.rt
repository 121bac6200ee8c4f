//! Values by the format of their AVP.

pub(super) const ROWS: &str = r"
let U32 = 01000020 $B 0000019f 4000000c
let ENUM = 01000020 $B 000001a0 4000000c
let TIME = 01000020 $B 00000037 4000000c
let I32 = 01000020 $B 000001ad 4000000c
let U64 = 01000024 $B 000001a5 40000010
let I64 = 01000024 $B 000001bf 40000010
let V4 = 01000024 $B 00000101 4000000e
let V6 = 01000030 $B 00000101 4000001a

$H\nCC-Request-Number 0 => $U32 00000000
$H\nCC-Request-Number 258 => $U32 00000102
$H\nCC-Request-Number 4294967295 => $U32 ffffffff
$H\nCC-Request-Number 000000000000000000001 => $U32 00000001
$H\nCC-Request-Number 4294967296 => value at line 2
$H\nCC-Request-Number -1 => value at line 2
$H\nCC-Request-Number 1a => value at line 2
$H\nEvent-Timestamp 2208988800 => $TIME 83aa7e80
$H\nEvent-Timestamp 4294967296 => value at line 2

# Hexadecimal numbers: `0x` and 1 to 16 digits of either case.
$H\nCC-Request-Number 0x1a => $U32 0000001a
$H\nCC-Request-Number 0x0000000000fFFF01 => $U32 00ffff01
$H\nCC-Request-Number 0x00000000000000001 => value at line 2
$H\nCC-Request-Number 0x100000000 => value at line 2
$H\nCC-Request-Number 0x => value at line 2
$H\nCC-Request-Number 0xg => value at line 2
$H\nCC-Request-Number 0X1 => value at line 2
$H\nCC-Request-Type 0x7fffffff => $ENUM 7fffffff
$H\nCC-Request-Type 0x80000000 => value at line 2
$H\nCC-Request-Type -0x1 => value at line 2
$H\nCC-Total-Octets 0xffffffffffffffff => $U64 ffffffffffffffff

# Dates of Times. 1 January 1970 comes 25,567 days after 1 January 1900, which are 2,208,988,800 seconds (83aa7e80). Of
# 32 bits the first is set from 20 January 1968, 3:14:08 UTC, on; they begin again on 7 February 2036, 6:28:16 UTC, and end
# on 26 February 2104, 9:42:23 UTC (RFC 6733 section 4.3.1).
$H\nEvent-Timestamp 1970-01-01T00:00:00Z => $TIME 83aa7e80
$H\nEvent-Timestamp 2208988800 1970-01-01T00:00:00Z => $TIME 83aa7e80
$H\nEvent-Timestamp x83aa7e80 1970-01-01T00:00:00Z pad x00 => 01000021 $B 00000037 4000000c 83aa7e80 00
$H\nEvent-Timestamp 1970-01-02T01:02:03Z => $TIME 83abde8b
$H\nEvent-Timestamp 1968-01-20T03:14:08Z => $TIME 80000000
$H\nEvent-Timestamp 2036-02-07T06:28:15Z => $TIME ffffffff
$H\nEvent-Timestamp 2036-02-07T06:28:16Z => $TIME 00000000
$H\nEvent-Timestamp 2104-02-26T09:42:23Z => $TIME 7fffffff
# 2000 has 29 February: 36,583 days after 1 January 1900.
$H\nEvent-Timestamp 2000-02-29T00:00:00Z => $TIME bc658a80
$H\nEvent-Timestamp 2001-02-29T00:00:00Z => value at line 2
$H\nEvent-Timestamp 2100-02-29T00:00:00Z => value at line 2
$H\nEvent-Timestamp 2026-04-31T00:00:00Z => value at line 2
$H\nEvent-Timestamp 2026-13-01T00:00:00Z => value at line 2
$H\nEvent-Timestamp 2026-00-01T00:00:00Z => value at line 2
$H\nEvent-Timestamp 2026-01-00T00:00:00Z => value at line 2
$H\nEvent-Timestamp 2026-01-01T24:00:00Z => value at line 2
$H\nEvent-Timestamp 2026-01-01T00:60:00Z => value at line 2
$H\nEvent-Timestamp 2026-01-01T00:00:60Z => value at line 2
$H\nEvent-Timestamp 1968-01-20T03:14:07Z => value at line 2
$H\nEvent-Timestamp 2104-02-26T09:42:24Z => value at line 2
$H\nEvent-Timestamp 2026-01-01 => value at line 2
$H\nEvent-Timestamp 2208988801 1970-01-01T00:00:00Z => syntax at line 2
$H\nCC-Request-Number 2208988800 1970-01-01T00:00:00Z => syntax at line 2
$H\nCC-Request-Number 1970-01-01T00:00:00Z => value at line 2

# The numbers of an Enumerated needn't be in its list. They are an Integer32 (RFC 6733 section 4.3.1).
$H\nCC-Request-Type 9 => $ENUM 00000009
$H\nCC-Request-Type -1 => $ENUM ffffffff
$H\nCC-Request-Type 2147483648 => value at line 2

$H\nExponent 2147483647 => $I32 7fffffff
$H\nExponent -2147483648 => $I32 80000000
$H\nExponent -0 => $I32 00000000
$H\nExponent -2 => $I32 fffffffe
$H\nExponent 2147483648 => value at line 2
$H\nExponent -2147483649 => value at line 2
$H\nExponent - => value at line 2
$H\nExponent --1 => value at line 2

$H\nCC-Total-Octets 1 => $U64 0000000000000001
$H\nCC-Total-Octets 18446744073709551615 => $U64 ffffffffffffffff
$H\nCC-Total-Octets 18446744073709551616 => value at line 2
$H\nValue-Digits 9223372036854775807 => $I64 7fffffffffffffff
$H\nValue-Digits -9223372036854775808 => $I64 8000000000000000
$H\nValue-Digits -1 => $I64 ffffffffffffffff
$H\nValue-Digits 9223372036854775808 => value at line 2
$H\nValue-Digits -9223372036854775809 => value at line 2

# A word after a number is for the reader. It has a letter, and is neither a value, a date nor a keyword.
$H\nCC-Request-Type 1 INITIAL_REQUEST => $ENUM 00000001
$H\nCC-Request-Type -1 none pad x00 => 01000021 $B 000001a0 4000000c ffffffff 00
$H\nCC-Request-Type x00000001 INITIAL_REQUEST => $ENUM 00000001
$H\nCC-Request-Number 0x1a 3GPP-GPRS#one => $U32 0000001a
$H\nExponent -2 H(E)NB => $I32 fffffffe
$H\nCC-Total-Octets 1 G.3_Fax => $U64 0000000000000001
$H\nValue-Digits -1 X.25 => $I64 ffffffffffffffff
$H\nCharge 1 one => 01000024 $B 0000232e c0000010 00007ed9 00000001
$H\nCC-Request-Type INITIAL_REQUEST => value at line 2
$H\nCC-Request-Type 1 2 => syntax at line 2
$H\nCC-Request-Type 1 0x2 => syntax at line 2
$H\nCC-Request-Type 1 x02 => syntax at line 2
$H\nCC-Request-Type 1 \x22one\x22 => syntax at line 2
$H\nCC-Request-Type 1 flags M => syntax at line 2
$H\nCC-Request-Type 1 length 12 => syntax at line 2
$H\nCC-Request-Type 1 pad => syntax at line 2
$H\nCC-Request-Type 1 one two => syntax at line 2
$H\nEvent-Timestamp 1 one => syntax at line 2
$H\nRatio x00000000 one => syntax at line 2
$H\nSession-Id \x22a\x22 one => syntax at line 2
$H\n9999 x01 one => syntax at line 2

# Digits for any AVP, also of a length that its format can't have.
$H\nCC-Request-Number x0102 => 01000020 $B 0000019f 4000000a 0102 0000
$H\nCC-Request-Number x00000102 => $U32 00000102
$H\nRatio 1 => value at line 2
$H\nSession-Id 1 => value at line 2

# Texts in quotes: bytes that stand for themselves, blanks and `#` too, and `\x` with two digits. What the format accepts
# isn't asked: an identity has no blanks, and 0xff is no UTF-8.
$H\nSession-Id \x22gw.a;1;12\x22 => 01000028 $B 00000107 40000011 67772e613b313b3132 000000
$H\nSession-Id \x22\x22 => 0100001c $B 00000107 40000008
$H\nSession-Id \x22a # b\x22 # c => 01000024 $B 00000107 4000000d 61202320 62 000000
$H\nSession-Id \x22 \t\x22 => 01000020 $B 00000107 4000000a 2009 0000
$H\nSession-Id \x22\xc3\xa9\x22 => 01000020 $B 00000107 4000000a c3a9 0000
$H\nSession-Id \x22\x5cxc3\x5cxA9\x22 => 01000020 $B 00000107 4000000a c3a9 0000
$H\nSession-Id \x22a\x5cx22b\x5cx5c\x22 => 01000020 $B 00000107 4000000c 6122625c
$H\nSession-Id \x22\x5cx00\x5cxff1\x22 => 01000020 $B 00000107 4000000b 00ff31 00
$H\nOrigin-Host \x22gw a\x22 => 01000020 $B 00000108 4000000c 67772061
$H\nRedirect-Host flags - length 9 \x22a\x22 pad x010000 => 01000020 $B 00000124 00000009 61 01 0000
$H\nFilter-Rule \x22permit\x22 => 01000024 $B 00000190 4000000e 7065726d6974 0000
$H\nFramed-IP-Address \x22abcd\x22 => 01000020 $B 00000008 4000000c 61626364
$H\n9999 \x22a\x22 => 01000020 $B 0000270f 00000009 61 000000
$H\nSession-Id \x22a ; b\x22;c => 01000024 $B 00000107 4000000d 61203b20 62 000000
$H\nSession-Id \x22a => value at line 2
$H\nSession-Id \x22 => value at line 2
$H\nSession-Id a\x22 => value at line 2
$H\nSession-Id \x22a\x22b\x22 => syntax at line 2
$H\nSession-Id \x22a\x22 \x22b\x22 => syntax at line 2
$H\nSession-Id \x22\x5c\x22 => value at line 2
$H\nSession-Id \x22\x5c\x5c\x22 => value at line 2
$H\nSession-Id \x22\x5cn\x22 => value at line 2
$H\nSession-Id \x22\x5cx4\x22 => value at line 2
$H\nSession-Id \x22\x5cx4g\x22 => value at line 2
$H\nSession-Id \x22\x5cX41\x22 => value at line 2
$H\nSession-Id \x22\x5cx4\x5cx41\x22 => value at line 2
$H\nCC-Request-Number \x221\x22 => value at line 2
$H\nHost-IP-Address \x2210.0.0.1\x22 => value at line 2
$H\nRatio \x22abcd\x22 => value at line 2
$H\nNest \x22\x22 => value at line 2

# Addresses, by RFC 6733 section 4.3.1 two bytes of family in front of them.
$H\nHost-IP-Address 10.0.0.1 => $V4 0001 0a000001 0000
$H\nHost-IP-Address 255.254.000.01 => $V4 0001 fffe0001 0000
$H\nHost-IP-Address 2001:0db8:0000:0000:0000:0000:00aF:0001 => $V6 0002 20010db80000000000000000 00af0001 0000
$H\nHost-IP-Address family 8 x3439 => 01000020 $B 00000101 4000000c 0008 3439
$H\nHost-IP-Address family 65535 x => 01000020 $B 00000101 4000000a ffff 0000
$H\nHost-IP-Address family 1 x0a pad x01 => 01000020 $B 00000101 4000000b 0001 0a 01
$H\nHost-IP-Address x0a => 01000020 $B 00000101 40000009 0a 000000
$H\nHost-IP-Address 10.0.0 => value at line 2
$H\nHost-IP-Address 10.0.0.1.2 => value at line 2
$H\nHost-IP-Address 10.0.0.256 => value at line 2
$H\nHost-IP-Address 10.0.0. => value at line 2
$H\nHost-IP-Address 10.0.0.a => value at line 2
$H\nHost-IP-Address 10.0.0.-1 => value at line 2
$H\nHost-IP-Address 1 => value at line 2
$H\nHost-IP-Address 2001:db8::1 => value at line 2
$H\nHost-IP-Address 2001:0db8:0000:0000:0000:0000:00af => value at line 2
$H\nHost-IP-Address 2001:0db8:0000:0000:0000:0000:00af:001 => value at line 2
$H\nHost-IP-Address 2001:0db8:0000:0000:0000:0000:00af:001g => value at line 2
$H\nHost-IP-Address family => value at line 2
$H\nHost-IP-Address family 8 => syntax at line 2
$H\nHost-IP-Address family 65536 x => value at line 2
$H\nHost-IP-Address family 8 10.0.0.1 => value at line 2
$H\nHost-IP-Address family 8 x00 x00 => syntax at line 2
$H\nSession-Id family 8 x00 => value at line 2
$H\nFramed-IP-Address 10.0.0.1 => value at line 2
$H\n9999 10.0.0.1 => value at line 2

# Digits for any AVP, also of a format that has a text.
$H\n9999 1 => value at line 2
$H\n9999/1 1 => value at line 2
$H\n264 x0 => value at line 2
$H\n264 x0g => value at line 2
$H\n264 X00 => value at line 2
$H\n264 0x00 => value at line 2

# The number of an AVP by its code, and of one with a Vendor-ID of 0.
$H\n415 258 => $U32 00000102
$H\n415/0 258 => 01000024 $B 0000019f c0000010 00000000 00000102
";
