//! Messages, written as texts. `make` reads each text as the message again: the first calls of `avps`, `values` and `groups`
//! are these texts.

pub(super) const ROWS: &str = r"
let C = Credit-Control-Request hop 1 end 2

# Headers by the command of their code, class and application: what they say besides is written.
01000014 $B => $C\n
01000014 40 000110 00000004 00000001 00000002 => Credit-Control-Answer hop 1 end 2\n
01000014 d0 000110 00000004 00000001 00000002 => Credit-Control-Request flags d0 hop 1 end 2\n
01000014 80 000110 00000004 00000001 00000002 => Credit-Control-Request flags 80 hop 1 end 2\n
01000014 00 ffffff 00000000 00000001 00000002 => Huge hop 1 end 2\n
# A command without an application serves all of them. The one of another application doesn't.
01000014 80 000118 00000000 00000001 00000002 => Device-Watchdog-Request hop 1 end 2\n
01000014 80 000118 00000009 deadbeef 0000000a => Device-Watchdog-Request app 9 hop 3735928559 end 10\n
01000014 c0 000118 00000009 00000001 00000002 => Device-Watchdog-Request flags c0 app 9 hop 1 end 2\n
01000014 c0 000110 00000005 00000001 00000002 => code 272 flags c0 app 5 hop 1 end 2\n
# Errors, R and E together, and codes that the dictionary doesn't have.
01000014 20 000110 00000004 00000001 00000002 => code 272 flags 20 app 4 hop 1 end 2\n
01000014 a0 000110 00000004 00000001 00000002 => code 272 flags a0 app 4 hop 1 end 2\n
01000014 ff 000001 ffffffff 00000000 ffffffff => code 1 flags ff app 4294967295 hop 0 end 4294967295\n

# AVPs by their name, unless their Vendor-ID field is 0; and by code.
01000020 $B 00000108 4000000c 67772e61 => $C\nOrigin-Host \x22gw.a\x22\n
01000020 $B 00000108 40000009 61 000000 => $C\nOrigin-Host \x22a\x22\n
0100001c $B 00000108 40000008 => $C\nOrigin-Host x\n
01000024 $B 00000108 c000000d 00000000 61 000000 => $C\n264/0 \x22a\x22\n
01000020 $B 0000270f 00000009 61 000000 => $C\n9999 x61\n
01000024 $B 0000270f 8000000d 00000001 61 000000 => $C\n9999/1 x61\n
01000020 $B ffffffff 8000000c ffffffff => $C\n4294967295/4294967295 x\n
01000024 $B 0000232d 8000000d 00007ed9 61 000000 => $C\nNote \x22a\x22\n
# Flags and padding that aren't those of the dictionary and of zero bytes.
01000020 $B 00000108 00000009 61 000000 => $C\nOrigin-Host flags 00 \x22a\x22\n
01000020 $B 00000108 60000009 61 000000 => $C\nOrigin-Host flags 60 \x22a\x22\n
01000020 $B 00000108 40000009 61 000001 => $C\nOrigin-Host \x22a\x22 pad x000001\n
01000020 $B 0000270f 1f00000a 6162 ffff => $C\n9999 flags 1f x6162 pad xffff\n
01000028 $B 00000108 40000008 0000270f 00000009 61 000000 => $C\nOrigin-Host x\n9999 x61\n

# Numbers, with the length of their format.
01000020 $B 0000019f 4000000c 00000000 => $C\nCC-Request-Number 0\n
01000020 $B 0000019f 4000000c ffffffff => $C\nCC-Request-Number 4294967295\n
01000020 $B 00000037 4000000c 83aa7e80 => $C\nEvent-Timestamp 2208988800\n
01000020 $B 000001a0 4000000c 00000009 => $C\nCC-Request-Type x00000009\n
01000020 $B 000001a0 4000000c ffffffff => $C\nCC-Request-Type xffffffff\n
01000020 $B 000001ad 4000000c 7fffffff => $C\nExponent 2147483647\n
01000020 $B 000001ad 4000000c 80000000 => $C\nExponent -2147483648\n
01000024 $B 000001a5 40000010 ffffffffffffffff => $C\nCC-Total-Octets 18446744073709551615\n
01000024 $B 000001bf 40000010 7fffffffffffffff => $C\nValue-Digits 9223372036854775807\n
01000024 $B 000001bf 40000010 8000000000000000 => $C\nValue-Digits -9223372036854775808\n
01000024 $B 0000232e c0000010 00007ed9 00000001 => $C\nCharge 1\n
01000020 $B 0000019f 4000000a 0102 0000 => $C\nCC-Request-Number x0102\n
01000020 $B 000001a5 4000000c 00000001 => $C\nCC-Total-Octets x00000001\n
01000020 $B 0000232c 4000000c 3f800000 => $C\nRatio x3f800000\n
# An Enumerated without a list has any number; of one with a list those outside are shown as bytes.
01000020 $B 000001c2 4000000c ffffffff => $C\nSubscription-Id-Type -1\n
01000020 $B 000001a0 4000000c 00000004 => $C\nCC-Request-Type 4\n

# Texts, where the format accepts them: a quote, a backslash and what isn't printed are `\x` and two digits.
01000028 $B 00000107 40000011 67772e613b313b3132 000000 => $C\nSession-Id \x22gw.a;1;12\x22\n
0100001c $B 00000107 40000008 => $C\nSession-Id \x22\x22\n
01000024 $B 00000107 4000000d 61202320 62 000000 => $C\nSession-Id \x22a # b\x22\n
01000024 $B 00000107 40000010 20225c7e7f0ac3a9 => $C\nSession-Id \x22 \x5cx22\x5cx5c~\x5cx7f\x5cx0a\x5cxc3\x5cxa9\x22\n
01000020 $B 00000107 40000009 ff 000000 => $C\nSession-Id xff\n
01000020 $B 00000108 4000000c 67772061 => $C\nOrigin-Host x67772061\n
01000028 $B 00000124 40000013 6161613a2f2f67772e612f 00 => $C\nRedirect-Host \x22aaa://gw.a/\x22\n
01000020 $B 00000124 4000000c 67772e61 => $C\nRedirect-Host x67772e61\n
01000020 $B 00000190 4000000c 70657231 => $C\nFilter-Rule x70657231\n

# Addresses.
01000024 $B 00000101 4000000e 0001 0a000001 0000 => $C\nHost-IP-Address 10.0.0.1\n
01000024 $B 00000101 4000000e 0001 ff6400c8 0000 => $C\nHost-IP-Address 255.100.0.200\n
01000030 $B 00000101 4000001a 0002 20010db8000000000000000000af0001 0000 => $C\nHost-IP-Address 2001:0db8:0000:0000:0000:0000:00af:0001\n
01000020 $B 00000101 4000000c 0008 3439 => $C\nHost-IP-Address family 8 x3439\n
01000020 $B 00000101 4000000a 0000 ffff => $C\nHost-IP-Address family 0 x pad xffff\n
01000024 $B 00000101 4000000d 0001 0a0000 000000 => $C\nHost-IP-Address x00010a0000\n
01000020 $B 00000101 40000009 01 000000 => $C\nHost-IP-Address x01\n

# Groups that the dictionary knows, whose data is AVPs to its end.
let SUBSCRIBED = 000001bb 40000028 000001c2 4000000c 00000000 000001bc 40000013 3439313730313233343536 00
let SUBSCRIPTION = Subscription-Id {\nSubscription-Id-Type 0\nSubscription-Id-Data \x2249170123456\x22\n}
0100003c $B $SUBSCRIBED => $C\n$SUBSCRIPTION\n
01000048 $B $SUBSCRIBED 000001a0 4000000c 00000001 => $C\n$SUBSCRIPTION\nCC-Request-Type 1\n
01000020 $B 0000238c c000000c 00007ed9 => $C\nNest {\n}\n
01000020 $B 0000238c 8000000c 00007ed9 => $C\nNest flags 80 {\n}\n
0100002c $B 0000238c c0000018 00007ed9 0000238c c000000c 00007ed9 => $C\nNest {\nNest {\n}\n}\n
01000038 $B 0000238c c0000018 00007ed9 0000238c c000000c 00007ed9 00000108 4000000c 67772e61 => $C\nNest {\nNest {\n}\n}\nOrigin-Host \x22gw.a\x22\n
# Other data of a group, inside a group too; and a group that the dictionary doesn't know.
01000020 $B 000001bb 4000000a 0102 0000 => $C\nSubscription-Id x0102\n
01000030 $B 0000238c c000001c 00007ed9 0000238c c0000010 00007ed9 00000001 => $C\nNest {\nNest x00000001\n}\n
01000028 $B 0000270f 00000014 00000108 4000000c 67772e61 => $C\n9999 x000001084000000c67772e61\n

# Bytes that are no message, and messages that end in an AVP.
0100 => a header has 20 bytes
02000014 $B => the version isn't 1
01000015 $B 00 => the Message Length is under 20 or no multiple of four
01000018 $B => bytes of the message are missing
01000014 $B 00 => bytes follow the message
01000018 $B 00000108 => an AVP Length doesn't fit
0100001c $B 00000108 40000007 => an AVP Length doesn't fit
01000020 $B 00000108 40000010 67772e61 => an AVP Length doesn't fit
";
