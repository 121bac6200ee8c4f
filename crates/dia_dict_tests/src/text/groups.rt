//! Groups: the length of one is that of its header and of all that is in it, padding included (RFC 6733 section 4.4).

pub(super) const ROWS: &str = r"
# A Subscription-Id (443 is 1bb) of a type (450 is 1c2) and 11 digits (444 is 1bc): 8 + 12 + 20 bytes.
let SUBSCRIPTION = Subscription-Id {\n Subscription-Id-Type 0\n Subscription-Id-Data x3439313730313233343536\n}
let SUBSCRIBED = 000001bb 40000028 000001c2 4000000c 00000000 000001bc 40000013 3439313730313233343536 00
$H\n$SUBSCRIPTION => 0100003c $B $SUBSCRIBED
$H\n$SUBSCRIPTION\nCC-Request-Type 1\n => 01000048 $B $SUBSCRIBED 000001a0 4000000c 00000001
$H\nCC-Request-Type 1\n$SUBSCRIPTION\n$SUBSCRIPTION => 01000070 $B 000001a0 4000000c 00000001 $SUBSCRIBED $SUBSCRIBED

# Nest is 9100 (238c) of vendor 32473 (7ed9): 12 bytes, and what is in it.
$H\nNest {\n} => 01000020 $B 0000238c c000000c 00007ed9
$H\nNest {\nNest {\n}\n} => 0100002c $B 0000238c c0000018 00007ed9 0000238c c000000c 00007ed9
$H\nNest {\nNest {\n264 x61\n}\n264 x62\n} => 01000044 $B 0000238c c0000030 00007ed9 0000238c c0000018 00007ed9 00000108 40000009 61 000000 00000108 40000009 62 000000
$H\nNest {\n}\nNest {\n} => 0100002c $B 0000238c c000000c 00007ed9 0000238c c000000c 00007ed9
# A line may open a group whatever the dictionary knows of the AVP.
$H\n264 {\n} => 0100001c $B 00000108 40000008
$H\n9999/1 flags - {\n264 x61\n} => 0100002c $B 0000270f 00000018 00000001 00000108 40000009 61 000000
# A group as data.
$H\nSubscription-Id x0102 => 01000020 $B 000001bb 4000000a 0102 0000

# With the members on one line: braces and commas are words by themselves, but not in a text.
$H\nSubscription-Id { Subscription-Id-Type 0, Subscription-Id-Data x3439313730313233343536 } => 0100003c $B $SUBSCRIBED
$H\nSubscription-Id{Subscription-Id-Type 0 END_USER_E164,Subscription-Id-Data \x2249170123456\x22,}#one => 0100003c $B $SUBSCRIBED
$H\nNest { } => 01000020 $B 0000238c c000000c 00007ed9
$H\nNest {} => 01000020 $B 0000238c c000000c 00007ed9
$H\n264 { } => 0100001c $B 00000108 40000008
$H\nNest { Nest { 264 x61 }, 264 x62 } => 01000044 $B 0000238c c0000030 00007ed9 0000238c c0000018 00007ed9 00000108 40000009 61 000000 00000108 40000009 62 000000
$H\nNest {\nNest { 264 x61 }\n} => 01000038 $B 0000238c c0000024 00007ed9 0000238c c0000018 00007ed9 00000108 40000009 61 000000
$H\nNest { 264 \x22a},{\x22 } => 0100002c $B 0000238c c0000018 00007ed9 00000108 4000000c 617d2c7b
$H\nNest { 264 x61 pad x } pad x => 01000029 $B 0000238c c0000015 00007ed9 00000108 40000009 61
$H\nNest flags V length 8 { 264 x61, } => 0100002c $B 0000238c 80000008 00007ed9 00000108 40000009 61 000000
$H\nNest { Nest length 9 { } pad xff } => 01000030 $B 0000238c c0000019 00007ed9 0000238c c0000009 00007ed9 ff 000000

# Comments, blanks and empty lines.
$H\n\tNest { # one\n\n   # two\n } # three => 01000020 $B 0000238c c000000c 00007ed9
$H\nNest {# one\n}# two => 01000020 $B 0000238c c000000c 00007ed9

# Flags, a length and padding that are written. A member without padding leaves a length that is no multiple of four.
$H\nNest flags V {\n} => 01000020 $B 0000238c 8000000c 00007ed9
$H\nNest length 8 {\n264 x61\n} => 0100002c $B 0000238c c0000008 00007ed9 00000108 40000009 61 000000
$H\nNest {\n264 x61 pad x\n} => 0100002c $B 0000238c c0000015 00007ed9 00000108 40000009 61 000000
$H\nNest {\n264 x61 pad x\n} pad x => 01000029 $B 0000238c c0000015 00007ed9 00000108 40000009 61
$H\nNest {\n} pad xffff # more => 01000022 $B 0000238c c000000c 00007ed9 ffff
";
