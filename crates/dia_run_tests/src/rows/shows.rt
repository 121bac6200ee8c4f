//! Messages, shown.

pub const ROWS: &str = r#"
# The lines of the request under the empty dictionary, and under the base dictionary.
let REQUEST_LINES = header flags 80 code 280 app 0 hop 1 end 2 length 44\n20 0 264 - 40 11 ? x612e62\n32 0 296 - 40 9 ? x62\n
let BASE_LINES = header flags 80 code 280 app 0 hop 1 end 2 length 44\n20 0 264 - 40 11 Origin-Host "a.b"\n32 0 296 - 40 9 Origin-Realm "b"\n

# Messages under the empty dictionary.
show | | $REQUEST => 0 $REQUEST_LINES
show | | 0100003080000118 $I \n00000108c000000f00000000612e6200\n000001284000000962000000 => 0 header flags 80 code 280 app 0 hop 1 end 2 length 48\n20 0 264 0 c0 15 ? x612e62\n36 0 296 - 40 9 ? x62\n
show | | 010000148000012e $I => 0 header flags 80 code 302 app 0 hop 1 end 2 length 20\n

# A bad length ends it.
show | | 0100002c80000118 $I 0000010840000007612e6200 $OR => 1 header flags 80 code 280 app 0 hop 1 end 2 length 44\nfault 5014 at 20 avp-length -\n

# What is no message.
show | | => 2 message: short\n
show | | 0100002c800001180000000000000001000000 => 2 message: short\n
show | | 0200002c80000118 $I $OH $OR => 2 message: version\n
show | | 0100002e80000118 $I $OH $OR => 2 message: length\n
show | | 0100002c80000118 $I $OH 0000012840000009620000 => 2 message: truncated\n
show | | 0100002c80000118 $I $OH $OR 00 => 2 message: trailing\n
show | | 0 => 2 message: not hexadecimal\n
show | | 0g => 2 message: not hexadecimal\n

# The names and values of the base dictionary.
show | $base | $REQUEST => 0 $BASE_LINES
show | $base | 0100003480000118 $I $OH $OR 0000011740000008 => 0 header flags 80 code 280 app 0 hop 1 end 2 length 52\n20 0 264 - 40 11 Origin-Host "a.b"\n32 0 296 - 40 9 Origin-Realm "b"\n44 0 279 - 40 8 Failed-AVP group\n

# Groups.
show | $S2 | 0100002c8000012d $I 000023290000001800002329000000100000232900000008 => 0 header flags 80 code 301 app 0 hop 1 end 2 length 44\n20 0 9001 - 00 24 Node group\n28 1 9001 - 00 16 Node group\n36 2 9001 - 00 8 Node group\n
show | $S2 | 0100002c8000012d $I 000023290000001000002329000000080000232900000008 => 0 header flags 80 code 301 app 0 hop 1 end 2 length 44\n20 0 9001 - 00 16 Node group\n28 1 9001 - 00 8 Node group\n36 0 9001 - 00 8 Node group\n
show | $S2 | 0100002c8000012d $I 000023290000001800002329000000100000232900000007 => 1 header flags 80 code 301 app 0 hop 1 end 2 length 44\n20 0 9001 - 00 24 Node group\n28 1 9001 - 00 16 Node group\nfault 5014 at 36 avp-length -\n

# A long text, and long data of an unknown AVP.
let ZERO = 00
let LETTER = 61
let A = a
show | %avp X 9003 UTF8String any $T { X } | 0101001c8000012e $I 0000232b00010008 $LETTER*65536 => 0 header flags 80 code 302 app 0 hop 1 end 2 length 65564\n20 0 9003 - 00 65544 X "$A*65536"\n
show | | 0101001c80000000 $I 0000270f00010008 $ZERO*65536 => 0 header flags 80 code 0 app 0 hop 1 end 2 length 65564\n20 0 9999 - 00 65544 ? x$ZERO*65536\n
"#;
