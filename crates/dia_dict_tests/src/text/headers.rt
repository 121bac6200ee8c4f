//! Headers.

pub(super) const ROWS: &str = r"
# Without AVPs a message has 20 bytes. R is 80, P is 40, E is 20 and T is 10; 272 is 110 in hexadecimal, and 280 is 118.
$H => 01000014 $B
$H\n => 01000014 $B
code 272 flags c0 app 4 hop 1 end 2 => 01000014 $B
code 0 flags - app 0 hop 0 end 0 => 01000014 00 000000 00000000 00000000 00000000
code 280 flags R app 0 hop 3735928559 end 10 => 01000014 80 000118 00000000 deadbeef 0000000a
code 280 flags ET app 0 hop 1 end 2 => 01000014 30 000118 00000000 00000001 00000002
code 16777215 flags RPET app 4294967295 hop 4294967295 end 4294967295 => 01000014 f0 ffffff ffffffff ffffffff ffffffff
code 1 flags ff app 0 hop 0 end 0 => 01000014 ff 000001 00000000 00000000 00000000
code 1 flags 0F app 0 hop 0 end 0 => 01000014 0f 000001 00000000 00000000 00000000
# As `show --names` prints them: a sign for each flag, and the bits without a name.
code 1 flags R--T app 0 hop 0 end 0 => 01000014 90 000001 00000000 00000000 00000000
code 1 flags ---- app 0 hop 0 end 0 => 01000014 00 000001 00000000 00000000 00000000
code 1 flags -P--+01 app 0 hop 0 end 0 => 01000014 41 000001 00000000 00000000 00000000
code 1 flags -P- app 0 hop 0 end 0 => value at line 1
code 1 flags -P--- app 0 hop 0 end 0 => value at line 1
code 1 flags P--- app 0 hop 0 end 0 => value at line 1
code 1 flags -P--+1 app 0 hop 0 end 0 => value at line 1
# Two letters that are hexadecimal digits would be digits; a letter alone is a letter.
code 1 flags E app 0 hop 0 end 0 => 01000014 20 000001 00000000 00000000 00000000
code 01 flags - app 007 hop 0 end 0 => 01000014 00 000001 00000007 00000000 00000000

# The code, the flags and the application of a command, unless the line says others.
Credit-Control-Request hop 1 end 2 => 01000014 $B
Credit-Control-Answer hop 1 end 2 => 01000014 40 000110 00000004 00000001 00000002
Device-Watchdog-Request hop 1 end 2 => 01000014 80 000118 00000000 00000001 00000002
Huge hop 1 end 2 => 01000014 00 ffffff 00000000 00000001 00000002
Credit-Control-Request flags RPT hop 1 end 2 => 01000014 d0 000110 00000004 00000001 00000002
Credit-Control-Request app 5 hop 1 end 2 => 01000014 c0 000110 00000005 00000001 00000002
Credit-Control-Request flags - app 0 hop 1 end 2 => 01000014 00 000110 00000000 00000001 00000002

# Blanks, empty lines and comments.
\n # one\n\t\x20\n\t $H # two\r\n\r\n# three => 01000014 $B
code\t272   flags\x20RP\tapp 4 hop 1 end 2\r\n => 01000014 $B
Credit-Control-Request hop 1 end 2# a comment needs no blank => 01000014 $B
; one\nCredit-Control-Request hop 1 end 2; a comment needs no blank => 01000014 $B

# Hexadecimal numbers.
code 0x110 flags RP app 0x4 hop 0xdeadbeef end 0x2 => 01000014 c0 000110 00000004 deadbeef 00000002
code 0x1000000 flags R app 4 hop 1 end 2 => value at line 1
code 1 flags R app 4 hop 0x100000000 end 2 => value at line 1
";
