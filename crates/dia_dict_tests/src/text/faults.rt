//! All faults of a text: how many there are, and the first twenty.

pub(super) const ROWS: &str = r"
# A text that makes messages has none.
$H => 0
$H\n264 x61\n\n$H\nNest {\n} => 0
\n\n# nothing\n => 1; syntax at line 4

# Each faulty line is reported, as if those before it were absent.
$H\nOrigin-Hots x61\nCC-Request-Number one\n264 x61 x62\n264 x61 => 3; name at line 2; value at line 3; syntax at line 4
$H\n264 x6\n}\nNest {\n265 x => 3; value at line 2; braces at line 3; braces at line 5
# A faulty header is the header all the same.
CCR hop 1 end 2\n264 x61\n264 x6 => 2; name at line 1; value at line 3
Origin-Host x61\n264 x6 => 2; name at line 1; value at line 2
# A faulty line whose last byte is a brace opens a group all the same.
$H\nNests {\n264 x61\n} => 1; name at line 2
$H\nNests { # one\n264 x61\n} => 2; name at line 2; braces at line 4
# A group on one line is left out with its braces.
$H\nNest {\nNest { 264 x6 }\n264 x61\n} => 1; value at line 3
$H\nNest { 264 x61, Nest {\n264 x61\n} => 1; braces at line 2
# An empty line ends a message.
$H\nNest {\n\n264 x61\n} => 3; braces at line 2; name at line 4; braces at line 5
code 1\n\ncode 2\n\n$H\n264 x6 => 3; syntax at line 1; syntax at line 3; value at line 6

# Twenty-one faults, of which twenty are reported.
let FIVE = a\nb\nc\nd\ne
$H\n$FIVE\n$FIVE\n$FIVE\n$FIVE\nf => 21; name at line 2; name at line 3; name at line 4; name at line 5; name at line 6; name at line 7; name at line 8; name at line 9; name at line 10; name at line 11; name at line 12; name at line 13; name at line 14; name at line 15; name at line 16; name at line 17; name at line 18; name at line 19; name at line 20; name at line 21
";
