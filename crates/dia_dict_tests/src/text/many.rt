//! Texts of several messages: a line for each, or the first fault by its line in the whole text.

pub(super) const ROWS: &str = r"
$H => 01000014 $B\n
$H\n\n$H => 01000014 $B\n01000014 $B\n
$H\n264 x61\n\n\n\nCredit-Control-Answer hop 1 end 2\n => 01000020 $B 00000108 40000009 61 000000\n01000014 40 000110 00000004 00000001 00000002\n
# Comments and blanks are no empty lines, and where there is nothing else there is no message.
\n\n# one\n\n$H\n# two\n\x20\n\r\n264 x61\n\n# three => 01000020 $B 00000108 40000009 61 000000\n

# A text without a message has its fault on its last line.
 => syntax at line 1
\n\n# nothing\n => syntax at line 4
# Each fault is that of its message.
code 1\n\n$H => syntax at line 1
$H\n\n264 x61 => name at line 3
$H\n\n\n$H\n264 => syntax at line 5
$H\n\n$H\nNest { => braces at line 4
$H\nNest {\n\n} => braces at line 2
$H\n264 x6\n\ncode 1 => value at line 2
";
