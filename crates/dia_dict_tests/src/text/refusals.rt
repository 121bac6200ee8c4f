//! Texts that make no message: the kind of the first fault, and its line.

pub(super) const ROWS: &str = r"
# No header: the text ends too early, on its last line.
 => syntax at line 1
\n => syntax at line 2
# nothing is said here
\x20# nothing\n\n => syntax at line 3

# Headers. What is written has its order, and hop and end have no default.
code => value at line 1
code x flags R app 4 hop 1 end 2 => value at line 1
code 16777216 flags R app 4 hop 1 end 2 => value at line 1
code -1 flags R app 4 hop 1 end 2 => value at line 1
code 1 => syntax at line 1
code 1 app 4 hop 1 end 2 => syntax at line 1
code 1 flags R hop 1 end 2 => syntax at line 1
code 1 flags R app 4 end 2 => syntax at line 1
code 1 flags R app 4 hop 1 => syntax at line 1
code 1 app 4 flags R hop 1 end 2 => syntax at line 1
code 1 flags R flags R app 4 hop 1 end 2 => syntax at line 1
code 1 flags => value at line 1
code 1 flags r app 4 hop 1 end 2 => value at line 1
code 1 flags PR app 4 hop 1 end 2 => value at line 1
code 1 flags RR app 4 hop 1 end 2 => value at line 1
code 1 flags V app 4 hop 1 end 2 => value at line 1
code 1 flags 100 app 4 hop 1 end 2 => value at line 1
code 1 flags R app => value at line 1
code 1 flags R app 4294967296 hop 1 end 2 => value at line 1
code 1 flags R app 4 hop one end 2 => value at line 1
code 1 flags R app 4 hop 1 end 4294967296 => value at line 1
$H 3 => syntax at line 1
$H {\n} => syntax at line 1
\n# one\nCCR hop 1 end 2 => name at line 3
credit-control-request hop 1 end 2 => name at line 1
Credit-Control-Request => syntax at line 1
Credit-Control-Request hop 1 => syntax at line 1
Session-Id hop 1 end 2 => name at line 1
# A command of no code of its own names no message.
answer-message hop 1 end 2 => name at line 1
272 flags R app 4 hop 1 end 2 => name at line 1
} => name at line 1

# AVPs.
$H\n264 => syntax at line 2
$H\nOrigin-Host => syntax at line 2
$H\n\n264 x61 x62 => syntax at line 3
$H\n264 x61 pad => syntax at line 2
$H\n264 x61 pad 00 => value at line 2
$H\n264 x61 pad x0 => value at line 2
$H\n264 x61 pad x00 pad x00 => syntax at line 2
$H\n264 x61 flags M => syntax at line 2
$H\n264 length 12 flags M x61 => value at line 2
$H\n264 flags M flags M x61 => value at line 2
$H\n264 flags R x61 => value at line 2
$H\n264 flags x61 => value at line 2
$H\n264 flags => value at line 2
$H\n264 length => value at line 2
$H\n264 length 16777216 x61 => value at line 2
$H\n264 length -1 x61 => value at line 2
$H\n264 length x61 => value at line 2
$H\n264 pad x61 => value at line 2
$H\nOrigin-Realm x61 => name at line 2
$H\norigin-host x61 => name at line 2
$H\nCredit-Control-Request x61 => name at line 2
$H\n264/ x61 => name at line 2
$H\n/264 x61 => name at line 2
$H\n264/1/2 x61 => name at line 2
$H\n264: x61 => name at line 2
$H\n:264 x61 => name at line 2
$H\n264:1:2 x61 => name at line 2
$H\n264:1/2 x61 => name at line 2
$H\n264/1:2 x61 => name at line 2
$H\n4294967296 x61 => name at line 2
$H\n264/4294967296 x61 => name at line 2
$H\n264:4294967296 x61 => name at line 2
$H\n+264 x61 => name at line 2
$H\nx61 => name at line 2
$H\ncode 264 x61 => name at line 2
$H\n264 a.b => value at line 2
$H\n264 \xff => value at line 2
$H\n\xff x61 => name at line 2
$H\n\x00 => name at line 2

# Braces.
$H\n} => braces at line 2
$H\nNest {\n}\n} => braces at line 4
$H\nNest { => braces at line 2
$H\nNest {\n => braces at line 3
$H\nNest {\nNest {\n}\n => braces at line 5
$H\nNest {\n264 x61 } => syntax at line 3
$H\nNest {\n} } => syntax at line 3
$H\nNest {\n} pad => syntax at line 3
$H\nNest {\n} x => syntax at line 3
$H\nNest\n{\n} => syntax at line 2
$H\n{ => name at line 2
$H\nNest pad x00 {\n} => value at line 2

# A group on one line has commas between its members, and its closing brace on the line.
$H\nNest { 264 x61 => syntax at line 2
$H\nNest { 264 x61\n} => syntax at line 2
$H\nNest { 264 x61, => braces at line 2
$H\nNest { Nest { => braces at line 2
$H\nNest { Nest { } => syntax at line 2
$H\nNest { 264 x61 264 x62 } => syntax at line 2
$H\nNest { Nest { } 264 x61 } => syntax at line 2
$H\nNest { 264 x61,, 264 x62 } => name at line 2
$H\nNest { , } => name at line 2
$H\nNest { Origin-Realm x61 } => name at line 2
$H\nNest { 264 x6 } => value at line 2
$H\nNest { 264 } => value at line 2
$H\nNest { } } => syntax at line 2
$H\nNest { 264 x61 } 264 x62 => syntax at line 2
$H\n264 x61, 264 x62 => syntax at line 2
$H\n, 264 x61 => name at line 2

# The first fault is reported, also where a later line has another.
$H\n264 x61\nOrigin-Realm x61\n} => name at line 3
$H\n264 x6\nOrigin-Realm x61 => value at line 2
code 1\nOrigin-Realm x61 => syntax at line 1
";
