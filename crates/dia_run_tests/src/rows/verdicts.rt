//! Verdicts on messages that are valid, or no whole ones. Those with a fault are in `faults`.

pub const ROWS: &str = r"
# The Result-Code of an error answer.
let RESULT = 0000010c4000000c00000bb9

# One required number.
let NUMBER = $X $T { X }

# Valid messages.
check kept any | $base | $REQUEST => 0 valid DWR\n
check kept any | $base | 0100002c80000118 $I 000001084000000b612e62ff000001284000000962ffffff => 0 valid DWR\n
check kept any | $base | 0100003080000118 $I 00000108c000000f00000000612e6200 $OR => 0 valid DWR\n
check kept any | $base | 0100003480000118 $I $OH $OR 0000270f00000008 => 0 valid DWR\n
check kept any | $base | 0100003820000118 $I $OH $OR $RESULT => 0 valid answer-message\n
check kept any | $base | 0100003860000118 $I $OH $OR $RESULT => 0 valid answer-message\n

# Messages that are no whole ones.
check kept any | $base | 0100002c800001180000000000000001000000 => 1 truncated\n
check kept any | $base | 0100002c80000118 $I $OH 0000012840000009620000 => 1 truncated\n
check kept any | $base | 0100002c80000118 $I $OH $OR 00 => 1 trailing\n
check kept any | $base | 0100003080000118 $I $OH $OR => 1 truncated\n
check kept any | $base | 0100002880000118 $I $OH $OR => 1 trailing\n

# Data by the format of the dictionary: the base text whose Failed-AVP is declared OctetString and has no group.
let OCTETS = %avp Failed-AVP 279 OctetString any\n%avp User-Name 1 UTF8String any\n%avp Proxy-State 33 OctetString any\n%avp Host-IP-Address 257 Address any\n%avp Auth-Application-Id 258 Unsigned32 any\n%avp Acct-Application-Id 259 Unsigned32 any\n%avp Session-Id 263 UTF8String any\n%avp Origin-Host 264 DiameterIdentity any\n%avp Supported-Vendor-Id 265 Unsigned32 any\n%avp Vendor-Id 266 Unsigned32 any\n%avp Firmware-Revision 267 Unsigned32 any\n%avp Result-Code 268 Unsigned32 any\n%avp Product-Name 269 UTF8String any\n%avp Disconnect-Cause 273 Enumerated any ( 0 1 2 )\n%avp Origin-State-Id 278 Unsigned32 any\n%avp Proxy-Host 280 DiameterIdentity any\n%avp Error-Message 281 UTF8String any\n%avp Error-Reporting-Host 294 DiameterIdentity any\n%avp Origin-Realm 296 DiameterIdentity any\n%avp Experimental-Result-Code 298 Unsigned32 any\n%avp Inband-Security-Id 299 Unsigned32 any\n<Vendor-Specific-Application-Id> ::= < AVP Header: 260 >\n  { Vendor-Id }\n  [ Auth-Application-Id ]\n  [ Acct-Application-Id ]\n<Proxy-Info> ::= < AVP Header: 284 >\n  { Proxy-Host }\n  { Proxy-State }\n  * [ AVP ]\n<Experimental-Result> ::= < AVP Header: 297 >\n  { Vendor-Id }\n  { Experimental-Result-Code }\n<CER> ::= < Diameter Header: 257, REQ >\n  { Origin-Host }\n  { Origin-Realm }\n  1* { Host-IP-Address }\n  { Vendor-Id }\n  { Product-Name }\n  [ Origin-State-Id ]\n  * [ Supported-Vendor-Id ]\n  * [ Auth-Application-Id ]\n  * [ Inband-Security-Id ]\n  * [ Acct-Application-Id ]\n  * [ Vendor-Specific-Application-Id ]\n  [ Firmware-Revision ]\n  * [ AVP ]\n<CEA> ::= < Diameter Header: 257 >\n  { Result-Code }\n  { Origin-Host }\n  { Origin-Realm }\n  1* { Host-IP-Address }\n  { Vendor-Id }\n  { Product-Name }\n  [ Origin-State-Id ]\n  [ Error-Message ]\n  [ Failed-AVP ]\n  * [ Supported-Vendor-Id ]\n  * [ Auth-Application-Id ]\n  * [ Inband-Security-Id ]\n  * [ Acct-Application-Id ]\n  * [ Vendor-Specific-Application-Id ]\n  [ Firmware-Revision ]\n  * [ AVP ]\n<DWR> ::= < Diameter Header: 280, REQ >\n  { Origin-Host }\n  { Origin-Realm }\n  [ Origin-State-Id ]\n  * [ AVP ]\n<DWA> ::= < Diameter Header: 280 >\n  { Result-Code }\n  { Origin-Host }\n  { Origin-Realm }\n  [ Error-Message ]\n  [ Failed-AVP ]\n  [ Origin-State-Id ]\n  * [ AVP ]\n<DPR> ::= < Diameter Header: 282, REQ >\n  { Origin-Host }\n  { Origin-Realm }\n  { Disconnect-Cause }\n  * [ AVP ]\n<DPA> ::= < Diameter Header: 282 >\n  { Result-Code }\n  { Origin-Host }\n  { Origin-Realm }\n  [ Error-Message ]\n  [ Failed-AVP ]\n  * [ AVP ]\n<answer-message> ::= < Diameter Header: code, ERR [, PXY] >\n  0*1 < Session-Id >\n  { Origin-Host }\n  { Origin-Realm }\n  { Result-Code }\n  [ Origin-State-Id ]\n  [ Error-Message ]\n  [ Error-Reporting-Host ]\n  [ Failed-AVP ]\n  [ Experimental-Result ]\n  * [ Proxy-Info ]\n  * [ AVP ]\n
check kept any | $OCTETS | 0100003c80000118 $I $OH $OR 00000117400000100000270f40000008 => 0 valid DWR\n

# The dictionary is judged before the message.
check kept any | $X $T 0* { X } | 0 => 2 dictionary 1: required-min T X\n
check kept any | $NUMBER | 0 => 2 message: not hexadecimal\n

# The command code 0, and messages above 64 kB: an unknown AVP, and a text.
let ZERO = 00
let LETTER = 61
check kept any | <T> ::= < Diameter Header: 0, REQ > * [ AVP ] | 0101001c80000000 $I 0000270f00010008 $ZERO*65536 => 0 valid T\n
check kept any | %avp X 9003 UTF8String any $T { X } | 0101001c8000012e $I 0000232b00010008 $LETTER*65536 => 0 valid T\n
check kept any | %avp X 9003 UTF8String any $T { X } | 0101001c8000012e $I 0000232b00010008 $LETTER*65535 ff => 1 fault 5004 at 20 leaf-value X\n

# An unknown AVP with M clear in a group.
check kept any | $base | 0100003c80000118 $I $OH $OR 00000117400000100000270f00000008 => 0 valid DWR\n

# No more levels are opened than asked.
check kept 1 | $base | 0100003c80000118 $I $OH $OR 00000117400000100000270f00000008 => 0 valid DWR\n
";
