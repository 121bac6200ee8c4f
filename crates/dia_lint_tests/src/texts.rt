//! The rows of `rows`.

/// Dictionaries, by the rules that follow from their meaning.
pub(super) const SMALL: &str = r"
let X = %avp X 9001 Unsigned32 any
let Y = %avp Y 9002 OctetString any
let N = %avp N 9003 Enumerated any
let T = <T> ::= < Diameter Header: 302, REQ >
let U = <U> ::= < Diameter Header: 302, REQ, 5 >
let G = <G> ::= < AVP Header: 9100 >
let H = <H> ::= < AVP Header: 9101 >
kept exact,says-nothing,never-listed | $G { G } $T { G } => d:1:2: no-level G: it needs itself\nd:1:37: no-message T: it needs G, and there is none
kept exact,says-nothing,never-listed | $G { H } $H { G } $T [ G ] * [ AVP ] => d:1:2: no-level G: it needs H, and there is none\nd:1:37: no-level H: it needs G, and there is none\nd:1:111: never-stands T/G: there is no G
refused exact,says-nothing,never-listed | $X $G { X } 1* { AVP } $T [ G ] => d:1:6: never-held X: no valid message has it\nd:1:29: no-level G: no AVP is left for its wildcard\nd:1:114: never-stands T/G: there is no G
kept exact,says-nothing,never-listed | $X $G { X } 1* { AVP } $T { X } [ G ] => d:1:29: never-listed G: no valid message has it without an AVP by a wildcard
kept exact,says-nothing,never-listed | $X $T 1398099*1398099 { X } => nothing found
kept exact,says-nothing,never-listed | $X $T 1398100*1398100 { X } => d:1:6: never-held X: no valid message has it\nd:1:29: no-message T: it needs more bytes than a message has
kept exact,says-nothing,never-listed | $X $T 1398099*1398099 { X } [ AVP ] => d:1:90: never-stands T/AVP: no AVP is left for it
kept exact,says-nothing,never-listed | $X $Y $T 1398098*1398098 { X } *2 [ Y ] => nothing found
refused exact,says-nothing,never-listed | $X $Y $T { X } * [ AVP ] => d:1:33: never-listed Y: only wildcards let it in
refused exact,says-nothing,never-listed | $X $T [ X ] * [ AVP ] => d:1:76: never-stands T/AVP: no AVP is left for it
kept exact,says-nothing,never-listed | $X $T * [ X ] * [ AVP ] => d:1:70: says-nothing T/X: the wildcard says it
kept exact,says-nothing,never-listed | $X $T *5 [ X ] * [ AVP ] => nothing found
kept exact,says-nothing,never-listed | $X $T * < X > * [ AVP ] => nothing found
kept exact,says-nothing,never-listed | $X $T * [ X ] 1* { AVP } => d:1:6: never-listed X: no valid message has it without an AVP by a wildcard
kept exact,says-nothing,never-listed | $X $G { X } $T * [ AVP ] => d:1:6: never-listed X: no valid message has it without an AVP by a wildcard\nd:1:29: never-listed G: only wildcards let it in
kept exact,says-nothing,never-listed | $X $Y $T *0 [ X ] { Y } * [ AVP ] $U * [ AVP ] => d:1:6: never-listed X: only wildcards let it in
kept exact,says-nothing,never-listed | $X $T *0 [ X ] => d:1:6: never-held X: no valid message has it\nd:1:71: says-nothing T/X: nothing lets it in
kept exact,says-nothing,never-listed | $X $T *0 [ X ] * [ AVP ] => d:1:6: never-held X: no valid message has it
kept exact,says-nothing,never-listed | $X $T { X } $U { X } => d:1:73: same-command U: as T
kept exact,says-nothing,never-listed | $X $Y $T < X > < Y > $U < X > { Y } => d:1:107: same-command U: as T
kept exact,says-nothing,never-listed | $X $Y $T < X > < Y > $U < Y > < X > => nothing found
kept exact,says-nothing,never-listed | $X $T * [ AVP ] $U * [ X ] * [ AVP ] => d:1:77: same-command U: as T\nd:1:121: says-nothing U/X: the wildcard says it
kept exact,says-nothing,never-listed | $N ( 0..3 5 3..4 ) $T [ N ] => d:1:6: twice-listed N: 3
";

/// A dictionary without findings.
pub(super) const GOOD: &str = r"%avp Session-Id 263 UTF8String must
%avp Origin-Host 264 DiameterIdentity must
%avp Origin-Realm 296 DiameterIdentity must
%avp Destination-Realm 283 DiameterIdentity must
%avp Result-Code 268 Unsigned32 must
<Q> ::= < Diameter Header: 302, REQ, PXY, 16777300 >
  < Session-Id >
  { Origin-Host }
  { Origin-Realm }
  { Destination-Realm }
  * [ AVP ]
<A> ::= < Diameter Header: 302, PXY, 16777300 >
  < Session-Id >
  { Origin-Host }
  { Origin-Realm }
  [ Result-Code ]
  * [ AVP ]
<E> ::= < Diameter Header: code, ERR [, PXY] >
  0*1 < Session-Id >
  { Origin-Host }
  { Origin-Realm }
  { Result-Code }
  * [ AVP ]
";

/// Changes of it.
pub(super) const CHANGES: &str = r"
let A = <A> ::= < Diameter Header: 302, PXY, 16777300 >\n  < Session-Id >\n  { Origin-Host }\n  { Origin-Realm }\n  [ Result-Code ]\n  * [ AVP ]\n
let E = <E> ::= < Diameter Header: code, ERR [, PXY] >\n  0*1 < Session-Id >\n  { Origin-Host }\n  { Origin-Realm }\n  { Result-Code }\n  * [ AVP ]\n
 => nothing found
$A |  => d:6:2: no-answer Q: code 302, application 16777300
302, PXY | 303, PXY => d:6:2: no-answer Q: code 302, application 16777300\nd:12:2: no-request A: code 303, application 16777300
: 302, PXY | : 302 => d:12:2: p-differs A: P clear, that of Q is set
$E |  => d:6:2: no-error Q: no code, ERR
\x20[, PXY] |  => d:18:2: p-differs E: P clear, that of Q is set
\x20\x20{ Origin-Host }\n |  => d:6:2: no-origin Q/Origin-Host: it isn't required
{ Destination-Realm } | [ Destination-Realm ] => d:10:5: no-realm Q: Destination-Realm isn't required
\x20\x20[ Result-Code ]\n | \x20\x20[ Result-Code ]\n  [ Destination-Realm ]\n => d:17:5: realm-answered A/Destination-Realm: an answer has none
REQ, PXY | REQ | 302, PXY | 302 => d:10:5: realm-unrouted Q/Destination-Realm: the request isn't proxiable
* [ AVP ] | *9 [ AVP ] => d:6:2: no-route-record Q: not any number of it\nd:6:2: no-proxy-info Q: not any number of it\nd:11:8: closed Q: it takes 0..9 other AVPs
\x20\x20[ Result-Code ]\n  * [ AVP ]\n | \x20\x20[ Result-Code ]\n => d:12:2: no-proxy-info A: not any number of it\nd:12:2: no-failed-avp A: it takes no Failed-AVP\nd:12:2: closed A: it takes no other AVPs
\x20\x20[ Result-Code ]\n |  => d:12:2: no-result A: neither Result-Code nor Experimental-Result
16777300 | 5 | 16777300 | 5 => d:16:5: no-result A: Result-Code isn't required
< Session-Id > | { Session-Id } => d:7:5: session-place Q: Session-Id isn't the first
302, PXY, 16777300 >\n  < Session-Id >\n | 302, PXY, 16777300 >\n => d:12:2: session-lost A: Q has Session-Id\nd:12:2: no-session A: neither Session-Id nor Auth-Session-State
UTF8String | OctetString => d:1:6: base-avp Session-Id: OctetString, not UTF8String
Unsigned32 must | Unsigned32 mustnot => d:5:6: base-avp Result-Code: mustnot, not must
302 | 16777214 | 302 | 16777214 => d:6:2: reserved Q: code 16777214 is for experiments\nd:12:2: reserved A: code 16777214 is for experiments
";
