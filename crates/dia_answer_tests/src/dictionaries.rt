//! Dictionaries of the rows.

/// Credit control (RFC 8506), in part.
pub(super) const CREDIT_CONTROL: &str = r"
%avp Session-Id 263 UTF8String must
%avp Origin-Host 264 DiameterIdentity must
%avp Origin-Realm 296 DiameterIdentity must
%avp Destination-Realm 283 DiameterIdentity must
%avp Result-Code 268 Unsigned32 must
%avp Failed-AVP 279 Grouped must
%avp Proxy-Host 280 DiameterIdentity must
%avp Error-Message 281 UTF8String mustnot
%avp Proxy-Info 284 Grouped must
%avp Proxy-State 33 OctetString must
%avp Auth-Application-Id 258 Unsigned32 must
%avp Termination-Cause 295 Enumerated must
%avp User-Name 1 UTF8String must
%avp CC-Request-Number 415 Unsigned32 must
%avp CC-Request-Type 416 Enumerated must ( 1..4 )
%avp CC-Sub-Session-Id 419 Unsigned64 must
%avp Rating-Group 432 Unsigned32 must
%avp CC-Time 420 Unsigned32 must
%avp Requested-Service-Unit 437 Grouped must
%avp Subscription-Id 443 Grouped must
%avp Subscription-Id-Data 444 UTF8String must
%avp Subscription-Id-Type 450 Enumerated must ( 0..4 )
%avp Multiple-Services-Indicator 455 Enumerated must ( 0..1 )
%avp Multiple-Services-Credit-Control 456 Grouped must
%avp Service-Context-Id 461 UTF8String must
<Proxy-Info> ::= < AVP Header: 284 > { Proxy-Host } { Proxy-State } * [ AVP ]
<Failed-AVP> ::= < AVP Header: 279 > 1* { AVP }
<Requested-Service-Unit> ::= < AVP Header: 437 > [ CC-Time ] * [ AVP ]
<Subscription-Id> ::= < AVP Header: 443 > { Subscription-Id-Type } { Subscription-Id-Data }
<Multiple-Services-Credit-Control> ::= < AVP Header: 456 > [ Requested-Service-Unit ] * [ AVP ]
<answer-message> ::= < Diameter Header: code, ERR [, PXY] >
  0*1 < Session-Id >
  { Origin-Host }
  { Origin-Realm }
  { Result-Code }
  [ Error-Message ]
  [ Failed-AVP ]
  * [ Proxy-Info ]
  * [ AVP ]
<STR> ::= < Diameter Header: 275, REQ, PXY >
  < Session-Id >
  { Origin-Host }
  { Origin-Realm }
  { Destination-Realm }
  { Auth-Application-Id }
  { Termination-Cause }
  * [ AVP ]
<STA> ::= < Diameter Header: 275, PXY >
  < Session-Id >
  { Result-Code }
  { Origin-Host }
  { Origin-Realm }
  [ Error-Message ]
  * [ Failed-AVP ]
  * [ AVP ]
<Credit-Control-Request> ::= < Diameter Header: 272, REQ, PXY, 4 >
  < Session-Id >
  { Origin-Host }
  { Origin-Realm }
  { Destination-Realm }
  { Auth-Application-Id }
  { Service-Context-Id }
  { CC-Request-Type }
  { CC-Request-Number }
  [ User-Name ]
  [ CC-Sub-Session-Id ]
  * [ Subscription-Id ]
  [ Multiple-Services-Indicator ]
  * [ Multiple-Services-Credit-Control ]
  * [ Proxy-Info ]
  * [ AVP ]
<Credit-Control-Answer> ::= < Diameter Header: 272, PXY, 4 >
  < Session-Id >
  { Result-Code }
  { Origin-Host }
  { Origin-Realm }
  { Auth-Application-Id }
  { CC-Request-Type }
  { CC-Request-Number }
  [ User-Name ]
  * [ Proxy-Info ]
  * [ Failed-AVP ]
  * [ AVP ]
";

/// RFC 3588 in part: its error message holds one Proxy-Info at most.
pub(super) const RFC_3588: &str = r"
%avp Session-Id 263 UTF8String must
%avp Origin-Host 264 DiameterIdentity must
%avp Result-Code 268 Unsigned32 must
%avp Failed-AVP 279 Grouped must
%avp Proxy-Host 280 DiameterIdentity must
%avp Error-Message 281 UTF8String mustnot
%avp Destination-Realm 283 DiameterIdentity must
%avp Proxy-Info 284 Grouped must
%avp Origin-Realm 296 DiameterIdentity must
%avp Proxy-State 33 OctetString must
%avp Accounting-Record-Type 480 Enumerated must ( 1..4 )
%avp Accounting-Record-Number 485 Unsigned32 must
<Proxy-Info> ::= < AVP Header: 284 > { Proxy-Host } { Proxy-State } * [ AVP ]
<Failed-AVP> ::= < AVP Header: 279 > 1* { AVP }
<answer-message> ::= < Diameter Header: code, ERR [, PXY] >
  0*1 < Session-Id >
  { Origin-Host }
  { Origin-Realm }
  { Result-Code }
  [ Proxy-Info ]
  * [ AVP ]
<ACR> ::= < Diameter Header: 271, REQ, PXY >
  < Session-Id >
  { Origin-Host }
  { Origin-Realm }
  { Destination-Realm }
  { Accounting-Record-Type }
  { Accounting-Record-Number }
  * [ Proxy-Info ]
  * [ AVP ]
<ACA> ::= < Diameter Header: 271, PXY >
  < Session-Id >
  { Result-Code }
  { Origin-Host }
  { Origin-Realm }
  { Accounting-Record-Type }
  { Accounting-Record-Number }
  * [ Proxy-Info ]
  * [ AVP ]
";

/// One request, and no answer to it.
pub(super) const NONE: &str = r"
%avp Session-Id 263 UTF8String must
<T> ::= < Diameter Header: 302, REQ > { Session-Id }
";
