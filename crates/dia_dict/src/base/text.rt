//! The text of the base dictionary.

/// The text of the base dictionary (after RFC 6733 sections 5 to 8; which rules and counts it lists is our profile), in
/// canonical form.
pub(super) const TEXT: &str = "\
%avp User-Name 1 UTF8String any
%avp Proxy-State 33 OctetString any
%avp Host-IP-Address 257 Address any
%avp Auth-Application-Id 258 Unsigned32 any
%avp Acct-Application-Id 259 Unsigned32 any
%avp Session-Id 263 UTF8String any
%avp Origin-Host 264 DiameterIdentity any
%avp Supported-Vendor-Id 265 Unsigned32 any
%avp Vendor-Id 266 Unsigned32 any
%avp Firmware-Revision 267 Unsigned32 any
%avp Result-Code 268 Unsigned32 any
%avp Product-Name 269 UTF8String any
%avp Disconnect-Cause 273 Enumerated any ( 0 1 2 )
%avp Origin-State-Id 278 Unsigned32 any
%avp Proxy-Host 280 DiameterIdentity any
%avp Error-Message 281 UTF8String any
%avp Error-Reporting-Host 294 DiameterIdentity any
%avp Origin-Realm 296 DiameterIdentity any
%avp Experimental-Result-Code 298 Unsigned32 any
%avp Inband-Security-Id 299 Unsigned32 any
<Vendor-Specific-Application-Id> ::= < AVP Header: 260 >
  { Vendor-Id }
  [ Auth-Application-Id ]
  [ Acct-Application-Id ]
<Failed-AVP> ::= < AVP Header: 279 >
  1* { AVP }
<Proxy-Info> ::= < AVP Header: 284 >
  { Proxy-Host }
  { Proxy-State }
  * [ AVP ]
<Experimental-Result> ::= < AVP Header: 297 >
  { Vendor-Id }
  { Experimental-Result-Code }
<CER> ::= < Diameter Header: 257, REQ >
  { Origin-Host }
  { Origin-Realm }
  1* { Host-IP-Address }
  { Vendor-Id }
  { Product-Name }
  [ Origin-State-Id ]
  * [ Supported-Vendor-Id ]
  * [ Auth-Application-Id ]
  * [ Inband-Security-Id ]
  * [ Acct-Application-Id ]
  * [ Vendor-Specific-Application-Id ]
  [ Firmware-Revision ]
  * [ AVP ]
<CEA> ::= < Diameter Header: 257 >
  { Result-Code }
  { Origin-Host }
  { Origin-Realm }
  1* { Host-IP-Address }
  { Vendor-Id }
  { Product-Name }
  [ Origin-State-Id ]
  [ Error-Message ]
  [ Failed-AVP ]
  * [ Supported-Vendor-Id ]
  * [ Auth-Application-Id ]
  * [ Inband-Security-Id ]
  * [ Acct-Application-Id ]
  * [ Vendor-Specific-Application-Id ]
  [ Firmware-Revision ]
  * [ AVP ]
<DWR> ::= < Diameter Header: 280, REQ >
  { Origin-Host }
  { Origin-Realm }
  [ Origin-State-Id ]
  * [ AVP ]
<DWA> ::= < Diameter Header: 280 >
  { Result-Code }
  { Origin-Host }
  { Origin-Realm }
  [ Error-Message ]
  [ Failed-AVP ]
  [ Origin-State-Id ]
  * [ AVP ]
<DPR> ::= < Diameter Header: 282, REQ >
  { Origin-Host }
  { Origin-Realm }
  { Disconnect-Cause }
  * [ AVP ]
<DPA> ::= < Diameter Header: 282 >
  { Result-Code }
  { Origin-Host }
  { Origin-Realm }
  [ Error-Message ]
  [ Failed-AVP ]
  * [ AVP ]
<answer-message> ::= < Diameter Header: code, ERR [, PXY] >
  0*1 < Session-Id >
  { Origin-Host }
  { Origin-Realm }
  { Result-Code }
  [ Origin-State-Id ]
  [ Error-Message ]
  [ Error-Reporting-Host ]
  [ Failed-AVP ]
  [ Experimental-Result ]
  * [ Proxy-Info ]
  * [ AVP ]
";
