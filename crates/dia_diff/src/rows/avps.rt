//! AVPs that differ.

pub(super) const ROWS: &str = r#"== an M rule; options listed; status 1
%avp X 9001 Unsigned32 any
<C> ::= < Diameter Header: 302, REQ > [ X ]
--
%avp X 9001 Unsigned32 must
<C> ::= < Diameter Header: 302, REQ > [ X ]
--
~ AVP X: M any -> must; breaks A to B
== a format, and a code; options listed; status 1
%avp X 9001 Unsigned32 any
%avp Y 9002 Unsigned32 any
<C> ::= < Diameter Header: 302, REQ > [ X ] [ Y ]
--
%avp X 9001 Unsigned64 any
%avp Y 9003 Unsigned32 any
<C> ::= < Diameter Header: 302, REQ > [ X ] [ Y ]
--
~ AVP X: format Unsigned32 -> Unsigned64; breaks A to B, breaks B to A
~ AVP Y: code 9002 -> 9003; breaks A to B, breaks B to A
== a list; options listed; status 1
%avp E 9001 Enumerated must ( 1..3 )
<C> ::= < Diameter Header: 302, REQ > [ E ]
--
%avp E 9001 Enumerated must ( 1..4 7 )
<C> ::= < Diameter Header: 302, REQ > [ E ]
--
~ AVP E: format Enumerated ( 1..3 ) -> Enumerated ( 1..4 7 ); breaks B to A
== a name; options -; status 1
%avp X 9001 Unsigned32 any
<C> ::= < Diameter Header: 302, REQ > [ X ]
--
%avp Z 9001 Unsigned32 any
<C> ::= < Diameter Header: 302, REQ > [ Z ]
--
~ AVP X: name X -> Z
== a vendor; options listed; status 1
%avp X 9001 Unsigned32 any
<C> ::= < Diameter Header: 302, REQ > [ X ]
--
%avp X 9001 vendor 5 Unsigned32 any
<C> ::= < Diameter Header: 302, REQ > [ X ]
--
~ AVP X: vendor 0 -> 5; breaks A to B, breaks B to A
== an AVP that no rule names is removed: a listed sender sends none; options listed; status 1
%avp X 9001 Unsigned32 any
%avp Y 9002 Unsigned32 any
<C> ::= < Diameter Header: 302, REQ > [ X ] * [ AVP ]
--
%avp X 9001 Unsigned32 any
<C> ::= < Diameter Header: 302, REQ > [ X ] * [ AVP ]
--
- AVP Y 9002 Unsigned32 any
== the same, and the sender sends what it knows; options known; status 1
%avp X 9001 Unsigned32 any
%avp Y 9002 Unsigned32 any
<C> ::= < Diameter Header: 302, REQ > [ X ] * [ AVP ]
--
%avp X 9001 Unsigned32 any
<C> ::= < Diameter Header: 302, REQ > [ X ] * [ AVP ]
--
- AVP Y 9002 Unsigned32 any; breaks A to B
== a group that is added, with its rules; options listed; status 1
%avp X 9001 Unsigned32 any
<C> ::= < Diameter Header: 302, REQ > [ X ]
--
%avp X 9001 Unsigned32 any
%avp G 9003 vendor 7 Grouped must
<G> ::= < AVP Header: 9003 7 > { X } * [ AVP ]
<C> ::= < Diameter Header: 302, REQ > [ X ]
--
+ AVP G 9003 vendor 7 Grouped must
+ AVP G: { X } 1
+ AVP G: [ AVP ] 0..*
== unknown AVPs are refused; options known refused; status 1
%avp X 9001 Unsigned32 any
%avp Y 9002 Unsigned32 any
<C> ::= < Diameter Header: 302, REQ > * [ AVP ]
--
%avp X 9001 Unsigned32 any
<C> ::= < Diameter Header: 302, REQ > * [ AVP ]
--
- AVP Y 9002 Unsigned32 any; breaks A to B
== four bytes are read as another number; options listed; status 1
%avp X 9001 Float32 any
<C> ::= < Diameter Header: 302, REQ > [ X ]
--
%avp X 9001 Unsigned32 any
<C> ::= < Diameter Header: 302, REQ > [ X ]
--
~ AVP X: format Float32 -> Unsigned32; read as another format A to B, read as another format B to A
== the same, where no message has it; options listed; status 1
%avp X 9001 Float32 any
<C> ::= < Diameter Header: 302, REQ > * [ AVP ]
--
%avp X 9001 Unsigned32 any
<C> ::= < Diameter Header: 302, REQ > * [ AVP ]
--
~ AVP X: format Float32 -> Unsigned32
== the same, and the flags break; options listed; status 1
%avp X 9001 Float32 must
<C> ::= < Diameter Header: 302, REQ > [ X ]
--
%avp X 9001 Unsigned32 mustnot
<C> ::= < Diameter Header: 302, REQ > [ X ]
--
~ AVP X: format Float32 -> Unsigned32
~ AVP X: M must -> mustnot; breaks A to B, breaks B to A
== a format that takes all data of another; options listed; status 1
%avp X 9001 Unsigned32 any
<C> ::= < Diameter Header: 302, REQ > [ X ]
--
%avp X 9001 OctetString any
<C> ::= < Diameter Header: 302, REQ > [ X ]
--
~ AVP X: format Unsigned32 -> OctetString; breaks B to A
== a group that is read as octets; options listed; status 1
%avp X 9001 Unsigned32 any
%avp G 9003 Grouped any
<G> ::= < AVP Header: 9003 > [ X ]
<C> ::= < Diameter Header: 302, REQ > [ G ]
--
%avp X 9001 Unsigned32 any
%avp G 9003 OctetString any
<C> ::= < Diameter Header: 302, REQ > [ G ]
--
~ AVP G: format Grouped -> OctetString; breaks B to A, read as another format A to B
- AVP G: [ X ] 0..1
== a code, with the M flag clear; options listed; status 1
%avp X 9001 Unsigned32 mustnot
<C> ::= < Diameter Header: 302, REQ > [ X ] * [ AVP ]
--
%avp X 9002 Unsigned32 mustnot
<C> ::= < Diameter Header: 302, REQ > [ X ] * [ AVP ]
--
~ AVP X: code 9001 -> 9002; ignored A to B, ignored B to A
== a code, and the counts of its rule; options listed; status 1
%avp X 9001 Unsigned32 mustnot
<C> ::= < Diameter Header: 302, REQ > { X } * [ AVP ]
--
%avp X 9002 Unsigned32 mustnot
<C> ::= < Diameter Header: 302, REQ > [ X ] * [ AVP ]
--
~ AVP X: code 9001 -> 9002; ignored A to B, ignored B to A
~ command C: { X } 1 -> [ X ] 0..1; breaks B to A
== a code, where the M flag may be set; options listed; status 1
%avp X 9001 Unsigned32 any
<C> ::= < Diameter Header: 302, REQ > [ X ] * [ AVP ]
--
%avp X 9002 Unsigned32 any
<C> ::= < Diameter Header: 302, REQ > [ X ] * [ AVP ]
--
~ AVP X: code 9001 -> 9002; breaks A to B, breaks B to A
== a code, where unknown AVPs are refused; options listed refused; status 1
%avp X 9001 Unsigned32 mustnot
<C> ::= < Diameter Header: 302, REQ > [ X ] * [ AVP ]
--
%avp X 9002 Unsigned32 mustnot
<C> ::= < Diameter Header: 302, REQ > [ X ] * [ AVP ]
--
~ AVP X: code 9001 -> 9002; breaks A to B, breaks B to A
== an AVP that one side alone knows and lists; options listed; status 1
%avp X 9001 Unsigned32 mustnot
<C> ::= < Diameter Header: 302, REQ > * [ AVP ]
--
%avp X 9001 Unsigned32 mustnot
%avp Y 9002 Unsigned32 mustnot
<C> ::= < Diameter Header: 302, REQ > [ Y ] * [ AVP ]
--
+ AVP Y 9002 Unsigned32 mustnot
+ command C: [ Y ] 0..1; ignored B to A
"#;
