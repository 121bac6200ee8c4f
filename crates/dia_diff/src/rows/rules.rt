//! Rules that differ.

pub(super) const ROWS: &str =
    r#"== a rule that is added, and one that is removed; options listed; status 1
%avp X 9001 Unsigned32 any
%avp Y 9002 Unsigned32 any
<C> ::= < Diameter Header: 302, REQ > [ X ]
--
%avp X 9001 Unsigned32 any
%avp Y 9002 Unsigned32 any
<C> ::= < Diameter Header: 302, REQ > [ Y ]
--
- command C: [ X ] 0..1; breaks A to B
+ command C: [ Y ] 0..1; breaks B to A
== greater counts break the other way; options listed; status 1
%avp X 9001 Unsigned32 any
<C> ::= < Diameter Header: 302, REQ > [ X ]
--
%avp X 9001 Unsigned32 any
<C> ::= < Diameter Header: 302, REQ > * [ X ]
--
~ command C: [ X ] 0..1 -> [ X ] 0..*; breaks B to A
== brackets; options listed; status 1
%avp X 9001 Unsigned32 any
<C> ::= < Diameter Header: 302, REQ > [ X ]
--
%avp X 9001 Unsigned32 any
<C> ::= < Diameter Header: 302, REQ > { X }
--
~ command C: [ X ] 0..1 -> { X } 1; breaks A to B
== the order of fixed rules; options listed; status 1
%avp X 9001 Unsigned32 any
%avp Y 9002 Unsigned32 any
<C> ::= < Diameter Header: 302, REQ > < X > < Y >
--
%avp X 9001 Unsigned32 any
%avp Y 9002 Unsigned32 any
<C> ::= < Diameter Header: 302, REQ > < Y > < X >
--
~ command C: < X > 1 at 1 -> < X > 1 at 2; breaks A to B, breaks B to A
~ command C: < Y > 1 at 2 -> < Y > 1 at 1; breaks A to B, breaks B to A
== a rule of a group; options listed; status 1
%avp X 9001 Unsigned32 any
%avp G 9003 Grouped must
<G> ::= < AVP Header: 9003 > 1* { X }
<C> ::= < Diameter Header: 302, REQ > [ G ]
--
%avp X 9001 Unsigned32 any
%avp G 9003 Grouped must
<G> ::= < AVP Header: 9003 > { X }
<C> ::= < Diameter Header: 302, REQ > [ G ]
--
~ AVP G: { X } 1..* -> { X } 1; breaks A to B
== new rules of a group and a command with other names; options listed; status 1
%avp X 9001 Unsigned32 any
<Old> ::= < AVP Header: 9003 >
<C> ::= < Diameter Header: 302, REQ > [ Old ]
--
%avp X 9001 Unsigned32 any
<New> ::= < AVP Header: 9003 > [ X ]
<D> ::= < Diameter Header: 302, REQ > [ New ] [ X ]
--
~ AVP Old: name Old -> New
+ AVP Old: [ X ] 0..1; breaks B to A
~ command C: name C -> D
+ command C: [ X ] 0..1; breaks B to A
== a wildcard that is removed; options -; status 1
%avp X 9001 Unsigned32 any
<C> ::= < Diameter Header: 302, REQ > [ X ] * [ AVP ]
--
%avp X 9001 Unsigned32 any
<C> ::= < Diameter Header: 302, REQ > [ X ]
--
- command C: [ AVP ] 0..*; breaks A to B
== the same, where no AVP comes by it; options listed; status 1
%avp X 9001 Unsigned32 any
<C> ::= < Diameter Header: 302, REQ > [ X ] * [ AVP ]
--
%avp X 9001 Unsigned32 any
<C> ::= < Diameter Header: 302, REQ > [ X ]
--
- command C: [ AVP ] 0..*
== a rule that is removed, where the wildcard stays; options listed; status 1
%avp X 9001 Unsigned32 any
<C> ::= < Diameter Header: 302, REQ > [ X ] * [ AVP ]
--
%avp X 9001 Unsigned32 any
<C> ::= < Diameter Header: 302, REQ > * [ AVP ]
--
- command C: [ X ] 0..1; ignored A to B
== the same of an AVP that breaks by its flags; options listed; status 1
%avp X 9001 Unsigned32 must
<C> ::= < Diameter Header: 302, REQ > [ X ] * [ AVP ]
--
%avp X 9001 Unsigned32 mustnot
<C> ::= < Diameter Header: 302, REQ > * [ AVP ]
--
~ AVP X: M must -> mustnot; breaks A to B
- command C: [ X ] 0..1
== an AVP that moves into a group; options listed; status 1
%avp X 9001 Unsigned32 any
%avp G 9003 Grouped must
<G> ::= < AVP Header: 9003 > * [ AVP ]
<C> ::= < Diameter Header: 302, REQ > [ X ] [ G ] * [ AVP ]
--
%avp X 9001 Unsigned32 any
%avp G 9003 Grouped must
<G> ::= < AVP Header: 9003 > [ X ] * [ AVP ]
<C> ::= < Diameter Header: 302, REQ > [ G ] * [ AVP ]
--
+ AVP G: [ X ] 0..1; ignored B to A
- command C: [ X ] 0..1; ignored A to B
== a rule of a group that no message has; options listed; status 1
%avp X 9001 Unsigned32 any
%avp G 9003 Grouped must
<G> ::= < AVP Header: 9003 > [ X ] * [ AVP ]
<C> ::= < Diameter Header: 302, REQ > * [ AVP ]
--
%avp X 9001 Unsigned32 any
%avp G 9003 Grouped must
<G> ::= < AVP Header: 9003 > * [ AVP ]
<C> ::= < Diameter Header: 302, REQ > * [ AVP ]
--
- AVP G: [ X ] 0..1
== the same, where a wildcard lets the group in; options known; status 1
%avp X 9001 Unsigned32 any
%avp G 9003 Grouped must
<G> ::= < AVP Header: 9003 > [ X ] * [ AVP ]
<C> ::= < Diameter Header: 302, REQ > * [ AVP ]
--
%avp X 9001 Unsigned32 any
%avp G 9003 Grouped must
<G> ::= < AVP Header: 9003 > * [ AVP ]
<C> ::= < Diameter Header: 302, REQ > * [ AVP ]
--
- AVP G: [ X ] 0..1; breaks B to A, ignored A to B
"#;
