//! Commands that differ.

pub(super) const ROWS: &str = r#"== a command that is removed; options listed; status 1
%avp X 9001 Unsigned32 any
<C> ::= < Diameter Header: 302, REQ > [ X ]
<D> ::= < Diameter Header: 303 > [ X ]
--
%avp X 9001 Unsigned32 any
<C> ::= < Diameter Header: 302, REQ > [ X ]
--
- command D < Diameter Header: 303 >; breaks A to B
- command D: [ X ] 0..1
== the fields of a header; options listed; status 1
%avp X 9001 Unsigned32 any
<C> ::= < Diameter Header: 302, REQ, 5 > [ X ]
--
%avp X 9001 Unsigned32 any
<C> ::= < Diameter Header: 302, REQ, PXY, 6 > [ X ]
--
~ command C: application 5 -> 6; breaks A to B, breaks B to A
~ command C: P clear -> set; breaks A to B, breaks B to A
== a P flag; options listed; status 1
%avp X 9001 Unsigned32 any
<C> ::= < Diameter Header: 302, REQ > [ X ]
--
%avp X 9001 Unsigned32 any
<C> ::= < Diameter Header: 302, REQ, PXY > [ X ]
--
~ command C: P clear -> set; breaks A to B, breaks B to A
== the name of a command; options listed; status 1
%avp X 9001 Unsigned32 any
<C> ::= < Diameter Header: 302, REQ > [ X ]
--
%avp X 9001 Unsigned32 any
<D> ::= < Diameter Header: 302, REQ > [ X ]
--
~ command C: name C -> D
== an error's header; options listed; status 1
%avp X 9001 Unsigned32 any
<E> ::= < Diameter Header: code, ERR > [ X ]
--
%avp X 9001 Unsigned32 any
<E> ::= < Diameter Header: code, ERR [, PXY] > [ X ]
--
~ command E: P clear -> either; breaks B to A
== a command of an application of its own lists less; options listed; status 1
%avp X 9001 Unsigned32 any
<C> ::= < Diameter Header: 302, REQ > [ X ] * [ AVP ]
--
%avp X 9001 Unsigned32 any
<C> ::= < Diameter Header: 302, REQ > [ X ] * [ AVP ]
<D> ::= < Diameter Header: 302, REQ, 5 > * [ AVP ]
--
+ command D < Diameter Header: 302, REQ, 5 >; ignored A to B
+ command D: [ AVP ] 0..*
"#;
