//! Answers as JSON.

pub(super) const ROWS: &str = r#"== nothing; options -; status 0
%avp X 9001 Unsigned32 any
--
%avp X 9001 Unsigned32 any
--
{"verdict":"same"}
== a rule and an AVP; options listed; status 1
%avp X 9001 Unsigned32 any
<C> ::= < Diameter Header: 302, REQ > [ X ]
--
%avp X 9001 Unsigned32 any
%avp Y 9002 Unsigned32 any
<C> ::= < Diameter Header: 302, REQ > { X }
--
{"sign":"+","kind":"avp","name":"Y","second":"9002 Unsigned32 any","breaks":[],"other_format":[],"ignored":[]}
{"sign":"~","kind":"command","name":"C","field":"rule","first":"[ X ] 0..1","second":"{ X } 1","breaks":["A to B"],"other_format":[],"ignored":[]}
== a field, both ways; options listed; status 1
%avp X 9001 Unsigned32 any
<C> ::= < Diameter Header: 302, REQ > [ X ]
--
%avp X 9001 vendor 5 Unsigned32 any
<C> ::= < Diameter Header: 302, REQ > [ X ]
--
{"sign":"~","kind":"avp","name":"X","field":"vendor","first":"0","second":"5","breaks":["A to B","B to A"],"other_format":[],"ignored":[]}
== other formats, and a code with the M flag clear; options listed; status 1
%avp X 9001 Float32 any
%avp Y 9002 Unsigned32 mustnot
<C> ::= < Diameter Header: 302, REQ > [ X ] [ Y ] * [ AVP ]
--
%avp X 9001 Unsigned32 any
%avp Y 9003 Unsigned32 mustnot
<C> ::= < Diameter Header: 302, REQ > [ X ] [ Y ] * [ AVP ]
--
{"sign":"~","kind":"avp","name":"X","field":"format","first":"Float32","second":"Unsigned32","breaks":[],"other_format":["A to B","B to A"],"ignored":[]}
{"sign":"~","kind":"avp","name":"Y","field":"code","first":"9002","second":"9003","breaks":[],"other_format":[],"ignored":["A to B","B to A"]}
== a command; options listed; status 1
%avp X 9001 Unsigned32 any
<D> ::= < Diameter Header: 303, PXY, 9 > 
--
%avp X 9001 Unsigned32 any
--
{"sign":"-","kind":"command","name":"D","first":"< Diameter Header: 303, PXY, 9 >","breaks":["A to B"],"other_format":[],"ignored":[]}
== a dictionary that is refused; options -; status 2
%avp X 9001 Unsigned32 any
--
%avp X 9001 Unsigned32 any
%avp X 9001 Unsigned32 any
--
{"error":"dictionary 2","kind":"duplicate-name","name":"X","slot":null}
"#;
