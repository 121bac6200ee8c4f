//! All together, dictionaries of which nothing differs, and some that are refused.

pub(super) const ROWS: &str = r#"== all kinds of lines together; options listed; status 1
%avp Price 9001 vendor 32473 Unsigned32 must
%avp Note 9002 vendor 32473 UTF8String must
<Sale-Request> ::= < Diameter Header: 316, REQ, 16777301 > { Price } * [ Note ] * [ AVP ]
--
%avp Price 9001 vendor 32473 Unsigned64 must
%avp Note 9002 vendor 32473 UTF8String must
%avp Kind 9003 vendor 32473 Enumerated any ( 0..3 )
<Sale-Request> ::= < Diameter Header: 316, REQ, 16777301 > { Price } [ Note ] [ Kind ] * [ AVP ]
--
~ AVP Price: format Unsigned32 -> Unsigned64; breaks A to B, breaks B to A
+ AVP Kind 9003 vendor 32473 Enumerated any ( 0..3 ); breaks B to A
~ command Sale-Request: [ Note ] 0..* -> [ Note ] 0..1; breaks A to B
+ command Sale-Request: [ Kind ] 0..1
== nothing; options -; status 0
%avp X 9001 Unsigned32 any
<C> ::= < Diameter Header: 302, REQ > [ X ]
--
%avp X 9001 Unsigned32 any
<C> ::= < Diameter Header: 302, REQ > [ X ]
--
same
== the order of declarations, and of rules that aren't fixed; options -; status 0
%avp X 9001 Unsigned32 any
%avp Y 9002 Unsigned32 any
<C> ::= < Diameter Header: 302, REQ > { X } [ Y ]
<D> ::= < Diameter Header: 303, REQ > [ X ]
--
%avp Y 9002 Unsigned32 any
%avp X 9001 Unsigned32 any
<D> ::= < Diameter Header: 303, REQ > [ X ]
<C> ::= < Diameter Header: 302, REQ > [ Y ] { X }
--
same
== the text of a list; options -; status 0
%avp E 9001 Enumerated must ( 1 2 3 3 )
--
%avp E 9001 Enumerated must ( 3 1..2 )
--
same
== the first dictionary is refused; options -; status 2
<
--
%avp X 9001 Unsigned32 any
--
dictionary 1: syntax at line 2
== the second is; options -; status 2
%avp X 9001 Unsigned32 any
--
%avp X 9001 Unsigned32 any
%avp X 9001 Unsigned32 any
--
dictionary 2: duplicate-name X -
== two empty dictionaries; options -; status 0
--
--
same
"#;
