//! Answers in words.

pub(super) const ROWS: &str = r#"== a rule of a group at depth 2; avps Precedence; status 0
%avp Session-Id 263 UTF8String must
%avp Precedence 1010 vendor 10415 Unsigned32 must
%avp Charging-Rule-Name 1005 vendor 10415 OctetString must
%avp Charging-Rule-Definition 1003 vendor 10415 Grouped must
%avp Charging-Rule-Install 1001 vendor 10415 Grouped must
%avp Lonely 9001 Unsigned32 any
<Charging-Rule-Definition> ::= < AVP Header: 1003 10415 > { Charging-Rule-Name } [ Precedence ]
<Charging-Rule-Install> ::= < AVP Header: 1001 10415 > * [ Charging-Rule-Definition ]
<Gx-CCR> ::= < Diameter Header: 272, REQ, PXY, 16777238 > < Session-Id > * [ Charging-Rule-Install ] * [ AVP ]
<Gx-CCA> ::= < Diameter Header: 272, PXY, 16777238 > < Session-Id > [ Charging-Rule-Install ]
--
Gx-CCR/Charging-Rule-Install/Charging-Rule-Definition: Precedence 0..1
Gx-CCR: Precedence by [ AVP ]
== fixed rules of two commands; avps Session-Id; status 0
%avp Session-Id 263 UTF8String must
%avp Precedence 1010 vendor 10415 Unsigned32 must
%avp Charging-Rule-Name 1005 vendor 10415 OctetString must
%avp Charging-Rule-Definition 1003 vendor 10415 Grouped must
%avp Charging-Rule-Install 1001 vendor 10415 Grouped must
%avp Lonely 9001 Unsigned32 any
<Charging-Rule-Definition> ::= < AVP Header: 1003 10415 > { Charging-Rule-Name } [ Precedence ]
<Charging-Rule-Install> ::= < AVP Header: 1001 10415 > * [ Charging-Rule-Definition ]
<Gx-CCR> ::= < Diameter Header: 272, REQ, PXY, 16777238 > < Session-Id > * [ Charging-Rule-Install ] * [ AVP ]
<Gx-CCA> ::= < Diameter Header: 272, PXY, 16777238 > < Session-Id > [ Charging-Rule-Install ]
--
Gx-CCR: Session-Id 1
Gx-CCA: Session-Id 1
== a rule without a greatest count, and one with; avps Charging-Rule-Install; status 0
%avp Session-Id 263 UTF8String must
%avp Precedence 1010 vendor 10415 Unsigned32 must
%avp Charging-Rule-Name 1005 vendor 10415 OctetString must
%avp Charging-Rule-Definition 1003 vendor 10415 Grouped must
%avp Charging-Rule-Install 1001 vendor 10415 Grouped must
%avp Lonely 9001 Unsigned32 any
<Charging-Rule-Definition> ::= < AVP Header: 1003 10415 > { Charging-Rule-Name } [ Precedence ]
<Charging-Rule-Install> ::= < AVP Header: 1001 10415 > * [ Charging-Rule-Definition ]
<Gx-CCR> ::= < Diameter Header: 272, REQ, PXY, 16777238 > < Session-Id > * [ Charging-Rule-Install ] * [ AVP ]
<Gx-CCA> ::= < Diameter Header: 272, PXY, 16777238 > < Session-Id > [ Charging-Rule-Install ]
--
Gx-CCR: Charging-Rule-Install 0..*
Gx-CCA: Charging-Rule-Install 0..1
== only a wildcard; avps Lonely; status 0
%avp Session-Id 263 UTF8String must
%avp Precedence 1010 vendor 10415 Unsigned32 must
%avp Charging-Rule-Name 1005 vendor 10415 OctetString must
%avp Charging-Rule-Definition 1003 vendor 10415 Grouped must
%avp Charging-Rule-Install 1001 vendor 10415 Grouped must
%avp Lonely 9001 Unsigned32 any
<Charging-Rule-Definition> ::= < AVP Header: 1003 10415 > { Charging-Rule-Name } [ Precedence ]
<Charging-Rule-Install> ::= < AVP Header: 1001 10415 > * [ Charging-Rule-Definition ]
<Gx-CCR> ::= < Diameter Header: 272, REQ, PXY, 16777238 > < Session-Id > * [ Charging-Rule-Install ] * [ AVP ]
<Gx-CCA> ::= < Diameter Header: 272, PXY, 16777238 > < Session-Id > [ Charging-Rule-Install ]
--
Gx-CCR: Lonely by [ AVP ]
== a code; avps 9001; status 0
%avp Session-Id 263 UTF8String must
%avp Precedence 1010 vendor 10415 Unsigned32 must
%avp Charging-Rule-Name 1005 vendor 10415 OctetString must
%avp Charging-Rule-Definition 1003 vendor 10415 Grouped must
%avp Charging-Rule-Install 1001 vendor 10415 Grouped must
%avp Lonely 9001 Unsigned32 any
<Charging-Rule-Definition> ::= < AVP Header: 1003 10415 > { Charging-Rule-Name } [ Precedence ]
<Charging-Rule-Install> ::= < AVP Header: 1001 10415 > * [ Charging-Rule-Definition ]
<Gx-CCR> ::= < Diameter Header: 272, REQ, PXY, 16777238 > < Session-Id > * [ Charging-Rule-Install ] * [ AVP ]
<Gx-CCA> ::= < Diameter Header: 272, PXY, 16777238 > < Session-Id > [ Charging-Rule-Install ]
--
Gx-CCR: Lonely by [ AVP ]
== a code and a vendor; avps 1010:10415; status 0
%avp Session-Id 263 UTF8String must
%avp Precedence 1010 vendor 10415 Unsigned32 must
%avp Charging-Rule-Name 1005 vendor 10415 OctetString must
%avp Charging-Rule-Definition 1003 vendor 10415 Grouped must
%avp Charging-Rule-Install 1001 vendor 10415 Grouped must
%avp Lonely 9001 Unsigned32 any
<Charging-Rule-Definition> ::= < AVP Header: 1003 10415 > { Charging-Rule-Name } [ Precedence ]
<Charging-Rule-Install> ::= < AVP Header: 1001 10415 > * [ Charging-Rule-Definition ]
<Gx-CCR> ::= < Diameter Header: 272, REQ, PXY, 16777238 > < Session-Id > * [ Charging-Rule-Install ] * [ AVP ]
<Gx-CCA> ::= < Diameter Header: 272, PXY, 16777238 > < Session-Id > [ Charging-Rule-Install ]
--
Gx-CCR/Charging-Rule-Install/Charging-Rule-Definition: Precedence 0..1
Gx-CCR: Precedence by [ AVP ]
== a code and a vendor after a slash; avps 1010/10415; status 0
%avp Session-Id 263 UTF8String must
%avp Precedence 1010 vendor 10415 Unsigned32 must
%avp Charging-Rule-Name 1005 vendor 10415 OctetString must
%avp Charging-Rule-Definition 1003 vendor 10415 Grouped must
%avp Charging-Rule-Install 1001 vendor 10415 Grouped must
%avp Lonely 9001 Unsigned32 any
<Charging-Rule-Definition> ::= < AVP Header: 1003 10415 > { Charging-Rule-Name } [ Precedence ]
<Charging-Rule-Install> ::= < AVP Header: 1001 10415 > * [ Charging-Rule-Definition ]
<Gx-CCR> ::= < Diameter Header: 272, REQ, PXY, 16777238 > < Session-Id > * [ Charging-Rule-Install ] * [ AVP ]
<Gx-CCA> ::= < Diameter Header: 272, PXY, 16777238 > < Session-Id > [ Charging-Rule-Install ]
--
Gx-CCR/Charging-Rule-Install/Charging-Rule-Definition: Precedence 0..1
Gx-CCR: Precedence by [ AVP ]
== the code of another vendor's AVP; avps 1010; status 0
%avp Session-Id 263 UTF8String must
%avp Precedence 1010 vendor 10415 Unsigned32 must
%avp Charging-Rule-Name 1005 vendor 10415 OctetString must
%avp Charging-Rule-Definition 1003 vendor 10415 Grouped must
%avp Charging-Rule-Install 1001 vendor 10415 Grouped must
%avp Lonely 9001 Unsigned32 any
<Charging-Rule-Definition> ::= < AVP Header: 1003 10415 > { Charging-Rule-Name } [ Precedence ]
<Charging-Rule-Install> ::= < AVP Header: 1001 10415 > * [ Charging-Rule-Definition ]
<Gx-CCR> ::= < Diameter Header: 272, REQ, PXY, 16777238 > < Session-Id > * [ Charging-Rule-Install ] * [ AVP ]
<Gx-CCA> ::= < Diameter Header: 272, PXY, 16777238 > < Session-Id > [ Charging-Rule-Install ]
--
Gx-CCR: 1010:0 by [ AVP ]
== two AVPs, in the order of the words; avps Lonely Session-Id; status 0
%avp Session-Id 263 UTF8String must
%avp Precedence 1010 vendor 10415 Unsigned32 must
%avp Charging-Rule-Name 1005 vendor 10415 OctetString must
%avp Charging-Rule-Definition 1003 vendor 10415 Grouped must
%avp Charging-Rule-Install 1001 vendor 10415 Grouped must
%avp Lonely 9001 Unsigned32 any
<Charging-Rule-Definition> ::= < AVP Header: 1003 10415 > { Charging-Rule-Name } [ Precedence ]
<Charging-Rule-Install> ::= < AVP Header: 1001 10415 > * [ Charging-Rule-Definition ]
<Gx-CCR> ::= < Diameter Header: 272, REQ, PXY, 16777238 > < Session-Id > * [ Charging-Rule-Install ] * [ AVP ]
<Gx-CCA> ::= < Diameter Header: 272, PXY, 16777238 > < Session-Id > [ Charging-Rule-Install ]
--
Gx-CCR: Lonely by [ AVP ]
Gx-CCR: Session-Id 1
Gx-CCA: Session-Id 1
== a name that isn't declared; avps Lonly; status 2
%avp Session-Id 263 UTF8String must
%avp Precedence 1010 vendor 10415 Unsigned32 must
%avp Charging-Rule-Name 1005 vendor 10415 OctetString must
%avp Charging-Rule-Definition 1003 vendor 10415 Grouped must
%avp Charging-Rule-Install 1001 vendor 10415 Grouped must
%avp Lonely 9001 Unsigned32 any
<Charging-Rule-Definition> ::= < AVP Header: 1003 10415 > { Charging-Rule-Name } [ Precedence ]
<Charging-Rule-Install> ::= < AVP Header: 1001 10415 > * [ Charging-Rule-Definition ]
<Gx-CCR> ::= < Diameter Header: 272, REQ, PXY, 16777238 > < Session-Id > * [ Charging-Rule-Install ] * [ AVP ]
<Gx-CCA> ::= < Diameter Header: 272, PXY, 16777238 > < Session-Id > [ Charging-Rule-Install ]
--
uses: no AVP Lonly
== the first of two words that name none; avps Precedence 12: Lonly; status 2
%avp Session-Id 263 UTF8String must
%avp Precedence 1010 vendor 10415 Unsigned32 must
%avp Charging-Rule-Name 1005 vendor 10415 OctetString must
%avp Charging-Rule-Definition 1003 vendor 10415 Grouped must
%avp Charging-Rule-Install 1001 vendor 10415 Grouped must
%avp Lonely 9001 Unsigned32 any
<Charging-Rule-Definition> ::= < AVP Header: 1003 10415 > { Charging-Rule-Name } [ Precedence ]
<Charging-Rule-Install> ::= < AVP Header: 1001 10415 > * [ Charging-Rule-Definition ]
<Gx-CCR> ::= < Diameter Header: 272, REQ, PXY, 16777238 > < Session-Id > * [ Charging-Rule-Install ] * [ AVP ]
<Gx-CCA> ::= < Diameter Header: 272, PXY, 16777238 > < Session-Id > [ Charging-Rule-Install ]
--
uses: no AVP 12:
== a code that is too great; avps 4294967296; status 2
%avp Session-Id 263 UTF8String must
%avp Precedence 1010 vendor 10415 Unsigned32 must
%avp Charging-Rule-Name 1005 vendor 10415 OctetString must
%avp Charging-Rule-Definition 1003 vendor 10415 Grouped must
%avp Charging-Rule-Install 1001 vendor 10415 Grouped must
%avp Lonely 9001 Unsigned32 any
<Charging-Rule-Definition> ::= < AVP Header: 1003 10415 > { Charging-Rule-Name } [ Precedence ]
<Charging-Rule-Install> ::= < AVP Header: 1001 10415 > * [ Charging-Rule-Definition ]
<Gx-CCR> ::= < Diameter Header: 272, REQ, PXY, 16777238 > < Session-Id > * [ Charging-Rule-Install ] * [ AVP ]
<Gx-CCA> ::= < Diameter Header: 272, PXY, 16777238 > < Session-Id > [ Charging-Rule-Install ]
--
uses: no AVP 4294967296
== three numbers; avps 1:2:3; status 2
%avp Session-Id 263 UTF8String must
%avp Precedence 1010 vendor 10415 Unsigned32 must
%avp Charging-Rule-Name 1005 vendor 10415 OctetString must
%avp Charging-Rule-Definition 1003 vendor 10415 Grouped must
%avp Charging-Rule-Install 1001 vendor 10415 Grouped must
%avp Lonely 9001 Unsigned32 any
<Charging-Rule-Definition> ::= < AVP Header: 1003 10415 > { Charging-Rule-Name } [ Precedence ]
<Charging-Rule-Install> ::= < AVP Header: 1001 10415 > * [ Charging-Rule-Definition ]
<Gx-CCR> ::= < Diameter Header: 272, REQ, PXY, 16777238 > < Session-Id > * [ Charging-Rule-Install ] * [ AVP ]
<Gx-CCA> ::= < Diameter Header: 272, PXY, 16777238 > < Session-Id > [ Charging-Rule-Install ]
--
uses: no AVP 1:2:3
== two signs; avps 1:2/3; status 2
%avp Session-Id 263 UTF8String must
%avp Precedence 1010 vendor 10415 Unsigned32 must
%avp Charging-Rule-Name 1005 vendor 10415 OctetString must
%avp Charging-Rule-Definition 1003 vendor 10415 Grouped must
%avp Charging-Rule-Install 1001 vendor 10415 Grouped must
%avp Lonely 9001 Unsigned32 any
<Charging-Rule-Definition> ::= < AVP Header: 1003 10415 > { Charging-Rule-Name } [ Precedence ]
<Charging-Rule-Install> ::= < AVP Header: 1001 10415 > * [ Charging-Rule-Definition ]
<Gx-CCR> ::= < Diameter Header: 272, REQ, PXY, 16777238 > < Session-Id > * [ Charging-Rule-Install ] * [ AVP ]
<Gx-CCA> ::= < Diameter Header: 272, PXY, 16777238 > < Session-Id > [ Charging-Rule-Install ]
--
uses: no AVP 1:2/3
== a vendor without a code; avps /10415; status 2
%avp Session-Id 263 UTF8String must
%avp Precedence 1010 vendor 10415 Unsigned32 must
%avp Charging-Rule-Name 1005 vendor 10415 OctetString must
%avp Charging-Rule-Definition 1003 vendor 10415 Grouped must
%avp Charging-Rule-Install 1001 vendor 10415 Grouped must
%avp Lonely 9001 Unsigned32 any
<Charging-Rule-Definition> ::= < AVP Header: 1003 10415 > { Charging-Rule-Name } [ Precedence ]
<Charging-Rule-Install> ::= < AVP Header: 1001 10415 > * [ Charging-Rule-Definition ]
<Gx-CCR> ::= < Diameter Header: 272, REQ, PXY, 16777238 > < Session-Id > * [ Charging-Rule-Install ] * [ AVP ]
<Gx-CCA> ::= < Diameter Header: 272, PXY, 16777238 > < Session-Id > [ Charging-Rule-Install ]
--
uses: no AVP /10415
== a sign; avps +5; status 2
%avp Session-Id 263 UTF8String must
%avp Precedence 1010 vendor 10415 Unsigned32 must
%avp Charging-Rule-Name 1005 vendor 10415 OctetString must
%avp Charging-Rule-Definition 1003 vendor 10415 Grouped must
%avp Charging-Rule-Install 1001 vendor 10415 Grouped must
%avp Lonely 9001 Unsigned32 any
<Charging-Rule-Definition> ::= < AVP Header: 1003 10415 > { Charging-Rule-Name } [ Precedence ]
<Charging-Rule-Install> ::= < AVP Header: 1001 10415 > * [ Charging-Rule-Definition ]
<Gx-CCR> ::= < Diameter Header: 272, REQ, PXY, 16777238 > < Session-Id > * [ Charging-Rule-Install ] * [ AVP ]
<Gx-CCA> ::= < Diameter Header: 272, PXY, 16777238 > < Session-Id > [ Charging-Rule-Install ]
--
uses: no AVP +5
== neither a rule nor a wildcard; avps X; status 1
%avp X 9001 Unsigned32 any
%avp Y 9002 Unsigned32 any
<C> ::= < Diameter Header: 302, REQ > [ Y ]
--
no place
== a group that only a wildcard lets in isn't reached; avps X; status 0
%avp X 9001 Unsigned32 any
%avp G 9003 Grouped any
<G> ::= < AVP Header: 9003 > [ X ]
<C> ::= < Diameter Header: 302, REQ > * [ AVP ]
--
C: X by [ AVP ]
== a rule that forbids the AVP; avps X; status 1
%avp X 9001 Unsigned32 any
<C> ::= < Diameter Header: 302, REQ > 0*0 [ X ] * [ AVP ]
--
no place
== a rule that forbids the group; avps X; status 1
%avp X 9001 Unsigned32 any
%avp G 9003 Grouped any
<G> ::= < AVP Header: 9003 > [ X ]
<C> ::= < Diameter Header: 302, REQ > 0*0 [ G ]
--
no place
== a wildcard that forbids all; avps X; status 1
%avp X 9001 Unsigned32 any
<C> ::= < Diameter Header: 302, REQ > 0*0 [ AVP ]
--
no place
== a wildcard in braces; avps X; status 0
%avp X 9001 Unsigned32 any
<C> ::= < Diameter Header: 302, REQ > 2* { AVP }
--
C: X by { AVP }
== a group in itself; avps G; status 0
%avp X 9001 Unsigned32 any
%avp G 9003 Grouped any
<G> ::= < AVP Header: 9003 > [ X ] *3 [ G ]
<C> ::= < Diameter Header: 302, REQ > { G }
--
C: G 1
C/G: G 0..3
== of two paths the shorter; avps X; status 0
%avp X 9001 Unsigned32 any
%avp G 9003 Grouped any
%avp H 9004 Grouped any
<G> ::= < AVP Header: 9003 > [ X ]
<H> ::= < AVP Header: 9004 > [ G ]
<C> ::= < Diameter Header: 302, REQ > [ H ]
<D> ::= < Diameter Header: 303, REQ > [ G ]
--
D/G: X 0..1
== of two equal paths the first; avps X; status 0
%avp X 9001 Unsigned32 any
%avp G 9003 Grouped any
<G> ::= < AVP Header: 9003 > *5 { X }
<C> ::= < Diameter Header: 302, REQ > [ G ]
<D> ::= < Diameter Header: 303, REQ > [ G ]
--
C/G: X 1..5
== shorter paths first; avps X; status 0
%avp X 9001 Unsigned32 any
%avp G 9003 Grouped any
<G> ::= < AVP Header: 9003 > [ X ]
<C> ::= < Diameter Header: 302, REQ > [ G ]
<D> ::= < Diameter Header: 303, REQ > 2*2 { X }
--
D: X 2
C/G: X 0..1
== a group that no command reaches; avps X; status 1
%avp X 9001 Unsigned32 any
%avp G 9003 Grouped any
<G> ::= < AVP Header: 9003 > [ X ]
<C> ::= < Diameter Header: 302, REQ >
--
no place
== no command; avps X; status 1
%avp X 9001 Unsigned32 any
--
no place
== an empty dictionary; avps 7:8; status 1
--
no place
== a dictionary that is refused; avps X; status 2
<
--
dictionary 1: syntax at line 2
"#;
