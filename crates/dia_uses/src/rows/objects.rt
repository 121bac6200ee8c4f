//! Answers as JSON.

pub(super) const ROWS: &str = r#"== a rule of a group at depth 2; avps Precedence; status 0
%avp Session-Id 263 UTF8String must
%avp Precedence 1010 vendor 10415 Unsigned32 must
%avp Charging-Rule-Name 1005 vendor 10415 OctetString must
%avp Charging-Rule-Definition 1003 vendor 10415 Grouped must
%avp Charging-Rule-Install 1001 vendor 10415 Grouped must
%avp Lonely 9001 Unsigned32 any
<Charging-Rule-Definition> ::= < AVP Header: 1003 10415 > { Charging-Rule-Name } [ Precedence ]
<Charging-Rule-Install> ::= < AVP Header: 1001 10415 > * [ Charging-Rule-Definition ]
<Gx-CCR> ::= < Diameter Header: 272, REQ, PXY, 16777238 > < Session-Id > * [ Charging-Rule-Install ] * [ AVP ]
<Gx-CCA> ::= < Diameter Header: 272, PXY, 16777238 > < Session-Id > [ Charging-Rule-Install ]
--
{"avp":{"name":"Precedence","code":1010,"vendor":10415},"command":"Gx-CCR","path":["Charging-Rule-Install","Charging-Rule-Definition"],"by":"rule","min":0,"max":1}
{"avp":{"name":"Precedence","code":1010,"vendor":10415},"command":"Gx-CCR","path":[],"by":"wildcard","min":0,"max":null}
== the code of another vendor's AVP; avps 1010; status 0
%avp Session-Id 263 UTF8String must
%avp Precedence 1010 vendor 10415 Unsigned32 must
%avp Charging-Rule-Name 1005 vendor 10415 OctetString must
%avp Charging-Rule-Definition 1003 vendor 10415 Grouped must
%avp Charging-Rule-Install 1001 vendor 10415 Grouped must
%avp Lonely 9001 Unsigned32 any
<Charging-Rule-Definition> ::= < AVP Header: 1003 10415 > { Charging-Rule-Name } [ Precedence ]
<Charging-Rule-Install> ::= < AVP Header: 1001 10415 > * [ Charging-Rule-Definition ]
<Gx-CCR> ::= < Diameter Header: 272, REQ, PXY, 16777238 > < Session-Id > * [ Charging-Rule-Install ] * [ AVP ]
<Gx-CCA> ::= < Diameter Header: 272, PXY, 16777238 > < Session-Id > [ Charging-Rule-Install ]
--
{"avp":{"code":1010,"vendor":0},"command":"Gx-CCR","path":[],"by":"wildcard","min":0,"max":null}
== neither a rule nor a wildcard; avps X; status 1
%avp X 9001 Unsigned32 any
--
{"verdict":"no place"}
== a word that names none; avps a"b; status 2
%avp X 9001 Unsigned32 any
--
{"error":"uses","kind":"no AVP","name":"a\"b"}
== a dictionary that is refused; avps X; status 2
%avp X 9001 Unsigned32 any
<C> ::= < Diameter Header: 302, REQ > [ Y ]
--
{"error":"dictionary 1","kind":"undefined-name","name":"C","slot":"Y"}
"#;
