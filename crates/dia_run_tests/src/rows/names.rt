//! Names that many rows use.

pub const NAMES: &str = r"
# Application 0, Hop-by-Hop Identifier 1, End-to-End Identifier 2.
let I = 000000000000000100000002
# Origin-Host `a.b`, and Origin-Realm `b`.
let OH = 000001084000000b612e6200
let OR = 000001284000000962000000
# A device watchdog request of the smallest kind.
let REQUEST = 0100002c80000118$I$OH$OR
# A session that is fixed at the front.
let S1 = %avp Session-Id 263 UTF8String any %avp Origin-Host 264 DiameterIdentity any <T> ::= < Diameter Header: 300, REQ > < Session-Id > { Origin-Host }
# Groups of one kind that hold each other.
let S2 = <Node> ::= < AVP Header: 9001 > * [ Node ] <T> ::= < Diameter Header: 301, REQ > * [ Node ]
# A number, another one, and the head of a request.
let X = %avp X 9002 Unsigned32 any
let Y = %avp Y 9003 Unsigned32 any
let T = <T> ::= < Diameter Header: 302, REQ >
# A pair of each AVP of the base dictionary but User-Name, the first.
let BASE_AVPS = avp Proxy-State = Proxy-State\navp Host-IP-Address = Host-IP-Address\navp Auth-Application-Id = Auth-Application-Id\navp Acct-Application-Id = Acct-Application-Id\navp Session-Id = Session-Id\navp Origin-Host = Origin-Host\navp Supported-Vendor-Id = Supported-Vendor-Id\navp Vendor-Id = Vendor-Id\navp Firmware-Revision = Firmware-Revision\navp Result-Code = Result-Code\navp Product-Name = Product-Name\navp Disconnect-Cause = Disconnect-Cause\navp Origin-State-Id = Origin-State-Id\navp Proxy-Host = Proxy-Host\navp Error-Message = Error-Message\navp Error-Reporting-Host = Error-Reporting-Host\navp Origin-Realm = Origin-Realm\navp Experimental-Result-Code = Experimental-Result-Code\navp Inband-Security-Id = Inband-Security-Id\navp Vendor-Specific-Application-Id = Vendor-Specific-Application-Id\navp Failed-AVP = Failed-AVP\navp Proxy-Info = Proxy-Info\navp Experimental-Result = Experimental-Result\n
";
