//! A text where memory runs out somewhere: every call answers that, or what it answers with ample memory.

use dia_ccf::{CcfFault, Source, parse, render};
use std::process::Abort;

/// A canonical text with each kind of line.
const TEXT: &str = "%avp Disconnect-Cause 273 Enumerated any ( 0 1 2 )
%avp Proxy-Host 280 DiameterIdentity any
%avp Proxy-State 33 OctetString any
<Proxy-Info> ::= < AVP Header: 284 >
  { Proxy-Host }
  { Proxy-State }
  * [ AVP ]
<DPR> ::= < Diameter Header: 282, REQ >
  { Disconnect-Cause }
  * [ AVP ]
";

/// Checks that what was read is rendered as the text, or that memory is refused.
fn renders(rt: &(impl AllocGlobal + Abort), source: &Source) {
    if let Ok(text) = render(rt.alloc(), source) {
        assert!(rt; text.as_str() == TEXT);
    }
}

#[test]
fn a_text_is_rendered_or_memory_is_refused(rt: HostRuntime) {
    match parse(rt.alloc(), TEXT) {
        Ok(source) => renders(&rt, &source),
        Err(fault) => assert!(rt; matches!(fault, CcfFault::NoMemory)),
    }
}
