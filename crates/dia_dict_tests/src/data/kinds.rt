//! The name and the kind of each format (RFC 6733 sections 4.2 and 4.3, and for QoSFilterRule RFC 3588 section 4.3).

pub(super) const ROWS: &str = r"
kind OctetString => OctetString: any bytes
kind Integer32 => Integer32: 4 bytes, signed
kind Integer64 => Integer64: 8 bytes, signed
kind Unsigned32 => Unsigned32: 4 bytes, unsigned
kind Unsigned64 => Unsigned64: 8 bytes, unsigned
kind Float32 => Float32: 4 bytes, no number
kind Float64 => Float64: 8 bytes, no number
kind Grouped => Grouped: AVPs
kind Address => Address: an address
kind Time => Time: 4 bytes, unsigned
kind UTF8String => UTF8String: a text
kind DiameterIdentity => DiameterIdentity: an identity
kind DiameterURI => DiameterURI: a URI
kind Enumerated => Enumerated: a listed number
kind Enumerated(0..3) => Enumerated: a listed number
kind IPFilterRule => IPFilterRule: any bytes
kind QoSFilterRule => QoSFilterRule: any bytes
";
