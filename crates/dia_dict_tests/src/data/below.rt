//! Which format accepts all that another accepts, and copies of formats.

pub(super) const ROWS: &str = r"
# Formats without lists.
below Grouped OctetString => true
below OctetString Grouped => false
below Grouped Grouped => false
below Time Time => true
below Time Unsigned32 => false
below DiameterURI UTF8String => true
below DiameterIdentity UTF8String => true
below UTF8String DiameterIdentity => false
below IPFilterRule QoSFilterRule => false
below Enumerated Integer32 => true
below Integer32 Enumerated => false

# Lists.
below Enumerated(0..0,1..1) Integer32 => true
below Enumerated(0..0,1..1) Enumerated => true
below Enumerated Enumerated(0..0,1..1) => false
below Enumerated(3..2) Enumerated(0..0,1..1) => true
below Enumerated(0..0,1..1) Enumerated(3..2) => false

# Lists whose ranges are cut in different ways.
below Enumerated(0..3) Enumerated(2..3,0..1) => true
below Enumerated(2..3,0..1) Enumerated(0..3) => true
below Enumerated(0..3) Enumerated(0..1,3..3) => false
below Enumerated(0..1,3..3) Enumerated(0..3) => true

# Lists of half the numbers of 32 bits, and of all.
below Enumerated(0..2147483647) Integer32 => true
below Enumerated(0..2147483647) Enumerated => true
below Enumerated Enumerated(0..2147483647) => false
below Enumerated(0..4294967295) Enumerated(0..4294967295) => true
below Enumerated(0..4294967295) Enumerated(0..2147483647) => false

# A copy of a format equals it, and no other.
copies Enumerated(7..9,0..3) Enumerated(7..9,0..3) => true
copies Time Time => true
copies Time Unsigned32 => false
";
