//! Which data a format accepts.

pub(super) const ROWS: &str = r"
# Addresses.
accepts Address 000100000000 => Fine
accepts Address 0003 => Fine
accepts Address 0001 => BadLength
accepts Address 00 => BadLength
accepts Address 000200000000 => BadLength

# URIs and identities.
accepts DiameterURI 4141413a2f2f68 => Fine
accepts DiameterURI 616161733a2f2f68 => Fine
accepts DiameterURI 614161533a2f2f68 => Fine
accepts DiameterURI 6161613a2f2f => BadValue
accepts DiameterURI 616161733a2f => BadValue
accepts DiameterURI 6161613a2f2f682068 => BadValue
accepts DiameterIdentity => BadValue
accepts DiameterIdentity 612e62 => Fine
accepts DiameterIdentity 617f => BadValue

# Texts.
accepts UTF8String => Fine
accepts UTF8String f48fbfbf => Fine
accepts UTF8String c080 => BadValue
accepts UTF8String eda080 => BadValue
accepts UTF8String f4908080 => BadValue

# Numbers of a list that has a gap, of one of several ranges, and where there is no list.
accepts Enumerated(0..1,3..3) 00000002 => BadValue
accepts Enumerated(0..1,3..3) 00000003 => Fine
accepts Enumerated(0..0,1..1,2..2) 000002 => BadLength
accepts Enumerated(0..0,1..1,2..2) 00000002 => Fine
accepts Enumerated(0..0,1..1,2..2) ffffffff => BadValue
accepts Enumerated(0..0,1..1,2..2,9..8,20..30) 000002 => BadLength
accepts Enumerated(0..0,1..1,2..2,9..8,20..30) 00000002 => Fine
accepts Enumerated(0..0,1..1,2..2,9..8,20..30) ffffffff => BadValue
accepts Enumerated(0..0,1..1,2..2,9..8,20..30) 00000008 => BadValue
accepts Enumerated(0..0,1..1,2..2,9..8,20..30) 00000013 => BadValue
accepts Enumerated(0..0,1..1,2..2,9..8,20..30) 00000014 => Fine
accepts Enumerated(0..0,1..1,2..2,9..8,20..30) 0000001e => Fine
accepts Enumerated(0..0,1..1,2..2,9..8,20..30) 0000001f => BadValue
accepts Enumerated ffffffff => Fine

# Lengths of data that are accepted.
lengths OctetString => any
lengths IPFilterRule => any
lengths QoSFilterRule => any
lengths Grouped => any
lengths Integer32 => 4
lengths Unsigned32 => 4
lengths Float32 => 4
lengths Time => 4
lengths Integer64 => 8
lengths Unsigned64 => 8
lengths Float64 => 8

# The example of dia_data's docs.
accepts Unsigned32 000028af => Fine
accepts Unsigned64 000028af => BadLength
print Unsigned32 000028af => 10415
accepts Enumerated(0..1) 000028af => BadValue
below Enumerated(0..1) Integer32 => true
below Integer32 Enumerated(0..1) => false
";
