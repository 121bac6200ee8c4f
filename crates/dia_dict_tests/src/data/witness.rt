//! Shortest data of a format, and shortest data that one format accepts and another doesn't.

pub(super) const ROWS: &str = r"
# What is shortest of each format.
shortest OctetString => x
shortest IPFilterRule => x
shortest QoSFilterRule => x
shortest Integer32 => x00000000
shortest Unsigned32 => x00000000
shortest Float32 => x00000000
shortest Time => x00000000
shortest Enumerated => x00000000
shortest Integer64 => x0000000000000000
shortest Unsigned64 => x0000000000000000
shortest Float64 => x0000000000000000
shortest Grouped => -
shortest Address => x0000
shortest UTF8String => x
shortest DiameterIdentity => x61
shortest DiameterURI => x6161613a2f2f61
shortest Enumerated(3..3,0..1) => x00000000
shortest Enumerated(3..2) => -

# OctetString sent.
witness OctetString OctetString => -
witness OctetString IPFilterRule => -
witness OctetString QoSFilterRule => -
witness OctetString Integer32 => x
witness OctetString Unsigned32 => x
witness OctetString Float32 => x
witness OctetString Time => x
witness OctetString Enumerated => x
witness OctetString Integer64 => x
witness OctetString Unsigned64 => x
witness OctetString Float64 => x
witness OctetString Grouped => x
witness OctetString Address => x
witness OctetString UTF8String => xff
witness OctetString DiameterIdentity => x
witness OctetString DiameterURI => x

# IPFilterRule sent.
witness IPFilterRule OctetString => -
witness IPFilterRule IPFilterRule => -
witness IPFilterRule QoSFilterRule => -
witness IPFilterRule Integer32 => x
witness IPFilterRule Unsigned32 => x
witness IPFilterRule Float32 => x
witness IPFilterRule Time => x
witness IPFilterRule Enumerated => x
witness IPFilterRule Integer64 => x
witness IPFilterRule Unsigned64 => x
witness IPFilterRule Float64 => x
witness IPFilterRule Grouped => x
witness IPFilterRule Address => x
witness IPFilterRule UTF8String => xff
witness IPFilterRule DiameterIdentity => x
witness IPFilterRule DiameterURI => x

# QoSFilterRule sent.
witness QoSFilterRule OctetString => -
witness QoSFilterRule IPFilterRule => -
witness QoSFilterRule QoSFilterRule => -
witness QoSFilterRule Integer32 => x
witness QoSFilterRule Unsigned32 => x
witness QoSFilterRule Float32 => x
witness QoSFilterRule Time => x
witness QoSFilterRule Enumerated => x
witness QoSFilterRule Integer64 => x
witness QoSFilterRule Unsigned64 => x
witness QoSFilterRule Float64 => x
witness QoSFilterRule Grouped => x
witness QoSFilterRule Address => x
witness QoSFilterRule UTF8String => xff
witness QoSFilterRule DiameterIdentity => x
witness QoSFilterRule DiameterURI => x

# Integer32 sent.
witness Integer32 OctetString => -
witness Integer32 IPFilterRule => -
witness Integer32 QoSFilterRule => -
witness Integer32 Integer32 => -
witness Integer32 Unsigned32 => -
witness Integer32 Float32 => -
witness Integer32 Time => -
witness Integer32 Enumerated => -
witness Integer32 Integer64 => x00000000
witness Integer32 Unsigned64 => x00000000
witness Integer32 Float64 => x00000000
witness Integer32 Grouped => x00000000
witness Integer32 Address => x00010000
witness Integer32 UTF8String => xffffffff
witness Integer32 DiameterIdentity => x00000000
witness Integer32 DiameterURI => x00000000

# Unsigned32 sent.
witness Unsigned32 OctetString => -
witness Unsigned32 IPFilterRule => -
witness Unsigned32 QoSFilterRule => -
witness Unsigned32 Integer32 => -
witness Unsigned32 Unsigned32 => -
witness Unsigned32 Float32 => -
witness Unsigned32 Time => -
witness Unsigned32 Enumerated => -
witness Unsigned32 Integer64 => x00000000
witness Unsigned32 Unsigned64 => x00000000
witness Unsigned32 Float64 => x00000000
witness Unsigned32 Grouped => x00000000
witness Unsigned32 Address => x00010000
witness Unsigned32 UTF8String => xffffffff
witness Unsigned32 DiameterIdentity => x00000000
witness Unsigned32 DiameterURI => x00000000

# Float32 sent.
witness Float32 OctetString => -
witness Float32 IPFilterRule => -
witness Float32 QoSFilterRule => -
witness Float32 Integer32 => -
witness Float32 Unsigned32 => -
witness Float32 Float32 => -
witness Float32 Time => -
witness Float32 Enumerated => -
witness Float32 Integer64 => x00000000
witness Float32 Unsigned64 => x00000000
witness Float32 Float64 => x00000000
witness Float32 Grouped => x00000000
witness Float32 Address => x00010000
witness Float32 UTF8String => xffffffff
witness Float32 DiameterIdentity => x00000000
witness Float32 DiameterURI => x00000000

# Time sent.
witness Time OctetString => -
witness Time IPFilterRule => -
witness Time QoSFilterRule => -
witness Time Integer32 => -
witness Time Unsigned32 => -
witness Time Float32 => -
witness Time Time => -
witness Time Enumerated => -
witness Time Integer64 => x00000000
witness Time Unsigned64 => x00000000
witness Time Float64 => x00000000
witness Time Grouped => x00000000
witness Time Address => x00010000
witness Time UTF8String => xffffffff
witness Time DiameterIdentity => x00000000
witness Time DiameterURI => x00000000

# Enumerated sent.
witness Enumerated OctetString => -
witness Enumerated IPFilterRule => -
witness Enumerated QoSFilterRule => -
witness Enumerated Integer32 => -
witness Enumerated Unsigned32 => -
witness Enumerated Float32 => -
witness Enumerated Time => -
witness Enumerated Enumerated => -
witness Enumerated Integer64 => x00000000
witness Enumerated Unsigned64 => x00000000
witness Enumerated Float64 => x00000000
witness Enumerated Grouped => x00000000
witness Enumerated Address => x00010000
witness Enumerated UTF8String => xffffffff
witness Enumerated DiameterIdentity => x00000000
witness Enumerated DiameterURI => x00000000

# Integer64 sent.
witness Integer64 OctetString => -
witness Integer64 IPFilterRule => -
witness Integer64 QoSFilterRule => -
witness Integer64 Integer32 => x0000000000000000
witness Integer64 Unsigned32 => x0000000000000000
witness Integer64 Float32 => x0000000000000000
witness Integer64 Time => x0000000000000000
witness Integer64 Enumerated => x0000000000000000
witness Integer64 Integer64 => -
witness Integer64 Unsigned64 => -
witness Integer64 Float64 => -
witness Integer64 Grouped => x0000000000000000
witness Integer64 Address => x0001000000000000
witness Integer64 UTF8String => xffffffffffffffff
witness Integer64 DiameterIdentity => x0000000000000000
witness Integer64 DiameterURI => x0000000000000000

# Unsigned64 sent.
witness Unsigned64 OctetString => -
witness Unsigned64 IPFilterRule => -
witness Unsigned64 QoSFilterRule => -
witness Unsigned64 Integer32 => x0000000000000000
witness Unsigned64 Unsigned32 => x0000000000000000
witness Unsigned64 Float32 => x0000000000000000
witness Unsigned64 Time => x0000000000000000
witness Unsigned64 Enumerated => x0000000000000000
witness Unsigned64 Integer64 => -
witness Unsigned64 Unsigned64 => -
witness Unsigned64 Float64 => -
witness Unsigned64 Grouped => x0000000000000000
witness Unsigned64 Address => x0001000000000000
witness Unsigned64 UTF8String => xffffffffffffffff
witness Unsigned64 DiameterIdentity => x0000000000000000
witness Unsigned64 DiameterURI => x0000000000000000

# Float64 sent.
witness Float64 OctetString => -
witness Float64 IPFilterRule => -
witness Float64 QoSFilterRule => -
witness Float64 Integer32 => x0000000000000000
witness Float64 Unsigned32 => x0000000000000000
witness Float64 Float32 => x0000000000000000
witness Float64 Time => x0000000000000000
witness Float64 Enumerated => x0000000000000000
witness Float64 Integer64 => -
witness Float64 Unsigned64 => -
witness Float64 Float64 => -
witness Float64 Grouped => x0000000000000000
witness Float64 Address => x0001000000000000
witness Float64 UTF8String => xffffffffffffffff
witness Float64 DiameterIdentity => x0000000000000000
witness Float64 DiameterURI => x0000000000000000

# Grouped sent.
witness Grouped OctetString => -
witness Grouped IPFilterRule => -
witness Grouped QoSFilterRule => -
witness Grouped Integer32 => -
witness Grouped Unsigned32 => -
witness Grouped Float32 => -
witness Grouped Time => -
witness Grouped Enumerated => -
witness Grouped Integer64 => -
witness Grouped Unsigned64 => -
witness Grouped Float64 => -
witness Grouped Grouped => -
witness Grouped Address => -
witness Grouped UTF8String => -
witness Grouped DiameterIdentity => -
witness Grouped DiameterURI => -

# Address sent.
witness Address OctetString => -
witness Address IPFilterRule => -
witness Address QoSFilterRule => -
witness Address Integer32 => x0000
witness Address Unsigned32 => x0000
witness Address Float32 => x0000
witness Address Time => x0000
witness Address Enumerated => x0000
witness Address Integer64 => x0000
witness Address Unsigned64 => x0000
witness Address Float64 => x0000
witness Address Grouped => x0000
witness Address Address => -
witness Address UTF8String => xffff
witness Address DiameterIdentity => x0000
witness Address DiameterURI => x0000

# UTF8String sent.
witness UTF8String OctetString => -
witness UTF8String IPFilterRule => -
witness UTF8String QoSFilterRule => -
witness UTF8String Integer32 => x
witness UTF8String Unsigned32 => x
witness UTF8String Float32 => x
witness UTF8String Time => x
witness UTF8String Enumerated => x
witness UTF8String Integer64 => x
witness UTF8String Unsigned64 => x
witness UTF8String Float64 => x
witness UTF8String Grouped => x
witness UTF8String Address => x
witness UTF8String UTF8String => -
witness UTF8String DiameterIdentity => x
witness UTF8String DiameterURI => x

# DiameterIdentity sent.
witness DiameterIdentity OctetString => -
witness DiameterIdentity IPFilterRule => -
witness DiameterIdentity QoSFilterRule => -
witness DiameterIdentity Integer32 => x61
witness DiameterIdentity Unsigned32 => x61
witness DiameterIdentity Float32 => x61
witness DiameterIdentity Time => x61
witness DiameterIdentity Enumerated => x61
witness DiameterIdentity Integer64 => x61
witness DiameterIdentity Unsigned64 => x61
witness DiameterIdentity Float64 => x61
witness DiameterIdentity Grouped => x61
witness DiameterIdentity Address => x61
witness DiameterIdentity UTF8String => -
witness DiameterIdentity DiameterIdentity => -
witness DiameterIdentity DiameterURI => x61

# DiameterURI sent.
witness DiameterURI OctetString => -
witness DiameterURI IPFilterRule => -
witness DiameterURI QoSFilterRule => -
witness DiameterURI Integer32 => x6161613a2f2f61
witness DiameterURI Unsigned32 => x6161613a2f2f61
witness DiameterURI Float32 => x6161613a2f2f61
witness DiameterURI Time => x6161613a2f2f61
witness DiameterURI Enumerated => x6161613a2f2f61
witness DiameterURI Integer64 => x6161613a2f2f61
witness DiameterURI Unsigned64 => x6161613a2f2f61
witness DiameterURI Float64 => x6161613a2f2f61
witness DiameterURI Grouped => x6161613a2f2f61
witness DiameterURI Address => -
witness DiameterURI UTF8String => -
witness DiameterURI DiameterIdentity => -
witness DiameterURI DiameterURI => -

# Lists sent.
witness Enumerated(7..9,5..7) Unsigned64 => x00000005
witness Enumerated(7..9,5..7) Grouped => x00000005
witness Enumerated(7..9) Time => -
witness Enumerated(7..9) Enumerated => -
witness Enumerated(7..9) QoSFilterRule => -
witness Enumerated(3..2) DiameterURI => -
witness Enumerated(0..65535) Address => -
witness Enumerated(1..65540) Address => x00010000
witness Enumerated(196607..196608) Address => x0002ffff
witness Enumerated(196608..4294967295) Address => -
witness Enumerated(0..127) UTF8String => -
witness Enumerated(0..300) UTF8String => x00000080
witness Enumerated(49792..49855) UTF8String => -
witness Enumerated(49855..49856) UTF8String => x0000c2c0
witness Enumerated(1633771809..1633771902) DiameterIdentity => -
witness Enumerated(1633771902..1633771903) DiameterIdentity => x6161617f
witness Enumerated(3..3,0..1) Enumerated(0..1,2..3) => -
witness Enumerated(3..3,0..1) Enumerated(1..3) => x00000000
witness Enumerated(3..3,0..1) Enumerated(0..0,2..5) => x00000001
witness Enumerated(3..3,0..1) Enumerated(3..2) => x00000000

# Lists accepted.
witness Integer32 Enumerated(0..2) => x00000003
witness Time Enumerated(1..4294967295) => x00000000
witness Float32 Enumerated(0..4294967294) => xffffffff
witness Unsigned32 Enumerated(9..4294967295,0..8) => -
witness UTF8String Enumerated(0..4294967295) => x
witness Integer64 Enumerated(0..4294967295) => x0000000000000000
";
