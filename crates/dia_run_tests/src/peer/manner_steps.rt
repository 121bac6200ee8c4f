//! Connections of each manner, with bytes: a row is what happens at a core, or a new core. `manners` has the meaning of the words.

/// The steps.
pub(super) const STEPS: &str = r"
# AVPs of `host.invalid`, and messages: of it, and of `a.b`, which it gets.
let HOST = 0000010840000014686f73742e696e76616c6964
let REALM = 000001284000000f696e76616c696400
let RELAY = 000001024000000cffffffff
let OWN_CER = 0100006c80000101 000000000000001000000020 $HOST $REALM $IP $VENDOR $P $AUTH4
let CER4 = 0100006080000101 000000000000000100000002 $OH $OR $IP $VENDOR $P $AUTH4
let OWN_CEA = 0100007800000101 000000000000000100000002 $SUCCESS $HOST $REALM $IP $VENDOR $P $AUTH4
let CEA4 = 0100006c00000101 000000000000001000000020 $SUCCESS $OH $OR $IP $VENDOR $P $AUTH4
let DWR17 = 0100003880000118 000000000000001100000021 $HOST $REALM
let DWR18 = 0100003880000118 000000000000001200000022 $HOST $REALM
let EMPTY_DWR = 0100001480000118 000000000000000100000002

# An invalid CER.
core answers | Responder | auth:4 => Idle
start => WaitCer
comes 0100005080000101 000000000000000100000002 $OH $OR $VENDOR $P $AUTH4 => Closed send 0100008820000101 000000000000000100000002 $HOST $REALM 0000010c4000000c0000138d 00000119000000306661756c742035303035206174203830206d697373696e6720486f73742d49502d41646472657373 0000011740000014000001014000000a00000000 close Invalid

# A CER of version 2.
core answers | Responder | auth:4 => Idle
start => WaitCer
comes 0200006080000101 000000000000000100000002 $OH $OR $IP $VENDOR $P $AUTH4 => Closed send 0100006820000101 000000000000000100000002 $HOST $REALM 0000010c4000000c00001393 00000119000000216661756c74203530313120617420302076657273696f6e202d000000 close Invalid

# An invalid DWR before the CER.
core answers | Responder | auth:4 => Idle
start => WaitCer
comes $EMPTY_DWR => Closed close Invalid

# An invalid request before the CEA.
core answers | Initiator | auth:4 => Idle
start => WaitCea send $OWN_CER
comes $EMPTY_DWR => Closed close Invalid

# An invalid DWR.
core answers | Responder | auth:4 => Idle
start => WaitCer
comes $CER4 => Open send $OWN_CEA
comes 0100002080000118 000000000000000100000002 $OR => Closed send 0100008400000118 000000000000000100000002 0000010c4000000c0000138d $HOST $REALM 000001190000002c6661756c742035303035206174203332206d697373696e67204f726967696e2d486f7374 0000011740000014000001084000000961000000 close Invalid

# The CER again, another one, an invalid one.
core answers | Responder | auth:4 => Idle
start => WaitCer
comes $CER4 => Open send $OWN_CEA
comes $CER4 => Open send $OWN_CEA
comes 0100006080000101 000000000000000100000002 $OH $OR $IP $VENDOR $P 000001024000000c00000007 => Open
comes 01000060c0000101 000000000000000100000002 $OH $OR $IP $VENDOR $P $AUTH4 => Closed send 0100006860000101 000000000000000100000002 $HOST $REALM 0000010c4000000c00000bc0 00000119000000236661756c74203330303820617420342070726f786961626c65202d00 close Invalid

# An application's request of version 2.
core answers | Initiator | auth:4 => Idle
start => WaitCea send $OWN_CER
comes $CEA4 => Open
comes 02000014c0000110 000000040000000100000002 => Closed send 0100006860000110 000000040000000100000002 $HOST $REALM 0000010c4000000c00001393 00000119000000216661756c74203530313120617420302076657273696f6e202d000000 close Invalid

# An invalid answer.
core answers | Initiator | auth:4 => Idle
start => WaitCea send $OWN_CER
comes $CEA4 => Open
comes 0100002000000118 000000000000000100000002 $SUCCESS => Closed close Invalid

# Cut bytes.
core answers | Initiator | auth:4 => Idle
start => WaitCea send $OWN_CER
comes $CEA4 => Open
comes 0100002c80000118 000000000000000100000002 $OH 0000012840000009 => Closed close Invalid

# An invalid DPR after the own one.
core answers | Initiator | auth:4 => Idle
start => WaitCea send $OWN_CER
comes $CEA4 => Open
stop DoNotWant => WaitDpa send 010000448000011a 000000000000001100000021 $HOST $REALM 000001114000000c00000002
comes 010000388000011a 000000000000000100000002 $OH $OR 000001114000000c00000003 => Closed send 0100008c0000011a 000000000000000100000002 0000010c4000000c0000138c $HOST $REALM 00000119000000346661756c742035303034206174203434206c6561662d76616c756520446973636f6e6e6563742d4361757365 0000011740000014000001114000000c00000003 close Invalid

# An invalid DWR, without manner.
core none | Responder | auth:4 => Idle
start => WaitCer
comes $CER4 => Open send $OWN_CEA
comes 0100002080000118 000000000000000100000002 $OR => Closed close Invalid

# Silence.
core life | Initiator | auth:4 => Idle
start => WaitCea send $OWN_CER
comes $CEA4 => Open
tick => Open send $DWR17
tick => Open suspect
heard => Open
tick => Open suspect
comes 01000014c0000110 000000040000000100000002 => Open
tick => Open suspect
tick => Closed close Watchdog

# Silence, without manner.
core none | Initiator | auth:4 => Idle
start => WaitCea send $OWN_CER
comes $CEA4 => Open
tick => Open send $DWR17
heard => Open
tick => Closed close Watchdog

# An error message answers the DWR.
core life | Initiator | auth:4 => Idle
start => WaitCea send $OWN_CER
comes $CEA4 => Open
tick => Open send $DWR17
tick => Open suspect
comes 0100003820000118 000000000000001100000021 $OH $OR 0000010c4000000c00000bbc => Open
tick => Open send $DWR18

# A DWA with 5012.
core life | Initiator | auth:4 => Idle
start => WaitCea send $OWN_CER
comes $CEA4 => Open
tick => Open send $DWR17
tick => Open suspect
comes 0100003800000118 000000000000001100000021 0000010c4000000c00001394 $OH $OR => Open
tick => Open send $DWR18

# Identifiers.
core none | Initiator | auth:4 => Idle
start => WaitCea send $OWN_CER
comes $CEA4 => Open
ids => 17 33
tick => Open send $DWR18
ids => 19 35

# A relay.
core relays | Responder | auth:4294967295 => Idle
start => WaitCer
comes $CER4 => Open send 0100007800000101 000000000000000100000002 $SUCCESS $HOST $REALM $IP $VENDOR $P $RELAY
values => host - realm - product - result - cause -
common => Auth 4

# Its peer has 4294967295, no manner here.
core none | Responder | auth:4 => Idle
start => WaitCer
comes 0100006080000101 000000000000000100000002 $OH $OR $IP $VENDOR $P $RELAY => Closed send 0100007800000101 000000000000000100000002 $NO_COMMON $HOST $REALM $IP $VENDOR $P $AUTH4 close NoCommon

# The peer's values, opened.
core values | Responder | auth:4 => Idle
start => WaitCer
values => host - realm - product - result - cause -
common => 
comes $CER4 => Open send $OWN_CEA
values => host a.b realm b product p result - cause -
common => Auth 4
comes 010000388000011a 000000000000000100000002 $OH $OR 000001114000000c00000001 => Closed send 010000440000011a 000000000000000100000002 $SUCCESS $HOST $REALM close PeerStopped
values => host a.b realm b product p result - cause 1
common => Auth 4

# A CEA with 5010.
core values | Initiator | auth:4 => Idle
start => WaitCea send $OWN_CER
comes 0100006c00000101 000000000000001000000020 $NO_COMMON $OH $OR $IP $VENDOR $P $AUTH4 => Closed close NoCommon
values => host a.b realm b product p result 5010 cause -
common => 

# An error message, 3010.
core values | Initiator | auth:4 => Idle
start => WaitCea send $OWN_CER
comes 0100003820000101 000000000000001000000020 $OH $OR 0000010c4000000c00000bc2 => Closed close Refused
values => host a.b realm b product - result 3010 cause -
common =>
";
