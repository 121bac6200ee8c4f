//! What worked connections do: a row is what happens at an end, or new ends. `connections` has the meaning of the words.

/// The steps.
pub(super) const STEPS: &str = r"
# Both open with what both advertise.
ends 1 | auth:1 auth:4 | auth:4 acct:3 => Idle Idle
i common =>
i start => WaitCea send $CER
r start => WaitCer
r comes $CER => Open send $CEA
i comes $CEA => Open
i common => Auth 4
r common => Auth 4

# A CER that comes again is answered again.
ends 1 | auth:1 auth:4 | auth:4 acct:3 => Idle Idle
i start => WaitCea send $CER
r start => WaitCer
r comes $CER => Open send $CEA
i comes $CEA => Open
r comes $CER => Open send $CEA

# Both close without a common application.
ends 1 | auth:1 | auth:4 => Idle Idle
i start => WaitCea send $CER_WITHOUT
r start => WaitCer
r comes $CER_WITHOUT => Closed send $CEA_WITHOUT close NoCommon
i comes $CEA_WITHOUT => Closed close NoCommon

# Watchdogs are sent and answered: a request that is answered, and one to which the answer of the request before comes again.
ends 1 | auth:1 auth:4 | auth:4 acct:3 => Idle Idle
i start => WaitCea send $CER
r start => WaitCer
r comes $CER => Open send $CEA
i comes $CEA => Open
r comes $DWR => Open send $DWA
r tick => Open send $OWN_DWR
r tick => Closed close Watchdog
i tick => Open send $SECOND_DWR
i comes $SECOND_DWA => Open
i tick => Open send $THIRD_DWR
i comes $SECOND_DWA => Open
i tick => Closed close Watchdog

# A watchdog that comes again gets its answer again.
ends 1 | auth:1 auth:4 | auth:4 acct:3 => Idle Idle
i start => WaitCea send $CER
r start => WaitCer
r comes $CER => Open send $CEA
i comes $CEA => Open
i tick => Open send $SECOND_DWR
r comes $SECOND_DWR => Open send $SECOND_DWA
r comes $SECOND_DWR => Open send $SECOND_DWA
i comes $SECOND_DWA => Open
i tick => Open send $THIRD_DWR

# Identifiers go round.
ends 4294967294 | auth:1 auth:4 | auth:4 acct:3 => Idle Idle
i start => WaitCea send $LATE_CER
r start => WaitCer
r comes $LATE_CER => Open send $LATE_CEA
i comes $LATE_CEA => Open
i tick => Open send $LATE_DWR
r comes $LATE_DWR => Open send $LATE_DWA
i comes $LATE_DWA => Open
i tick => Open send $WRAPPED_DWR

# Disconnecting.
ends 1 | auth:1 auth:4 | auth:4 acct:3 => Idle Idle
i start => WaitCea send $CER
r start => WaitCer
r comes $CER => Open send $CEA
i comes $CEA => Open
i stop Busy => WaitDpa send $DPR
i stop Busy => WaitDpa
r comes $DPR => Closed send $DPA close PeerStopped
i comes $DPA => Closed close Stopped
i comes $DPA => Closed

# A connection closes where a message is refused: a command that no core reads, a watchdog request without AVPs, nineteen bytes of it.
let FOREIGN = 010000148000012c000000000000000100000002
let EMPTY_DWR = 0100001480000118000000000000000100000002
let CUT_DWR = 01000014800001180000000000000001000000
ends 1 | auth:1 auth:4 | auth:4 acct:3 => Idle Idle
i start => WaitCea send $CER
r start => WaitCer
i comes $FOREIGN => WaitCea
i comes $EMPTY_DWR => Closed close Invalid
r comes $CUT_DWR => Closed close Invalid

# Ends give up waiting.
ends 1 | auth:1 auth:4 | auth:4 acct:3 => Idle Idle
i tick => Idle
i start => WaitCea send $CER
i start => WaitCea
i tick => Closed close Timeout
r start => WaitCer
r lost => Closed

# A message that is invalid behind its header, at both ends.
let NO_REALM = 0100002080000118 $I $OH
ends 1 | auth:1 auth:4 | auth:4 acct:3 => Idle Idle
i start => WaitCea send $CER
i comes $NO_REALM => Closed close Invalid
r start => WaitCer
r comes $NO_REALM => Closed close Invalid
ends 1 | auth:1 auth:4 | auth:4 acct:3 => Idle Idle
i start => WaitCea send $CER
r start => WaitCer
r comes $CER => Open send $CEA
i comes $CEA => Open
r comes $NO_REALM => Closed close Invalid
i comes 0100001480000118 $I => Closed close Invalid
i comes $DWR => Closed

# The application of relays is one as others.
let RELAY = 000001024000000cffffffff
ends 1 | auth:1 | auth:4 => Idle Idle
r start => WaitCer
r comes 0100006080000101 000000000000000100000001 $OH $OR $IP $VENDOR $P $RELAY => Closed send $CEA_WITHOUT close NoCommon
ends 1 | auth:1 | auth:4 acct:3 => Idle Idle
r start => WaitCer
r comes 0100006c80000101 000000000000000100000001 $OH $OR $IP $VENDOR $P $RELAY $AUTH4 => Open send $CEA
r common => Auth 4

# An end that relays finds none in common with one that names none: as the responder, and as the initiator.
relays 1 | auth:4294967295 | auth:4294967295 => Idle Idle
r start => WaitCer
r comes 0100005480000101 000000000000000100000001 $OH $OR $IP $VENDOR $P => Closed send 0100006c00000101 000000000000000100000001 $NO_COMMON $OH2 $OR2 $IP2 $VENDOR $P2 $RELAY close NoCommon
i start => WaitCea send 0100006080000101 000000000000000100000001 $OH $OR $IP $VENDOR $P $RELAY
i comes 0100006000000101 000000000000000100000001 $SUCCESS $OH2 $OR2 $IP2 $VENDOR $P2 => Closed close NoCommon

# An end that relays takes what the other names: auth 4 twice and out of order.
relays 1 | auth:1 | auth:4294967295 => Idle Idle
r start => WaitCer
r serves 0 => true
r serves 4 => false
r comes 0100008480000101 000000000000000100000001 $OH $OR $IP $VENDOR $P $ACCT3 $AUTH4 $AUTH1 $AUTH4 => Open send 0100006c00000101 000000000000000100000001 $SUCCESS $OH2 $OR2 $IP2 $VENDOR $P2 $RELAY
r common => Auth 1 Auth 4 Acct 3
r serves 0 => true
r serves 3 => true
r serves 5 => false

# Two ends that relay have all applications.
relays 1 | auth:1 auth:4 | acct:4294967295 => Idle Idle
r start => WaitCer
r comes 0100006080000101 000000000000000100000001 $OH $OR $IP $VENDOR $P $RELAY => Open send 0100006c00000101 000000000000000100000001 $SUCCESS $OH2 $OR2 $IP2 $VENDOR $P2 000001034000000cffffffff
r common => Auth 4294967295
r serves 7 => true

# A Vendor-Specific-Application-Id with two applications: 44 bytes.
ends 1 | auth:1 | auth:4 acct:3 => Idle Idle
r start => WaitCer
r comes 0100008080000101 000000000000000100000001 $OH $OR $IP $VENDOR $P 000001044000002c 0000010a4000000c000028af $AUTH4 $ACCT3 => Open send $CEA
r common => Auth 4 Acct 3

# A CER that is shorter than the one taken is ignored, and so is one that is longer.
ends 1 | auth:1 auth:4 | auth:4 acct:3 => Idle Idle
r start => WaitCer
r comes $CER => Open send $CEA
r comes $CER_WITHOUT => Open
r comes 0100007880000101 000000000000000100000001 $OH $OR $IP $VENDOR $P $AUTH1 $AUTH4 $ACCT3 => Open
r comes $CER => Open send $CEA

# Messages above 4,096 bytes: an unknown AVP of 4,104 bytes ends each.
let ZERO = 00
let LONG = 0000270f00001008 $ZERO*4096
let LONG_CER = 0100107480000101 000000000000000100000001 $OH $OR $IP $VENDOR $P $AUTH1 $AUTH4 $LONG
ends 1 | auth:1 auth:4 | auth:4 acct:3 => Idle Idle
r start => WaitCer
r comes $LONG_CER => Open send $CEA
r comes $LONG_CER => Open send $CEA
r comes 0100103480000118 $I $OH $OR $LONG => Open send $DWA
r comes 0100102880000118 $I $OH $LONG => Closed close Invalid

# An Origin-State-Id of 0 is sent.
let STATE = 000001164000000c00000000
let STATE_CER = 0100007880000101 000000000000000100000001 $OH $OR $IP $VENDOR $P $STATE $AUTH1 $AUTH4
ends 1 0 | auth:1 auth:4 | auth:4 acct:3 => Idle Idle
i start => WaitCea send $STATE_CER
r start => WaitCer
r comes $STATE_CER => Open send 0100008400000101 000000000000000100000001 $SUCCESS $OH2 $OR2 $IP2 $VENDOR $P2 $STATE $AUTH4 $ACCT3
r tick => Open send 0100003880000118 000000000000000100000001 $OH2 $OR2 $STATE
";
