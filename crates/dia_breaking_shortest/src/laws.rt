//! What holds of all that a side sends.
ghost use Rattle.dia_breaking_shortest.specs.Laws.{GroupIsAttained, LeafIsAttained, LengthIsAttained};
ghost use Rattle.dia_breaking_shortest.specs.Laws.{LengthsAreOne, NoAvpIsShorter, NoMessageIsShorter};
ghost use Rattle.dia_breaking_shortest.specs.Laws.{LeastAvpsAreBytes, LeastAvpsAreOne, LeastAvpsAreSpelled, LeastLevelsAreSpelled, UnknownIsAttained};

/// No AVP that is sent is shorter than a floor of its key says, with its padding.
pub fn no_avp_is_shorter()
    ensures { NoAvpIsShorter }
{}

/// No message that is sent is shorter than its header and the floors of its AVPs' keys.
pub fn no_message_is_shorter()
    ensures { NoMessageIsShorter }
{}

/// Each data of a leaf's format makes an AVP that is sent, with a head that is as short as its key allows.
pub fn leaf_is_attained()
    ensures { LeafIsAttained }
{}

/// An AVP that the dictionary doesn't know is sent with no data, where any are sent.
pub fn unknown_is_attained()
    ensures { UnknownIsAttained }
{}

/// AVPs that are sent, and are as the rules of a group say, make a group that is sent.
pub fn group_is_attained()
    ensures { GroupIsAttained }
{}

/// The lengths of shortest AVPs are the only solution of their equations.
pub fn lengths_are_one()
    ensures { LengthsAreOne }
{}

/// Some AVP of each key that is sent has the length that is found for it.
pub fn length_is_attained()
    ensures { LengthIsAttained }
{}

/// A dictionary and what its side sends determine the shortest AVP of each key that is written.
pub fn least_avps_are_one()
    ensures one { LeastAvpsAreOne }
    ensures bytes { LeastAvpsAreBytes }
{}

/// The bytes of a shortest AVP spell one AVP of its key, which has the length that is computed, where a message has room for it.
/// Its data spell AVPs, where it is a group.
pub fn least_avps_are_spelled()
    ensures one { LeastAvpsAreSpelled }
    ensures level { LeastLevelsAreSpelled }
{}
