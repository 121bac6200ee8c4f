//! What follows of the definitions.

ghost use Rattle.dia_follow.specs.Opened.{CommonIsSymmetric, NoDepartureOpens};
ghost use Rattle.dia_follow.specs.Reading.{BytesHaveOneReading};

/// The bytes of a message are one message, or have one reason why their header can't be read.
pub fn bytes_have_one_reading()
    ensures { BytesHaveOneReading }
{}

/// What two ends have in common is the same set from either end.
pub fn common_is_symmetric()
    ensures { CommonIsSymmetric }
{}

/// Where no departure of the capabilities exchange is reported up to a CEA of success, the connection begins with the CER of the
/// end that opened the transport connection, and the next message is the CEA that answers it. Where the bodies of both are known,
/// the ends have applications in common: the same from either end.
pub fn no_departure_opens()
    ensures { NoDepartureOpens }
{}
