//! The departures and the notes, in their order.

/// What is reported of a message: first 26 departures from RFC 6733, then notes.
#[derive(Clone, Copy, Debug, PartialEq, Eq)]
pub enum Reason {
    /// The version isn't 1.
    Version,
    /// The Message Length is under 20 or no multiple of four.
    Length,
    /// E in a request, or T in an answer.
    Bits,
    /// Somewhere in the body no AVP begins.
    AvpLength,
    /// `check` finds a fault.
    Invalid,
    /// The first message of the connection is no CER.
    NoCer,
    /// A CER of the end that accepted the connection, or whose peer has sent one.
    CerFromAcceptor,
    /// A second CER.
    CerAgain,
    /// A message before the CEA.
    BeforeCea,
    /// A request after the end's own DPR.
    AfterDpr,
    /// A request after the end's own DPA.
    AfterDpa,
    /// A request of the end waits that has the same Hop-by-Hop Identifier.
    HopByHop,
    /// A DWR of the end waits.
    WatchdogWaits,
    /// The other end doesn't advertise the application.
    NotAdvertised,
    /// No request waits that has the Hop-by-Hop Identifier of the answer.
    AnswersNothing,
    /// The End-to-End Identifier isn't that of the request.
    EndToEnd,
    /// The Command Code isn't that of the request.
    Command,
    /// The Application-ID isn't that of the request.
    Application,
    /// The P flag isn't that of the request.
    Proxiable,
    /// The Session-Id isn't that of the request.
    SessionId,
    /// An answer has a Destination-Host or a Destination-Realm.
    Destination,
    /// An answer has neither a Result-Code nor, beyond the commands between neighbors, an Experimental-Result.
    NoResult,
    /// A CEA of success, and no number of an application in common.
    NoCommon,
    /// A CEA with 5010, and applications in common.
    CommonRefused,
    /// The E flag doesn't go with the Result-Code.
    ErrorFlag,
    /// The Origin-Host isn't the one before.
    OriginHost,
    /// Note: bytes are missing.
    Truncated,
    /// Note: there are more bytes than the Message Length says.
    Trailing,
    /// Note: an answer to a request that may be missing.
    AnswersBefore,
    /// Note: an answer to this request came before it.
    Order,
    /// Note: the T flag is set.
    Again,
    /// Note: the end itself doesn't advertise the application.
    OwnApplication,
    /// Note: applications in common by their number, and not by their kind.
    Kinds,
    /// Note: a request after a CEA that refuses.
    GoesOn,
    /// Note: a DWR less than 4 seconds after the one before.
    WatchdogEarly,
    /// Note: no message for more than 32 seconds before it.
    Silence,
    /// Note: the Origin-State-Id isn't the one before.
    OriginState,
    /// Note: more requests wait than are remembered.
    Forgotten,
}

impl Reason {
    /// Whether it is a departure, and not a note.
    pub fn is_departure(self) -> bool {
        !matches!(
            self,
            Reason::Truncated
                | Reason::Trailing
                | Reason::AnswersBefore
                | Reason::Order
                | Reason::Again
                | Reason::OwnApplication
                | Reason::Kinds
                | Reason::GoesOn
                | Reason::WatchdogEarly
                | Reason::Silence
                | Reason::OriginState
                | Reason::Forgotten
        )
    }
}
