ghost use Rattle.std.specs.Prelude.{◌≡◌};
ghost use Rattle.dia_follow.specs.Ends.{asker, is_agreed};

use crate::end::End;

/// How far the capabilities exchange came (RFC 6733 section 5.3).
#[derive(Clone, Copy, PartialEq, Eq)]
pub(crate) enum Phase {
    /// No message came yet.
    Start,
    /// This end has sent the CER.
    Asked(End),
    /// The CER of this end got a CEA of success.
    Open(End),
    /// The CER of this end got another CEA.
    Refused(End),
    /// Messages are missing.
    Middle,
}

impl Phase {
    /// The end that sent the CER.
    pub(crate) fn asker(self) -> Option<End>
        ensures { result ≡ asker self }
    {
        match self {
            Phase::Asked(end) | Phase::Open(end) | Phase::Refused(end) => Some(end),
            Phase::Start | Phase::Middle => None,
        }
    }

    /// Whether both ends have advertised their applications.
    pub(crate) fn is_agreed(self) -> bool
        ensures { result ≡ is_agreed self }
    {
        matches!(self, Phase::Open(_) | Phase::Refused(_))
    }
}
