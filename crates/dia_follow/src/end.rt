ghost use Rattle.std.specs.Prelude.{◌≡◌};
ghost use Rattle.dia_follow.specs.Ends.{other, same_end};

/// One end of a connection.
#[derive(Clone, Copy, Debug, PartialEq, Eq)]
pub enum End {
    /// The end that opened the transport connection.
    Initiator,
    /// The end that accepted it.
    Responder,
}

impl End {
    /// The end that it is connected to.
    pub fn other(self) -> End
        ensures { result ≡ other self }
    {
        match self {
            End::Initiator => End::Responder,
            End::Responder => End::Initiator,
        }
    }

    /// Whether it is this one.
    pub fn is(self, end: End) -> bool
        ensures { result ≡ same_end self end }
    {
        match (self, end) {
            (End::Initiator, End::Initiator) | (End::Responder, End::Responder) => true,
            (End::Initiator, End::Responder) | (End::Responder, End::Initiator) => false,
        }
    }
}
