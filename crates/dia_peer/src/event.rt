//! What happens to a core, and what it asks for.

/// The state of one end of a connection.
#[derive(Debug, Clone, Copy, PartialEq, Eq)]
pub enum State {
    /// Before `Event::Start`.
    Idle,
    /// The initiator has sent its CER.
    WaitCea,
    /// The responder waits for a CER.
    WaitCer,
    Open,
    /// A DPR was sent.
    WaitDpa,
    /// Nothing happens any more.
    Closed,
}

/// Why a connection is given up, as Disconnect-Cause says it (RFC 6733 section 5.4.3).
#[derive(Clone, Copy, PartialEq, Eq)]
pub enum Cause {
    /// REBOOTING (0).
    Rebooting,
    /// BUSY (1).
    Busy,
    /// DO_NOT_WANT_TO_TALK_TO_YOU (2).
    DoNotWant,
}

#[derive(Clone, Copy)]
pub enum Event<'a> {
    /// The transport connection is open.
    Start,
    /// One whole message came.
    Bytes(&'a [u8]),
    /// A time has passed without an answer, or without any message (RFC 6733 section 5.5).
    Tick,
    /// The connection is to be given up.
    Stop(Cause),
    /// The transport connection is gone.
    Lost,
}

/// Why a core closes the connection.
#[derive(Debug, Clone, Copy, PartialEq, Eq)]
pub enum Why {
    /// What came is no message, or no valid one of the three commands.
    Invalid,
    /// The two ends have no application in common (RFC 6733 section 5.3).
    NoCommon,
    /// The CEA has another result code, or is an error message.
    Refused,
    /// A DWR was not answered in time.
    Watchdog,
    /// The peer did not answer in time.
    Timeout,
    /// A DPR came.
    PeerStopped,
    /// This end was stopped.
    Stopped,
}

#[derive(Drop)]
pub enum Output {
    /// Send these bytes, which are one message.
    Send(Vec<u8>),
    /// Close the transport connection, after what was sent.
    Close(Why),
}
