//! A connection between two ends, as a capture shows it.

mod advancing;
mod opening;

ghost use Rattle.std.specs.Prelude.{◌≡◌, IfOk};
ghost use Rattle.dia_follow.specs.Departures.{unread_findings};

use crate::end::End;
use crate::message::{Judged, Line, Message, Seen};
use crate::moment::{Moment, push_recorded};
use crate::phase::Phase;
use crate::reason::Reason;
use crate::request::Request;
use crate::side::Side;
use dia_wire::HeadFault;
use std::alloc::{AllocError, Global};
use std::marker::Model;

/// What is known of a connection after some messages.
///
/// It takes the memory of at most 65,536 requests of each end, and of what the two ends advertise. After a call that was refused
/// memory, a part of its message may have been taken: it isn't of use any more.
#[derive(Drop)]
pub struct Connection {
    phase: Phase,
    initiator: Side,
    responder: Side,
    /// The time of the last message, in nanoseconds.
    last: Option<u64>,
}

impl Model for Connection {
    ghost use Rattle.dia_follow.specs.Connections.{PlainConnection};

    ghost Value = { PlainConnection };

    ghost view = { λ c. record { phase = c.phase; initiator = c.initiator; responder = c.responder; last = c.last } };
}

impl Connection {
    ghost use Rattle.std.specs.Prelude.{◌≡◌, IfOk};
    ghost use Rattle.dia_follow.specs.Connections.{findings_of, moment, new_connection, own, the_middle};

    /// A connection from its beginning.
    pub fn new(alloc: Global) -> Connection
        ensures { result ≡ new_connection }
    {
        Connection {
            phase: Phase::Start,
            initiator: Side::new(alloc),
            responder: Side::new(alloc),
            last: None,
        }
    }

    /// A connection from its middle: messages before the first one may be missing.
    pub fn middle(alloc: Global) -> Connection
        ensures { result ≡ the_middle new_connection }
    {
        let mut connection = Connection::new(alloc);
        connection.cut_off(alloc);
        connection
    }

    /// What is known of an end.
    fn own(&self, end: End) -> &Side
        ensures { result.now ≡ own self.entry.now end }
    {
        match end {
            End::Initiator => &self.initiator,
            End::Responder => &self.responder,
        }
    }

    /// The requests of an end that have no answer, in order.
    pub fn unanswered(&self, alloc: Global, end: End) -> Result<Vec<Request>, AllocError>
        ensures { IfOk result (λ requests. requests.items ≡ (own self.now end).waits) }
    {
        match end {
            End::Initiator => self.initiator.waits.all(alloc),
            End::Responder => self.responder.waits.all(alloc),
        }
    }

    /// What is there as a message of an end comes.
    pub fn moment<'a>(
        &'a self,
        from: End,
        line: &'a Line<'a>,
        message: &'a Message<'a>,
    ) -> Moment<'a>
        ensures { result ≡ moment self.entry.now from line.entry.now message.entry.now }
    {
        let own = self.own(from);
        let other = self.own(from.other());
        let request = if message.head.request {
            None
        } else {
            other.waits.answered(message.head.hop, message.head.e2e)
        };
        Moment {
            phase: self.phase,
            from,
            own,
            other,
            last: self.last,
            line,
            message,
            request,
        }
    }

    /// The departures of the next message and the notes on it, in the order of `Reason`.
    pub fn findings(
        &self,
        alloc: Global,
        from: End,
        line: &Line<'_>,
    ) -> Result<Vec<Reason>, AllocError>
        ensures { IfOk result (λ found. found.items ≡ findings_of self.now from line.now) }
    {
        match &line.seen {
            Seen::Unread(fault) => unread_findings(alloc, line.judged, *fault),
            Seen::Message(message) => self.moment(from, line, message).findings(alloc),
        }
    }
}

/// What is reported of bytes whose header can't be read.
fn unread_findings(
    alloc: Global,
    judged: Judged,
    fault: HeadFault,
) -> Result<Vec<Reason>, AllocError>
    ensures { IfOk result (λ found. found.items ≡ unread_findings judged fault) }
{
    let is_unasked = matches!(judged, Judged::Unasked);
    let rows = [
        (
            Reason::Version,
            is_unasked && matches!(fault, HeadFault::Version),
        ),
        (
            Reason::Length,
            is_unasked && matches!(fault, HeadFault::Length),
        ),
        (Reason::Invalid, matches!(judged, Judged::Invalid)),
        (Reason::Truncated, matches!(fault, HeadFault::Short)),
    ];
    let mut found = Vec::new(alloc);
    push_recorded(&mut found, &rows)?;
    Ok(found)
}
