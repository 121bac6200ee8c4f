//! Requests that wait for their answers.

ghost use Rattle.std.specs.Prelude.{◌≡◌, IfOk, take};
ghost use Rattle.dia_follow.specs.declared.codes.TheConstants.{SESSION_START as session_start};

use crate::codes::SESSION_START;
use std::alloc::{AllocError, Global};
use std::marker::Model;

/// A request that has no answer yet.
#[derive(Drop)]
pub struct Request {
    /// The number of its line, from 1.
    pub line: u64,
    /// When it was captured, in nanoseconds.
    pub time: Option<u64>,
    /// The Hop-by-Hop Identifier.
    pub hop: u32,
    /// The End-to-End Identifier.
    pub e2e: u32,
    /// The Command Code.
    pub code: u32,
    /// The Application-ID.
    pub app: u32,
    /// Whether the P flag is set.
    pub proxiable: bool,
    /// What is remembered of its Session-Id, where it is known to have one.
    pub session: Option<Session>,
}

/// What is remembered of a Session-Id: its length, and its first 256 bytes (our profile).
#[derive(Drop)]
pub struct Session {
    length: usize,
    start: Vec<u8>,
}

impl Request {
    ghost use Rattle.std.specs.Prelude.{◌≡◌, IfOk};

    pub(crate) fn copied(&self, alloc: Global) -> Result<Request, AllocError>
        ensures { IfOk result (λ copy. copy ≡ self.now) }
    {
        let session = copied_session(alloc, &self.session)?;
        Ok(Request {
            line: self.line,
            time: self.time,
            hop: self.hop,
            e2e: self.e2e,
            code: self.code,
            app: self.app,
            proxiable: self.proxiable,
            session,
        })
    }
}

fn copied_session(alloc: Global, session: &Option<Session>) -> Result<Option<Session>, AllocError>
    ensures { IfOk result (λ copy. copy ≡ session.now) }
{
    let Some(session) = session else {
        return Ok(None);
    };
    let copy = session.copied(alloc)?;
    Ok(Some(copy))
}

impl Model for Session {
    ghost use Rattle.dia_follow.specs.Requests.{PlainSession};

    ghost Value = { PlainSession };

    ghost view = { λ s. record { len = s.length; start = s.start.items } };
}

impl Session {
    ghost use Rattle.std.specs.Prelude.{◌≡◌, IfOk};
    ghost use Rattle.dia_follow.specs.Requests.{is_session, session_of};

    /// What is remembered of a Session-Id.
    pub fn new(alloc: Global, bytes: &[u8]) -> Result<Session, AllocError>
        ensures { IfOk result (λ session. session ≡ session_of bytes.now) }
    {
        let length = bytes.len();
        let start = Vec::from_slice(alloc, start_of(bytes))?;
        Ok(Session { length, start })
    }

    fn copied(&self, alloc: Global) -> Result<Session, AllocError>
        ensures { IfOk result (λ copy. copy ≡ self.now) }
    {
        let length = self.length;
        let start = Vec::from_slice(alloc, &self.start)?;
        Ok(Session { length, start })
    }

    /// Whether these bytes have this length and begin so.
    pub fn is(&self, bytes: &[u8]) -> bool
        ensures { result ≡ is_session self.now bytes.now }
    {
        self.length == bytes.len() && self.start.as_slice() == start_of(bytes)
    }
}

/// The bytes of a Session-Id that are remembered.
fn start_of(bytes: &[u8]) -> &[u8]
    ensures { result.now ≡ take session_start bytes.entry.now }
{
    if bytes.len() <= SESSION_START {
        bytes
    } else {
        &bytes[..SESSION_START]
    }
}
