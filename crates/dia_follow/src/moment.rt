//! What is there as a message comes.

mod departures;
mod findings;
mod notes;

use crate::applications::{Applications, Common};
use crate::codes::CAPABILITIES_EXCHANGE;
use crate::contents::Contents;
use crate::end::End;
use crate::message::{Line, Message};
use crate::phase::Phase;
use crate::request::Request;
use crate::side::{Side, Watchdog};
pub(crate) use findings::push_recorded;
use std::alloc::{AllocError, Global};
use std::marker::Model;

/// What is there as a message comes: the message, what is known of the end that sent it and of the other, the time of the line
/// before, and the request that it answers.
#[derive(Drop)]
pub struct Moment<'a> {
    pub(crate) phase: Phase,
    pub(crate) from: End,
    pub(crate) own: &'a Side,
    pub(crate) other: &'a Side,
    pub(crate) last: Option<u64>,
    pub(crate) line: &'a Line<'a>,
    pub(crate) message: &'a Message<'a>,
    pub(crate) request: Option<&'a Request>,
}

impl<'a> Model for Moment<'a> {
    ghost use Rattle.std.specs.Option.{option_copied};
    ghost use Rattle.dia_follow.specs.Moments.{PlainMoment};

    ghost Value = { PlainMoment };

    ghost view = { λ m. record {
      phase = m.phase;
      from = m.from;
      own = m.own.now;
      other = m.other.now;
      last = m.last;
      line = m.line.now;
      message = m.message.now;
      request = option_copied m.request;
    } };
}

impl<'a> Moment<'a> {
    ghost use Rattle.std.specs.Prelude.{◌≡◌, IfOk, is_some, option_map};
    ghost use Rattle.std.specs.Option.{option_copied};
    ghost use Rattle.dia_follow.specs.Commons.{common_of};
    ghost use Rattle.dia_follow.specs.Kept.{stray_line};
    ghost use Rattle.dia_follow.specs.Waits.{dwr_line, since};
    ghost use Rattle.dia_follow.specs.Messages.{contents_of};
    ghost use Rattle.dia_follow.specs.Departures.{has_asked, is_asked, is_beyond, is_cea, is_refused, is_start, is_unserved, known_common};

    /// The request that the message answers.
    pub fn request(&self) -> Option<&Request>
        ensures { option_copied result ≡ self.entry.now.request }
    {
        self.request
    }

    /// The Origin-Host of the end before the message.
    pub fn host(&self) -> Option<&[u8]>
        ensures { option_copied result ≡ self.entry.now.own.host }
    {
        let own = self.own;
        match &own.host {
            Some(host) => Some(host.bytes()),
            None => None,
        }
    }

    /// The last Origin-State-Id of the end before the message.
    pub fn origin_state(&self) -> Option<u32>
        ensures { result ≡ self.now.own.origin_state }
    {
        self.own.origin_state
    }

    /// When the line before was captured, in nanoseconds.
    pub fn last_time(&self) -> Option<u64>
        ensures { result ≡ self.now.last }
    {
        self.last
    }

    /// The line of the message.
    pub fn line(&self) -> &Line<'a>
        ensures { result.now ≡ self.entry.now.line }
    {
        self.line
    }

    pub fn message(&self) -> &Message<'a>
        ensures { result.now ≡ self.entry.now.message }
    {
        self.message
    }

    /// The line of the first request of the end that waits and has the Hop-by-Hop Identifier of the message.
    pub fn since(&self) -> Option<u64>
        ensures { result ≡ since self.now.own.waits self.now.message.head.hop }
    {
        self.own.waits.since(self.message.head.hop)
    }

    /// The line of the first DWR of the end that waits.
    pub fn waiting_dwr(&self) -> Option<u64>
        ensures { result ≡ dwr_line self.now.own.waits }
    {
        self.own.waits.dwr_line()
    }

    /// The last DWR of the end.
    pub fn last_dwr(&self) -> Option<Watchdog>
        ensures { result ≡ self.now.own.dwr }
    {
        self.own.dwr
    }

    /// The line of the answer to the message that came before it.
    pub fn answer_line(&self) -> Option<u64>
        ensures { result ≡ stray_line self.now.other.strays self.now.message.head.hop
            self.now.message.head.e2e self.now.message.head.code }
    {
        let head = self.message.head;
        self.other.strays.line(head.hop, head.e2e, head.code)
    }

    /// What the applications of a CEA have in common with those of its CER, where both are known.
    pub fn common(&self, alloc: Global) -> Result<Option<Common>, AllocError>
        ensures { IfOk result (λ common. option_map common_of common ≡ known_common self.now) }
    {
        let other = self.other;
        match (&other.apps, self.contents()) {
            (Some(asked), Some(contents)) => {
                let common = asked.common(alloc, &contents.apps)?;
                Ok(Some(common))
            }
            _ => Ok(None),
        }
    }

    /// Whether the applications of a CEA and of its CER are known.
    pub fn knows_common(&self) -> bool
        ensures { result ≡ is_some (known_common self.now) }
    {
        let other = self.other;
        match (&other.apps, self.contents()) {
            (Some(_), Some(_)) => true,
            _ => false,
        }
    }

    fn is_start(&self) -> bool
        ensures { result ≡ is_start self.now.phase }
    {
        matches!(self.phase, Phase::Start)
    }

    fn is_asked(&self) -> bool
        ensures { result ≡ is_asked self.now.phase }
    {
        matches!(self.phase, Phase::Asked(_))
    }

    fn is_refused(&self) -> bool
        ensures { result ≡ is_refused self.now.phase }
    {
        matches!(self.phase, Phase::Refused(_))
    }

    /// Whether the end that sends it has sent the CER.
    fn has_asked(&self) -> bool
        ensures { result ≡ has_asked self.now.phase self.now.from }
    {
        match self.phase.asker() {
            Some(asker) => self.from.is(asker),
            None => false,
        }
    }

    /// Whether it is the CEA.
    pub(crate) fn is_cea(&self) -> bool
        ensures { result ≡ is_cea self.now }
    {
        let head = self.message.head;
        self.is_asked() && !self.has_asked() && !head.request && head.code == CAPABILITIES_EXCHANGE
    }

    /// Whether it is a request of a command beyond those between neighbors.
    fn is_beyond(&self) -> bool
        ensures { result ≡ is_beyond self.now }
    {
        let head = self.message.head;
        head.request && !head.is_base()
    }

    /// What its AVPs say, where they are known.
    pub fn contents(&self) -> Option<&Contents<'a>>
        ensures { option_copied result ≡ contents_of self.entry.now.message.body }
    {
        let message = self.message;
        message.body.contents()
    }

    /// Whether it is a request beyond those between neighbors, of an application that isn't among these.
    fn is_unserved(&self, apps: &Option<Applications>) -> bool
        ensures { result ≡ is_unserved self.now apps.now }
    {
        let app = self.message.head.app;
        if !self.phase.is_agreed() || !self.is_beyond() || app == 0 {
            return false;
        }
        match apps {
            Some(apps) => !apps.serves(app),
            None => false,
        }
    }
}
