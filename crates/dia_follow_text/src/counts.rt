//! What is counted for the summary.

use crate::names::push_name;
use crate::times::after;
use dia_dict::Book;
use dia_follow::{End, Moment, Reason, Request};
use std::alloc::{AllocError, Global};
use std::collections::BTreeMap;

/// How many commands of both ends have a line of their own.
const MOST_NAMES: usize = 100;

const DISCONNECT_PEER: u32 = 282;

/// The requests of one command of an end.
#[derive(Drop)]
pub(crate) struct Command {
    pub(crate) end: End,
    pub(crate) name: String,
    pub(crate) requests: u64,
    pub(crate) answered: u64,
    /// How often an answer came after so many microseconds, of which all but two leading digits are 0.
    pub(crate) times: BTreeMap<u64, u64>,
    pub(crate) least: u64,
    pub(crate) most: u64,
}

/// How often one reason was reported of an end.
#[derive(Clone, Copy)]
pub(crate) struct Recorded {
    /// `None` for a request without answer.
    pub(crate) reason: Option<Reason>,
    pub(crate) end: End,
    pub(crate) count: u64,
    pub(crate) first: u64,
}

/// The last message of an end.
#[derive(Clone, Copy)]
pub(crate) struct Last {
    pub(crate) line: u64,
    pub(crate) time: Option<u64>,
}

/// The first DPR.
#[derive(Clone, Copy)]
pub(crate) struct Disconnect {
    pub(crate) end: End,
    pub(crate) line: u64,
    pub(crate) cause: Option<u32>,
    pub(crate) answered: Option<u64>,
}

#[derive(Drop)]
pub(crate) struct Counts {
    pub(crate) messages: u64,
    pub(crate) requests: u64,
    pub(crate) answers: u64,
    pub(crate) commands: Vec<Command>,
    pub(crate) recorded: Vec<Recorded>,
    pub(crate) last_initiator: Option<Last>,
    pub(crate) last_responder: Option<Last>,
    pub(crate) disconnect: Option<Disconnect>,
    /// The common applications of the first CEA of success whose CER is known.
    pub(crate) common: Option<String>,
}

impl Counts {
    pub(crate) fn new(alloc: Global) -> Counts {
        Counts {
            messages: 0,
            requests: 0,
            answers: 0,
            commands: Vec::new(alloc),
            recorded: Vec::new(alloc),
            last_initiator: None,
            last_responder: None,
            disconnect: None,
            common: None,
        }
    }

    pub(crate) fn unread(&mut self) {
        self.messages = self.messages.saturating_add(1);
    }

    pub(crate) fn last(&mut self, end: End, line: u64, time: Option<u64>) {
        let last = Some(Last { line, time });
        match end {
            End::Initiator => self.last_initiator = last,
            End::Responder => self.last_responder = last,
        }
    }

    /// Counts a message.
    pub(crate) fn message<B: Book>(
        &mut self,
        alloc: Global,
        book: &B,
        end: End,
        moment: &Moment<'_>,
    ) -> Result<(), AllocError> {
        self.messages = self.messages.saturating_add(1);
        if moment.message().head.request {
            self.requests = self.requests.saturating_add(1);
            self.request(alloc, book, end, moment)
        } else {
            self.answers = self.answers.saturating_add(1);
            self.answer(alloc, book, end, moment)
        }
    }

    fn request<B: Book>(
        &mut self,
        alloc: Global,
        book: &B,
        end: End,
        moment: &Moment<'_>,
    ) -> Result<(), AllocError> {
        let head = moment.message().head;
        if head.code == DISCONNECT_PEER && self.disconnect.is_none() {
            self.disconnect = Some(Disconnect {
                end,
                line: moment.line().number,
                cause: cause_of(moment),
                answered: None,
            });
        }
        let place = self.command(alloc, book, end, head.code, head.app)?;
        if let Some(command) = self.commands.get_mut(place) {
            command.requests = command.requests.saturating_add(1);
        }
        Ok(())
    }

    fn answer<B: Book>(
        &mut self,
        alloc: Global,
        book: &B,
        end: End,
        moment: &Moment<'_>,
    ) -> Result<(), AllocError> {
        self.open(alloc, moment)?;
        let Some(request) = moment.request() else {
            return Ok(());
        };
        self.disconnected(request, moment.line().number);
        let place = self.command(alloc, book, end.other(), request.code, request.app)?;
        let after = after(request.time, moment.line().time);
        match self.commands.get_mut(place) {
            Some(command) => command.answer(after),
            None => Ok(()),
        }
    }

    /// The common applications of the first CEA of success.
    fn open(&mut self, alloc: Global, moment: &Moment<'_>) -> Result<(), AllocError> {
        if self.common.is_some() || !moment.is_opening() || !moment.knows_common() {
            return Ok(());
        }
        let mut common = String::new(alloc);
        crate::commons::push_known_common(alloc, &mut common, moment)?;
        self.common = Some(common);
        Ok(())
    }

    /// The DPR is answered.
    fn disconnected(&mut self, request: &Request, line: u64) {
        if let Some(disconnect) = &mut self.disconnect {
            if disconnect.line == request.line && disconnect.answered.is_none() {
                disconnect.answered = Some(line);
            }
        }
    }

    /// The place of a command of an end.
    fn command<B: Book>(
        &mut self,
        alloc: Global,
        book: &B,
        end: End,
        code: u32,
        app: u32,
    ) -> Result<usize, AllocError> {
        let mut name = String::new(alloc);
        push_name(&mut name, book, code, true, app)?;
        if let Some(place) = self.place_of(end, name.as_str()) {
            return Ok(place);
        }
        if self.commands.len() >= MOST_NAMES {
            name.clear();
            name.push_str("others")?;
            if let Some(place) = self.place_of(end, name.as_str()) {
                return Ok(place);
            }
        }
        let place = self.commands.len();
        self.commands.push(Command {
            end,
            name,
            requests: 0,
            answered: 0,
            times: BTreeMap::new(alloc),
            least: u64::MAX,
            most: 0,
        })?;
        Ok(place)
    }

    fn place_of(&self, end: End, name: &str) -> Option<usize> {
        self.commands.iter().position(|command| command.end == end && command.name.as_str() == name)
    }

    /// Counts a departure or a note.
    pub(crate) fn reason(&mut self, end: End, line: u64, reason: Reason) -> Result<(), AllocError> {
        self.deliver(end, line, Some(reason))
    }

    /// Counts a request without answer.
    pub(crate) fn unanswered(&mut self, end: End, line: u64) -> Result<(), AllocError> {
        self.deliver(end, line, None)
    }

    fn deliver(&mut self, end: End, line: u64, reason: Option<Reason>) -> Result<(), AllocError> {
        for recorded in &mut self.recorded {
            if recorded.reason == reason && recorded.end == end {
                recorded.count = recorded.count.saturating_add(1);
                return Ok(());
            }
        }
        self.recorded.push(Recorded {
            reason,
            end,
            count: 1,
            first: line,
        })?;
        Ok(())
    }
}

impl Command {
    /// Counts an answer that came so many nanoseconds after its request.
    fn answer(&mut self, nanoseconds: Option<u64>) -> Result<(), AllocError> {
        self.answered = self.answered.saturating_add(1);
        let Some(nanoseconds) = nanoseconds else {
            return Ok(());
        };
        self.least = self.least.min(nanoseconds);
        self.most = self.most.max(nanoseconds);
        let key = rounded(nanoseconds / 1000);
        let count = self.times.get(&key).copied().unwrap_or(0);
        self.times.insert(key, count.saturating_add(1))?;
        Ok(())
    }
}

/// The number, of which all but two leading digits are 0.
fn rounded(number: u64) -> u64 {
    let mut lead = number;
    let mut scale = 1u64;
    for _ in 0..20 {
        if lead < 100 {
            break;
        }
        lead /= 10;
        scale = scale.saturating_mul(10);
    }
    lead.saturating_mul(scale)
}

fn cause_of(moment: &Moment<'_>) -> Option<u32> {
    moment.contents()?.cause
}
