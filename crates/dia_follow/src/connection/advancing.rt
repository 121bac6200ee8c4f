//! What a message does to what is known of the two ends.

ghost use Rattle.std.specs.Prelude.{◌≡◌, IfOk, OnOk};
ghost use Rattle.std.specs.Option.{option_copied};
ghost use Rattle.dia_follow.specs.Connections.{after_answer, after_request, apps_of, host_in, hosted, named};
ghost use Rattle.dia_follow.specs.Connections.{passed, request_of, requested, session_in, state_in, stated, updated, waits_more};
ghost use Rattle.dia_follow.specs.Waits.{is_dpr};

use super::Connection;
use crate::applications::Applications;
use crate::codes::{CAPABILITIES_UPDATE, DEVICE_WATCHDOG, DISCONNECT_PEER};
use crate::end::End;
use crate::kept::{Host, Stray};
use crate::message::{Body, Line, Message, Seen, is_success};
use crate::reason::Reason;
use crate::request::{Request, Session};
use crate::side::{Side, Watchdog};
use std::alloc::{AllocError, Global};

impl Connection {
    ghost use Rattle.std.specs.Prelude.{◌≡◌, IfOk, OnOk};
    ghost use Rattle.dia_follow.specs.Connections.{after, after_by, findings_of, passed_from, taken};

    /// Takes the next message: answers its departures and the notes on it, in the order of `Reason`.
    pub fn step(
        &mut self,
        alloc: Global,
        from: End,
        line: &Line<'_>,
    ) -> Result<Vec<Reason>, AllocError>
        ensures findings { IfOk result (λ found. found.items ≡ findings_of self.old from line.now) }
        ensures state { OnOk result (self.new ≡ after self.old from line.now) }
    {
        let found = self.findings(alloc, from, line)?;
        self.advance(alloc, from, line)?;
        Ok(found)
    }

    /// Takes the next message.
    pub fn advance(&mut self, alloc: Global, from: End, line: &Line<'_>) -> Result<(), AllocError>
        ensures { OnOk result (self.new ≡ after self.old from line.now) }
    {
        self.take_seen(alloc, from, line)?;
        self.last = line.time;
        Ok(())
    }

    fn take_seen(&mut self, alloc: Global, from: End, line: &Line<'_>) -> Result<(), AllocError>
        ensures { OnOk result (self.new ≡ after_by self.old from line.now line.now.seen) }
    {
        match &line.seen {
            Seen::Unread(_) => {
                self.empty(alloc);
                Ok(())
            }
            Seen::Message(message) => self.take(alloc, from, line.number, line.time, message),
        }
    }

    fn take(
        &mut self,
        alloc: Global,
        from: End,
        number: u64,
        time: Option<u64>,
        message: &Message<'_>,
    ) -> Result<(), AllocError>
        ensures { OnOk result (self.new ≡ taken self.old from number time message.now) }
    {
        self.open(alloc, from, message)?;
        self.pass(alloc, from, number, time, message)
    }

    /// A message passes from an end to the other.
    fn pass(
        &mut self,
        alloc: Global,
        from: End,
        number: u64,
        time: Option<u64>,
        message: &Message<'_>,
    ) -> Result<(), AllocError>
        ensures { OnOk result (self.new ≡ passed_from self.old from number time message.now) }
    {
        match from {
            End::Initiator => {
                let (own, other) = (&mut self.initiator, &mut self.responder);
                pass(alloc, own, other, number, time, message)?;
            }
            End::Responder => {
                let (own, other) = (&mut self.responder, &mut self.initiator);
                pass(alloc, own, other, number, time, message)?;
            }
        }
        Ok(())
    }
}

/// A message of an end passes to the other.
fn pass(
    alloc: Global,
    own: &mut Side,
    other: &mut Side,
    number: u64,
    time: Option<u64>,
    message: &Message<'_>,
) -> Result<(), AllocError>
    ensures own { OnOk result (own.new ≡ (passed own.old other.old number time message.now).mine) }
    ensures other { OnOk result (other.new ≡ (passed own.old other.old number time message.now).theirs) }
{
    if message.head.request {
        pass_request(alloc, own, other, number, time, message)?;
    } else {
        pass_answer(own, other, number, message)?;
    }
    learn_names(alloc, own, message)
}

fn pass_request(
    alloc: Global,
    own: &mut Side,
    other: &mut Side,
    number: u64,
    time: Option<u64>,
    message: &Message<'_>,
) -> Result<(), AllocError>
    ensures own { OnOk result
        (own.new ≡ (after_request own.old other.old number time message.now).mine) }
    ensures other { OnOk result
        (other.new ≡ (after_request own.old other.old number time message.now).theirs) }
{
    let head = message.head;
    if other.strays.has(head.hop, head.e2e, head.code) {
        other.strays.remove(head.hop, head.e2e, head.code);
    } else {
        let request = request_of(alloc, number, time, message)?;
        wait(alloc, own, request)?;
    }
    learn_request(own, number, time, message)
}

/// What is remembered of a request.
fn request_of(
    alloc: Global,
    number: u64,
    time: Option<u64>,
    message: &Message<'_>,
) -> Result<Request, AllocError>
    ensures { IfOk result (λ request. request ≡ request_of number time message.now) }
{
    let head = message.head;
    let session = session_in(alloc, &message.body)?;
    Ok(Request {
        line: number,
        time,
        hop: head.hop,
        e2e: head.e2e,
        code: head.code,
        app: head.app,
        proxiable: head.proxiable,
        session,
    })
}

/// What is remembered of the Session-Id.
fn session_in(alloc: Global, body: &Body<'_>) -> Result<Option<Session>, AllocError>
    ensures { IfOk result (λ session. session ≡ session_in body.now) }
{
    let Some(contents) = body.contents() else {
        return Ok(None);
    };
    let Some(bytes) = contents.session else {
        return Ok(None);
    };
    let session = Session::new(alloc, bytes)?;
    Ok(Some(session))
}

/// A request waits. Of more than are remembered the oldest is forgotten.
fn wait(alloc: Global, own: &mut Side, request: Request) -> Result<(), AllocError>
    ensures { OnOk result (own.new ≡ waits_more own.old request) }
{
    if own.waits.is_full() {
        own.waits.forget();
        own.gap = true;
        own.forgot = true;
    }
    own.waits.add(alloc, request)
}

/// What a request says of the end that sends it.
fn learn_request(
    own: &mut Side,
    number: u64,
    time: Option<u64>,
    message: &Message<'_>,
) -> Result<(), AllocError>
    ensures { OnOk result (own.new ≡ requested own.old number time message.now) }
{
    let code = message.head.code;
    if code == CAPABILITIES_UPDATE {
        return update(&mut own.apps, &message.body);
    }
    if code == DISCONNECT_PEER {
        own.dpr = true;
    } else if code == DEVICE_WATCHDOG {
        own.dwr = Some(Watchdog { line: number, time });
    }
    Ok(())
}

/// Adds the applications of a message to those that are known.
fn update(apps: &mut Option<Applications>, body: &Body<'_>) -> Result<(), AllocError>
    ensures { OnOk result (apps.new ≡ updated apps.old (apps_of body.now)) }
{
    let Some(known) = apps else {
        return Ok(());
    };
    match body.contents() {
        Some(contents) => known.add_all(&contents.apps),
        None => {
            *apps = None;
            Ok(())
        }
    }
}

fn pass_answer(
    own: &mut Side,
    other: &mut Side,
    number: u64,
    message: &Message<'_>,
) -> Result<(), AllocError>
    ensures own { OnOk result (own.new ≡ (after_answer own.old other.old number message.now).mine) }
    ensures other { OnOk result
        (other.new ≡ (after_answer own.old other.old number message.now).theirs) }
{
    let head = message.head;
    let request = other.waits.answered(head.hop, head.e2e);
    let is_stray = request.is_none();
    let is_dpa = head.code == DISCONNECT_PEER && is_dpr(request);
    if is_stray && !other.gap {
        own.strays.add(Stray {
            line: number,
            hop: head.hop,
            e2e: head.e2e,
            code: head.code,
        })?;
    }
    other.waits.remove_answered(head.hop, head.e2e);
    if is_dpa {
        if is_success(message.body.result()) {
            own.dpa = true;
        } else {
            other.dpr = false;
        }
    }
    Ok(())
}

/// Whether a request is a DPR.
fn is_dpr(request: Option<&Request>) -> bool
    ensures { result ≡ is_dpr (option_copied request.entry) }
{
    match request {
        Some(request) => request.code == DISCONNECT_PEER,
        None => false,
    }
}

/// What a command between neighbors says of the end that sends it.
fn learn_names(alloc: Global, own: &mut Side, message: &Message<'_>) -> Result<(), AllocError>
    ensures { OnOk result (own.new ≡ named own.old message.now) }
{
    if !message.head.is_base() {
        return Ok(());
    }
    learn_origin_state(own, &message.body);
    learn_host(alloc, own, &message.body)
}

/// The last Origin-State-Id is the end's.
fn learn_origin_state(own: &mut Side, body: &Body<'_>)
    ensures { own.new ≡ stated own.old body.now }
{
    if let Some(number) = origin_state_in(body) {
        own.origin_state = Some(number);
    }
}

fn origin_state_in(body: &Body<'_>) -> Option<u32>
    ensures { result ≡ state_in body.now }
{
    match body.contents() {
        Some(contents) => contents.origin_state,
        None => None,
    }
}

/// The first Origin-Host is the end's.
fn learn_host(alloc: Global, own: &mut Side, body: &Body<'_>) -> Result<(), AllocError>
    ensures { OnOk result (own.new ≡ hosted own.old body.now) }
{
    if own.host.is_some() {
        return Ok(());
    }
    own.host = host_in(alloc, body)?;
    Ok(())
}

fn host_in(alloc: Global, body: &Body<'_>) -> Result<Option<Host>, AllocError>
    ensures { IfOk result (λ host. host ≡ host_in body.now) }
{
    let Some(contents) = body.contents() else {
        return Ok(None);
    };
    let Some(bytes) = contents.host else {
        return Ok(None);
    };
    let host = Host::new(alloc, bytes)?;
    Ok(Some(host))
}
