//! What a message does to the phase of its connection.

ghost use Rattle.std.specs.Prelude.{◌≡◌, IfOk};
ghost use Rattle.dia_follow.specs.Connections.{answers_cer, apps_of};

use super::Connection;
use crate::applications::Applications;
use crate::codes::CAPABILITIES_EXCHANGE;
use crate::end::End;
use crate::message::{Body, Head, Message, is_success};
use crate::phase::Phase;
use std::alloc::{AllocError, Global};

impl Connection {
    ghost use Rattle.std.specs.Prelude.{◌≡◌, OnOk};
    ghost use Rattle.dia_follow.specs.Connections.{answered_cer, emptied_all, goes_on, noted_end};
    ghost use Rattle.dia_follow.specs.Connections.{opens, opens_in, the_middle, with_apps};
    ghost use Rattle.dia_follow.specs.Messages.{result_of};
    ghost use Rattle.dia_follow.specs.declared.phase.Phase.TheVariants.{Asked as AskedBy, Start};

    /// Messages may be missing. The requests, the hosts and the Origin-State-Ids stay.
    pub(super) fn cut_off(&mut self, alloc: Global)
        ensures { self.new ≡ the_middle self.old }
    {
        self.phase = Phase::Middle;
        self.initiator.cut_off(alloc);
        self.responder.cut_off(alloc);
    }

    /// A message can't be read. The hosts and the Origin-State-Ids stay.
    pub(super) fn empty(&mut self, alloc: Global)
        ensures { self.new ≡ emptied_all self.old }
    {
        self.phase = Phase::Middle;
        self.initiator.empty(alloc);
        self.responder.empty(alloc);
    }

    /// The phase after a message.
    pub(super) fn open(
        &mut self,
        alloc: Global,
        from: End,
        message: &Message<'_>,
    ) -> Result<(), AllocError>
        ensures { OnOk result (self.new ≡ opens self.old from message.now) }
    {
        match self.phase {
            Phase::Start => self.open_start(alloc, from, message),
            Phase::Asked(asker) => self.open_asked(alloc, asker, from, message),
            Phase::Refused(_) => {
                self.go_on(from, &message.head);
                Ok(())
            }
            Phase::Open(_) | Phase::Middle => Ok(()),
        }
    }

    /// The first message of the connection.
    fn open_start(
        &mut self,
        alloc: Global,
        from: End,
        message: &Message<'_>,
    ) -> Result<(), AllocError>
        ensures { OnOk result (self.new ≡ opens_in Start self.old from message.now) }
    {
        if message.head.is_cer() {
            self.phase = Phase::Asked(from);
            self.advertise(from, &message.body)
        } else {
            self.cut_off(alloc);
            Ok(())
        }
    }

    /// A message after the CER.
    fn open_asked(
        &mut self,
        alloc: Global,
        asker: End,
        from: End,
        message: &Message<'_>,
    ) -> Result<(), AllocError>
        ensures { OnOk result (self.new ≡ opens_in (AskedBy asker) self.old from message.now) }
    {
        if answers_cer(asker, from, &message.head) {
            return self.answer_cer(alloc, asker, from, message);
        }
        if !message.head.is_cer() {
            self.note(from);
        }
        Ok(())
    }

    /// The CEA.
    fn answer_cer(
        &mut self,
        alloc: Global,
        asker: End,
        from: End,
        message: &Message<'_>,
    ) -> Result<(), AllocError>
        ensures { OnOk result
            (self.new ≡ answered_cer self.old asker from message.now (result_of message.now.body)) }
    {
        let result_code = message.body.result();
        if result_code.is_none() {
            self.cut_off(alloc);
            return Ok(());
        }
        self.phase = if is_success(result_code) {
            Phase::Open(asker)
        } else {
            Phase::Refused(asker)
        };
        self.initiator.noted = false;
        self.responder.noted = false;
        self.advertise(from, &message.body)
    }

    /// A message after a CEA that refuses.
    fn go_on(&mut self, from: End, head: &Head)
        ensures { self.new ≡ goes_on self.old from head.now }
    {
        if head.request && !head.is_cer() {
            self.note(from);
        }
    }

    /// It was noted what an end does.
    fn note(&mut self, end: End)
        ensures { self.new ≡ noted_end self.old end }
    {
        match end {
            End::Initiator => self.initiator.noted = true,
            End::Responder => self.responder.noted = true,
        }
    }

    /// An end advertises the applications of a message.
    fn advertise(&mut self, end: End, body: &Body<'_>) -> Result<(), AllocError>
        ensures { OnOk result (self.new ≡ with_apps self.old end (apps_of body.now)) }
    {
        let apps = apps_of(body)?;
        match end {
            End::Initiator => self.initiator.apps = apps,
            End::Responder => self.responder.apps = apps,
        }
        Ok(())
    }
}

/// The applications of a message, where its AVPs are known.
fn apps_of(body: &Body<'_>) -> Result<Option<Applications>, AllocError>
    ensures { IfOk result (λ apps. apps ≡ apps_of body.now) }
{
    match body.contents() {
        Some(contents) => {
            let apps = contents.apps.copied()?;
            Ok(Some(apps))
        }
        None => Ok(None),
    }
}

/// Whether this is the answer to the CER of an end.
fn answers_cer(asker: End, from: End, head: &Head) -> bool
    ensures { result ≡ answers_cer asker from head.now }
{
    !from.is(asker) && !head.request && head.code == CAPABILITIES_EXCHANGE
}
