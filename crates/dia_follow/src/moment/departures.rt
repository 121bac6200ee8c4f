//! The tests of the departures.

ghost use Rattle.std.specs.Prelude.{◌≡◌};
ghost use Rattle.dia_follow.specs.Departures.{has_outcome, is_wrong_flag};

use super::Moment;
use crate::codes::{DEVICE_WATCHDOG, NO_COMMON_APPLICATION};
use crate::contents::Contents;
use crate::end::End;
use crate::message::{Body, Head, Judged, is_success};
use crate::phase::Phase;

impl<'a> Moment<'a> {
    ghost use Rattle.std.specs.Prelude.{◌≡◌, ◌&&◌, ◌==◌, false};
    ghost use Rattle.std.specs.Option.{option_map_or};
    ghost use Rattle.dia_follow.specs.declared.codes.TheConstants.{NO_COMMON_APPLICATION as no_common_code};
    ghost use Rattle.dia_follow.specs.Messages.{is_success, result_of};
    ghost use Rattle.dia_follow.specs.Departures.{is_cea};
    ghost use Rattle.dia_follow.specs.Departures as table;

    fn is_unasked(&self) -> bool
        ensures { result ≡ table.unasked self.now.line.judged }
    {
        let line = self.line;
        matches!(line.judged, Judged::Unasked)
    }

    pub(super) fn bits(&self) -> bool
        ensures { result ≡ table.bits self.now }
    {
        let head = self.message.head;
        let is_wrong = if head.request {
            head.error
        } else {
            head.retransmitted
        };
        self.is_unasked() && is_wrong
    }

    pub(super) fn avp_length(&self) -> bool
        ensures { result ≡ table.avp_length self.now }
    {
        let message = self.message;
        self.is_unasked() && matches!(message.body, Body::Gap(_))
    }

    pub(super) fn invalid(&self) -> bool
        ensures { result ≡ table.invalid self.now }
    {
        let line = self.line;
        matches!(line.judged, Judged::Invalid)
    }

    pub(super) fn no_cer(&self) -> bool
        ensures { result ≡ table.no_cer self.now }
    {
        self.is_start() && !self.message.head.is_cer()
    }

    pub(super) fn cer_from_acceptor(&self) -> bool
        ensures { result ≡ table.cer_from_acceptor self.now }
    {
        self.message.head.is_cer() && self.may_not_ask()
    }

    /// Whether a CER is for the other end to send.
    fn may_not_ask(&self) -> bool
        ensures { result ≡ table.may_not_ask self.now.phase self.now.from }
    {
        match (self.phase, self.from) {
            (Phase::Start, End::Initiator) => false,
            (Phase::Start, End::Responder) => true,
            (Phase::Asked(asker) | Phase::Open(asker) | Phase::Refused(asker), from) => {
                !from.is(asker)
            }
            (Phase::Middle, _) => false,
        }
    }

    pub(super) fn cer_again(&self) -> bool
        ensures { result ≡ table.cer_again self.now }
    {
        self.message.head.is_cer() && self.has_asked() && !self.is_refused()
    }

    pub(super) fn before_cea(&self) -> bool
        ensures { result ≡ table.before_cea self.now }
    {
        self.is_asked() && !self.is_cea() && !self.message.head.is_cer() && !self.own.noted
    }

    pub(super) fn after_dpr(&self) -> bool
        ensures { result ≡ table.after_dpr self.now }
    {
        self.is_beyond() && self.own.dpr
    }

    pub(super) fn after_dpa(&self) -> bool
        ensures { result ≡ table.after_dpa self.now }
    {
        self.is_beyond() && self.own.dpa
    }

    pub(super) fn hop_by_hop(&self) -> bool
        ensures { result ≡ table.hop_by_hop self.now }
    {
        let head = self.message.head;
        head.request && self.own.waits.since(head.hop).is_some()
    }

    pub(super) fn watchdog_waits(&self) -> bool
        ensures { result ≡ table.watchdog_waits self.now }
    {
        let head = self.message.head;
        head.request && head.code == DEVICE_WATCHDOG && self.own.waits.dwr_line().is_some()
    }

    pub(super) fn not_advertised(&self) -> bool
        ensures { result ≡ table.not_advertised self.now }
    {
        let other = self.other;
        self.is_unserved(&other.apps)
    }

    pub(super) fn answers_nothing(&self) -> bool
        ensures { result ≡ table.answers_nothing self.now }
    {
        !self.message.head.request && self.request.is_none() && !self.other.gap
    }

    pub(super) fn end_to_end(&self) -> bool
        ensures { result ≡ table.end_to_end self.now }
    {
        match self.request {
            Some(request) => request.e2e != self.message.head.e2e,
            None => false,
        }
    }

    pub(super) fn command(&self) -> bool
        ensures { result ≡ table.command self.now }
    {
        match self.request {
            Some(request) => request.code != self.message.head.code,
            None => false,
        }
    }

    pub(super) fn application(&self) -> bool
        ensures { result ≡ table.application self.now }
    {
        match self.request {
            Some(request) => request.app != self.message.head.app,
            None => false,
        }
    }

    pub(super) fn proxiable(&self) -> bool
        ensures { result ≡ table.proxiable self.now }
    {
        match self.request {
            Some(request) => request.proxiable != self.message.head.proxiable,
            None => false,
        }
    }

    pub(super) fn session_id(&self) -> bool
        ensures { result ≡ table.session_id self.now }
    {
        let Some(request) = self.request else {
            return false;
        };
        let Some(session) = &request.session else {
            return false;
        };
        let Some(contents) = self.contents() else {
            return false;
        };
        match contents.session {
            Some(bytes) => !session.is(bytes),
            None => true,
        }
    }

    pub(super) fn destination(&self) -> bool
        ensures { result ≡ table.destination self.now }
    {
        if self.message.head.request {
            return false;
        }
        match self.contents() {
            Some(contents) => contents.has_destination,
            None => false,
        }
    }

    pub(super) fn no_result(&self) -> bool
        ensures { result ≡ table.no_result self.now }
    {
        let head = self.message.head;
        match self.contents() {
            Some(contents) => !head.request && !has_outcome(&head, contents),
            None => false,
        }
    }

    fn result(&self) -> Option<u32>
        ensures { result ≡ result_of self.now.message.body }
    {
        let message = self.message;
        message.body.result()
    }

    /// Whether it is a CEA of success.
    pub fn is_opening(&self) -> bool
        ensures { result ≡ is_cea self.now && is_success (result_of self.now.message.body) }
    {
        self.is_cea() && is_success(self.result())
    }

    pub(super) fn no_common(&self) -> bool
        ensures { result ≡ table.no_common self.now }
    {
        if !self.is_opening() {
            return false;
        }
        let other = self.other;
        match (&other.apps, self.contents()) {
            (Some(asked), Some(contents)) => {
                let apps = &contents.apps;
                !asked.shares_number(apps) && !asked.is_relay() && !apps.is_relay()
            }
            _ => false,
        }
    }

    pub(super) fn common_refused(&self) -> bool
        ensures { result ≡ table.common_refused self.now }
    {
        if !self.is_cea() || !self.has_no_common_code() {
            return false;
        }
        let other = self.other;
        match (&other.apps, self.contents()) {
            (Some(asked), Some(contents)) => asked.has_common(&contents.apps),
            _ => false,
        }
    }

    fn has_no_common_code(&self) -> bool
        ensures { result ≡ option_map_or (λ n. n == no_common_code) (result_of self.now.message.body) false }
    {
        match self.result() {
            Some(code) => code == NO_COMMON_APPLICATION,
            None => false,
        }
    }

    pub(super) fn error_flag(&self) -> bool
        ensures { result ≡ table.error_flag self.now }
    {
        let head = self.message.head;
        match self.result() {
            Some(code) => !head.request && is_wrong_flag(head.error, code),
            None => false,
        }
    }

    pub(super) fn origin_host(&self) -> bool
        ensures { result ≡ table.origin_host self.now }
    {
        if !self.message.head.is_base() {
            return false;
        }
        let own = self.own;
        let Some(host) = &own.host else {
            return false;
        };
        let Some(contents) = self.contents() else {
            return false;
        };
        match contents.host {
            Some(name) => !host.is(name),
            None => false,
        }
    }
}

/// Whether an answer has a Result-Code, or, beyond the commands between neighbors, an Experimental-Result.
fn has_outcome(head: &Head, contents: &Contents<'_>) -> bool
    ensures { result ≡ has_outcome head.now.code contents.now }
{
    contents.has_result || (contents.has_experimental && !head.is_base())
}

/// Whether E is set where it mustn't be, or isn't where it has to be.
fn is_wrong_flag(error: bool, code: u32) -> bool
    ensures { result ≡ is_wrong_flag error code }
{
    let class = code / 1000;
    if error {
        class == 2 || class == 4
    } else {
        class == 3
    }
}
