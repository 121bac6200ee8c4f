//! The tests of the notes.

ghost use Rattle.std.specs.Prelude.{◌≡◌};
ghost use Rattle.dia_follow.specs.Departures.{is_silence, is_soon};

use super::Moment;
use crate::codes::{DEVICE_WATCHDOG, SILENCE, WATCHDOG_INTERVAL};
use crate::message::Body;

impl<'a> Moment<'a> {
    ghost use Rattle.std.specs.Prelude.{◌≡◌};
    ghost use Rattle.dia_follow.specs.Departures as table;

    pub(super) fn truncated(&self) -> bool
        ensures { result ≡ table.truncated self.now }
    {
        let message = self.message;
        matches!(message.body, Body::Cut)
    }

    pub(super) fn trailing(&self) -> bool
        ensures { result ≡ table.trailing self.now }
    {
        (self.message.length as usize) < self.line.bytes.len()
    }

    pub(super) fn answers_before(&self) -> bool
        ensures { result ≡ table.answers_before self.now }
    {
        !self.message.head.request && self.request.is_none() && self.other.gap
    }

    pub(super) fn order(&self) -> bool
        ensures { result ≡ table.order self.now }
    {
        let head = self.message.head;
        head.request && self.other.strays.has(head.hop, head.e2e, head.code)
    }

    pub(super) fn again(&self) -> bool
        ensures { result ≡ table.again self.now }
    {
        let head = self.message.head;
        head.request && head.retransmitted
    }

    pub(super) fn own_application(&self) -> bool
        ensures { result ≡ table.own_application self.now }
    {
        let own = self.own;
        self.is_unserved(&own.apps)
    }

    pub(super) fn kinds(&self) -> bool
        ensures { result ≡ table.kinds self.now }
    {
        if !self.is_opening() {
            return false;
        }
        let other = self.other;
        match (&other.apps, self.contents()) {
            (Some(asked), Some(contents)) => {
                let apps = &contents.apps;
                asked.shares_number(apps) && !asked.has_common(apps)
            }
            _ => false,
        }
    }

    pub(super) fn goes_on(&self) -> bool
        ensures { result ≡ table.goes_on self.now }
    {
        let head = self.message.head;
        self.is_refused() && head.request && !head.is_cer() && !self.own.noted
    }

    pub(super) fn watchdog_early(&self) -> bool
        ensures { result ≡ table.watchdog_early self.now }
    {
        let head = self.message.head;
        let own = self.own;
        let line = self.line;
        match own.dwr {
            Some(last) => {
                head.request && head.code == DEVICE_WATCHDOG && is_soon(last.time, line.time)
            }
            None => false,
        }
    }

    pub(super) fn silence(&self) -> bool
        ensures { result ≡ table.silence self.now }
    {
        let line = self.line;
        is_silence(self.last, line.time)
    }

    pub(super) fn origin_state_changes(&self) -> bool
        ensures { result ≡ table.origin_state self.now }
    {
        if !self.message.head.is_base() {
            return false;
        }
        let Some(known) = self.own.origin_state else {
            return false;
        };
        let Some(contents) = self.contents() else {
            return false;
        };
        match contents.origin_state {
            Some(number) => known != number,
            None => false,
        }
    }

    pub(super) fn forgotten(&self) -> bool
        ensures { result ≡ table.forgotten self.now }
    {
        self.message.head.request && !self.order() && self.own.waits.is_full() && !self.own.forgot
    }
}

/// Whether less than the least interval between watchdogs lies between two times.
fn is_soon(last: Option<u64>, now: Option<u64>) -> bool
    ensures { result ≡ is_soon last now }
{
    let Some(last) = last else {
        return false;
    };
    let Some(now) = now else {
        return false;
    };
    last <= now && now - last < WATCHDOG_INTERVAL
}

/// Whether more than the time after which a watchdog is sent lies between two times.
fn is_silence(last: Option<u64>, now: Option<u64>) -> bool
    ensures { result ≡ is_silence last now }
{
    let Some(last) = last else {
        return false;
    };
    let Some(now) = now else {
        return false;
    };
    last <= now && now - last > SILENCE
}
