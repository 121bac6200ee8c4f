//! What is reported of a message.

ghost use Rattle.std.specs.Prelude.{◌≡◌, ◌++◌, OnOk};
ghost use Rattle.dia_follow.specs.Departures.{recorded};

use super::Moment;
use crate::reason::Reason;
use std::alloc::{AllocError, Global};

/// A reason, and whether it holds.
type Row = (Reason, bool);

impl<'a> Moment<'a> {
    ghost use Rattle.std.specs.Prelude.{◌≡◌, IfOk};
    ghost use Rattle.dia_follow.specs.Departures as table;

    /// The departures of the message and the notes on it, in the order of `Reason`.
    pub fn findings(&self, alloc: Global) -> Result<Vec<Reason>, AllocError>
        ensures { IfOk result (λ found. found.items ≡ table.findings self.now) }
    {
        let mut found = Vec::new(alloc);
        push_recorded(&mut found, &self.of_frame())?;
        push_recorded(&mut found, &self.of_opening())?;
        push_recorded(&mut found, &self.of_requests())?;
        push_recorded(&mut found, &self.of_answers())?;
        push_recorded(&mut found, &self.of_results())?;
        push_recorded(&mut found, &self.notes_of_frame())?;
        push_recorded(&mut found, &self.notes_of_state())?;
        Ok(found)
    }

    fn of_frame(&self) -> [Row; 3]
        ensures { result ≡ table.of_frame self.now }
    {
        [
            (Reason::Bits, self.bits()),
            (Reason::AvpLength, self.avp_length()),
            (Reason::Invalid, self.invalid()),
        ]
    }

    fn of_opening(&self) -> [Row; 4]
        ensures { result ≡ table.of_opening self.now }
    {
        [
            (Reason::NoCer, self.no_cer()),
            (Reason::CerFromAcceptor, self.cer_from_acceptor()),
            (Reason::CerAgain, self.cer_again()),
            (Reason::BeforeCea, self.before_cea()),
        ]
    }

    fn of_requests(&self) -> [Row; 5]
        ensures { result ≡ table.of_requests self.now }
    {
        [
            (Reason::AfterDpr, self.after_dpr()),
            (Reason::AfterDpa, self.after_dpa()),
            (Reason::HopByHop, self.hop_by_hop()),
            (Reason::WatchdogWaits, self.watchdog_waits()),
            (Reason::NotAdvertised, self.not_advertised()),
        ]
    }

    fn of_answers(&self) -> [Row; 8]
        ensures { result ≡ table.of_answers self.now }
    {
        [
            (Reason::AnswersNothing, self.answers_nothing()),
            (Reason::EndToEnd, self.end_to_end()),
            (Reason::Command, self.command()),
            (Reason::Application, self.application()),
            (Reason::Proxiable, self.proxiable()),
            (Reason::SessionId, self.session_id()),
            (Reason::Destination, self.destination()),
            (Reason::NoResult, self.no_result()),
        ]
    }

    fn of_results(&self) -> [Row; 4]
        ensures { result ≡ table.of_results self.now }
    {
        [
            (Reason::NoCommon, self.no_common()),
            (Reason::CommonRefused, self.common_refused()),
            (Reason::ErrorFlag, self.error_flag()),
            (Reason::OriginHost, self.origin_host()),
        ]
    }

    fn notes_of_frame(&self) -> [Row; 5]
        ensures { result ≡ table.notes_of_frame self.now }
    {
        [
            (Reason::Truncated, self.truncated()),
            (Reason::Trailing, self.trailing()),
            (Reason::AnswersBefore, self.answers_before()),
            (Reason::Order, self.order()),
            (Reason::Again, self.again()),
        ]
    }

    fn notes_of_state(&self) -> [Row; 7]
        ensures { result ≡ table.notes_of_state self.now }
    {
        [
            (Reason::OwnApplication, self.own_application()),
            (Reason::Kinds, self.kinds()),
            (Reason::GoesOn, self.goes_on()),
            (Reason::WatchdogEarly, self.watchdog_early()),
            (Reason::Silence, self.silence()),
            (Reason::OriginState, self.origin_state_changes()),
            (Reason::Forgotten, self.forgotten()),
        ]
    }
}

/// Adds the reasons that hold.
pub(crate) fn push_recorded(found: &mut Vec<Reason>, rows: &[Row]) -> Result<(), AllocError>
    ensures { OnOk result (found.new.items ≡ found.old.items ++ recorded rows.now) }
{
    for (reason, holds) in rows {
        if *holds {
            found.push(*reason)?;
        }
    }
    Ok(())
}
