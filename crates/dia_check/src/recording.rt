//! From what is wrong to the fault that is reported.

ghost use Rattle.std.specs.Prelude.{◌≡◌, ◌<◌, ◌^◌};
ghost use Rattle.dia_check.specs.Faults.{simple};
ghost use Rattle.dia_check.specs.Recording.{recorded};

use crate::fault::{Fault, Reason, Refusal, Subject};
use crate::open_levels::Wrong;

/// The fault at a place of the message.
pub(crate) fn fault(place: usize, wrong: Wrong) -> Refusal
    requires { place < 2 ^ 32 }
    ensures { result ≡ Refusal.Fault (recorded place wrong) }
{
    Refusal::Fault(Fault {
        place: place as u32,
        code: wrong.reason.code(),
        reason: wrong.reason,
        subject: wrong.subject,
    })
}

/// The fault at a place that is about no AVP.
pub(crate) fn simple_fault(place: usize, reason: Reason) -> Refusal
    requires { place < 2 ^ 32 }
    ensures { result ≡ Refusal.Fault (simple place reason) }
{
    let wrong = Wrong {
        reason,
        subject: Subject::Nothing,
    };
    fault(place, wrong)
}

/// No AVP begins at the place, by its Length.
pub(crate) fn broken(at: usize) -> Refusal
    requires { at < 2 ^ 32 }
    ensures { result ≡ Refusal.Fault (simple at Reason.AvpLength) }
{
    simple_fault(at, Reason::AvpLength)
}
