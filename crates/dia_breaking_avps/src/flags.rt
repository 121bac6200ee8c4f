//! The M flags that a side sends or accepts.
ghost use Rattle.std.specs.Prelude.{◌≡◌, ◌↔◌, ℕ, false, true, IsTrue};
ghost use Rattle.dia_valid.specs.Valid.{HasM, MHolds};
ghost use Rattle.dia_breaking_sites.specs.Sent.{own_policy};
ghost use Rattle.dia_breaking_avps.specs.Answers.{IsAllowed, IsLeftFlag};

use dia_book::{Book, Key, MRule};
use dia_terms::{Sends, Unknown};

/// Which M flags an AVP may have.
#[derive(Clone, Copy)]
pub(crate) struct MFlags {
    pub(crate) clear: bool,
    pub(crate) set: bool,
}

/// What the sender does with AVPs that its dictionary doesn't know.
pub(crate) fn own_policy(sends: Sends) -> Unknown
    ensures { result ≡ own_policy sends }
{
    match sends {
        Sends::Any => Unknown::Kept,
        Sends::Known | Sends::Filled | Sends::Listed => Unknown::Refused,
    }
}

/// The M flags that an AVP of the key may have, with this policy where the dictionary doesn't know it.
pub(crate) fn m_flags<B: Book>(book: &B, key: Key, unknown: Unknown) -> MFlags
    ensures clear { IsAllowed (B.meaning book.now) unknown key false result.clear }
    ensures set { IsAllowed (B.meaning book.now) unknown key true result.set }
{
    match book.avp(key) {
        Some(entry) => flags_of_rule(book.rule(entry)),
        None => MFlags {
            clear: unknown == Unknown::Kept,
            set: false,
        },
    }
}

fn flags_of_rule(rule: MRule) -> MFlags
    ensures clear { (flags : ℕ) → ¬ HasM flags → IsTrue result.clear ↔ MHolds rule flags }
    ensures set { (flags : ℕ) → HasM flags → IsTrue result.set ↔ MHolds rule flags }
{
    MFlags {
        clear: rule != MRule::Must,
        set: rule != MRule::MustNot,
    }
}

/// The M flag that is sent and not accepted: clear, where both are so.
pub(crate) fn refused_flag(sent: MFlags, accepted: MFlags) -> Option<bool>
    ensures { IsLeftFlag sent accepted result }
{
    if sent.clear && !accepted.clear {
        Some(false)
    } else if sent.set && !accepted.set {
        Some(true)
    } else {
        None
    }
}
