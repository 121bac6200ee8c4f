//! What is written of a line.

ghost use Rattle.std.specs.Prelude.{◌≡◌, ◌↔◌, ◌++◌, List, ℕ, Option, IsErr, IsTrue, OnOk};
ghost use Rattle.std.specs.Option.{option_map};
ghost use Rattle.dia_io.specs.Writing.{AppendsFront};
ghost use Rattle.dia_upgrades.specs.UnderWay.{IsPut, plain_digits, shown_text};

use crate::pending::Pending;
use dia_io::{Failed, Sink};

/// Adds the text of a line, if it is written.
pub(crate) fn add_shown<S: Sink>(
    pending: &mut Pending,
    sink: &mut S,
    shown: &Option<String>,
) -> Result<(), Failed>
    requires { ¬ IsTrue (S.has_failed sink.old) }
    ensures added { OnOk result ((begun : Option (List ℕ)) (before : List ℕ)
        → IsPut begun (S.written sink.old) pending.old before
        → IsPut begun (S.written sink.new) pending.new (before ++ shown_text shown.now)) }
    ensures front { IsErr result → (begun : Option (List ℕ)) (before : List ℕ)
        → IsPut begun (S.written sink.old) pending.old before
        → AppendsFront begun (S.written sink.new) (before ++ shown_text shown.now) }
    ensures failed { IsErr result ↔ IsTrue (S.has_failed sink.new) }
{
    match shown {
        Some(shown) => pending.add(sink, shown.as_bytes()),
        None => Ok(()),
    }
}

pub(crate) fn digits_in(digits: &Option<String>) -> Option<&str>
    ensures { option_map (λ d. d.now) result ≡ plain_digits digits.now }
{
    match digits {
        Some(digits) => Some(digits.as_str()),
        None => None,
    }
}
