//! What a program wants listed of two dictionaries, out of its numbers.

ghost use Rattle.std.specs.Prelude.{◌≡◌, ◌==◌, ◌%◌, ◌/◌, IfSome, None};
ghost use Rattle.dia_c_calls.specs.Upgrades.{AreNumbers, IsSender, has_option, sender_of, wanted_of};
ghost use Rattle.dia_c_calls.specs.Verdicts.{IsUnknownPolicy, policy_of};

use crate::verdict::policy_of;
use dia_terms::{Sends, Unknown};

/// What is to be listed, but for the names of commands.
#[derive(Clone, Copy)]
pub struct Wanted {
    /// What the side of the first dictionary sends.
    pub sends: Sends,
    /// What the side of the second does with AVPs that its dictionary doesn't know.
    pub unknown: Unknown,
    /// Whether each line is followed by its message.
    pub messages: bool,
    /// Whether lines of one cause are one line.
    pub once: bool,
    /// Whether AVPs that are read as another format are lines, too.
    pub meaning: bool,
}

/// What these numbers want.
pub fn wanted_of(sends: u32, unknown: u32, options: u32) -> Option<Wanted>
    ensures some { IfSome result (λ wanted. (wanted ≡ wanted_of sends unknown options) × AreNumbers sends unknown options) }
    ensures none { result ≡ None → ¬ AreNumbers sends unknown options }
{
    if options > 7 {
        return None;
    }
    let sends = sender_of(sends)?;
    let unknown = policy_of(unknown)?;
    Some(Wanted {
        sends,
        unknown,
        messages: has_option(options, 1),
        once: has_option(options, 2),
        meaning: has_option(options, 4),
    })
}

/// The sender of a number.
fn sender_of(sends: u32) -> Option<Sends>
    ensures some { IfSome result (λ sender. (sender ≡ sender_of sends) × IsSender sends) }
    ensures none { result ≡ None → ¬ IsSender sends }
{
    match sends {
        0 => Some(Sends::Any),
        1 => Some(Sends::Known),
        2 => Some(Sends::Listed),
        3 => Some(Sends::Filled),
        _ => None,
    }
}

/// Whether the sum of options has this one.
fn has_option(options: u32, option: u32) -> bool
    requires { ¬ (option ≡ 0) }
    ensures { result ≡ has_option options option }
{
    options / option % 2 == 1
}
