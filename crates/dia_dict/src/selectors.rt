//! What distinguishes commands.
ghost use Rattle.std.specs.Prelude.{◌≡◌};
ghost use Rattle.dia_dict.specs.Selectors.{is_for_app, service, service_of};

use dia_book::{Class, DefHead};
use std::hash::{Hash, Hasher};

/// Which messages a command is for.
#[derive(Clone, Copy, PartialEq, Eq)]
pub(crate) enum Selector {
    /// Requests or answers of a command code, for an application or for all that no other command names.
    Command {
        code: u32,
        request: bool,
        app: Option<u32>,
    },
    /// All messages of the class Error.
    Error,
}

impl Selector {
    ghost use Rattle.std.specs.Prelude.{◌≡◌};
    ghost use Rattle.dia_dict.specs.Selectors.{selector, selector_of};

    /// The selector of messages of a code and a class, for an application or for all that no other command names.
    pub fn new(code: u32, class: Class, app: Option<u32>) -> Self
        ensures { result ≡ selector code class app }
    {
        match class {
            Class::Request => Selector::Command {
                code,
                request: true,
                app,
            },
            Class::Answer => Selector::Command {
                code,
                request: false,
                app,
            },
            Class::Error => Selector::Error,
        }
    }

    /// The selector of a command.
    pub fn of(head: DefHead) -> Self
        ensures { result ≡ selector_of head }
    {
        match head {
            DefHead::Command {
                code,
                class,
                app,
                ..
            } => Selector::new(code, class, app),
            DefHead::Group(_) | DefHead::Error { .. } => Selector::Error,
        }
    }
}

/// Only the code and the application are hashed: at most four selectors have the same.
impl Hash for Selector {
    ghost use Rattle.std.proofs.Common.{ap};
    ghost use Rattle.dia_dict.specs.Selectors.{hashed};
    ghost use Rattle.dia_dict.specs.SameSelectors.{same_selector-true};

    ghost hash_input = { hashed };

    ghost respects_eq = { λ a b same. ap hashed (same_selector-true a b same) };

    fn hash<H: Hasher>(&self, state: &mut H) {
        if let Selector::Command { code, app, .. } = self {
            state.write_u32(*code);
            state.write_u32(app.unwrap_or(0));
        }
    }
}

/// Whether a command is for an application.
pub(crate) fn is_for_app(head: DefHead) -> bool
    ensures { result ≡ is_for_app head }
{
    match head {
        DefHead::Command { app, .. } => app.is_some(),
        DefHead::Group(_) | DefHead::Error { .. } => false,
    }
}

/// The number of the messages of a code and a class, whatever their application: no others have it.
pub(crate) fn service(code: u32, class: Class) -> u64
    ensures { result ≡ service code class }
{
    match class {
        Class::Request => 2 * u64::from(code) + 1,
        Class::Answer => 2 * u64::from(code) + 2,
        Class::Error => 0,
    }
}

/// The number of the messages that a command is for, whatever their application.
pub(crate) fn service_of(head: DefHead) -> u64
    ensures { result ≡ service_of head }
{
    match head {
        DefHead::Command { code, class, .. } => service(code, class),
        DefHead::Group(_) | DefHead::Error { .. } => 0,
    }
}
