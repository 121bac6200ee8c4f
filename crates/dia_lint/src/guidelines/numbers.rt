//! Reserved numbers, and whether a command can be extended.

ghost use Rattle.std.specs.Prelude.{◌≡◌, IfOk};
ghost use Rattle.dia_lint.specs.Guidelines.{number_lines, reserved_app, reserved_code};

use crate::detail::Detail;
use crate::finding::{Finding, push};
use crate::guidelines::closed::closed_command;
use crate::guidelines::{Head, at_head, only_if};
use crate::rule::Rule;
use dia_book::{DRule, DefId};
use std::alloc::{AllocError, Global};

/// The Command Codes for experiments (RFC 6733 section 3).
const FIRST_EXPERIMENT: u32 = 16_777_214;

const LAST_EXPERIMENT: u32 = 16_777_215;

/// The Application-ID of relays (RFC 6733 section 2.4).
const RELAY: u32 = 4_294_967_295;

/// The findings of a command's wildcard, and of the numbers of its head.
pub(super) fn number_findings(
    alloc: Global,
    def: DefId,
    head: &Head,
    rules: &[DRule],
) -> Result<Vec<Finding>, AllocError>
    ensures { IfOk result (λ found. found.items ≡ number_lines def head.now rules.now) }
{
    let mut found = Vec::new(alloc);
    push(&mut found, closed_command(def, rules))?;
    push(&mut found, reserved_code(def, head))?;
    push(&mut found, reserved_app(def, head))?;
    Ok(found)
}

fn reserved_code(def: DefId, head: &Head) -> Option<Finding>
    ensures { result ≡ reserved_code def head.now }
{
    match head.code {
        Some(code) => only_if(
            code == FIRST_EXPERIMENT || code == LAST_EXPERIMENT,
            at_head(def, Rule::Reserved, Detail::ForExperiments(code)),
        ),
        None => None,
    }
}

fn reserved_app(def: DefId, head: &Head) -> Option<Finding>
    ensures { result ≡ reserved_app def head.now }
{
    only_if(
        head.app == Some(RELAY),
        at_head(def, Rule::Reserved, Detail::OfRelays),
    )
}
