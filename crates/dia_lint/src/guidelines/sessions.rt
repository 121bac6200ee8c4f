//! Session-Id.

ghost use Rattle.std.specs.Prelude.{◌≡◌, IfOk};
ghost use Rattle.dia_lint.specs.Guidelines.{is_of_application, no_session, session_lines, session_place};

use crate::base_avps::BaseAvp;
use crate::definitions::{comes_first, is_required, lists};
use crate::detail::Detail;
use crate::finding::{Finding, push};
use crate::guidelines::{Head, at_head, at_rule, only_if};
use crate::rule::Rule;
use dia_book::{DRule, DefId};
use std::alloc::{AllocError, Global};

/// Where a command has Session-Id otherwise, or lacks it.
pub(super) fn session_findings(
    alloc: Global,
    def: DefId,
    head: &Head,
    rules: &[DRule],
) -> Result<Vec<Finding>, AllocError>
    ensures { IfOk result (λ found. found.items ≡ session_lines def head.now rules.now) }
{
    let mut found = Vec::new(alloc);
    push(&mut found, session_place(def, rules))?;
    push(&mut found, no_session(def, head, rules))?;
    Ok(found)
}

/// Session-Id follows the header immediately (RFC 6733 section 8.8).
fn session_place(def: DefId, rules: &[DRule]) -> Option<Finding>
    ensures { result ≡ session_place def rules.now }
{
    let avp = BaseAvp::SessionId;
    only_if(
        lists(rules, avp) && !comes_first(rules, avp),
        at_rule(def, rules, Rule::SessionPlace, avp, Detail::NotFirst),
    )
}

/// A command of an application has Session-Id or Auth-Session-State (RFC 7423 section 5.5).
fn no_session(def: DefId, head: &Head, rules: &[DRule]) -> Option<Finding>
    ensures { result ≡ no_session def head.now rules.now }
{
    only_if(
        is_of_application(head)
            && (!lists(rules, BaseAvp::SessionId)
                && !is_required(rules, BaseAvp::AuthSessionState)),
        at_head(def, Rule::NoSession, Detail::NoSession),
    )
}

fn is_of_application(head: &Head) -> bool
    ensures { result ≡ is_of_application head.now }
{
    match head.app {
        Some(app) => 0 < app,
        None => false,
    }
}
