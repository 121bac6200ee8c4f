//! AVPs that report how a request ended.

ghost use Rattle.std.specs.Prelude.{◌≡◌, IfOk};
ghost use Rattle.dia_lint.specs.Guidelines.{answer_lines, is_of_vendor, no_failed_avp, no_result};

use crate::base_avps::BaseAvp;
use crate::definitions::{is_required, lists, takes};
use crate::detail::Detail;
use crate::finding::{Finding, push};
use crate::guidelines::{Head, at_head, at_rule, only_if};
use crate::rule::Rule;
use dia_book::{DRule, DefId};
use std::alloc::{AllocError, Global};

/// The first Application-ID of vendors (RFC 3588 section 11.3).
const FIRST_OF_VENDORS: u32 = 16_777_216;

/// What an answer lacks of AVPs that report how the request ended.
pub(super) fn answer_findings(
    alloc: Global,
    def: DefId,
    head: &Head,
    rules: &[DRule],
) -> Result<Vec<Finding>, AllocError>
    ensures { IfOk result (λ found. found.items ≡ answer_lines def head.now rules.now) }
{
    let mut found = Vec::new(alloc);
    push(&mut found, no_result(def, head, rules))?;
    push(&mut found, no_failed_avp(def, head, rules))?;
    Ok(found)
}

/// An answer has Result-Code; in a vendor's application it has that or Experimental-Result (RFC 6733 sections 7.1 and 7.6).
fn no_result(def: DefId, head: &Head, rules: &[DRule]) -> Option<Finding>
    ensures { result ≡ no_result def head.now rules.now }
{
    let avp = BaseAvp::ResultCode;
    if head.is_request() {
        None
    } else if is_of_vendor(head) {
        only_if(
            !lists(rules, avp) && !lists(rules, BaseAvp::ExperimentalResult),
            at_head(def, Rule::NoResult, Detail::NoResult),
        )
    } else {
        only_if(
            !is_required(rules, avp),
            at_rule(
                def,
                rules,
                Rule::NoResult,
                avp,
                Detail::BaseNotRequired(avp),
            ),
        )
    }
}

fn is_of_vendor(head: &Head) -> bool
    ensures { result ≡ is_of_vendor head.now }
{
    match head.app {
        Some(app) => FIRST_OF_VENDORS <= app,
        None => false,
    }
}

/// An answer may have Failed-AVP (RFC 6733 section 7.5).
fn no_failed_avp(def: DefId, head: &Head, rules: &[DRule]) -> Option<Finding>
    ensures { result ≡ no_failed_avp def head.now rules.now }
{
    let avp = BaseAvp::FailedAvp;
    only_if(
        !head.is_request() && !takes(rules, avp),
        at_rule(def, rules, Rule::NoFailedAvp, avp, Detail::NoFailedAvp),
    )
}
