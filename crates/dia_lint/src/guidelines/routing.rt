//! AVPs by which messages are routed.

ghost use Rattle.std.specs.Prelude.{◌≡◌, IfOk};
ghost use Rattle.dia_lint.specs.Guidelines.{hop_lines, no_origin, no_proxy_info, no_realm, no_route_record};
ghost use Rattle.dia_lint.specs.Guidelines.{origin_lines, realm_answered, realm_lines, realm_unrouted};

use crate::base_avps::BaseAvp;
use crate::definitions::{is_required, lists, takes_any_number};
use crate::detail::Detail;
use crate::finding::{Finding, push};
use crate::guidelines::{Head, about, at_rule, only_if};
use crate::rule::Rule;
use dia_book::{DRule, DefId};
use std::alloc::{AllocError, Global};

/// What a command lacks of AVPs that name the sender and the receiver.
pub(super) fn origin_findings(
    alloc: Global,
    def: DefId,
    head: &Head,
    rules: &[DRule],
) -> Result<Vec<Finding>, AllocError>
    ensures { IfOk result (λ found. found.items ≡ origin_lines def head.now rules.now) }
{
    let mut found = Vec::new(alloc);
    push(&mut found, no_origin(def, rules, BaseAvp::OriginHost))?;
    push(&mut found, no_origin(def, rules, BaseAvp::OriginRealm))?;
    push(&mut found, no_realm(def, head, rules))?;
    Ok(found)
}

/// What a command has of AVPs that name the receiver, and by which it isn't routed.
pub(super) fn realm_findings(
    alloc: Global,
    def: DefId,
    head: &Head,
    rules: &[DRule],
) -> Result<Vec<Finding>, AllocError>
    ensures { IfOk result (λ found. found.items ≡ realm_lines def head.now rules.now) }
{
    let mut found = Vec::new(alloc);
    push(
        &mut found,
        realm_unrouted(def, head, rules, BaseAvp::DestinationRealm),
    )?;
    push(
        &mut found,
        realm_unrouted(def, head, rules, BaseAvp::DestinationHost),
    )?;
    push(
        &mut found,
        realm_answered(def, head, rules, BaseAvp::DestinationRealm),
    )?;
    push(
        &mut found,
        realm_answered(def, head, rules, BaseAvp::DestinationHost),
    )?;
    Ok(found)
}

/// What a command lacks of AVPs that relays and proxies add.
pub(super) fn hop_findings(
    alloc: Global,
    def: DefId,
    head: &Head,
    rules: &[DRule],
) -> Result<Vec<Finding>, AllocError>
    ensures { IfOk result (λ found. found.items ≡ hop_lines def head.now rules.now) }
{
    let mut found = Vec::new(alloc);
    push(&mut found, no_route_record(def, head, rules))?;
    push(&mut found, no_proxy_info(def, head, rules))?;
    Ok(found)
}

/// Each message has Origin-Host and Origin-Realm (RFC 6733 sections 6.3 and 6.4).
fn no_origin(def: DefId, rules: &[DRule], avp: BaseAvp) -> Option<Finding>
    ensures { result ≡ no_origin def rules.now avp }
{
    only_if(
        !is_required(rules, avp),
        about(def, rules, Rule::NoOrigin, avp, Detail::NotRequired),
    )
}

/// A request that may be proxied has Destination-Realm (RFC 6733 section 6.6).
fn no_realm(def: DefId, head: &Head, rules: &[DRule]) -> Option<Finding>
    ensures { result ≡ no_realm def head.now rules.now }
{
    let avp = BaseAvp::DestinationRealm;
    only_if(
        head.is_request() && (head.is_proxiable() && !is_required(rules, avp)),
        at_rule(def, rules, Rule::NoRealm, avp, Detail::BaseNotRequired(avp)),
    )
}

/// A request that isn't proxied isn't routed by Destination-Realm or Destination-Host (RFC 6733 section 6.1).
fn realm_unrouted(def: DefId, head: &Head, rules: &[DRule], avp: BaseAvp) -> Option<Finding>
    ensures { result ≡ realm_unrouted def head.now rules.now avp }
{
    only_if(
        head.is_request() && (!head.is_proxiable() && lists(rules, avp)),
        about(def, rules, Rule::RealmUnrouted, avp, Detail::NotProxiable),
    )
}

/// An answer is routed as its request was, and has neither (RFC 6733 section 6.2).
fn realm_answered(def: DefId, head: &Head, rules: &[DRule], avp: BaseAvp) -> Option<Finding>
    ensures { result ≡ realm_answered def head.now rules.now avp }
{
    only_if(
        !head.is_request() && lists(rules, avp),
        about(def, rules, Rule::RealmAnswered, avp, Detail::AnswerHasNone),
    )
}

/// Each relay adds a Route-Record to a request (RFC 6733 section 6.1.9).
fn no_route_record(def: DefId, head: &Head, rules: &[DRule]) -> Option<Finding>
    ensures { result ≡ no_route_record def head.now rules.now }
{
    let avp = BaseAvp::RouteRecord;
    only_if(
        head.is_request() && (head.is_proxiable() && !takes_any_number(rules, avp)),
        at_rule(def, rules, Rule::NoRouteRecord, avp, Detail::NotAnyNumber),
    )
}

/// Each proxy may add a Proxy-Info to a request, which the answer repeats (RFC 6733 sections 6.1.9 and 6.2).
fn no_proxy_info(def: DefId, head: &Head, rules: &[DRule]) -> Option<Finding>
    ensures { result ≡ no_proxy_info def head.now rules.now }
{
    let avp = BaseAvp::ProxyInfo;
    only_if(
        head.is_proxiable() && !takes_any_number(rules, avp),
        at_rule(def, rules, Rule::NoProxyInfo, avp, Detail::NotAnyNumber),
    )
}
