//! What the AVPs of a message say of its connection.

ghost use Rattle.std.specs.Prelude.{◌≡◌, List, ℕ, IfOk, OnOk, Some, is_some};
ghost use Rattle.std.specs.List.{fold};
ghost use Rattle.dia_follow.specs.declared.codes.TheConstants.{EXPERIMENTAL_RESULT as EXPERIMENTAL};
ghost use Rattle.dia_wire.specs.Wire.{PlainAvp, plain_avp};
ghost use Rattle.dia_follow.specs.Applications.{no_apps};
ghost use Rattle.dia_follow.specs.Fronts.{IsFront, first_data};
ghost use Rattle.dia_follow.specs.Contents.{AreRecorded, IsExperimental, IsIn, Records, add_named, both_numbers, has_destination};

use crate::applications::Applications;
use crate::codes::{
    ACCT_APPLICATION_ID, AUTH_APPLICATION_ID, DESTINATION_HOST, DESTINATION_REALM,
    DISCONNECT_CAUSE, EXPERIMENTAL_RESULT, EXPERIMENTAL_RESULT_CODE, ORIGIN_HOST, ORIGIN_STATE_ID,
    RESULT_CODE, SESSION_ID, VENDOR_ID, VENDOR_SPECIFIC_APPLICATION_ID,
};
use crate::first::{first_data, first_number, is_avp, know_front, number_of};
use dia_wire::{Avp, Avps};
use std::alloc::{AllocError, Global};
use std::marker::Model;

/// What the AVPs without vendor of a body say: of each kind, the first.
#[derive(Drop)]
pub struct Contents<'a> {
    /// Origin-Host.
    pub host: Option<&'a [u8]>,
    /// Session-Id.
    pub session: Option<&'a [u8]>,
    /// Result-Code.
    pub result: Option<u32>,
    /// Whether there is a Result-Code.
    pub has_result: bool,
    /// Vendor-Id and Experimental-Result-Code of the Experimental-Result.
    pub experimental: Option<(u32, u32)>,
    /// Whether there is an Experimental-Result.
    pub has_experimental: bool,
    /// Disconnect-Cause.
    pub cause: Option<u32>,
    /// Whether there is a Destination-Host or a Destination-Realm.
    pub has_destination: bool,
    /// Origin-State-Id.
    pub origin_state: Option<u32>,
    /// The applications that are named in the body, or directly inside a Vendor-Specific-Application-Id.
    pub apps: Applications,
}

impl<'a> Model for Contents<'a> {
    ghost use Rattle.std.specs.Option.{option_copied};
    ghost use Rattle.dia_follow.specs.Contents.{PlainContents};

    ghost Value = { PlainContents };

    ghost view = { λ c. record {
      host = option_copied c.host;
      session = option_copied c.session;
      result = c.result;
      has_result = c.has_result;
      experimental = c.experimental;
      has_experimental = c.has_experimental;
      cause = c.cause;
      has_destination = c.has_destination;
      origin_state = c.origin_state;
      apps = c.apps;
    } };
}

/// What the AVPs at the front of a body say.
pub(crate) fn read_contents(alloc: Global, body: &[u8]) -> Result<Contents<'_>, AllocError>
    ensures { IfOk result (λ contents. (avps : List PlainAvp) (left : List ℕ)
        → IsFront avps body.entry.now left → IsIn avps contents) }
{
    let apps = apps_in(alloc, body)?;
    Ok(Contents {
        host: first_data(body, ORIGIN_HOST),
        session: first_data(body, SESSION_ID),
        result: first_number(body, RESULT_CODE),
        has_result: has(body, RESULT_CODE),
        experimental: experimental(body),
        has_experimental: has(body, EXPERIMENTAL_RESULT),
        cause: first_number(body, DISCONNECT_CAUSE),
        has_destination: has_destination(body),
        origin_state: first_number(body, ORIGIN_STATE_ID),
        apps,
    })
}

fn has_destination(body: &[u8]) -> bool
    ensures { (avps : List PlainAvp) (left : List ℕ) → IsFront avps body.now left
        → result ≡ has_destination avps }
{
    if has(body, DESTINATION_HOST) {
        true
    } else {
        has(body, DESTINATION_REALM)
    }
}

fn has(body: &[u8], code: u32) -> bool
    ensures { (avps : List PlainAvp) (left : List ℕ) → IsFront avps body.now left
        → result ≡ is_some (first_data code avps) }
{
    match first_data(body, code) {
        Some(_) => true,
        None => false,
    }
}

/// The vendor and the code of the first Experimental-Result.
fn experimental(body: &[u8]) -> Option<(u32, u32)>
    ensures { (avps : List PlainAvp) (left : List ℕ) → IsFront avps body.now left
        → IsExperimental (first_data EXPERIMENTAL avps) result }
{
    match first_data(body, EXPERIMENTAL_RESULT) {
        Some(group) => experimental_in(group),
        None => None,
    }
}

/// The vendor and the code in an Experimental-Result.
fn experimental_in(group: &[u8]) -> Option<(u32, u32)>
    ensures { IsExperimental (Some group.now) result }
{
    know_front(group);
    let vendor = first_number(group, VENDOR_ID);
    let code = first_number(group, EXPERIMENTAL_RESULT_CODE);
    both_numbers(vendor, code)
}

fn both_numbers(vendor: Option<u32>, code: Option<u32>) -> Option<(u32, u32)>
    ensures { result ≡ both_numbers vendor code }
{
    match (vendor, code) {
        (Some(vendor), Some(code)) => Some((vendor, code)),
        _ => None,
    }
}

/// The applications that the AVPs at the front of a body name.
fn apps_in(alloc: Global, body: &[u8]) -> Result<Applications, AllocError>
    ensures { IfOk result (λ apps. (avps : List PlainAvp) (left : List ℕ)
        → IsFront avps body.now left → AreRecorded avps no_apps apps) }
{
    let mut apps = Applications::new(alloc);
    for found in Avps::new(body) {
        let Ok(avp) = found else { break };
        add_recorded(&mut apps, &avp)?;
    }
    Ok(apps)
}

/// Adds the application that an AVP names, or those directly inside it.
fn add_recorded(apps: &mut Applications, avp: &Avp<'_>) -> Result<(), AllocError>
    ensures { OnOk result (Records (plain_avp avp.now) apps.old apps.new) }
{
    if is_avp(avp, VENDOR_SPECIFIC_APPLICATION_ID) {
        know_front(avp.bytes);
        add_members(apps, avp.bytes)
    } else {
        add_named(apps, avp)
    }
}

/// Adds the applications that the AVPs at the front of a group name.
fn add_members(apps: &mut Applications, group: &[u8]) -> Result<(), AllocError>
    ensures { OnOk result ((avps : List PlainAvp) (left : List ℕ) → IsFront avps group.now left
        → apps.new ≡ fold add_named apps.old avps) }
{
    for found in Avps::new(group) {
        let Ok(avp) = found else { break };
        add_named(apps, &avp)?;
    }
    Ok(())
}

/// Adds the application that an AVP names.
fn add_named(apps: &mut Applications, avp: &Avp<'_>) -> Result<(), AllocError>
    ensures { OnOk result (apps.new ≡ add_named apps.old (plain_avp avp.now)) }
{
    let Some(number) = number_of(avp.bytes) else {
        return Ok(());
    };
    if is_avp(avp, AUTH_APPLICATION_ID) {
        apps.insert_auth(number)
    } else if is_avp(avp, ACCT_APPLICATION_ID) {
        apps.insert_acct(number)
    } else {
        Ok(())
    }
}
