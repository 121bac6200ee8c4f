//! What a core has of its configuration, and the messages that it makes of it.

ghost use Rattle.std.specs.Prelude.{◌≡◌, ◌==◌, ◌++◌, IfOk, IfErr, OnOk, map, filter, ◌∷◌, []};
ghost use Rattle.std.specs.Int.{w16, to_be_bytes};
ghost use Rattle.std.specs.List.{filter_map, list_any};
ghost use Rattle.std.specs.Option.{option_map};
ghost use Rattle.dia_peer.specs.Core.{IsConfig, IsAccepted, plain_config, pair_of, the_pair};
ghost use Rattle.dia_peer.specs.Core.{pairs_of, same_pair, sorted_pairs, common_by, common_of, relays, all};
ghost use Rattle.dia_peer.specs.Incoming.{pairs_named, plain_pairs};
ghost use Rattle.dia_peer.specs.Drafts.{drafted};
ghost use Rattle.dia_peer.specs.Replies.{IsReplyOf};
ghost use Rattle.dia_peer.specs.Messages.{
  avp,
  address,
  avp32,
  spelled,
  origin,
  capabilities,
  applications,
  app_code,
  plain_app,
  vendor_app,
  if_some,
};

use crate::applications::{is_relay, sorted};
use crate::base_book::BaseBook;
use crate::codes::{
    ACCT_APPLICATION_ID, AUTH_APPLICATION_ID, HOST_IP_ADDRESS, ORIGIN_HOST, ORIGIN_REALM,
    ORIGIN_STATE_ID, PRODUCT_NAME, RELAY, VENDOR_ID, VENDOR_SPECIFIC_APPLICATION_ID,
};
use crate::config::{App, Config, ConfigFault, Ip, Kind, Manner};
use crate::draft::{Draft, four_bytes};
use crate::judging::judge;
use crate::named_apps::NamedApps;
use byteorder::{BigEndian, ByteOrder};
use dia_answer::{Made, Names};
use dia_wire::AVP_MANDATORY;
use std::alloc::{AllocError, Global};

/// A configuration that is accepted, its applications in order, and the base dictionary.
#[derive(Drop)]
pub(crate) struct Node {
    pub alloc: Global,
    pub base: BaseBook,
    pub config: Config,
    pub manner: Manner,
    pub apps: Vec<(Kind, u32)>,
    pub ghost sound: { ∥ IsConfig (plain_config config) ∥₁ },
    pub ghost in_order: { ∥ pairs_of apps.items ≡ sorted_pairs (map pair_of config.apps.items) ∥₁ },
}

impl Node {
    ghost use Rattle.dia_peer.specs.Machine.{IsRefusedAs};

    pub(crate) fn new(alloc: Global, config: Config, manner: Manner) -> Result<Node, ConfigFault>
        ensures ok { IfOk result (λ node. IsAccepted manner (plain_config config)
            × (plain_config node.config ≡ plain_config config) × (node.manner ≡ manner)) }
        ensures err { IfErr result (IsRefusedAs manner (plain_config config)) }
    {
        judge(&config, manner)?;
        let apps = sorted(alloc, &config.apps)?;
        let base = BaseBook::new(alloc)?;
        Ok(Node {
            alloc,
            base,
            config,
            manner,
            apps,
        })
    }

    /// The answer to a request that is no valid message, if it gets one.
    pub(crate) fn reply(&self, bytes: &[u8]) -> Result<Option<Vec<u8>>, AllocError>
        ensures { IfOk result (λ found.
            IsReplyOf (plain_config self.now.config) bytes.now (option_map (λ v. v.items) found)) }
    {
        let names = Names {
            host: self.config.host.as_str(),
            realm: self.config.realm.as_str(),
        };
        match self.base.answer(self.alloc, &names, bytes)? {
            Ok(Made { bytes, .. }) => Ok(Some(bytes)),
            Err(_) => Ok(None),
        }
    }

    /// The applications that the configuration has in common with these. None: more than an end may hold.
    pub(crate) fn common(&self, named: &NamedApps) -> Result<Option<Vec<(Kind, u32)>>, AllocError>
        ensures { IfOk result (λ found. option_map plain_pairs found
            ≡ common_of self.now.manner (plain_config self.now.config) (pairs_named named.now)) }
    {
        self.common_by(self.relays(), self.finds_relay(named), named)
    }

    /// Whether the applications of the configuration are those of a relay.
    fn relays(&self) -> bool
        ensures { result ≡ relays self.now.manner (map pair_of self.now.config.apps.items) }
    {
        self.manner.relays && has_relay(&self.apps)
    }

    /// Whether these are to be read as those of a relay.
    fn finds_relay(&self, named: &NamedApps) -> bool
        ensures { result ≡ relays self.now.manner (pairs_named named.now) }
    {
        self.manner.relays && named.has_relay()
    }

    /// The same, by whether the applications of each end are those of a relay.
    fn common_by(
        &self,
        ours_relay: bool,
        theirs_relay: bool,
        named: &NamedApps,
    ) -> Result<Option<Vec<(Kind, u32)>>, AllocError>
        ensures { IfOk result (λ found. option_map plain_pairs found
            ≡ common_by ours_relay theirs_relay (map pair_of self.now.config.apps.items) (pairs_named named.now)) }
    {
        match (ours_relay, theirs_relay) {
            (true, true) => Ok(Some(all(self.alloc)?)),
            (true, false) => named.all_of(self.alloc),
            (false, true) => Ok(Some(self.own()?)),
            (false, false) => Ok(Some(self.shared(named)?)),
        }
    }

    /// The applications of the configuration, in order.
    fn own(&self) -> Result<Vec<(Kind, u32)>, AllocError>
        ensures { IfOk result (λ pairs. pairs_of pairs.items
            ≡ sorted_pairs (map pair_of self.now.config.apps.items)) }
    {
        Ok(Vec::from_slice(self.alloc, &self.apps)?)
    }

    /// The applications of the configuration that are also among these, in order.
    fn shared(&self, named: &NamedApps) -> Result<Vec<(Kind, u32)>, AllocError>
        ensures { IfOk result (λ pairs. pairs_of pairs.items
            ≡ filter (λ p. list_any (same_pair p) (pairs_named named.now))
            (sorted_pairs (map pair_of self.now.config.apps.items))) }
    {
        let mut common = Vec::new(self.alloc);
        for pair in &self.apps {
            push_if_named(&mut common, *pair, named)?;
        }
        Ok(common)
    }
}

/// The application that means all.
fn all(alloc: Global) -> Result<Vec<(Kind, u32)>, AllocError>
    ensures { IfOk result (λ pairs. pairs_of pairs.items ≡ all) }
{
    Ok(vec![in alloc; (Kind::Auth, RELAY)]?)
}

/// Whether one of the applications is that of relays.
fn has_relay(apps: &[(Kind, u32)]) -> bool
    ensures { result ≡ list_any (λ app. app.1 == RELAY) apps.now }
{
    apps.iter().any(|app| is_relay(app.1))
}

fn push_if_named(
    common: &mut Vec<(Kind, u32)>,
    app: (Kind, u32),
    named: &NamedApps,
) -> Result<(), AllocError>
    ensures { OnOk result
        (pairs_of common.new.items ≡ pairs_of common.old.items
        ++ filter (λ p. list_any (same_pair p) (pairs_named named.now)) (the_pair app ∷ [])) }
{
    if named.contains(app.0, app.1) {
        common.push(app)?;
    }
    Ok(())
}

/// Origin-Host and Origin-Realm (RFC 6733 sections 6.3 and 6.4).
pub(crate) fn put_origin(draft: &mut Draft, config: &Config) -> Result<(), AllocError>
    ensures { OnOk result (drafted draft.new
        ≡ drafted draft.old ++ origin (plain_config config.now)) }
{
    draft.put(ORIGIN_HOST, config.host.as_bytes())?;
    draft.put(ORIGIN_REALM, config.realm.as_bytes())
}

/// Origin-State-Id (RFC 6733 section 8.16), where there is one.
pub(crate) fn put_state_id(draft: &mut Draft, config: &Config) -> Result<(), AllocError>
    ensures { OnOk result (drafted draft.new
        ≡ drafted draft.old ++ if_some (avp32 ORIGIN_STATE_ID) config.now.state_id) }
{
    match config.state_id {
        Some(id) => draft.put_number(ORIGIN_STATE_ID, id),
        None => Ok(()),
    }
}

/// What an end is, in its CER and CEA (RFC 6733 section 5.3).
pub(crate) fn put_capabilities(
    alloc: Global,
    draft: &mut Draft,
    config: &Config,
) -> Result<(), AllocError>
    ensures { OnOk result (drafted draft.new
        ≡ drafted draft.old ++ capabilities (plain_config config.now)) }
{
    put_addresses(alloc, draft, &config.addresses)?;
    draft.put_number(VENDOR_ID, config.vendor)?;
    draft.put_optional(PRODUCT_NAME, config.product.as_bytes())?;
    put_state_id(draft, config)
}

/// Host-IP-Address (RFC 6733 section 5.3.5), once for each address.
fn put_addresses(alloc: Global, draft: &mut Draft, addresses: &[Ip]) -> Result<(), AllocError>
    ensures { OnOk result (drafted draft.new
        ≡ drafted draft.old ++ map (λ ip. avp HOST_IP_ADDRESS AVP_MANDATORY (address ip)) addresses.now) }
{
    for ip in addresses {
        let bytes = address_bytes(alloc, ip)?;
        draft.put(HOST_IP_ADDRESS, &bytes)?;
    }
    Ok(())
}

/// The address family and the address (RFC 6733 section 4.3.1).
fn address_bytes(alloc: Global, ip: &Ip) -> Result<Vec<u8>, AllocError>
    ensures { IfOk result (λ bytes. bytes.items ≡ address ip.now) }
{
    match ip {
        Ip::V4(bytes) => of_family(alloc, 1, bytes),
        Ip::V6(bytes) => of_family(alloc, 2, bytes),
    }
}

fn of_family(alloc: Global, family: u16, bytes: &[u8]) -> Result<Vec<u8>, AllocError>
    ensures { IfOk result (λ found. found.items ≡ to_be_bytes w16 family ++ bytes.now) }
{
    let mut number = [0; 2];
    BigEndian::write_u16(&mut number, family);
    let mut found = Vec::from_slice(alloc, &number)?;
    found.extend_from_slice(bytes)?;
    Ok(found)
}

/// The applications: those without a vendor, Auth before Acct, and then those of a vendor.
pub(crate) fn put_applications(
    alloc: Global,
    draft: &mut Draft,
    config: &Config,
) -> Result<(), AllocError>
    ensures { OnOk result (drafted draft.new
        ≡ drafted draft.old ++ applications (plain_config config.now)) }
{
    put_plain(draft, Kind::Auth, &config.apps)?;
    put_plain(draft, Kind::Acct, &config.apps)?;
    put_vendors(alloc, draft, &config.apps)
}

/// The applications of a kind that have no vendor.
fn put_plain(draft: &mut Draft, wanted: Kind, apps: &[App]) -> Result<(), AllocError>
    ensures { OnOk result (drafted draft.new
        ≡ drafted draft.old ++ filter_map (plain_app wanted) apps.now) }
{
    for app in apps {
        put_if_plain(draft, wanted, app)?;
    }
    Ok(())
}

fn put_if_plain(draft: &mut Draft, wanted: Kind, app: &App) -> Result<(), AllocError>
    ensures { OnOk result (drafted draft.new
        ≡ drafted draft.old ++ filter_map (plain_app wanted) (app.now ∷ [])) }
{
    match (app.vendor, wanted, app.kind) {
        (None, Kind::Auth, Kind::Auth) => draft.put_number(AUTH_APPLICATION_ID, app.id),
        (None, Kind::Acct, Kind::Acct) => draft.put_number(ACCT_APPLICATION_ID, app.id),
        (None, Kind::Auth, Kind::Acct) | (None, Kind::Acct, Kind::Auth) => Ok(()),
        (Some(_), _, _) => Ok(()),
    }
}

/// The applications of a vendor, each in a Vendor-Specific-Application-Id (RFC 6733 section 6.11).
fn put_vendors(alloc: Global, draft: &mut Draft, apps: &[App]) -> Result<(), AllocError>
    ensures { OnOk result (drafted draft.new
        ≡ drafted draft.old ++ filter_map vendor_app apps.now) }
{
    for app in apps {
        put_if_vendor(alloc, draft, app)?;
    }
    Ok(())
}

fn put_if_vendor(alloc: Global, draft: &mut Draft, app: &App) -> Result<(), AllocError>
    ensures { OnOk result (drafted draft.new
        ≡ drafted draft.old ++ filter_map vendor_app (app.now ∷ [])) }
{
    let Some(vendor) = app.vendor else {
        return Ok(());
    };
    let mut bytes = Vec::new(alloc);
    push_number(&mut bytes, VENDOR_ID, vendor)?;
    push_number(&mut bytes, app_code(app.kind), app.id)?;
    draft.put(VENDOR_SPECIFIC_APPLICATION_ID, &bytes)?;
    Ok(())
}

/// The code of the AVP that holds an application's number.
fn app_code(kind: Kind) -> u32
    ensures { result ≡ app_code kind }
{
    match kind {
        Kind::Auth => AUTH_APPLICATION_ID,
        Kind::Acct => ACCT_APPLICATION_ID,
    }
}

/// Appends an AVP of four bytes: 12 bytes with the M flag set and no Vendor-ID.
fn push_number(out: &mut Vec<u8>, code: u32, number: u32) -> Result<(), AllocError>
    ensures { OnOk result (out.new.items ≡ out.old.items ++ spelled (avp32 code number)) }
{
    out.extend_from_slice(&four_bytes(code))?;
    out.extend_from_slice(&[0x40, 0, 0, 12])?;
    out.extend_from_slice(&four_bytes(number))?;
    Ok(())
}
