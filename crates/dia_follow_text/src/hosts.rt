//! The Origin-Host of a message, and the one before, as text.

ghost use Rattle.std.specs.Prelude.{◌≡◌, ◌++◌, OnOk, string_bytes};
ghost use Rattle.std.specs.Option.{option_copied};
ghost use Rattle.dia_follow.specs.Connections.{host_in};
ghost use Rattle.dia_follow_text.specs.Hosts.{host_text, hosts_text, identity_text};

use dia_data::{Format, push_value};
use dia_follow::Moment;
use std::alloc::AllocError;

/// Adds the Origin-Host of a message, and the one before.
pub(crate) fn push_hosts(text: &mut String, moment: &Moment<'_>) -> Result<(), AllocError>
    ensures { OnOk result (string_bytes text.new ≡ string_bytes text.old ++ hosts_text moment.now) }
{
    push_host(text, host_of(moment))?;
    text.push_str(", ")?;
    push_host(text, moment.host())?;
    text.push_str(" before")
}

fn host_of<'a>(moment: &'a Moment<'_>) -> Option<&'a [u8]>
    ensures { option_copied result ≡ host_in moment.entry.now.message.body }
{
    match moment.contents() {
        Some(contents) => contents.host,
        None => None,
    }
}

fn push_host(text: &mut String, host: Option<&[u8]>) -> Result<(), AllocError>
    ensures { OnOk result (string_bytes text.new
        ≡ string_bytes text.old ++ host_text (option_copied host.entry)) }
{
    match host {
        Some(host) => push_identity(text, host),
        None => Ok(()),
    }
}

fn push_identity(text: &mut String, host: &[u8]) -> Result<(), AllocError>
    ensures { OnOk result (string_bytes text.new ≡ string_bytes text.old ++ identity_text host.now) }
{
    push_value(text, &Format::DiameterIdentity, host)
}
