//! What is sent, accepted or read, as members.

ghost use Rattle.std.specs.Prelude.{◌++◌, OnOk, codes, string_bytes};
ghost use Rattle.std.specs.Option.{option_map};
ghost use Rattle.dia_breaking.specs.LineParts.{plain_amount, plain_parts};
ghost use Rattle.dia_upgrades_json.specs.Fields.{Adds};
ghost use Rattle.dia_upgrades_json.specs.LineObjects.{accepted_fields, amount_fields, count_fields, detail_fields, most_field};
ghost use Rattle.dia_upgrades_json.specs.LineObjects.{sent_fields, text_if};
ghost use Rattle.dia_upgrades_json.specs.Members.{unsigned_field};

use crate::fields::{push_null, push_text, push_u32};
use crate::objects::push_if;
use dia_breaking::{Amount, LineParts};
use std::alloc::{AllocError, Global};

/// Adds what is sent, which AVP may precede, and what is accepted or read.
pub(crate) fn push_detail(
    alloc: Global,
    out: &mut String,
    parts: &LineParts<'_>,
) -> Result<(), AllocError>
    ensures { OnOk result (Adds out.old out.new (detail_fields (plain_parts parts.now))) }
{
    push_sent(alloc, out, &parts.sent)?;
    push_if(alloc, out, "behind", parts.following)?;
    push_accepted(alloc, out, &parts.accepted)?;
    push_read(alloc, out, &parts.read)
}

fn push_sent(alloc: Global, out: &mut String, sent: &Option<Amount>) -> Result<(), AllocError>
    ensures { OnOk result (Adds out.old out.new (sent_fields (option_map plain_amount sent.now))) }
{
    match sent {
        Some(amount) => push_amount(alloc, out, "sent", "sent_min", "sent_max", amount),
        None => Ok(()),
    }
}

fn push_accepted(
    alloc: Global,
    out: &mut String,
    accepted: &Option<Amount>,
) -> Result<(), AllocError>
    ensures { OnOk result (Adds out.old out.new (accepted_fields (option_map plain_amount accepted.now))) }
{
    match accepted {
        Some(amount) => push_amount(
            alloc,
            out,
            "accepted",
            "accepted_min",
            "accepted_max",
            amount,
        ),
        None => Ok(()),
    }
}

fn push_read(alloc: Global, out: &mut String, read: &Option<String>) -> Result<(), AllocError>
    ensures { OnOk result (Adds out.old out.new (text_if (codes "read") (option_map (λ text. string_bytes text) read.now))) }
{
    match read {
        Some(text) => push_text(alloc, out, "read", text.as_str()),
        None => Ok(()),
    }
}

/// Adds the words of an amount, and its counts, if it is one of counts.
fn push_amount(
    alloc: Global,
    out: &mut String,
    name: &str,
    least: &str,
    most: &str,
    amount: &Amount,
) -> Result<(), AllocError>
    ensures { OnOk result (Adds out.old out.new (amount_fields name.now least.now most.now (plain_amount amount.now))) }
{
    let mut text = String::new(alloc);
    amount.push(&mut text)?;
    push_text(alloc, out, name, text.as_str())?;
    push_counts(alloc, out, least, most, amount)
}

fn push_counts(
    alloc: Global,
    out: &mut String,
    least: &str,
    most: &str,
    amount: &Amount,
) -> Result<(), AllocError>
    ensures { OnOk result (Adds out.old out.new (count_fields least.now most.now (plain_amount amount.now))) }
{
    match amount {
        Amount::Counts { min, max } => push_both(alloc, out, least, *min, most, *max),
        Amount::P(_) | Amount::M(_) | Amount::Data(_) => Ok(()),
    }
}

fn push_both(
    alloc: Global,
    out: &mut String,
    least: &str,
    min: u32,
    most: &str,
    max: Option<u32>,
) -> Result<(), AllocError>
    ensures { OnOk result (Adds out.old out.new (unsigned_field least.now min ++ most_field most.now max)) }
{
    push_u32(alloc, out, least, min)?;
    push_most(alloc, out, most, max)
}

/// Adds the greatest count, and `null` where there is none.
fn push_most(
    alloc: Global,
    out: &mut String,
    name: &str,
    max: Option<u32>,
) -> Result<(), AllocError>
    ensures { OnOk result (Adds out.old out.new (most_field name.now max)) }
{
    match max {
        Some(max) => push_u32(alloc, out, name, max),
        None => push_null(alloc, out, name),
    }
}
