//! The diagnostic of each reason: what its texts are about, and the texts. A text says what is wrong and, on the next line, has
//! the hint. The values of the words in braces are in the other files here.

use crate::faults::avp::{data_of, same_code, text_of_value};
use crate::faults::avp_bytes::{head_of, length_of};
use crate::faults::in_body::InBody;
use crate::faults::level::Counting;
use crate::faults::rules::{other_vendor, place_after};
use dia_book::{Class, Definition};
use dia_check::{Reason, Unknown, class_of};
use dia_wire::{AVP_HEAD_LENGTH, Header};

/// What the texts of a reason are about.
#[derive(Clone, Copy)]
pub enum Topic {
    /// Bytes that are no message, which other diagnostics report.
    Bytes,
    /// The flags of a header.
    Flags,
    /// The command of a header. A request may be an answer.
    Command,
    /// A place where no AVP begins.
    Lengths,
    /// The rules of a level.
    Rules,
    /// An AVP by itself.
    Avp,
}

pub fn topic_of(reason: Reason) -> Topic {
    match reason {
        Reason::Version | Reason::Length => Topic::Bytes,
        Reason::Bits | Reason::Proxiable => Topic::Flags,
        Reason::Command | Reason::Application => Topic::Command,
        Reason::AvpLength => Topic::Lengths,
        Reason::Missing | Reason::NotAllowed | Reason::TooMany => Topic::Rules,
        Reason::Unknown | Reason::MBit | Reason::LeafLength | Reason::LeafValue | Reason::Depth =>
            Topic::Avp,
    }
}

/// Of a header, with the command that it selects, or else one of its code.
pub fn text_of_header(
    reason: Reason,
    header: &Header,
    command: Option<&Definition>,
) -> &'static str {
    match (reason, class_of(header), command) {
        (Reason::Bits, Class::Request, _) => "a request has the E flag\n\
             fix the sender: only an answer may have E, and only a request R",
        (Reason::Bits, _, _) => "a message that is no request has the T flag\n\
             fix the sender: only a request is sent again with T",
        (Reason::Command, Class::Error, _) =>
            "the dictionary has no definition for answers with the E flag\n\
             add one with the header < Diameter Header: code, ERR >; it serves the errors of all commands",
        (Reason::Command, _, Some(_)) => "the dictionary has no {class} with Command Code {code}\n\
             a definition with REQ serves requests alone, and one without answers alone: add the other one",
        (Reason::Command, _, None) => "the dictionary has no {class} with Command Code {code}\n\
             add the definition, < Diameter Header: {code}{req}{pxy} >",
        (Reason::Application, _, _) =>
            "the dictionary has no {class} with Command Code {code} for application {app}\n\
             add a definition for application {app}, or leave the Application-ID out of the header of one: \
             it then serves all",
        _ if header.is_proxiable() => "the P flag is set, and the header of {name} has no PXY\n\
             add PXY to the header, or fix the sender",
        _ => "the P flag is clear, and the header of {name} has PXY\n\
             take PXY out of the header, or fix the sender",
    }
}

/// Of a fault in the body of a message.
pub fn text_in_body(scene: &InBody<'_>) -> &'static str {
    match topic_of(scene.fault.reason) {
        Topic::Lengths => text_of_length(scene),
        Topic::Rules => text_of_rule(scene),
        _ => text_of_avp(scene),
    }
}

/// Of a place where no AVP begins.
fn text_of_length(scene: &InBody<'_>) -> &'static str {
    let own = scene.own();
    let length = length_of(own);
    if own.len() < AVP_HEAD_LENGTH {
        "no AVP begins here: {left} bytes are left of {level}, and an AVP has at least 8\n{length-hint}"
    } else if length < head_of(own) {
        "no AVP begins here: the AVP Length is {length}, and the head alone has {head} bytes\n{length-hint}"
    } else if length > own.len() {
        "no AVP begins here: the AVP Length is {length}, and with {left} bytes left of {level} it may be at most {longest}\n\
         {length-hint}"
    } else {
        "no AVP begins here: the AVP Length is {length}, and with {left} bytes left of {level} it may be at most {longest}, \
         since the padding to a multiple of four has to be there\n\
         the last AVP of a group is padded as well, and the group's AVP Length counts that padding: fix the sender"
    }
}

/// Of AVPs that aren't as the rules of their level say.
fn text_of_rule(scene: &InBody<'_>) -> &'static str {
    let Some(Counting { rule, .. }) = scene.counting else {
        return match scene.avp() {
            Some(_) =>
                "{subject} isn't allowed in {level}: no rule names it, and there is no rule for AVP\n\
                 add [ {subject} ] or * [ AVP ] to the rules of {level}, or fix the sender",
            None if same_code(scene).is_some() =>
                "{subject} isn't allowed in {level}: no rule names it, and there is no rule for AVP\n\
                 the dictionary's AVP of this code has {vendor}: compare the V flag and the Vendor-ID; \
                 or add * [ AVP ] to the rules of {level}",
            None =>
                "{subject} isn't allowed in {level}: no rule names it, and there is no rule for AVP\n\
                 add * [ AVP ] to the rules of {level}, or fix the sender",
        };
    };
    match scene.fault.reason {
        Reason::Missing if rule.key.is_none() =>
            "an AVP that no rule of {level} names is missing at the end of {level}: {wanted} wanted, {found} found\n\
             have the sender add one, or, where it may be missing, write {optional}",
        Reason::Missing if other_vendor(scene).is_some() => match scene.own() {
            [] => "{subject} is missing at the end of {level}: {wanted} wanted, {found} found\n\
                   an AVP of its code is at {at}, with {sent}: compare the V flag and the Vendor-ID",
            _ => "{subject} is missing before this AVP: {wanted} wanted, {found} found\n\
                  an AVP of its code is at {at}, with {sent}: compare the V flag and the Vendor-ID",
        },
        Reason::Missing if scene.own().is_empty() =>
            "{subject} is missing at the end of {level}: {wanted} wanted, {found} found\n\
             have the sender add {subject}, or, where it may be missing, write {optional}",
        Reason::Missing => match place_after(scene) {
            Some(_) => "{subject} is missing before this AVP: {wanted} wanted, {found} found\n\
                 it is at {following}, and a fixed rule wants it at the front: fix the sender, or write {loose}",
            None => "{subject} is missing before this AVP: {wanted} wanted, {found} found\n\
                 a fixed rule wants its AVP at the front: have the sender put it here; \
                 or, if it may occur elsewhere, write {loose}",
        },
        Reason::TooMany if rule.key.is_none() =>
            "{subject} is AVP number {count} in {level} that no rule names, and {most} may occur\n\
             have the sender send fewer, or write {unbounded} for any number",
        Reason::TooMany => "this is {subject} number {count} in {level}, and {most} may occur\n\
             have the sender send fewer, or write {unbounded} for any number",
        _ => "{subject} may occur only at the front of {level}, in the order of the fixed rules\n\
             have the sender put it at the front, or write {loose}",
    }
}

/// Of an AVP by itself.
fn text_of_avp(scene: &InBody<'_>) -> &'static str {
    match scene.fault.reason {
        Reason::Unknown => text_of_unknown(scene),
        Reason::MBit => "the M flag of {subject} is {flag}, and its rule is {m}\n\
             write any as the rule in the declaration, or fix the sender",
        Reason::LeafLength => "{subject} has {bytes} bytes of data, and {format} has {lengths}\n\
             fix the sender, or declare a format with such data{fits}",
        Reason::LeafValue => match scene.avp() {
            Some(avp) => text_of_value(avp.format, data_of(scene)),
            None => "",
        },
        _ => "{subject} is a group in {depth} groups, and --levels {levels} opens no more\n\
             allow more levels, or leave --levels out",
    }
}

fn text_of_unknown(scene: &InBody<'_>) -> &'static str {
    match (scene.asked.unknown, same_code(scene)) {
        (Unknown::Refused, Some(_)) =>
            "the dictionary has no AVP of code {key}, and unknown AVPs are refused\n\
             that AVP has this code, and {vendor}: compare the V flag and the Vendor-ID",
        (Unknown::Refused, None) =>
            "the dictionary has no AVP of code {key}, and unknown AVPs are refused\n\
             declare it, as %avp NAME {declared} OctetString any",
        (Unknown::Kept, Some(_)) =>
            "the dictionary has no AVP of code {key}, and the M flag says that the receiver has to know it\n\
             that AVP has this code, and {vendor}: compare the V flag and the Vendor-ID",
        (Unknown::Kept, None) =>
            "the dictionary has no AVP of code {key}, and the M flag says that the receiver has to know it\n\
             declare it, as %avp NAME {declared} OctetString any; or have the sender clear the M flag",
    }
}
