//! What a departure or a note says of bytes whose header can't be read.

ghost use Rattle.std.specs.Prelude.{◌≡◌, ◌++◌, OnOk, codes, length, string_bytes};
ghost use Rattle.std.specs.Fmt.{decimal};
ghost use Rattle.dia_follow_text.specs.Unread.{first_byte, header_text, message_length, unread_text};

use dia_follow::Reason;
use dia_wire::{HEADER_LENGTH, number32};
use std::alloc::AllocError;

/// Adds the text of a departure or a note on bytes whose header can't be read.
pub(crate) fn push_unread_detail(
    text: &mut String,
    bytes: &[u8],
    verdict: &str,
    reason: Reason,
) -> Result<(), AllocError>
    ensures { OnOk result (string_bytes text.new
        ≡ string_bytes text.old ++ unread_text bytes.now verdict.now reason) }
{
    match reason {
        Reason::Version => push_version(text, first_byte(bytes)),
        Reason::Length => push_length(text, message_length(bytes)),
        Reason::Invalid => text.push_str(verdict),
        _ => push_count(text, bytes.len()),
    }
}

fn push_version(text: &mut String, version: u8) -> Result<(), AllocError>
    ensures { OnOk result (string_bytes text.new ≡ string_bytes text.old ++ decimal version ++ codes " for 1") }
{
    write!(text, "{version} for 1")
}

fn push_length(text: &mut String, length: u32) -> Result<(), AllocError>
    ensures { OnOk result (string_bytes text.new ≡ string_bytes text.old ++ decimal length) }
{
    write!(text, "{length}")
}

fn push_count(text: &mut String, count: usize) -> Result<(), AllocError>
    ensures { OnOk result (string_bytes text.new ≡ string_bytes text.old ++ header_text count) }
{
    write!(text, "{count} of {HEADER_LENGTH} bytes of the header")
}

fn first_byte(bytes: &[u8]) -> u8
    ensures { result ≡ first_byte bytes.now }
{
    match bytes.first() {
        Some(byte) => *byte,
        None => 0,
    }
}

/// The Message Length.
fn message_length(bytes: &[u8]) -> u32
    ensures { result ≡ message_length bytes.now }
{
    match bytes {
        [_, high, middle, low, ..] => number32(&[0, *high, *middle, *low]).unwrap_or(0),
        _ => 0,
    }
}
