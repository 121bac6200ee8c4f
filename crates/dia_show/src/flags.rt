//! Flags, as letters or as two hexadecimal digits.

ghost use Rattle.std.specs.Prelude.{◌≡◌, ◌++◌, OnOk, bit_and, string_bytes};
ghost use Rattle.dia_show.specs.Listing.{avp_flags, header_flags, letter, reserved};

use dia_data::push_hex_byte;
use std::alloc::AllocError;

/// Adds the flags of a header (RFC 6733 section 3).
pub(crate) fn push_header_flags(text: &mut String, names: bool, flags: u8) -> Result<(), AllocError>
    ensures { OnOk result (string_bytes text.new ≡ string_bytes text.old ++ header_flags names flags) }
{
    if !names {
        return push_hex_byte(text, flags);
    }
    push_letter(text, flags, 0x80, "R")?;
    push_letter(text, flags, 0x40, "P")?;
    push_letter(text, flags, 0x20, "E")?;
    push_letter(text, flags, 0x10, "T")?;
    push_reserved(text, flags & 0x0f)
}

/// Adds the flags of an AVP (RFC 6733 section 4.1).
pub(crate) fn push_avp_flags(text: &mut String, names: bool, flags: u8) -> Result<(), AllocError>
    ensures { OnOk result (string_bytes text.new ≡ string_bytes text.old ++ avp_flags names flags) }
{
    if !names {
        return push_hex_byte(text, flags);
    }
    push_letter(text, flags, 0x80, "V")?;
    push_letter(text, flags, 0x40, "M")?;
    push_letter(text, flags, 0x20, "P")?;
    push_reserved(text, flags & 0x1f)
}

/// Adds the letter of a flag, or a dash where it is clear.
fn push_letter(text: &mut String, flags: u8, bit: u8, name: &str) -> Result<(), AllocError>
    ensures { OnOk result (string_bytes text.new ≡ string_bytes text.old ++ letter flags bit name.now) }
{
    if flags & bit == 0 {
        text.push_str("-")
    } else {
        text.push_str(name)
    }
}

/// Adds the bits that have no name, where one is set.
fn push_reserved(text: &mut String, bits: u8) -> Result<(), AllocError>
    ensures { OnOk result (string_bytes text.new ≡ string_bytes text.old ++ reserved bits) }
{
    if bits == 0 {
        Ok(())
    } else {
        text.push_str("+")?;
        push_hex_byte(text, bits)
    }
}
