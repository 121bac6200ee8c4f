//! Values that are written in parts.
ghost use Rattle.std.specs.Prelude.{map};
ghost use Rattle.dia_text.specs.declared.fault.Kind.TheVariants.{Value};
ghost use Rattle.dia_text.specs.Reading.{some_or};
ghost use Rattle.dia_text.specs.Values.{each, decimal_byte, byte_pair, escaped};
ghost use Rattle.dia_text.specs.Drafts.{IsAppended};
ghost use Rattle.dia_text.specs.ValueParts.{part_bytes};

use crate::fault::{Kind, Misread};
use crate::numbers::{hex_byte_of, number_below};
use crate::words::after_letter;
use hex::decode_to_slice;

/// What parts of a value write.
#[derive(Clone, Copy)]
pub(crate) enum Part {
    /// A number below 256.
    Decimal,
    /// Four hexadecimal digits.
    Pair,
    /// What follows a backslash.
    Escaped,
}

/// Adds the bytes of parts, one after the other.
pub(crate) fn push_parts(out: &mut Vec<u8>, part: Part, texts: &[&[u8]]) -> Result<(), Misread>
    ensures { IsAppended (some_or (each (part_bytes part) (map (λ x. x.now) texts.now)) Value) result
        out.old.items out.new.items }
{
    for text in texts {
        push_part(out, part, text)?;
    }
    Ok(())
}

fn push_part(out: &mut Vec<u8>, part: Part, text: &[u8]) -> Result<(), Misread>
    ensures { IsAppended (some_or (part_bytes part text.now) Value) result
        out.old.items out.new.items }
{
    match part {
        Part::Decimal => push_decimal_byte(out, text),
        Part::Pair => push_byte_pair(out, text),
        Part::Escaped => push_escaped(out, text),
    }
}

fn push_decimal_byte(out: &mut Vec<u8>, text: &[u8]) -> Result<(), Misread>
    ensures { IsAppended (some_or (decimal_byte text.now) Value) result
        out.old.items out.new.items }
{
    let Some(number) = number_below(256, text) else {
        return Err(Misread::Fault(Kind::Value));
    };
    out.push(number as u8)?;
    Ok(())
}

fn push_byte_pair(out: &mut Vec<u8>, text: &[u8]) -> Result<(), Misread>
    ensures { IsAppended (some_or (byte_pair text.now) Value) result
        out.old.items out.new.items }
{
    let mut pair = [0u8; 2];
    match decode_to_slice(text, &mut pair) {
        Ok(()) => {
            out.extend_from_slice(&pair)?;
            Ok(())
        }
        Err(_) => Err(Misread::Fault(Kind::Value)),
    }
}

fn push_escaped(out: &mut Vec<u8>, text: &[u8]) -> Result<(), Misread>
    ensures { IsAppended (some_or (escaped text.now) Value) result
        out.old.items out.new.items }
{
    let Some(following) = after_letter(b'x', text) else {
        return Err(Misread::Fault(Kind::Value));
    };
    if following.len() < 2 {
        return Err(Misread::Fault(Kind::Value));
    }
    let Some(byte) = hex_byte_of(&following[..2]) else {
        return Err(Misread::Fault(Kind::Value));
    };
    out.push(byte)?;
    out.extend_from_slice(&following[2..])?;
    Ok(())
}
