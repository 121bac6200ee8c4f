//! The data of an AVP, replaced by its format.

ghost use Rattle.std.specs.Prelude.{◌≡◌, ◌<◌, ◌≤◌, ◌++◌, IfSome, IsNone, IsSome};
ghost use Rattle.std.specs.Prelude.{IsUtf8, OnOk, Some, length, take, drop};
ghost use Rattle.std.specs.Option.{option_map};
ghost use Rattle.std.specs.Str.{IsValidUpTo};
ghost use Rattle.dia_data.specs.Leaf.{IsLeaf};
ghost use Rattle.dia_data.specs.Plain.{plain_format};
ghost use Rattle.dia_mask.specs.Replaced.{IsAccepted, IsBroken, IsNewData, IsRule, IsText, IsTextWay};
ghost use Rattle.dia_mask.specs.Replaced.{Numbering, behind_slashes, new_bytes, text_start, way};
ghost use Rattle.dia_mask.specs.Texts.{Agrees, Puts};
ghost use Rattle.dia_mask.specs.Words.{Grows};

use crate::texts::{Masking, push_many};
use crate::ways::Way;
use dia_data::{Format, Leaf, accepts};
use std::alloc::{AllocError, Global};
use std::str;

impl Masking {
    /// Sets `data` to what replaces the data of an AVP of this format, or of one that the dictionary doesn't know.
    ///
    /// A group and an Enumerated with a list stay.
    pub(crate) fn replace(
        &mut self,
        alloc: Global,
        format: Option<&Format>,
        bytes: &[u8],
    ) -> Result<(), AllocError>
        ensures grows { OnOk result (Grows self.old.words self.new.words) }
        ensures replaced { OnOk result ((numbers : Numbering) → Agrees self.new.words numbers
            → IsNewData numbers (option_map (λ f. plain_format f.now) format.entry) bytes.now self.new.data.items) }
    {
        self.data.clear();
        self.push_data(alloc, format, bytes)
    }

    fn push_data(
        &mut self,
        alloc: Global,
        format: Option<&Format>,
        bytes: &[u8],
    ) -> Result<(), AllocError>
        ensures { OnOk result (Puts
            (λ numbers. IsNewData numbers (option_map (λ f. plain_format f.now) format.entry) bytes.now)
            self.old self.new) }
    {
        match format {
            Some(format) => self.push_known(alloc, format, bytes),
            None => self.push_bytes(alloc, bytes),
        }
    }

    fn push_known(&mut self, alloc: Global, format: &Format, bytes: &[u8]) -> Result<(), AllocError>
        ensures { OnOk result (Puts (λ numbers. IsNewData numbers (Some (plain_format format.now)) bytes.now)
            self.old self.new) }
    {
        match Way::of(format) {
            Way::Text(refused) => self.push_accepted(alloc, format, bytes, refused),
            Way::Rule => self.push_rule(alloc, bytes),
            Way::Address => self.push_address(alloc, bytes),
            Way::Bytes => self.push_bytes(alloc, bytes),
            Way::Left => {
                self.data.extend_from_slice(bytes)?;
                Ok(())
            }
        }
    }

    /// Adds what replaces a text that its format accepts; of another one so many bytes, which the format doesn't accept either.
    fn push_accepted(
        &mut self,
        alloc: Global,
        format: &Format,
        bytes: &[u8],
        refused: u8,
    ) -> Result<(), AllocError>
        requires { way (plain_format format.now) ≡ Way.Text refused }
        ensures { OnOk result (Puts (λ numbers. IsText numbers (plain_format format.now) refused bytes.now)
            self.old self.new) }
    {
        match accepted_text(format, bytes) {
            Some((front, text)) => {
                self.data.extend_from_slice(front)?;
                self.push_text(alloc, text)?;
                Ok(())
            }
            None => {
                push_many(&mut self.data, refused, bytes.len())?;
                Ok(())
            }
        }
    }

    /// Adds what replaces the text of a rule, in which a byte with which no character begins becomes ff.
    fn push_rule(&mut self, alloc: Global, bytes: &[u8]) -> Result<(), AllocError>
        ensures { OnOk result (Puts (λ numbers. IsRule numbers bytes.now) self.old self.new) }
    {
        let mut rest = bytes;
        while let Some((front, following)) = split_at_no_character(rest) {
            self.push_text(alloc, front)?;
            self.data.push(0xff)?;
            rest = following;
        }
        match str::from_utf8(rest) {
            Ok(text) => {
                self.push_text(alloc, text)?;
                Ok(())
            }
            Err(_) => Ok(()),
        }
    }

    /// Adds what replaces an address: its family stays.
    fn push_address(&mut self, alloc: Global, bytes: &[u8]) -> Result<(), AllocError>
        ensures { OnOk result (Puts
            (λ numbers more. more ≡ take 2 bytes.now ++ new_bytes numbers (drop 2 bytes.now)) self.old self.new) }
    {
        let family = bytes.len().min(2);
        self.data.extend_from_slice(&bytes[..family])?;
        self.push_bytes(alloc, &bytes[family..])?;
        Ok(())
    }
}

/// What stays of a text that its format accepts, and what is text: of a URI what follows `//`.
fn accepted_text<'a>(format: &Format, bytes: &'a [u8]) -> Option<(&'a [u8], &'a str)>
    requires { IsTextWay (plain_format format.now) }
    ensures some { IfSome result
        (λ parts. IsAccepted (plain_format format.now) bytes.entry.now parts.0.now parts.1.now) }
    ensures none { IsNone result → ¬ IsLeaf (plain_format format.now) bytes.entry.now }
{
    match accepts(format, bytes) {
        Leaf::Fine => split_text(format, bytes),
        Leaf::BadLength => None,
        Leaf::BadValue => None,
    }
}

fn split_text<'a>(format: &Format, bytes: &'a [u8]) -> Option<(&'a [u8], &'a str)>
    requires way { IsTextWay (plain_format format.now) }
    requires leaf { IsLeaf (plain_format format.now) bytes.now }
    ensures some { IfSome result
        (λ parts. IsAccepted (plain_format format.now) bytes.entry.now parts.0.now parts.1.now) }
    ensures always { IsSome result }
{
    let from = start_of_text(format, bytes);
    match str::from_utf8(&bytes[from..]) {
        Ok(text) => Some((&bytes[..from], text)),
        Err(_) => None,
    }
}

/// Where the text begins in data of a format.
fn start_of_text(format: &Format, bytes: &[u8]) -> usize
    ensures start { result ≡ text_start (plain_format format.now) bytes.now }
    ensures within { result ≤ length bytes.now }
{
    match format {
        Format::DiameterUri => after_slashes(bytes),
        _ => 0,
    }
}

/// The place after `aaa://` or `aaas://`, in whichever letter case.
fn after_slashes(bytes: &[u8]) -> usize
    ensures place { result ≡ behind_slashes bytes.now }
    ensures within { result ≤ length bytes.now }
{
    let scheme = if bytes.get(3).copied().unwrap_or(0) == b':' {
        6
    } else {
        7
    };
    bytes.len().min(scheme)
}

/// The characters before the first byte with which none begins, and what follows that byte. `None` where all are characters.
fn split_at_no_character(bytes: &[u8]) -> Option<(&str, &[u8])>
    ensures some { IfSome result (λ parts. IsBroken bytes.entry.now parts.0.now parts.1.now) }
    ensures shorter { IfSome result (λ parts. length parts.1.now < length bytes.entry.now) }
    ensures none { IsNone result → IsUtf8 bytes.entry.now }
{
    match str::from_utf8(bytes) {
        Ok(_) => None,
        Err(error) => split_at(bytes, error.valid_up_to()),
    }
}

fn split_at(bytes: &[u8], at: usize) -> Option<(&str, &[u8])>
    requires { IsValidUpTo bytes.now at }
    ensures some { IfSome result (λ parts. IsBroken bytes.entry.now parts.0.now parts.1.now) }
    ensures shorter { IfSome result (λ parts. length parts.1.now < length bytes.entry.now) }
    ensures always { IsSome result }
{
    match str::from_utf8(&bytes[..at]) {
        Ok(front) => Some((front, &bytes[at + 1..])),
        Err(_) => None,
    }
}
