//! Which AVPs are masked.

ghost use Rattle.std.specs.Prelude.{◌≡◌, ◌≢◌, ◌<◌, ℕ, Bool, false, true, IfOk, IfSome, length, slice_get};
ghost use Rattle.dia_data.specs.Plain.{plain_format};
ghost use Rattle.dia_mask.specs.Choosing.{is_replaceable, masked_by_format, says_who};

use dia_book::{Book, Entry, Format, Key};
use std::alloc::{AllocError, Global};

const PRODUCT_NAME: Key = Key {
    code: 269,
    vendor: 0,
};

const SERVICE_CONTEXT_ID: Key = Key {
    code: 461,
    vendor: 0,
};
/// Half of an address (RFC 3162 section 2.2), as a number.
const FRAMED_INTERFACE_ID: Key = Key {
    code: 96,
    vendor: 0,
};

/// Which AVPs of a dictionary are masked, and whether those are that it doesn't know.
#[derive(Drop)]
pub struct Choice {
    /// By entry.
    masked: Vec<bool>,
    unknown: bool,
}

impl Choice {
    ghost use Rattle.std.specs.Prelude.{Some, None, Option};
    ghost use Rattle.dia_mask.specs.Choosing.{IsChoiceOf, IsChosen, masks};

    /// By formats: texts, addresses and bytes are masked, but for Product-Name and Service-Context-Id; Framed-Interface-Id; and
    /// all that the dictionary doesn't know.
    #[tactic(auto, using(crate::proofs::Choosing::chosen_from_map, crate::proofs::Choosing::mapped_more))]
    pub fn by_format<B: Book>(alloc: Global, book: &B) -> Result<Choice, AllocError>
        ensures choice { IfOk result (IsChosen masked_by_format true (B.meaning book.now)) }
        ensures size { IfOk result (IsChoiceOf (B.meaning book.now)) }
    {
        let mut masked = Vec::new(alloc);
        for index in 0..book.entries() {
            masked.push(is_masked(book, book.entry_at(index)))?;
        }
        let unknown = true;
        Ok(Choice { masked, unknown })
    }

    /// No AVPs.
    #[tactic(auto, using(crate::proofs::Choosing::chosen_from_map, crate::proofs::Choosing::mapped_more))]
    pub fn none<B: Book>(alloc: Global, book: &B) -> Result<Choice, AllocError>
        ensures choice { IfOk result (IsChosen (λ _. false) false (B.meaning book.now)) }
        ensures size { IfOk result (IsChoiceOf (B.meaning book.now)) }
    {
        let mut masked = Vec::new(alloc);
        for _ in 0..book.entries() {
            masked.push(false)?;
        }
        let unknown = false;
        Ok(Choice { masked, unknown })
    }

    /// Whether the AVPs of an entry are masked.
    pub fn masks(&self, entry: Entry) -> bool
        ensures { result ≡ masks self.now (Some entry) }
    {
        self.masked.get(entry.index()).copied().unwrap_or(false)
    }

    /// Whether AVPs are masked that the dictionary doesn't know.
    pub fn masks_unknown(&self) -> bool
        ensures { result ≡ masks self.now None }
    {
        self.unknown
    }

    /// Whether an AVP is masked, by its entry if the dictionary knows it.
    pub(crate) fn masks_avp(&self, entry: &Option<Entry>) -> bool
        ensures { result ≡ masks self.now entry.now }
    {
        match entry {
            Some(entry) => self.masks(*entry),
            None => self.unknown,
        }
    }

    /// Masks the AVPs of an entry, or leaves them.
    pub fn set(&mut self, entry: Entry, masked: bool)
        ensures this { entry < length self.old.masked.items → masks self.new (Some entry) ≡ masked }
        ensures others { (avp : Option ℕ) → avp ≢ Some entry → masks self.new avp ≡ masks self.old avp }
        ensures size { length self.new.masked.items ≡ length self.old.masked.items }
    {
        if let Some(found) = self.masked.get_mut(entry.index()) {
            *found = masked;
        }
    }

    /// Masks AVPs that the dictionary doesn't know, or leaves them.
    pub fn set_unknown(&mut self, masked: bool)
        ensures this { masks self.new None ≡ masked }
        ensures others { (entry : ℕ) → masks self.new (Some entry) ≡ masks self.old (Some entry) }
        ensures size { self.new.masked ≡ self.old.masked }
    {
        self.unknown = masked;
    }
}

/// Whether other data of a format can replace its data: not the members of a group, nor one of the listed numbers of an Enumerated.
pub fn can_be_masked(format: &Format) -> bool
    ensures { result ≡ is_replaceable (plain_format format.now) }
{
    match format {
        Format::Grouped => false,
        Format::Enumerated(values) => values.list().is_none(),
        _ => true,
    }
}

/// Whether an AVP is masked by its format, or as one that is named here.
fn is_masked<B: Book>(book: &B, entry: Entry) -> bool
    requires { entry < length (B.meaning book.now).entries }
    ensures { IfSome (slice_get (B.meaning book.now).entries entry) (λ e. result ≡ masked_by_format e) }
{
    let key = book.entry_key(entry);
    let format = book.format(entry);
    if key == FRAMED_INTERFACE_ID {
        can_be_masked(format)
    } else {
        may_identify(format) && key != PRODUCT_NAME && key != SERVICE_CONTEXT_ID
    }
}

/// Whether data of a format may say who or where: texts, addresses and bytes.
fn may_identify(format: &Format) -> bool
    ensures { result ≡ says_who (plain_format format.now) }
{
    matches!(
        format,
        Format::Utf8String
            | Format::DiameterIdentity
            | Format::DiameterUri
            | Format::Address
            | Format::OctetString
            | Format::IpFilterRule
            | Format::QosFilterRule
    )
}
