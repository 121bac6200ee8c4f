//! Known groups, entered by their heads: their data need not be there yet.

ghost use Rattle.std.specs.Prelude.{◌≡◌, None, Ok, IfOk, MatchOption};
ghost use Rattle.dia_wire.specs.Wire.{head_length};
ghost use Rattle.dia_book.specs.Dictionary.{entry_of};
ghost use Rattle.dia_check.specs.Basis.{plain_basis};
ghost use Rattle.dia_check.specs.Reading.{IsAtSomeAvp, IsGroupOf, IsNoGroup, ReadsOn};
ghost use Rattle.dia_check.specs.Steps.{HasEntered, HasEnteredAvp, IsAfterHead, IsFarther};
ghost use Rattle.dia_check.specs.Steps.{key_of_head};

use crate::admission::{admit, may_open, open_group};
use crate::basis::Basis;
use crate::fault::{Reason, Refusal};
use crate::open_levels::{OpenLevels, Wrong};
use crate::recording::fault;
use dia_book::{Book, DefId, Entry};
use dia_wire::{AVP_HEAD_LENGTH, AvpHead, Key, VENDOR_AVP_HEAD_LENGTH, avp_head};

/// Enters the group that begins at a place, where its head is among the bytes that are there. Answers where its data
/// begins; `None`, and nothing is changed, where no whole head is there or the AVP is no known group.
#[inline(always)]
pub(crate) fn enter_at<B: Book>(
    basis: &Basis<'_, B>,
    open_levels: &mut OpenLevels,
    at: usize,
    bytes: &[u8],
) -> Result<Option<usize>, Refusal>
    requires { ∥ ReadsOn (plain_basis B.meaning basis.now) open_levels.old at at bytes.now ∥₁ }
    ensures kept { result ≡ Ok None → open_levels.new ≡ open_levels.old }
    ensures within { IfOk result (IsFarther at bytes.now) }
    ensures next { HasEntered (plain_basis B.meaning basis.now)
        open_levels.old at bytes.now open_levels.new result }
{
    let room = open_levels.innermost().end - at;
    match avp_head(bytes, room) {
        Ok(Some(head)) => enter_group(basis, open_levels, at, &head),
        Ok(None) | Err(_) => Ok(None),
    }
}

/// Enters the group whose head is at a place: its data is the innermost level then. Answers where the data begins;
/// `None`, and nothing is changed, where the AVP is no known group.
#[inline(always)]
pub(crate) fn enter_group<B: Book>(
    basis: &Basis<'_, B>,
    open_levels: &mut OpenLevels,
    at: usize,
    head: &AvpHead,
) -> Result<Option<usize>, Refusal>
    requires { ∥ IsAtSomeAvp (plain_basis B.meaning basis.now) open_levels.old at head.now ∥₁ }
    ensures kept { result ≡ Ok None → open_levels.new ≡ open_levels.old }
    ensures no_group { result ≡ Ok None
        → IsNoGroup (B.meaning basis.now.book.now) (key_of_head head.now) }
    ensures start { IfOk result (IsAfterHead at head.now) }
    ensures next { HasEnteredAvp (plain_basis B.meaning basis.now)
        open_levels.old at head.now open_levels.new result }
{
    let key = head_key(head);
    let known = basis.book.avp(key);
    let Some(group) = known_group(basis.book, key, &known) else {
        return Ok(None);
    };
    let depth = open_levels.depth();
    if let Some(wrong) = admit(basis, open_levels, key, &known, head.flags) {
        return Err(fault(at, wrong));
    }
    if !may_open(basis.levels, depth) {
        return Err(fault(at, Wrong::avp(Reason::Depth, key)));
    }
    let end = at + head.length as usize;
    open_group(basis.book, open_levels, group, end)?;
    Ok(Some(at + head_length(head)))
}

/// The definition of the known group that an AVP of this key and entry is.
#[inline(always)]
fn known_group<B: Book>(book: &B, key: Key, entry: &Option<Entry>) -> Option<DefId>
    requires { entry.now ≡ entry_of (B.meaning book.now) key }
    ensures { MatchOption result (IsNoGroup (B.meaning book.now) key)
        (IsGroupOf (B.meaning book.now) key) }
{
    match entry {
        Some(entry) => book.group(*entry),
        None => None,
    }
}

/// The key of the AVP that a head begins.
#[inline(always)]
pub(crate) fn head_key(head: &AvpHead) -> Key
    ensures { result ≡ key_of_head head.now }
{
    Key {
        code: head.code,
        vendor: head.vendor.unwrap_or(0),
    }
}

/// The bytes of an AVP before its data.
#[inline(always)]
pub(crate) fn head_length(head: &AvpHead) -> usize
    ensures { result ≡ head_length head.now.vendor }
{
    match head.vendor {
        Some(_) => VENDOR_AVP_HEAD_LENGTH,
        None => AVP_HEAD_LENGTH,
    }
}
