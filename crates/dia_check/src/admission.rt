//! One AVP of an open level: its flags, its place, and its data.

ghost use Rattle.std.specs.Prelude.{◌≡◌, ◌<◌, ◌↔◌, [], OnOk, Some};
ghost use Rattle.std.specs.Prelude.{length, slice_get, MatchOption, MatchResult, IsTrue};
ghost use Rattle.dia_wire.specs.Wire.{plain_avp};
ghost use Rattle.dia_book.specs.Dictionary.{DictEntry};
ghost use Rattle.dia_book.specs.Dictionary.{PlainDefinition, definitions, entry_of};
ghost use Rattle.dia_check.specs.Basis.{plain_basis};
ghost use Rattle.dia_valid.specs.Valid.{MHolds, IsAccepted};
ghost use Rattle.dia_check.specs.Levels.{MayOpen};
ghost use Rattle.dia_check.specs.OpenLevels.{AreOpenUnder, begun};
ghost use Rattle.dia_valid.specs.Valid.{HasFlags};
ghost use Rattle.dia_check.specs.Admission.{IsWrongFlags, IsFineData, IsWrongData};
ghost use Rattle.dia_check.specs.Admission.{AreSomeOpen, HaveRoom, IsLetIn, IsChecked};
ghost use Rattle.dia_check.specs.Admission.{IsEndChecked, IsOpened};

use crate::basis::Basis;
use crate::fault::Reason;
use crate::open_levels::{OpenLevels, Wrong};
use dia_book::{Book, DefId, Entry, Leaf, MRule, accepts};
use dia_terms::{Levels, Unknown};
use dia_wire::{AVP_MANDATORY, Avp, Key, key};
use std::alloc::AllocError;

/// Checks an AVP of the innermost level. Answers the definition of a known group, whose data is a level to open.
#[inline(always)]
pub(crate) fn check_avp<B: Book>(
    basis: &Basis<'_, B>,
    open_levels: &mut OpenLevels,
    avp: &Avp<'_>,
) -> Result<Option<DefId>, Wrong>
    requires { ∥ HaveRoom (B.meaning basis.now.book.now) open_levels.old ∥₁ }
    ensures { IsChecked (plain_basis B.meaning basis.now)
        open_levels.old open_levels.new (plain_avp avp.now) result }
{
    let key = key(avp);
    let depth = open_levels.depth();
    let known = basis.book.avp(key);
    if let Some(wrong) = admit(basis, open_levels, key, &known, avp.flags) {
        return Err(wrong);
    }
    match known {
        Some(entry) => match check_data(basis, depth, entry, avp.bytes) {
            Ok(group) => Ok(group),
            Err(reason) => Err(Wrong::avp(reason, key)),
        },
        None => Ok(None),
    }
}

/// What is missing at the end of the innermost level.
#[inline(always)]
pub(crate) fn missing_at_end<B: Book>(book: &B, open_levels: &OpenLevels) -> Option<Wrong>
    requires { ∥ AreSomeOpen (B.meaning book.now) open_levels.now ∥₁ }
    ensures { IsEndChecked (B.meaning book.now) open_levels.now result }
{
    let def = open_levels.innermost().def;
    let definition = book.def(def);
    if open_levels.is_met(&definition.rules) {
        return None;
    }
    missing_apart(book, open_levels)
}

/// The same, out of line: the loop over AVPs seldom asks for it.
#[inline(never)]
fn missing_apart<B: Book>(book: &B, open_levels: &OpenLevels) -> Option<Wrong>
    requires { ∥ AreSomeOpen (B.meaning book.now) open_levels.now ∥₁ }
    ensures { IsEndChecked (B.meaning book.now) open_levels.now result }
{
    let def = open_levels.innermost().def;
    let definition = book.def(def);
    open_levels.missing(&definition.rules, &definition.shape)
}

/// Opens the body of a message of which nothing was read yet, which ends at a place, in the memory of other levels.
#[inline(always)]
pub(crate) fn open_body<B: Book>(
    book: &B,
    open_levels: &mut OpenLevels,
    def: DefId,
    end: usize,
) -> Result<(), AllocError>
    requires { def < length (definitions (B.meaning book.now)) }
    ensures { (definition : PlainDefinition)
        → slice_get (definitions (B.meaning book.now)) def ≡ Some definition
        → OnOk result (AreOpenUnder
        (B.meaning book.now) open_levels.new [] (begun definition.rules end)) }
{
    let definition = book.def(def);
    open_levels.begin(def, &definition.rules, &definition.shape, end)
}

/// Opens the data of a group, which ends at a place. This alone takes memory.
#[inline(always)]
pub(crate) fn open_group<B: Book>(
    book: &B,
    open_levels: &mut OpenLevels,
    def: DefId,
    end: usize,
) -> Result<(), AllocError>
    requires def { def < length (definitions (B.meaning book.now)) }
    requires open { ∥ AreSomeOpen (B.meaning book.now) open_levels.old ∥₁ }
    ensures { IsOpened (B.meaning book.now) open_levels.old def end open_levels.new result }
{
    let definition = book.def(def);
    open_levels.open(def, &definition.rules, &definition.shape, end)
}

/// Admits an AVP of this key, entry and flags to the innermost level, or says what is wrong.
#[inline(always)]
pub(crate) fn admit<B: Book>(
    basis: &Basis<'_, B>,
    open_levels: &mut OpenLevels,
    key: Key,
    known: &Option<Entry>,
    flags: u8,
) -> Option<Wrong>
    requires open_levels { ∥ HaveRoom (B.meaning basis.now.book.now) open_levels.old ∥₁ }
    requires known { known.now ≡ entry_of (B.meaning basis.now.book.now) key }
    ensures { IsLetIn (plain_basis B.meaning basis.now)
        open_levels.old open_levels.new key flags result }
{
    if let Some(wrong) = wrong_flags(basis, key, known, flags) {
        return Some(wrong);
    }
    let def = open_levels.innermost().def;
    let definition = basis.book.def(def);
    open_levels.meet(
        &definition.rules,
        &definition.shape,
        basis.book.slot(def, key),
        key,
    )
}

/// What is wrong with the flags of an AVP of this key and entry.
#[inline(always)]
pub fn wrong_flags<B: Book>(
    basis: &Basis<'_, B>,
    key: Key,
    known: &Option<Entry>,
    flags: u8,
) -> Option<Wrong>
    requires { known.now ≡ entry_of (B.meaning basis.now.book.now) key }
    ensures { MatchOption result
        (HasFlags (B.meaning basis.now.book.now) basis.now.unknown key flags)
        (IsWrongFlags (B.meaning basis.now.book.now) basis.now.unknown key flags) }
{
    match known {
        Some(entry) => {
            if m_holds(basis.book.rule(*entry), flags) {
                None
            } else {
                Some(Wrong::avp(Reason::MBit, key))
            }
        }
        None => {
            if is_accepted(basis.unknown, flags) {
                None
            } else {
                Some(Wrong::avp(Reason::Unknown, key))
            }
        }
    }
}

/// Whether the M flag is as the rule says.
fn m_holds(rule: MRule, flags: u8) -> bool
    ensures { IsTrue result ↔ MHolds rule flags }
{
    let set = flags & AVP_MANDATORY != 0;
    match rule {
        MRule::Must => set,
        MRule::MustNot => !set,
        MRule::Any => true,
    }
}

/// Whether an AVP that the dictionary does not know is accepted.
fn is_accepted(unknown: Unknown, flags: u8) -> bool
    ensures { IsTrue result ↔ IsAccepted unknown flags }
{
    match unknown {
        Unknown::Kept => flags & AVP_MANDATORY == 0,
        Unknown::Refused => false,
    }
}

/// Checks the data of a known AVP in a level of this depth: the definition of a group, whose data is a level to open.
#[inline(always)]
pub fn check_data<B: Book>(
    basis: &Basis<'_, B>,
    depth: usize,
    entry: Entry,
    bytes: &[u8],
) -> Result<Option<DefId>, Reason>
    requires { entry < length (B.meaning basis.now.book.now).entries }
    ensures { (e : DictEntry) → slice_get (B.meaning basis.now.book.now).entries entry ≡ Some e
        → MatchResult result
        (IsFineData (B.meaning basis.now.book.now) basis.now.levels depth e bytes.now)
        (IsWrongData basis.now.levels depth e bytes.now) }
{
    match accepts(basis.book.format(entry), bytes) {
        Leaf::Fine => {}
        Leaf::BadLength => return Err(Reason::LeafLength),
        Leaf::BadValue => return Err(Reason::LeafValue),
    }
    let Some(group) = basis.book.group(entry) else {
        return Ok(None);
    };
    if may_open(basis.levels, depth) {
        Ok(Some(group))
    } else {
        Err(Reason::Depth)
    }
}

/// Whether a group in a level of this depth is opened: the body has depth 0.
pub(crate) fn may_open(levels: Levels, depth: usize) -> bool
    ensures { IsTrue result ↔ MayOpen levels depth }
{
    match levels {
        Levels::Any => true,
        Levels::AtMost(most) => depth < most as usize,
    }
}
