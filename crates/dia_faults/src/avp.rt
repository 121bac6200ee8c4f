//! What is wrong with one AVP.

ghost use Rattle.std.specs.Prelude.{◌≡◌, ◌≢◌, ◌<◌, ◌^◌, ◌∷◌, ◌++◌, [], List, ℕ};
ghost use Rattle.std.specs.Prelude.{IfOk, Option, length, map, slice_get, Some, MatchOption};
ghost use Rattle.dia_wire.specs.Wire.{PlainAvp, key_of, plain_avp};
ghost use Rattle.dia_book.specs.Dictionary.{entry_of};
ghost use Rattle.dia_check.specs.declared.open_levels.Wrong.{Wrong as AnyWrong};
ghost use Rattle.dia_check.specs.Recording.{recorded};
ghost use Rattle.dia_check.specs.Walks.{Rest as AnyRest};
ghost use Rattle.dia_faults.specs.Collecting.{Adds};
ghost use Rattle.dia_faults.specs.Levels.{AreOwn, IsFilled, IsFlagged, IsOpened};
ghost use Rattle.dia_faults.specs.States.{HasRules, IsCounted, IsOpenedAs, count_of, rest_keys};

use crate::collector::Collector;
use crate::counts::Counts;
use crate::placing::{Level, place};
use dia_book::{Book, DefId, Entry};
use dia_check::{Basis, Subject, Wrong, check_data, wrong_flags};
use dia_wire::{Avp, Key, key};
use std::alloc::AllocError;

/// Judges an AVP at a place of a level of this depth. Answers the run that it leads to, and the definition of a known
/// group whose data is a level to judge.
pub(crate) fn judge_avp<B: Book>(
    basis: &Basis<'_, B>,
    found: &mut Collector,
    counts: &mut Counts,
    level: Level,
    depth: usize,
    at: usize,
    avp: &Avp<'_>,
) -> Result<(usize, Option<DefId>), AllocError>
    requires low { (at < 2 ^ 32) × (level.start < 2 ^ 32) }
    requires counted { ∥ ((s : AnyRest) × HasRules (B.meaning basis.now.book.now) level.def s.level.rules
        × IsCounted counts.old.counts.entries level.start level.run s.level.rules (rest_keys s) × (length s.earlier < 4294967295)) ∥₁ }
    ensures judged { IfOk result (λ next. (s : AnyRest) → s.level.depth ≡ depth
        → HasRules (B.meaning basis.now.book.now) level.def s.level.rules
        → IsCounted counts.old.counts.entries level.start level.run s.level.rules (rest_keys s)
        → ((wrongs : List AnyWrong) × AreOwn (B.meaning basis.now.book.now) basis.now.unknown basis.now.levels s (plain_avp avp.now) wrongs
        × Adds found.old found.new (map (recorded at) wrongs))
        × IsCounted counts.new.counts.entries level.start next.0 s.level.rules (rest_keys s ++ key_of (plain_avp avp.now) ∷ [])) }
    ensures opened { IfOk result (λ next. IsOpenedAs (B.meaning basis.now.book.now) basis.now.levels depth (plain_avp avp.now) next.1) }
    ensures others { IfOk result (λ next. (s i : ℕ) → i < 1024 → s ≢ level.start
        → count_of counts.new.counts.entries s i ≡ count_of counts.old.counts.entries s i) }
{
    let key = key(avp);
    let known = basis.book.avp(key);
    if let Some(wrong) = wrong_flags(basis, key, &known, avp.flags) {
        found.push(at, wrong)?;
    }
    let run = place(basis.book, found, counts, level, at, key)?;
    let group = judge_data(basis, found, depth, at, key, known, avp.bytes)?;
    Ok((run, group))
}

/// Adds what is wrong with the data of an AVP of this key and entry. Answers the definition of a known group whose data is a
/// level to judge.
fn judge_data<B: Book>(
    basis: &Basis<'_, B>,
    found: &mut Collector,
    depth: usize,
    at: usize,
    key: Key,
    known: Option<Entry>,
    bytes: &[u8],
) -> Result<Option<DefId>, AllocError>
    requires low { at < 2 ^ 32 }
    requires known { known ≡ entry_of (B.meaning basis.now.book.now) key }
    ensures judged { IfOk result (λ group. (v : PlainAvp) → key_of v ≡ key → v.bytes ≡ bytes.now
        → (wrongs : List AnyWrong) × IsFilled (B.meaning basis.now.book.now) basis.now.levels depth v wrongs
        × Adds found.old found.new (map (recorded at) wrongs)) }
    ensures opened { IfOk result (λ group. (v : PlainAvp) → key_of v ≡ key → v.bytes ≡ bytes.now
        → IsOpenedAs (B.meaning basis.now.book.now) basis.now.levels depth v group) }
{
    let Some(entry) = known else {
        return Ok(None);
    };
    match check_data(basis, depth, entry, bytes) {
        Ok(group) => Ok(group),
        Err(reason) => {
            found.push(
                at,
                Wrong {
                    reason,
                    subject: Subject::Avp(key),
                },
            )?;
            Ok(None)
        }
    }
}
