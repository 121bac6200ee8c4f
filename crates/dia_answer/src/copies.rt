//! AVPs of a request that its answer copies (RFC 6733 section 6.2).

ghost use Rattle.std.specs.Prelude.{◌≡◌, ◌↔◌, ◌++◌, IfOk, IsTrue, List, OnOk, map};
ghost use Rattle.dia_wire.specs.Wire.{PlainAvp, plain_avp};
ghost use Rattle.dia_answer.specs.Bodies.{AreCopies, AreFirst, AreRequired, AreRequiredAll};
ghost use Rattle.dia_answer.specs.Helds.{plains};
ghost use Rattle.dia_answer.specs.Stocks.{IsFitOf, copied};

use crate::alone::Judge;
use crate::codes::is_own;
use crate::forms::Form;
use crate::held::Held;
use dia_book::{Book, DRule};
use dia_wire::Key;
use std::alloc::AllocError;

/// Adds, in the command's own answer, for each rule as many AVPs of the request as it requires.
pub(crate) fn push_copies<'a, B: Book>(
    out: &mut Vec<Held<'a>>,
    judge: &Judge<'_, B>,
    form: Form,
    rules: &[DRule],
    request: &[Held<'a>],
) -> Result<(), AllocError>
    ensures { OnOk result ((these : List PlainAvp) × AreCopies (B.meaning judge.now.book.book.now)
        judge.now.unknown judge.now.levels (plains request.now) form rules.now these
        × (plains out.new.items ≡ plains out.old.items ++ map copied these)) }
{
    match form {
        Form::Own => push_all_required(out, judge, rules, request),
        Form::Error | Form::Base => Ok(()),
    }
}

/// Adds, for each rule, as many AVPs of the request as it requires.
fn push_all_required<'a, B: Book>(
    out: &mut Vec<Held<'a>>,
    judge: &Judge<'_, B>,
    rules: &[DRule],
    request: &[Held<'a>],
) -> Result<(), AllocError>
    ensures { OnOk result ((these : List PlainAvp) × AreRequiredAll (B.meaning judge.now.book.book.now)
        judge.now.unknown judge.now.levels (plains request.now) rules.now these
        × (plains out.new.items ≡ plains out.old.items ++ map copied these)) }
{
    for rule in rules {
        push_required(out, judge, rule, request)?;
    }
    Ok(())
}

/// Adds as many AVPs of the request as a rule requires.
fn push_required<'a, B: Book>(
    out: &mut Vec<Held<'a>>,
    judge: &Judge<'_, B>,
    rule: &DRule,
    request: &[Held<'a>],
) -> Result<(), AllocError>
    ensures { OnOk result ((these : List PlainAvp) × AreRequired (B.meaning judge.now.book.book.now)
        judge.now.unknown judge.now.levels (plains request.now) rule.now these
        × (plains out.new.items ≡ plains out.old.items ++ map copied these)) }
{
    let Some(key) = rule.key else {
        return Ok(());
    };
    if is_own(key) {
        return Ok(());
    }
    push_fitting(out, judge, request, key, rule.min as usize)
}

/// Adds the first AVPs of a key that fit the dictionary, at most so many.
pub(crate) fn push_fitting<'a, B: Book>(
    out: &mut Vec<Held<'a>>,
    judge: &Judge<'_, B>,
    request: &[Held<'a>],
    wanted: Key,
    most: usize,
) -> Result<(), AllocError>
    ensures { OnOk result ((these : List PlainAvp) × AreFirst (IsFitOf (B.meaning judge.now.book.book.now)
        judge.now.unknown judge.now.levels wanted) most (plains request.now) these
        × (plains out.new.items ≡ plains out.old.items ++ map copied these)) }
{
    let mut left = most;
    for avp in request {
        if left == 0 {
            return Ok(());
        }
        if is_fit_of(judge, wanted, avp)? {
            out.push(avp.copied())?;
            left -= 1;
        }
    }
    Ok(())
}

/// Whether the AVP has the key, and fits.
fn is_fit_of<B: Book>(judge: &Judge<'_, B>, wanted: Key, avp: &Held<'_>) -> Result<bool, AllocError>
    ensures { IfOk result (λ ok. IsTrue ok ↔ IsFitOf (B.meaning judge.now.book.book.now)
        judge.now.unknown judge.now.levels wanted (plain_avp avp.now.avp)) }
{
    if avp.key() == wanted {
        judge.fits(avp)
    } else {
        Ok(false)
    }
}
