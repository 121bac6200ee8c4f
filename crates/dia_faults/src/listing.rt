//! The body of a message, level by level.

ghost use Rattle.std.specs.Prelude.{◌≡◌, ◌<◌, ◌≤◌, ◌^◌, ◌+◌, List, OnOk, Some, length, map, slice_get};
ghost use Rattle.dia_wire.specs.Wire.{avp_length, head_length, plain_avp};
ghost use Rattle.dia_book.specs.Dictionary.{PlainDefinition, definitions};
ghost use Rattle.dia_check.specs.Walks.{Found, fault_of, whole};
ghost use Rattle.dia_faults.specs.Collecting.{Adds};
ghost use Rattle.dia_faults.specs.Levels.{IsListing};

use crate::avp::judge_avp;
use crate::collector::Collector;
use crate::counts::Counts;
use crate::placing::{Level, push_missing_at_end};
use dia_book::{Book, DefId};
use dia_check::{Basis, Reason, Subject, Wrong};
use dia_wire::{Avp, AvpFault, HEADER_LENGTH, next_avp};
use std::alloc::{AllocError, Global};

/// What is left of a level.
#[derive(Clone, Copy)]
struct Rest<'a> {
    bytes: &'a [u8],
    /// The level's definition.
    def: DefId,
    /// The places where the level begins and ends.
    start: usize,
    end: usize,
    /// The fixed rule in whose run it is; behind the last run, the number of fixed rules.
    run: usize,
}

impl Rest<'_> {
    ghost use Rattle.std.specs.Prelude.{◌≡◌};

    /// What is known of the level.
    fn level(&self) -> Level
        ensures { result ≡ record { def = self.now.def; start = self.now.start; run = self.now.run } }
    {
        Level {
            def: self.def,
            start: self.start,
            run: self.run,
        }
    }
}

/// Adds all that is wrong with the body of a message of this command.
///
/// The levels around the current one wait in a list, so depth takes memory and no stack.
pub(crate) fn list_body<B: Book>(
    alloc: Global,
    basis: &Basis<'_, B>,
    found: &mut Collector,
    def: DefId,
    bytes: &[u8],
) -> Result<(), AllocError>
    requires low { (20 ≤ length bytes.now) × (length bytes.now < 2 ^ 32) }
    requires def { def < length (definitions (B.meaning basis.now.book.now)) }
    ensures { OnOk result ((command : PlainDefinition)
        → slice_get (definitions (B.meaning basis.now.book.now)) def ≡ Some command
        → (fs : List Found) × IsListing (B.meaning basis.now.book.now) basis.now.unknown basis.now.levels (whole command.rules bytes.now) fs
        × Adds found.old found.new (map fault_of fs)) }
{
    let mut counts = Counts::new(alloc);
    let mut outer = Vec::new(alloc);
    let mut rest = Rest {
        bytes: &bytes[HEADER_LENGTH..],
        end: bytes.len(),
        def,
        start: HEADER_LENGTH,
        run: 0,
    };
    loop {
        let level = rest.level();
        let at = rest.end - rest.bytes.len();
        match next_avp(rest.bytes) {
            Ok(Some((avp, following))) => {
                let waiting = outer.len();
                let (run, group) = judge_avp(basis, found, &mut counts, level, waiting, at, &avp)?;
                rest.bytes = following;
                rest.run = run;
                if let Some(def) = group {
                    outer.reserve(1)?;
                    outer.push_reserved(rest);
                    rest = inside(&avp, at, def);
                }
            }
            Ok(None) => {
                push_missing_at_end(basis.book, found, &counts, level, rest.end)?;
                match outer.pop() {
                    Some(level) => rest = level,
                    None => return Ok(()),
                }
            }
            Err(AvpFault::Length) => {
                found.push(at, BROKEN)?;
                match outer.pop() {
                    Some(level) => rest = level,
                    None => return Ok(()),
                }
            }
        }
    }
}

/// The data of the group that begins at a place, as a level of this definition.
fn inside<'a>(avp: &Avp<'a>, at: usize, def: DefId) -> Rest<'a>
    requires { at + avp_length (plain_avp avp.now) < 2 ^ 32 }
    ensures bytes { result.bytes.now ≡ avp.now.bytes.now }
    ensures def { result.def ≡ def }
    ensures start { result.start ≡ at + head_length avp.now.vendor }
    ensures end { result.end ≡ at + avp_length (plain_avp avp.now) }
    ensures run { result.run ≡ 0 }
{
    let end = at + avp.length();
    Rest {
        bytes: avp.bytes,
        def,
        start: end - avp.bytes.len(),
        end,
        run: 0,
    }
}

/// No AVP begins here, by its Length.
const BROKEN: Wrong = Wrong {
    reason: Reason::AvpLength,
    subject: Subject::Nothing,
};
