//! A dictionary out of a source.
ghost use Rattle.std.specs.Prelude.{◌≡◌, None, IfOk, IfErr, map, slice_get};
ghost use Rattle.dia_ccf.specs.Plain.{plain_source};
ghost use Rattle.dia_dict.specs.Resolution.{resolved, all_findings, all_wrong, first_wrong};
ghost use Rattle.dia_dict.specs.Resolution.{IsRecordedOf};
ghost use Rattle.std.specs.Option.{option_map};
ghost use Rattle.dia_dict.specs.SourceChecks.{IsRefused, recorded, plain_finding};

mod building;
mod checks;
mod finding;
mod names;
mod noting;
mod parts;
mod refusal;
mod rules;
mod soundness;

use crate::fault::DictFault;
use crate::findings::{Finding, Recorded};
use crate::plain_book::PlainBook;
pub use checks::{MAX_PARTS, MAX_RULES};
use dia_book::Book;
use dia_ccf::Source;
use names::Names;
pub use names::{key_of_declaration, key_of_group};
use refusal::Refusal;
pub use rules::{greatest_count, least_count};
pub use soundness::named_is_sound;
use std::alloc::{AllocError, Global};

/// The dictionary that a source names.
///
/// Entries are in the order of the declarations, then of the groups without one; such a group has the M rule `Any`.
/// `Stands` has the first fault: the first in the order of `DictKind`, and among faults of one kind the first in the
/// order declarations, groups, commands, each in the order of the text. Of two items that are alike the later one has the
/// fault. `NoMemory` comes only where memory was refused. The source is consumed.
pub fn resolve(alloc: Global, source: Source) -> Result<PlainBook, DictFault>
    ensures ok { IfOk result (λ book. (first_wrong (plain_source source) ≡ None)
        × (⟦<PlainBook as Book>⟧.meaning book ≡ resolved (plain_source source))) }
    ensures err { IfErr result (IsRecordedOf (plain_source source)) }
{
    book_of(alloc, &source)
}

/// What `resolve` answers, of a source that isn't consumed.
pub fn book_of(alloc: Global, source: &Source) -> Result<PlainBook, DictFault>
    ensures ok { IfOk result (λ book. (first_wrong (plain_source source.now) ≡ None)
        × (⟦<PlainBook as Book>⟧.meaning book ≡ resolved (plain_source source.now))) }
    ensures err { IfErr result (IsRecordedOf (plain_source source.now)) }
{
    match checked(alloc, source) {
        Ok(book) => Ok(book),
        Err(Refusal::Occurs(recorded)) => Err(recorded.fault(alloc)?),
        Err(Refusal::NoMemory) => Err(DictFault::NoMemory),
    }
}

/// All that is wrong with a source: by kind in the order of `DictKind`, and those of one kind in the order declarations,
/// groups, commands, each in the order of the text. A part with the name of an earlier one is reported for its name, and not
/// compared with other declarations, groups and commands.
pub fn faults(alloc: Global, source: &Source) -> Result<Vec<Finding<'_>>, AllocError>
    ensures { IfOk result (λ findings. map plain_finding findings.items
        ≡ all_findings (plain_source source.now)) }
{
    let names = Names::new(alloc, source)?;
    finding::found(alloc, &names)
}

/// The dictionary, where nothing is wrong.
fn checked(alloc: Global, source: &Source) -> Result<PlainBook, Refusal<'_>>
    ensures ok { IfOk result (λ book. (first_wrong (plain_source source.now) ≡ None)
        × (⟦<PlainBook as Book>⟧.meaning book ≡ resolved (plain_source source.now))) }
    ensures err { IfErr result (IsRefused (all_wrong (plain_source source.now))) }
{
    let names = Names::new(alloc, source)?;
    named(alloc, &names)
}

/// The dictionary of a source with these names, where nothing is wrong.
fn named<'a>(alloc: Global, names: &Names<'a>) -> Result<PlainBook, Refusal<'a>>
    ensures ok { IfOk result (λ book. (first_wrong (plain_source names.now.source.now) ≡ None)
        × (⟦<PlainBook as Book>⟧.meaning book ≡ resolved (plain_source names.now.source.now))) }
    ensures err { IfErr result (IsRefused (all_wrong (plain_source names.now.source.now))) }
{
    match first_found(alloc, names)? {
        Some(recorded) => Err(Refusal::Occurs(recorded)),
        None => Ok(building::book(alloc, names)?),
    }
}

/// The first of what is wrong.
fn first_found<'a>(alloc: Global, names: &Names<'a>) -> Result<Option<Recorded<'a>>, AllocError>
    ensures { IfOk result (λ first. option_map recorded first ≡ first_wrong (plain_source names.now.source.now)) }
{
    let findings = finding::found(alloc, names)?;
    Ok(first_recorded(&findings))
}

fn first_recorded<'a>(findings: &[Finding<'a>]) -> Option<Recorded<'a>>
    ensures { option_map recorded result ≡ slice_get (map (λ f. f.wrong) (map plain_finding findings.now)) 0 }
{
    match findings.first() {
        Some(first) => Some(first.recorded),
        None => None,
    }
}
