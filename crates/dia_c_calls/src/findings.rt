//! All faults of a dictionary's text.

ghost use Rattle.std.specs.Prelude.{◌≡◌, ◌∷◌, [], IfOk, map};
ghost use Rattle.std.specs.Str.{IsUtf8};
ghost use Rattle.dia_ccf.specs.Plain.{plain_source};
ghost use Rattle.dia_dict.specs.Resolution.{all_findings};
ghost use Rattle.dia_dict.specs.SourceChecks.{plain_finding};
ghost use Rattle.dia_c_calls.specs.AllFaults.{AreFaultsOf, fault_of};
ghost use Rattle.dia_c_calls.specs.PlainFaults.{nameless, plain_fault};

use crate::opening::{kind_number, misfit_numbers};
use dia_ccf::{Refused, Source, read};
use dia_dict::{Finding, faults};
use dia_explain_places::part_place;
use std::alloc::{AllocError, Global};

/// A fault of a dictionary's text.
#[derive(Drop)]
pub struct TextFault {
    /// The number of its kind.
    pub kind: u32,
    /// Of `Syntax`: the token, from 1.
    pub token: u32,
    /// The place in bytes, or none where it is the text's as a whole.
    pub at: Option<usize>,
    /// The name of a definition or an AVP, or empty.
    pub name: String,
    /// The name of the AVP of a rule, or empty.
    pub slot: String,
}

/// All faults of a text, in the order of their reports.
pub fn faults_of(alloc: Global, text: &[u8]) -> Result<Vec<TextFault>, AllocError>
    ensures { IfOk result (λ faults. AreFaultsOf text.now (map plain_fault faults.items)) }
{
    match str::from_utf8(text) {
        Ok(words) => faults_of_words(alloc, words),
        Err(error) => alone(alloc, 0, 0, Some(error.valid_up_to())),
    }
}

fn faults_of_words(alloc: Global, text: &str) -> Result<Vec<TextFault>, AllocError>
    ensures { IsUtf8 text.now → IfOk result (λ faults. AreFaultsOf text.now (map plain_fault faults.items)) }
{
    match read(alloc, text) {
        Ok(source) => faults_of_source(alloc, text, &source),
        Err(Refused::TooLong) => alone(alloc, 3, 0, None),
        Err(Refused::At(misfit)) => {
            let (kind, token) = misfit_numbers(misfit.fault);
            alone(alloc, kind, token, Some(misfit.at))
        }
        Err(Refused::NoMemory) => Err(AllocError),
    }
}

/// One fault without names.
fn alone(
    alloc: Global,
    kind: u32,
    token: u32,
    at: Option<usize>,
) -> Result<Vec<TextFault>, AllocError>
    ensures { IfOk result (λ faults. map plain_fault faults.items ≡ nameless kind token at ∷ []) }
{
    let mut faults = Vec::new(alloc);
    faults.push(TextFault {
        kind,
        token,
        at,
        name: String::new(alloc),
        slot: String::new(alloc),
    })?;
    Ok(faults)
}

/// The faults of a source that was read of the text.
fn faults_of_source(
    alloc: Global,
    text: &str,
    source: &Source,
) -> Result<Vec<TextFault>, AllocError>
    ensures { IfOk result (λ recorded. map plain_fault recorded.items
        ≡ map (fault_of text.now source.now) (all_findings (plain_source source.now))) }
{
    let findings = faults(alloc, source)?;
    recorded_of(alloc, text, source, &findings)
}

fn recorded_of(
    alloc: Global,
    text: &str,
    source: &Source,
    findings: &[Finding<'_>],
) -> Result<Vec<TextFault>, AllocError>
    ensures { IfOk result (λ recorded. map plain_fault recorded.items
        ≡ map (fault_of text.now source.now) (map plain_finding findings.now)) }
{
    let mut recorded = Vec::new(alloc);
    for finding in findings {
        recorded.push(fault_of(alloc, text, source, finding)?)?;
    }
    Ok(recorded)
}

fn fault_of(
    alloc: Global,
    text: &str,
    source: &Source,
    finding: &Finding<'_>,
) -> Result<TextFault, AllocError>
    ensures { IfOk result (λ recorded. plain_fault recorded
        ≡ fault_of text.now source.now (plain_finding finding.now)) }
{
    let name = String::from_str(alloc, finding.recorded.name)?;
    let slot = String::from_str(alloc, finding.recorded.slot)?;
    Ok(TextFault {
        kind: kind_number(finding.recorded.kind),
        token: 0,
        at: part_place(text, source, finding.part),
        name,
        slot,
    })
}
