//! A dictionary as text.

ghost use Rattle.std.specs.Prelude.{◌≡◌, ◌↔◌, List, ℕ, IfOk, IfErr, Some, string_bytes};
ghost use Rattle.dia_ccf.specs.Limits.{max_text};
ghost use Rattle.dia_ccf.specs.Plain.{plain_source};
ghost use Rattle.dia_ccf.specs.Refusals.{IsRefused};
ghost use Rattle.dia_dict.specs.Resolution.{wrong, first_wrong};
ghost use Rattle.dia_io.specs.declared.Input.{Input as AnyInput};
ghost use Rattle.dia_io.specs.Inputs.{Holds};
ghost use Rattle.dia_dict.specs.Dictionary.{IsDictionary};
ghost use Rattle.dia_run.specs.Texts.{IsPlacedIn, IsSourceText, IsNoSourceText};
ghost use Rattle.dia_run.specs.Texts.{IsDictionaryText, IsNoDictionaryText};
ghost use Rattle.dia_report.specs.Refusals.{dictionary_line, RecordsOf, bad_dictionary_text};
ghost use Rattle.dia_run.specs.Texts.{refused_text};
ghost use Rattle.dia_run.specs.Report.{HasFinding};

use dia_ccf::{MAX_TEXT, Refused as Unread, Source, read};
use dia_dict::{Book, DictFault, DictKind, IndexedBook, PlainBook, book_of};
use dia_io::Input;
use dia_report::{BadDictionary, BadInput, ReadBook, Refused, WrongSource};
use std::alloc::{AllocError, AllocFailed, Global};

/// The source that an input's text spells. `number` says which dictionary of the command it is, from 1.
pub fn read_source(alloc: Global, number: u8, input: &Input) -> Result<Source, Refused>
    ensures source { IfOk result (λ source. IsSourceText input.now (plain_source source)) }
    ensures placed { IfOk result (λ source. IsPlacedIn input.now source) }
    ensures recorded { IfErr result (RecordsOf (λ recorded. (why : List ℕ) × IsNoSourceText input.now why
        × (recorded ≡ dictionary_line number why))) }
    ensures kept { IfErr result (HasFinding input.now) }
{
    let Some(bytes) = input.within(MAX_TEXT) else {
        return Err(deliver(number, BadDictionary::TooLong));
    };
    let text = match str::from_utf8(bytes) {
        Ok(text) => text,
        Err(error) => {
            let at = error.valid_up_to();
            return Err(deliver(number, BadDictionary::NotText { at }));
        }
    };
    match read(alloc, text) {
        Ok(source) => Ok(source),
        Err(refused) => Err(report_text(number, refused)),
    }
}

/// What an input's text says, and the dictionary that it names. It is boxed: the prover takes minutes for a function that holds
/// two by value.
pub fn read_dictionary(alloc: Global, number: u8, input: &Input) -> Result<Box<ReadBook>, Refused>
    ensures source { IfOk result (λ read. IsSourceText input.now (plain_source read.value.source)) }
    ensures placed { IfOk result (λ read. IsPlacedIn input.now read.value.source) }
    ensures book { IfOk result
        (λ read. IsDictionaryText input.now (⟦<IndexedBook as Book>⟧.meaning read.value.book)) }
    ensures recorded { IfErr result (RecordsOf (λ recorded. (why : List ℕ) × IsNoDictionaryText input.now why
        × (recorded ≡ dictionary_line number why))) }
    ensures kept { IfErr result (HasFinding input.now) }
{
    let source = read_source(alloc, number, input)?;
    match book_of(alloc, &source) {
        Ok(book) => indexed(alloc, source, book),
        Err(DictFault::NoMemory) => Err(Refused::NoMemory),
        Err(DictFault::Stands { kind, name, slot }) => {
            let found = boxed(alloc, source, kind, name, slot)?;
            Err(deliver(number, BadDictionary::Wrong(found)))
        }
    }
}

/// The source and its book, which gets an index.
fn indexed(alloc: Global, source: Source, book: PlainBook) -> Result<Box<ReadBook>, Refused>
    ensures source { IfOk result (λ read. read.value.source ≡ source) }
    ensures meaning { IfOk result (λ read. ⟦<IndexedBook as Book>⟧.meaning read.value.book
        ≡ ⟦<PlainBook as Book>⟧.meaning book) }
    ensures sound { IfOk result
        (λ read. IsDictionary (⟦<IndexedBook as Book>⟧.meaning read.value.book)) }
    ensures no_memory { IfErr result (λ refused. refused ≡ Refused.NoMemory) }
{
    let book = IndexedBook::from_plain(alloc, book)?;
    has_dictionary(&book);
    match Box::new(alloc, ReadBook { source, book }) {
        Ok(read) => Ok(read),
        Err(AllocFailed { .. }) => Err(Refused::NoMemory),
    }
}

/// The law of each book, that its dictionary is one, of a book of a known type.
fn has_dictionary<B: Book>(book: &B)
    ensures { IsDictionary (B.meaning book.now) }
{}

fn deliver(number: u8, why: BadDictionary) -> Refused
    ensures recorded { RecordsOf (λ recorded. recorded ≡ dictionary_line number (bad_dictionary_text why)) result }
    ensures bad { result ≡ Refused.Bad (BadInput.Dictionary number why) }
{
    Refused::Bad(BadInput::Dictionary { number, why })
}

/// The refusal of a text that the grammar refuses for this, or out of memory.
fn report_text(number: u8, why: Unread) -> Refused
    ensures recorded { RecordsOf (λ recorded. recorded ≡ dictionary_line number (refused_text why)) result }
    ensures memory { result ≡ Refused.NoMemory ↔ why ≡ Unread.NoMemory }
    ensures kept { (input : AnyInput) (text : List ℕ) → Holds input max_text text → IsRefused text why
        → HasFinding input result }
{
    match why {
        Unread::TooLong => deliver(number, BadDictionary::TooLong),
        Unread::At(misfit) => deliver(number, BadDictionary::NoSource(misfit)),
        Unread::NoMemory => Refused::NoMemory,
    }
}

/// The source that names no dictionary, in a box, with the first of its faults.
fn boxed(
    alloc: Global,
    source: Source,
    kind: DictKind,
    name: String,
    slot: String,
) -> Result<WrongSource, AllocError>
    requires { first_wrong (plain_source source) ≡ Some (wrong kind (string_bytes name) (string_bytes slot)) }
    ensures { IfOk result (λ found. found.source.value ≡ source) }
{
    let source = Box::new(alloc, source)?;
    Ok(WrongSource {
        source,
        kind,
        name,
        slot,
    })
}
