ghost use Rattle.std.specs.Prelude.{◌≡◌, ◌≢◌, ◌↔◌, ◌<◌, ◌^◌, Err, IsTrue, ℕ, List, length, MatchResult, Result};
ghost use Rattle.dia_book.specs.Dictionary.{Dictionary, IsDictionary};
ghost use Rattle.dia_terms.specs.declared.Unknown.{Unknown as AnyPolicy};
ghost use Rattle.dia_terms.specs.declared.Levels.{Levels as AnyLevels};
ghost use Rattle.dia_check.specs.declared.fault.Reason.{Reason as AnyReason};
ghost use Rattle.dia_check.specs.declared.fault.Subject.{Subject as AnySubject};
ghost use Rattle.dia_check.specs.declared.fault.Selected.{Selected as AnySelected};
ghost use Rattle.dia_check.specs.declared.fault.Refusal.{Refusal as AnyRefusal};
ghost use Rattle.dia_valid.specs.Valid.{IsValid, IsValidOf};
ghost use Rattle.dia_check.specs.Faults.{IsAnswer, HasGoodHeader, HasLength, Occurs, Spot};
ghost use Rattle.dia_check.specs.Streaming.{IsRefused, TakesAll};

use crate::admission::open_body;
use crate::basis::Basis;
use crate::body::read_avps;
use crate::fault::{Refusal, Selected};
use crate::header::{good_command, whole_header};
use crate::open_levels::OpenLevels;
use crate::room::Room;
use crate::stream::{Progress, Stream, StreamFault};
use dia_book::{Book, DefId};
use dia_terms::{Levels, Unknown};
use dia_wire::HEADER_LENGTH;
use std::alloc::Global;

/// Checks the bytes of a message against a dictionary (RFC 6733 sections 3, 3.2, 4.1 and 4.4): the command of a valid
/// one, and else what is wrong with it.
///
/// `Truncated` are fewer bytes than a header's 20 or than Message Length says, and `Trailing` are more. Everything else that
/// is wrong is a `Fault`, at its place in bytes from the first: a version that isn't 1, then a Message Length that no message
/// has, and then the first fault of all by its place. Ends of levels come before AVPs at one place, and deeper ends before
/// outer ones; faults of one AVP come in the order of `Reason`. The places, the order and the result codes are our profile.
///
/// `NoMemory` comes where a level could not be opened for lack of memory, so only of a whole message with a good header.
/// `Spent` never comes.
pub fn check<B: Book>(
    alloc: Global,
    book: &B,
    unknown: Unknown,
    levels: Levels,
    bytes: &[u8],
) -> Result<Selected, Refusal>
    ensures answer { IsAnswer (B.meaning book.now) unknown levels bytes.now result }
    // A valid message is found to be one, unless memory runs out.
    ensures valid { (c : ℕ) → IsValidOf (B.meaning book.now) unknown levels bytes.now c
        → MatchResult result (λ found. found.def ≡ c) (λ e. e ≡ Refusal.NoMemory) }
    // Memory is taken only for a whole message with a good header.
    ensures no_memory { result ≡ Err Refusal.NoMemory → HasLength bytes.now (length bytes.now)
        × HasGoodHeader (B.meaning book.now) bytes.now }
{
    let mut stream = Stream::new(alloc, book, unknown, levels);
    let fed = stream.feed(bytes);
    if takes_all(fed, bytes) {
        return stream.finish();
    }
    apart(fed, bytes)
}

/// Whether a stream took all of the bytes that it was fed.
fn takes_all(fed: Result<Progress, StreamFault>, bytes: &[u8]) -> bool
    ensures { IsTrue result ↔ TakesAll bytes.now fed }
{
    match fed {
        Ok(progress) => progress.taken == bytes.len(),
        Err(_) => false,
    }
}

/// The answer where more bytes follow than a stream takes, or where it was refused memory, which doesn't matter unless the
/// message is whole.
fn apart(fed: Result<Progress, StreamFault>, bytes: &[u8]) -> Result<Selected, Refusal>
    requires { HasLength bytes.now (length bytes.now) → IsRefused fed }
    ensures answer { (d : Dictionary) (u : AnyPolicy) (most : AnyLevels)
        → IsAnswer d u most bytes.now result }
    ensures no_memory { result ≡ Err Refusal.NoMemory → IsRefused fed × HasLength bytes.now (length bytes.now) }
{
    match whole_header(bytes) {
        Err(refusal) => Err(refusal),
        Ok(_) => refused(fed),
    }
}

/// The answer where a stream was refused memory.
fn refused(fed: Result<Progress, StreamFault>) -> Result<Selected, Refusal>
    requires { IsRefused fed }
    ensures { result ≡ Err Refusal.NoMemory }
{
    match fed {
        Err(fault) => match fault {
            StreamFault::NoMemory => Err(Refusal::NoMemory),
            StreamFault::Spent => unreachable!(),
        },
        Ok(_) => unreachable!(),
    }
}

/// The same, with memory that is used again for the next message. It reads the message in one pass of its own, without what a
/// stream stores between pieces, so that many short messages are checked in little time.
#[inline(always)]
pub fn check_in<B: Book>(
    room: &mut Room,
    book: &B,
    unknown: Unknown,
    levels: Levels,
    bytes: &[u8],
) -> Result<Selected, Refusal>
    ensures answer { IsAnswer (B.meaning book.now) unknown levels bytes.now result }
    // A valid message is found to be one, unless memory runs out.
    ensures valid { (c : ℕ) → IsValidOf (B.meaning book.now) unknown levels bytes.now c
        → MatchResult result (λ found. found.def ≡ c) (λ e. e ≡ Refusal.NoMemory) }
    // Memory is taken only for a whole message with a good header.
    ensures no_memory { result ≡ Err Refusal.NoMemory → HasLength bytes.now (length bytes.now)
        × HasGoodHeader (B.meaning book.now) bytes.now }
{
    let header = whole_header(bytes)?;
    let def = good_command(book, &header)?;
    let basis = Basis {
        book,
        unknown,
        levels,
    };
    let answer = check_body(&basis, &mut room.open_levels, def, bytes);
    room.give_back();
    answer
}

/// Checks the body of a whole message with a good header, as a message of this command.
#[inline(always)]
fn check_body<B: Book>(
    basis: &Basis<'_, B>,
    open_levels: &mut OpenLevels,
    def: DefId,
    bytes: &[u8],
) -> Result<Selected, Refusal>
    requires { ∥ ((good : HasGoodHeader (B.meaning basis.now.book.now) bytes.now) × (good.c ≡ def)
        × HasLength bytes.now (length bytes.now) × (length bytes.now < 2 ^ 32)) ∥₁ }
    ensures { (good : HasGoodHeader (B.meaning basis.now.book.now) bytes.now) → good.c ≡ def
        → HasLength bytes.now (length bytes.now) → IsAnswer
        (B.meaning basis.now.book.now) basis.now.unknown basis.now.levels bytes.now result }
{
    open_body(basis.book, open_levels, def, bytes.len())?;
    let body = &bytes[HEADER_LENGTH..];
    match read_avps(basis, open_levels, HEADER_LENGTH, body)? {
        None => Ok(Selected { def }),
        Some(_) => unreachable!(),
    }
}

/// A whole message, with a sound version and Message Length, is valid exactly where no fault occurs.
pub fn validity()
    ensures { (d : Dictionary) (u : AnyPolicy) (most : AnyLevels) (bytes : List ℕ) → IsDictionary d
        → HasLength bytes (length bytes)
        → IsValid d u most bytes
        ↔ ((spot : Spot) (reason : AnyReason) (subject : AnySubject)
        → ¬ Occurs d u most bytes spot reason subject) }
{}

/// Bytes have one answer, unless memory runs out.
pub fn one_answer()
    ensures { (d : Dictionary) (u : AnyPolicy) (most : AnyLevels) (bytes : List ℕ)
        (a b : Result AnySelected AnyRefusal) → IsDictionary d
        → IsAnswer d u most bytes a → IsAnswer d u most bytes b → a ≢ Err Refusal.NoMemory
        → b ≢ Err Refusal.NoMemory → a ≡ b }
{}
