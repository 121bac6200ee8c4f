//! The header of a message (RFC 6733 section 3).

ghost use Rattle.std.specs.Prelude.{◌≡◌, ◌≢◌, ◌<◌, ◌^◌, ◌↔◌, ◌⊎◌, ℕ, List, length};
ghost use Rattle.std.specs.Prelude.{Err, IfErr, IfOk, MatchResult, IsTrue, IsFalse};
ghost use Rattle.dia_book.specs.Dictionary.{Dictionary};
ghost use Rattle.dia_terms.specs.declared.Unknown.{Unknown as AnyPolicy};
ghost use Rattle.dia_terms.specs.declared.Levels.{Levels as AnyLevels};
ghost use Rattle.dia_valid.specs.Valid.{HasR, HasE, HasT, class_of, PHolds, AllowsP};
ghost use Rattle.dia_check.specs.Faults.{HasHeader, HasLength, HasGoodHeader, IsAnswer};

use crate::fault::{Reason, Refusal};
use crate::recording::simple_fault;
use dia_book::{Book, Class, DefHead, DefId, Pxy};
use dia_wire::{Header, MessageFault, split_message};

/// The header of a message that is all of the bytes.
#[inline(always)]
pub(crate) fn whole_header(bytes: &[u8]) -> Result<Header, Refusal>
    ensures whole { IfOk result (λ header. HasHeader bytes.now header
        × HasLength bytes.now (length bytes.now) × (length bytes.now < 2 ^ 32)) }
    ensures answer { IfErr result (λ refusal. (d : Dictionary) (u : AnyPolicy) (most : AnyLevels)
        → IsAnswer d u most bytes.now (Err refusal)) }
    ensures memory { IfErr result (λ refusal. refusal ≢ Refusal.NoMemory) }
{
    match split_message(bytes) {
        Ok((header, _)) => Ok(header),
        Err(MessageFault::Short) => Err(Refusal::Truncated),
        Err(MessageFault::Version) => Err(simple_fault(0, Reason::Version)),
        Err(MessageFault::Length) => Err(simple_fault(1, Reason::Length)),
        Err(MessageFault::Truncated) => Err(Refusal::Truncated),
        Err(MessageFault::Trailing) => Err(Refusal::Trailing),
    }
}

/// The command of a message with this header, where nothing is wrong with the header.
#[inline(always)]
pub(crate) fn good_command<B: Book>(book: &B, header: &Header) -> Result<DefId, Refusal>
    ensures answer { (u : AnyPolicy) (most : AnyLevels) (bytes : List ℕ) → HasLength bytes (length bytes)
        → HasHeader bytes header.now
        → MatchResult result (λ def. (good : HasGoodHeader (B.meaning book.now) bytes)
        × (good.c ≡ def))
        (λ refusal. IsAnswer (B.meaning book.now) u most bytes (Err refusal)) }
    ensures memory { IfErr result (λ refusal. refusal ≢ Refusal.NoMemory) }
{
    if !has_good_bits(header) {
        return Err(simple_fault(4, Reason::Bits));
    }
    let class = class_of(header);
    match book.select(header.code, class, header.app) {
        Some(def) => {
            if allows_p(book.def(def).head, header) {
                Ok(def)
            } else {
                Err(simple_fault(4, Reason::Proxiable))
            }
        }
        None => {
            if book.has_command(header.code, class) {
                Err(simple_fault(8, Reason::Application))
            } else {
                Err(simple_fault(5, Reason::Command))
            }
        }
    }
}

/// Whether E is clear in a request, and T is clear in an answer.
pub fn has_good_bits(header: &Header) -> bool
    ensures good { IsTrue result → (HasR header.now.flags → ¬ HasE header.now.flags)
        × (HasT header.now.flags → HasR header.now.flags) }
    ensures bad { IsFalse result → (HasR header.now.flags × HasE header.now.flags)
        ⊎ (HasT header.now.flags × (¬ HasR header.now.flags)) }
{
    if header.is_request() {
        !header.is_error()
    } else {
        !header.is_retransmitted()
    }
}

/// The class of a message by its flags.
pub fn class_of(header: &Header) -> Class
    ensures { result ≡ class_of header.now.flags }
{
    if header.is_request() {
        Class::Request
    } else if header.is_error() {
        Class::Error
    } else {
        Class::Answer
    }
}

/// Whether the P flag is one that the command may have.
pub fn allows_p(head: DefHead, header: &Header) -> bool
    ensures { IsTrue result ↔ AllowsP head header.now.flags }
{
    match head {
        DefHead::Group(_) => false,
        DefHead::Command { p, .. } => p_holds(p, header),
        DefHead::Error { p } => p_holds(p, header),
    }
}

/// Whether the P flag is as the header of a definition says.
fn p_holds(p: Pxy, header: &Header) -> bool
    ensures { IsTrue result ↔ PHolds p header.now.flags }
{
    match p {
        Pxy::Clear => !header.is_proxiable(),
        Pxy::Set => header.is_proxiable(),
        Pxy::Either => true,
    }
}
