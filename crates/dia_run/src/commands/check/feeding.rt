//! A message that is checked a piece at a time, as its text is decoded.

ghost use Rattle.std.specs.Prelude.{◌≡◌, ◌≢◌, ◌<◌, ◌↔◌, ◌++◌, List, ℕ, []};
ghost use Rattle.std.specs.Prelude.{length, Ok, Err, IfOk, IfErr, IsTrue, OnOk};
ghost use Rattle.hex.specs.Hex.{decode_of};
ghost use Rattle.dia_dict.specs.Dictionary.{Dictionary, IsDictionary};
ghost use Rattle.dia_check.specs.declared.Unknown.{Unknown as AnyPolicy};
ghost use Rattle.dia_check.specs.declared.Levels.{Levels as AnyLevels};
ghost use Rattle.dia_check.specs.Faults.{IsAnswer};
ghost use Rattle.dia_check.specs.Streaming.{taken_of};
ghost use Rattle.dia_check.specs.Streams.{Denotes, IsSpent};
ghost use Rattle.dia_run.specs.Texts.{IsMessageText, IsNoMessageText, SpellsFirst, digits_of};
ghost use Rattle.dia_report.specs.Refusals.{RecordsOf};
ghost use Rattle.dia_run.specs.FedTexts.{WasFed, IsEndless, IsNoHexadecimal};

use crate::inputs::message::message_text;
use crate::inputs::pieces::{MAX_PIECE, next_piece};
use dia_check::{Fault, Levels, Reason, Refusal, Selected, Stream, StreamFault, Unknown};
use dia_dict::Book;
use dia_io::Input;
use dia_report::Refused;
use std::alloc::Global;

/// A message that was checked as its text was decoded: its bytes, and what the check answers.
#[derive(Drop)]
pub(crate) struct CheckedMessage {
    pub bytes: Vec<u8>,
    pub answer: Result<Selected, Refusal>,
}

/// How far a text was fed to a stream.
#[derive(Clone, Copy)]
struct Fed<'a> {
    /// The text that is left.
    rest: &'a [u8],
    /// Whether bytes follow the message.
    trailing: bool,
}

/// Checks the message that an input spells.
pub(crate) fn check_message<B: Book>(
    alloc: Global,
    book: &B,
    unknown: Unknown,
    levels: Levels,
    input: &Input,
) -> Result<CheckedMessage, Refused>
    ensures message { IfOk result (λ checked. IsMessageText input.now checked.bytes.items) }
    ensures answer { IfOk result
        (λ checked. IsAnswer (B.meaning book.now) unknown levels checked.bytes.items checked.answer) }
    ensures recorded { IfErr result (RecordsOf (IsNoMessageText input.now)) }
{
    let text = message_text(input)?;
    let mut bytes = Vec::with_capacity(alloc, text.len() / 2)?;
    let mut stream = Stream::new(alloc, book, unknown, levels);
    let trailing = feed_text(&mut stream, text, &mut bytes)?;
    let answer = answer_of_all(stream.finish(), trailing);
    Ok(CheckedMessage { bytes, answer })
}

/// Feeds the message that a text spells to a stream, and adds its bytes. Answers whether bytes follow it.
///
/// Text that follows the message, or a fault, is read to its end, too.
fn feed_text<'a, B: Book>(
    stream: &mut Stream<'a, B>,
    text: &[u8],
    bytes: &mut Vec<u8>,
) -> Result<bool, Refused>
    requires live { ¬ IsSpent stream.old }
    requires empty { bytes.old.items ≡ [] }
    ensures spelled { OnOk result (decode_of (digits_of text.now) ≡ Ok bytes.new.items) }
    ensures fed { IfOk result (λ trailing. (d : Dictionary) (u : AnyPolicy) (most : AnyLevels)
        → Denotes B.meaning stream.old d u most []
        → WasFed B.meaning stream.new d u most bytes.new.items trailing) }
    ensures goes_on { OnOk result (¬ IsSpent stream.new) }
    ensures recorded { IfErr result (RecordsOf (IsNoHexadecimal text.now)) }
{
    let mut fed = Fed {
        rest: text,
        trailing: false,
    };
    while !fed.rest.is_empty() {
        fed = feed_piece(stream, fed, bytes)?;
    }
    Ok(fed.trailing)
}

/// Feeds the next piece of a text to a stream, and adds its bytes.
fn feed_piece<'a, 'b, B: Book>(
    stream: &mut Stream<'a, B>,
    fed: Fed<'b>,
    bytes: &mut Vec<u8>,
) -> Result<Fed<'b>, Refused>
    requires { ¬ IsSpent stream.old }
    ensures fed { IfOk result (λ next. (piece : List ℕ)
        × SpellsFirst fed.entry.rest.now piece next.rest.now
        × (bytes.new.items ≡ bytes.old.items ++ piece)
        × ((d : Dictionary) (u : AnyPolicy) (most : AnyLevels) (before : List ℕ)
        → WasFed B.meaning stream.old d u most before fed.entry.trailing
        → WasFed B.meaning stream.new d u most (before ++ piece) next.trailing)) }
    ensures shorter { 0 < length fed.entry.rest.now
        → IfOk result (λ next. length next.rest.now < length fed.entry.rest.now) }
    ensures goes_on { OnOk result (¬ IsSpent stream.new) }
    ensures recorded { IfErr result (RecordsOf (IsNoHexadecimal fed.entry.rest.now)) }
{
    let mut space = [0u8; MAX_PIECE];
    let piece = next_piece(fed.rest, &mut space)?;
    bytes.extend_from_slice(&space[..piece.length])?;
    let progress = match stream.feed(&space[..piece.length]) {
        Ok(progress) => progress,
        Err(StreamFault::NoMemory) => return Err(Refused::NoMemory),
        Err(StreamFault::Spent) => unreachable!(),
    };
    Ok(Fed {
        rest: piece.rest,
        trailing: fed.trailing || progress.taken < piece.length,
    })
}

/// The answer for all bytes of a text, from that for the bytes that a stream took.
fn answer_of_all(answer: Result<Selected, Refusal>, trailing: bool) -> Result<Selected, Refusal>
    requires { answer ≢ Err Refusal.NoMemory }
    ensures { (d : Dictionary) (u : AnyPolicy) (most : AnyLevels) (bytes : List ℕ)
        → IsDictionary d
        → (IsTrue trailing ↔ (length (taken_of bytes) < length bytes))
        → IsAnswer d u most (taken_of bytes) answer → IsAnswer d u most bytes result }
{
    if trailing && !is_endless(&answer) {
        Err(Refusal::Trailing)
    } else {
        answer
    }
}

/// Whether it isn't known where the message ends: its version or its Message Length is at fault.
fn is_endless(answer: &Result<Selected, Refusal>) -> bool
    ensures { IsTrue result ↔ IsEndless answer.now }
{
    matches!(
        answer,
        Err(Refusal::Fault(Fault {
            reason: Reason::Version | Reason::Length,
            ..
        }))
    )
}
