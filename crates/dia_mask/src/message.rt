//! The masked bytes of a message.

ghost use Rattle.std.specs.Prelude.{◌≡◌, ◌++◌, ◌⊎◌, ℕ, List, IfOk, OnErr, OnOk, is_some, length};
ghost use Rattle.dia_wire.specs.Wire.{BeginsWith, BeginsWithNone, plain_avp};
ghost use Rattle.dia_valid.specs.Valid.{group_at};
ghost use Rattle.dia_mask.specs.Masked.{Adds, IsAround, IsLeafMasked, IsMasked, IsMessageMasked, IsNoAvpMasked};
ghost use Rattle.dia_mask.specs.Masked.{format_at, is_masked, zeros};
ghost use Rattle.dia_mask.specs.Replaced.{IsNewData, Numbering};
ghost use Rattle.dia_mask.specs.Texts.{Agrees};
ghost use Rattle.dia_mask.specs.Words.{AreAllNumbers, Grows};
ghost use Rattle.dia_mask.specs.Verdict.{IsJudgedAlike};
ghost use Rattle.std.specs.Option.{option_map};
ghost use Rattle.dia_data.specs.Plain.{plain_format};

use crate::choice::Choice;
use crate::counts::Counts;
use crate::texts::{Masking, push_many};
use dia_book::{Book, Format};
use dia_wire::{
    AVP_HEAD_LENGTH, Avp, AvpFault, HEADER_LENGTH, HeadFault, key, next_avp, read_header,
};
use std::alloc::{AllocError, Global};

/// What is known after the messages that were masked.
#[derive(Drop)]
pub struct Run {
    masking: Masking,
    pub counts: Counts,
}

impl Run {
    /// No message was masked. With `collects` the counts have how many different values each AVP had, which takes memory for each.
    pub fn new<B: Book>(alloc: Global, book: &B, collects: bool) -> Result<Run, AllocError>
        ensures { IfOk result (λ run. AreAllNumbers run.masking.words) }
    {
        Ok(Run {
            masking: Masking::new(alloc),
            counts: Counts::new(alloc, book, collects)?,
        })
    }
}

/// What follows a group that is open: its padding, and the rest of the level around it.
#[derive(Clone, Copy)]
struct Waiting<'a> {
    padding: &'a [u8],
    rest: &'a [u8],
}

/// The parts of an AVP at the front of a level beside its data.
#[derive(Clone, Copy)]
struct Edges<'a> {
    head: &'a [u8],
    padding: &'a [u8],
}

/// Adds a message with the data of masked AVPs replaced, at each depth of the groups that the dictionary knows.
///
/// The padding of a masked AVP becomes zero. So does what is no part of an AVP or of the message: where no AVP begins, what follows
/// the 8 bytes of that head in its level, or all of it where there are fewer; what follows the Message Length; and what follows a
/// header with another version than 1, or a Message Length that no message has. Fewer than 20 bytes stay.
///
/// The error comes only where memory was refused; a part of the message may have been added then.
pub fn mask_message<B: Book>(
    alloc: Global,
    book: &B,
    choice: &Choice,
    run: &mut Run,
    bytes: &[u8],
    out: &mut Vec<u8>,
) -> Result<(), AllocError>
    // No word loses its number, and two words of one pattern have different ones.
    ensures grows { OnOk result (Grows run.old.masking.words run.new.masking.words) }
    // The data of exactly the masked AVPs are replaced, by the numbers of their words.
    ensures masked { OnOk result ((numbers : Numbering) → Agrees run.new.masking.words numbers
        → Adds (IsMessageMasked choice.now numbers (B.meaning book.now) bytes.now) out.old.items out.new.items) }
    // A check answers the same of both.
    ensures verdict { OnOk result
        (Adds (IsJudgedAlike (B.meaning book.now) bytes.now) out.old.items out.new.items) }
{
    mask_bytes(alloc, book, choice, run, bytes, out)
}

fn mask_bytes<B: Book>(
    alloc: Global,
    book: &B,
    choice: &Choice,
    run: &mut Run,
    bytes: &[u8],
    out: &mut Vec<u8>,
) -> Result<(), AllocError>
    ensures grows { OnOk result (Grows run.old.masking.words run.new.masking.words) }
    ensures masked { OnOk result ((numbers : Numbering) → Agrees run.new.masking.words numbers
        → Adds (IsMessageMasked choice.now numbers (B.meaning book.now) bytes.now) out.old.items out.new.items) }
{
    match read_header(bytes) {
        Ok((_, length)) => {
            let end = bytes.len().min(length as usize);
            out.extend_from_slice(&bytes[..HEADER_LENGTH])?;
            mask_level(alloc, book, choice, run, &bytes[HEADER_LENGTH..end], out)?;
            push_zeros(run, out, bytes.len() - end)
        }
        Err(HeadFault::Short) => {
            out.extend_from_slice(bytes)?;
            Ok(())
        }
        Err(HeadFault::Version | HeadFault::Length) => {
            out.extend_from_slice(&bytes[..HEADER_LENGTH])?;
            push_zeros(run, out, bytes.len() - HEADER_LENGTH)
        }
    }
}

/// Adds a level with the data of masked AVPs replaced, and the groups in it.
///
/// The levels around the current one wait in a list, so depth takes memory and no stack.
fn mask_level<B: Book>(
    alloc: Global,
    book: &B,
    choice: &Choice,
    run: &mut Run,
    level: &[u8],
    out: &mut Vec<u8>,
) -> Result<(), AllocError>
    ensures grows { OnOk result (Grows run.old.masking.words run.new.masking.words) }
    ensures masked { OnOk result ((numbers : Numbering) → Agrees run.new.masking.words numbers
        → Adds (IsMasked choice.now numbers (B.meaning book.now) level.now) out.old.items out.new.items) }
{
    let mut outer = Vec::new(alloc);
    let mut rest = level;
    loop {
        match first_avp(rest) {
            Ok((avp, following)) => {
                let Edges { head, padding } = edges_of(rest, &avp, following);
                out.extend_from_slice(head)?;
                if is_group(book, &avp) {
                    outer.push(Waiting {
                        padding,
                        rest: following,
                    })?;
                    rest = avp.bytes;
                } else {
                    mask_leaf(alloc, book, choice, run, &avp, padding, out)?;
                    rest = following;
                }
            }
            Err(_) => {
                push_no_avp(run, rest, out)?;
                match outer.pop() {
                    Some(waiting) => {
                        out.extend_from_slice(waiting.padding)?;
                        rest = waiting.rest;
                    }
                    None => return Ok(()),
                }
            }
        }
    }
}

/// The AVP at the front of a level, and what follows it. An empty level begins with none, either.
fn first_avp(level: &[u8]) -> Result<(Avp<'_>, &[u8]), AvpFault>
    ensures avp { IfOk result
        (λ found. BeginsWith (plain_avp found.0) level.now found.1.now) }
    ensures none { OnErr result ((length level.now ≡ 0) ⊎ BeginsWithNone level.now) }
{
    match next_avp(level)? {
        Some(found) => Ok(found),
        None => Err(AvpFault::Length),
    }
}

/// The head and the padding of an AVP at the front of a level, which these bytes follow.
fn edges_of<'a>(level: &'a [u8], avp: &Avp<'_>, following: &[u8]) -> Edges<'a>
    requires { BeginsWith (plain_avp avp.now) level.now following.now }
    ensures { IsAround (plain_avp avp.now) level.entry.now following.now result.head.now result.padding.now }
{
    let end = avp.length();
    Edges {
        head: &level[..end - avp.bytes.len()],
        padding: &level[end..level.len() - following.len()],
    }
}

/// Whether an AVP is a group that the dictionary knows.
fn is_group<B: Book>(book: &B, avp: &Avp<'_>) -> bool
    ensures { result ≡ is_some (group_at (B.meaning book.now) (plain_avp avp.now)) }
{
    match book.avp(key(avp)) {
        Some(entry) => book.group(entry).is_some(),
        None => false,
    }
}

/// Adds the data and the padding of an AVP that is no group.
fn mask_leaf<B: Book>(
    alloc: Global,
    book: &B,
    choice: &Choice,
    run: &mut Run,
    avp: &Avp<'_>,
    padding: &[u8],
    out: &mut Vec<u8>,
) -> Result<(), AllocError>
    ensures grows { OnOk result (Grows run.old.masking.words run.new.masking.words) }
    ensures masked { OnOk result ((numbers : Numbering) → Agrees run.new.masking.words numbers
        → Adds (IsLeafMasked numbers (is_masked choice.now (B.meaning book.now) (plain_avp avp.now))
        (format_at (B.meaning book.now) (plain_avp avp.now)) avp.now.bytes.now padding.now)
        out.old.items out.new.items) }
{
    let entry = book.avp(key(avp));
    run.counts.add(alloc, &entry, avp.bytes)?;
    if choice.masks_avp(&entry) {
        push_replaced(alloc, book, run, avp, padding.len(), out)
    } else {
        push_both(avp.bytes, padding, out)
    }
}

/// Adds what replaces the data of an AVP, and zeros for so much padding.
fn push_replaced<B: Book>(
    alloc: Global,
    book: &B,
    run: &mut Run,
    avp: &Avp<'_>,
    padding: usize,
    out: &mut Vec<u8>,
) -> Result<(), AllocError>
    ensures grows { OnOk result (Grows run.old.masking.words run.new.masking.words) }
    ensures put { OnOk result ((numbers : Numbering) → Agrees run.new.masking.words numbers → (other : List ℕ)
        × IsNewData numbers (format_at (B.meaning book.now) (plain_avp avp.now)) avp.now.bytes.now other
        × (out.new.items ≡ (out.old.items ++ other) ++ zeros padding)) }
{
    run.masking.replace(alloc, format_of(book, avp), avp.bytes)?;
    out.extend_from_slice(&run.masking.data)?;
    push_many(out, 0, padding)
}

fn push_both(first: &[u8], second: &[u8], out: &mut Vec<u8>) -> Result<(), AllocError>
    ensures { OnOk result (out.new.items ≡ (out.old.items ++ first.now) ++ second.now) }
{
    out.extend_from_slice(first)?;
    out.extend_from_slice(second)?;
    Ok(())
}

/// The format of an AVP, if the dictionary knows it.
fn format_of<'b, B: Book>(book: &'b B, avp: &Avp<'_>) -> Option<&'b Format>
    ensures { option_map (λ f. plain_format f.now) result
        ≡ format_at (B.meaning book.now) (plain_avp avp.now) }
{
    match book.avp(key(avp)) {
        Some(entry) => Some(book.format(entry)),
        None => None,
    }
}

/// Adds what is left of a level where no AVP begins: 8 bytes of a head, and then zeros. Fewer bytes are no head.
fn push_no_avp(run: &mut Run, rest: &[u8], out: &mut Vec<u8>) -> Result<(), AllocError>
    ensures added { OnOk result (Adds (IsNoAvpMasked rest.now) out.old.items out.new.items) }
    ensures masking { run.new.masking ≡ run.old.masking }
{
    if rest.len() < AVP_HEAD_LENGTH {
        return push_zeros(run, out, rest.len());
    }
    out.extend_from_slice(&rest[..AVP_HEAD_LENGTH])?;
    push_zeros(run, out, rest.len() - AVP_HEAD_LENGTH)
}

/// Adds zeros in place of so many bytes, and counts them.
fn push_zeros(run: &mut Run, out: &mut Vec<u8>, count: usize) -> Result<(), AllocError>
    ensures added { OnOk result (out.new.items ≡ out.old.items ++ zeros count) }
    ensures masking { run.new.masking ≡ run.old.masking }
{
    run.counts.zero(count);
    push_many(out, 0, count)
}
