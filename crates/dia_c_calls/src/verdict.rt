//! What is said of a message.

ghost use Rattle.std.specs.Prelude.{◌≡◌, ◌↔◌, None, Err, IfOk, IfErr, IfSome, Result, take};
ghost use Rattle.dia_check.specs.Faults.{HasLength, IsAnswer, simple};
ghost use Rattle.dia_wire.specs.Wire.{IsHead, IsMessageLength};
ghost use Rattle.dia_c_calls.specs.Verdicts.{IsHeadVerdict, IsUnknownPolicy, IsVerdict, IsVerdictOn};
ghost use Rattle.dia_c_calls.specs.Verdicts.{fault_verdict, limit_of, no_message, policy_of, said};

use dia_book::Book;
use dia_check::{
    Fault, Levels, Reason, Refusal, Room, Selected, Subject, Unknown, check, check_in,
};
use dia_wire::{HeadFault, Header, MessageFault, read_header};
use std::alloc::{AllocError, Global};
use thiserror::Error;

/// What is said of a message.
#[repr(C)]
#[derive(Clone, Copy, Debug, PartialEq, Eq, Error)]
#[error("outcome {outcome}, code {code}")]
pub struct Verdict {
    /// 0: valid. 1: a fault. 2: truncated. 3: trailing.
    pub outcome: u32,
    /// Of a valid message: the definition of its command.
    pub command: u32,
    /// Of a fault: the result code (RFC 6733 section 7.1).
    pub code: u32,
    /// Of a fault: its place in bytes from the first.
    pub place: u32,
    /// Of a fault: the number of its reason.
    pub reason: u32,
    /// Of a fault: 0 where it is about no AVP, 1 about the AVP of this code and vendor, 2 about AVPs that no rule lists.
    pub subject: u32,
    pub avp_code: u32,
    pub avp_vendor: u32,
    /// The place of fields that are added: zeros.
    pub reserved: [u32; RESERVED],
}

/// How many words fields that are added may take.
const RESERVED: usize = 4;

const ALL_ZERO: Verdict = Verdict {
    outcome: 0,
    command: 0,
    code: 0,
    place: 0,
    reason: 0,
    subject: 0,
    avp_code: 0,
    avp_vendor: 0,
    reserved: [0; RESERVED],
};

/// There are fewer bytes than the header or than Message Length.
pub const TRUNCATED: Verdict = Verdict {
    outcome: 2,
    ..ALL_ZERO
};

/// There are more bytes than Message Length.
pub const TRAILING: Verdict = Verdict {
    outcome: 3,
    ..ALL_ZERO
};

/// The policy of a number.
pub fn policy_of(unknown: u32) -> Option<Unknown>
    ensures some { IfSome result (λ policy. (policy ≡ policy_of unknown) × IsUnknownPolicy unknown) }
    ensures none { result ≡ None → ¬ IsUnknownPolicy unknown }
{
    match unknown {
        0 => Some(Unknown::Kept),
        1 => Some(Unknown::Refused),
        _ => None,
    }
}

/// The limit of a number.
pub fn limit_of(levels: u32) -> Levels
    ensures { result ≡ limit_of levels }
{
    if levels == u32::MAX {
        return Levels::Any;
    }
    Levels::AtMost(levels)
}

/// The verdict on a message.
pub fn checked<B: Book>(
    room: &mut Room,
    book: &B,
    unknown: Unknown,
    levels: Levels,
    message: &[u8],
) -> Result<Verdict, AllocError>
    ensures { IfOk result (IsVerdictOn (B.meaning book.now) unknown levels message.now) }
{
    match verdict_of(check_in(room, book, unknown, levels, message)) {
        Ok(verdict) => Ok(verdict),
        Err(Unrecorded::NoMemory) => Err(AllocError),
        Err(Unrecorded::Spent) => unreachable!(),
    }
}

/// The verdict on a message, without a handle's memory.
pub fn verdict_on<B: Book>(
    alloc: Global,
    book: &B,
    unknown: Unknown,
    levels: Levels,
    message: &[u8],
) -> Result<Verdict, AllocError>
    ensures { IfOk result (IsVerdictOn (B.meaning book.now) unknown levels message.now) }
{
    match verdict_of(check(alloc, book, unknown, levels, message)) {
        Ok(verdict) => Ok(verdict),
        Err(Unrecorded::NoMemory) => Err(AllocError),
        Err(Unrecorded::Spent) => unreachable!(),
    }
}

/// Why there is no verdict.
#[derive(Clone, Copy, Debug, Error)]
pub enum Unrecorded {
    #[error("out of memory")]
    NoMemory,
    /// The stream was refused memory before.
    #[error("the stream was refused memory before")]
    Spent,
}

/// The verdict of an answer.
pub fn verdict_of(answer: Result<Selected, Refusal>) -> Result<Verdict, Unrecorded>
    ensures recorded { IfOk result (IsVerdict answer) }
    ensures no_memory { result ≡ Err Unrecorded.NoMemory → answer ≡ Err Refusal.NoMemory }
    ensures spent { (result ≡ Err Unrecorded.Spent) ↔ (answer ≡ Err Refusal.Spent) }
{
    match answer {
        Ok(found) => Ok(valid(found.def.index() as u32)),
        Err(Refusal::Fault(fault)) => Ok(faulty(fault)),
        Err(Refusal::Truncated) => Ok(TRUNCATED),
        Err(Refusal::Trailing) => Ok(TRAILING),
        Err(Refusal::NoMemory) => Err(Unrecorded::NoMemory),
        Err(Refusal::Spent) => Err(Unrecorded::Spent),
    }
}

/// The verdict of a valid message of this command.
pub fn valid(command: u32) -> Verdict
    ensures { result ≡ said 0 command }
{
    Verdict {
        command,
        ..ALL_ZERO
    }
}

/// The Message Length of the header with which the bytes begin, or what is wrong with it.
pub fn message_length(bytes: &[u8]) -> Result<u32, Verdict>
    ensures length { IfOk result (HasLength bytes.now) }
    ensures fault { IfErr result (IsHeadVerdict bytes.now) }
{
    match header_of(bytes) {
        Ok((_, length)) => Ok(length),
        Err(verdict) => Err(verdict),
    }
}

/// The header with which the bytes begin and its Message Length, or what is wrong with it.
pub fn header_of(bytes: &[u8]) -> Result<(Header, u32), Verdict>
    ensures head { IfOk result (λ found. IsHead found.0 found.1 (take 20 bytes.now)) }
    ensures sound { IfOk result (λ found. IsMessageLength found.1) }
    ensures fault { IfErr result (IsHeadVerdict bytes.now) }
{
    match read_header(bytes) {
        Ok(found) => Ok(found),
        Err(HeadFault::Short) => Err(TRUNCATED),
        Err(HeadFault::Version) => Err(header_fault(0, Reason::Version)),
        Err(HeadFault::Length) => Err(header_fault(1, Reason::Length)),
    }
}

/// The verdict on bytes that are no message.
pub fn no_message(fault: MessageFault) -> Verdict
    ensures { result ≡ no_message fault }
{
    match fault {
        MessageFault::Short => TRUNCATED,
        MessageFault::Version => header_fault(0, Reason::Version),
        MessageFault::Length => header_fault(1, Reason::Length),
        MessageFault::Truncated => TRUNCATED,
        MessageFault::Trailing => TRAILING,
    }
}

/// The verdict of a fault of the header.
fn header_fault(place: u32, reason: Reason) -> Verdict
    ensures { result ≡ fault_verdict (simple place reason) }
{
    faulty(Fault {
        place,
        code: reason.code(),
        reason,
        subject: Subject::Nothing,
    })
}

/// The verdict of a fault.
pub fn faulty(fault: Fault) -> Verdict
    ensures { result ≡ fault_verdict fault }
{
    let reason = fault.reason.rank();
    match fault.subject {
        Subject::Nothing => Verdict {
            outcome: 1,
            code: fault.code,
            place: fault.place,
            reason,
            ..ALL_ZERO
        },
        Subject::Avp(key) => Verdict {
            outcome: 1,
            code: fault.code,
            place: fault.place,
            reason,
            subject: 1,
            avp_code: key.code,
            avp_vendor: key.vendor,
            ..ALL_ZERO
        },
        Subject::Wildcard => Verdict {
            outcome: 1,
            code: fault.code,
            place: fault.place,
            reason,
            subject: 2,
            ..ALL_ZERO
        },
    }
}
