ghost use Rattle.std.specs.Prelude.{◌≡◌, ◌↔◌, ◌∷◌, [], false, ◌<◌, ◌≤◌, ◌^◌, IfErr, IfOk, List, OnOk, Some, length, map, slice_get, ℕ};
ghost use Rattle.dia_book.specs.Dictionary.{Dictionary, PlainDefinition, definitions};
ghost use Rattle.dia_terms.specs.declared.Unknown.{Unknown as AnyPolicy};
ghost use Rattle.dia_terms.specs.declared.Levels.{Levels as AnyLevels};
ghost use Rattle.dia_valid.specs.Valid.{IsValid};
ghost use Rattle.dia_check.specs.declared.fault.Fault.{Fault as AnyFault};
ghost use Rattle.dia_check.specs.Faults.{IsRecorded};
ghost use Rattle.dia_check.specs.Walks.{Found, fault_of};
ghost use Rattle.dia_faults.specs.Collecting.{Adds, AreFirst};
ghost use Rattle.dia_faults.specs.Messages.{AreAll, AreInOrder, HasBits, HasBody, HasProxiable, IsUnlisted};

use crate::collector::Collector;
use crate::listing::list_body;
use dia_book::{Book, DefHead};
use dia_check::{
    Basis, Fault, Levels, Reason, Refusal, Subject, Unknown, Wrong, allows_p, class_of,
    has_good_bits,
};
use dia_wire::{Header, MessageFault, split_message};
use std::alloc::{AllocError, Global};

/// The first faults of a message, in their order.
#[derive(Drop)]
pub struct AllFaults {
    pub faults: Vec<Fault>,
    /// Whether the message has more faults than were asked for.
    pub more: bool,
}

/// Lists the faults of a message, at most so many, in the order in which `check` looks for them (RFC 6733 sections 3, 3.2,
/// 4.1 and 4.4; which faults are looked for, their places, order and result codes are our profile). The first is the one
/// that `check` answers; a valid message has none.
///
/// A version that isn't 1, and a Message Length that no message has, end the list, as does a header that selects no command.
/// Flags of the header end nothing: the body is judged as one of the command that they select. Each level is judged by
/// itself, and ends where no AVP begins. Each rule of a level is reported at most once as missing, where its run ends or at
/// the end of the level, and at most once as met too often.
///
/// `Truncated` and `Trailing` come as from `check`; `NoMemory` where memory was refused. It takes time and memory for as many
/// AVPs as there are, and for each rule with a least count once for each fault that is listed.
pub fn all_faults<B: Book>(
    alloc: Global,
    book: &B,
    unknown: Unknown,
    levels: Levels,
    most: usize,
    bytes: &[u8],
) -> Result<AllFaults, Refusal>
    ensures faults { IfOk result (λ listed. (all : List Found)
        × AreAll (B.meaning book.now) unknown levels bytes.now all
        × AreFirst most (map fault_of all) listed.faults.items listed.more) }
    // The first is the one that `check` answers.
    ensures first { IfOk result (λ listed. (f : AnyFault) (fs : List AnyFault) → listed.faults.items ≡ f ∷ fs
        → IsRecorded (B.meaning book.now) unknown levels bytes.now f) }
    // There are none exactly where the message is valid.
    ensures none { IfOk result (λ listed. ((listed.faults.items ≡ []) × (listed.more ≡ false))
        ↔ IsValid (B.meaning book.now) unknown levels bytes.now) }
    ensures unlisted { IfErr result (IsUnlisted bytes.now) }
{
    let basis = Basis {
        book,
        unknown,
        levels,
    };
    let mut found = Collector::new(alloc, most);
    list_all(alloc, &basis, &mut found, bytes)?;
    Ok(AllFaults {
        faults: found.faults,
        more: found.more,
    })
}

/// All faults of a message have the order of their places.
pub fn in_order()
    ensures { (d : Dictionary) (u : AnyPolicy) (levels : AnyLevels) (bytes : List ℕ) (all : List Found)
        → AreAll d u levels bytes all → AreInOrder all }
{}

/// Adds all faults of a message.
fn list_all<B: Book>(
    alloc: Global,
    basis: &Basis<'_, B>,
    found: &mut Collector,
    bytes: &[u8],
) -> Result<(), Refusal>
    ensures faults { OnOk result ((all : List Found)
        × AreAll (B.meaning basis.now.book.now) basis.now.unknown basis.now.levels bytes.now all
        × Adds found.old found.new (map fault_of all)) }
    ensures unlisted { IfErr result (IsUnlisted bytes.now) }
{
    match split_message(bytes) {
        Ok((header, _)) => {
            push_bits(found, &header)?;
            push_body(alloc, basis, found, &header, bytes)?;
            Ok(())
        }
        Err(MessageFault::Short) => Err(Refusal::Truncated),
        Err(MessageFault::Version) => {
            found.push(0, of_header(Reason::Version))?;
            Ok(())
        }
        Err(MessageFault::Length) => {
            found.push(1, of_header(Reason::Length))?;
            Ok(())
        }
        Err(MessageFault::Truncated) => Err(Refusal::Truncated),
        Err(MessageFault::Trailing) => Err(Refusal::Trailing),
    }
}

/// Adds that E is set in a request, or T in what is no request.
fn push_bits(found: &mut Collector, header: &Header) -> Result<(), AllocError>
    ensures { OnOk result ((fs : List Found) × HasBits header.now fs × Adds found.old found.new (map fault_of fs)) }
{
    if has_good_bits(header) {
        Ok(())
    } else {
        found.push(4, of_header(Reason::Bits))
    }
}

/// Adds that no command is selected, or all that is wrong with the P flag and the body of the one that is.
fn push_body<B: Book>(
    alloc: Global,
    basis: &Basis<'_, B>,
    found: &mut Collector,
    header: &Header,
    bytes: &[u8],
) -> Result<(), AllocError>
    requires { (20 ≤ length bytes.now) × (length bytes.now < 2 ^ 32) }
    ensures { OnOk result ((fs : List Found)
        × HasBody (B.meaning basis.now.book.now) basis.now.unknown basis.now.levels bytes.now header.now fs
        × Adds found.old found.new (map fault_of fs)) }
{
    let class = class_of(header);
    match basis.book.select(header.code, class, header.app) {
        Some(def) => {
            push_proxiable(found, basis.book.def(def).head, header)?;
            list_body(alloc, basis, found, def, bytes)
        }
        None => {
            if basis.book.has_command(header.code, class) {
                found.push(8, of_header(Reason::Application))
            } else {
                found.push(5, of_header(Reason::Command))
            }
        }
    }
}

/// Adds a fault if the command may not have this P flag.
fn push_proxiable(found: &mut Collector, head: DefHead, header: &Header) -> Result<(), AllocError>
    ensures { OnOk result ((command : PlainDefinition) → command.head ≡ head
        → (fs : List Found) × HasProxiable command header.now fs × Adds found.old found.new (map fault_of fs)) }
{
    if allows_p(head, header) {
        Ok(())
    } else {
        found.push(4, of_header(Reason::Proxiable))
    }
}

/// A fault of the header is about no AVP.
fn of_header(reason: Reason) -> Wrong
    ensures { result ≡ record { reason = reason; subject = Subject.Nothing } }
{
    Wrong {
        reason,
        subject: Subject::Nothing,
    }
}
