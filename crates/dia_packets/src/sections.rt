//! What the blocks of a section say.

ghost use Rattle.std.specs.Prelude.{◌≡◌, ◌≤◌, ℕ, length, None, Some, IfOk, IfErr, MatchOption, option_and_then, slice_get};
ghost use Rattle.dia_packets.specs.declared.blocks.BlockKind.TheVariants.{Data};
ghost use Rattle.dia_packets.specs.Blocks.{Heads, Lacks, Says, flaw, least_size};
ghost use Rattle.dia_packets.specs.Interfaces.{time_of};
ghost use Rattle.dia_packets.specs.Sections.{HasRoom, IsFront, IsRefusedBlock, SaysAs, found_of, now_of};

use crate::blocks::{
    BlockHead, BlockKind, PacketKind, block_head, fields_of, fits, flaw, has_size,
};
use crate::fault::Cause;
use crate::interfaces::{Interface, interface_at, time_of};
use crate::order::{Order, u16_at};
use crate::packet::Captured;

/// The most interfaces of a section that are retained.
pub(crate) const MOST_INTERFACES: usize = 4096;

/// What a block says.
#[derive(Clone, Copy)]
pub enum Said<'b> {
    /// Another section begins.
    Section,
    Description(Interface),
    Packet(Captured<'b>),
    /// Nothing that is read.
    Nothing,
}

/// What is at the front of the bytes.
#[derive(Clone, Copy)]
pub enum Front<'b> {
    /// Less than a block.
    Part,
    /// The head of a block that is passed over.
    PassedOver(BlockHead),
    /// A block.
    Whole(BlockHead, Said<'b>),
}

/// What is at the front of the bytes, in a section of this byte order with these interfaces.
pub(crate) fn front_of<'b>(
    order: Order,
    interfaces: &[Interface],
    bytes: &'b [u8],
) -> Result<Front<'b>, Cause>
    ensures front { IfOk result (λ front. IsFront order interfaces.now bytes.entry.now front) }
    ensures room { IfOk result (λ front. HasRoom bytes.entry.now front) }
    ensures refused { IfErr result (λ cause. IsRefusedBlock order interfaces.now bytes.entry.now cause) }
{
    match block_head(order, bytes) {
        Ok(Some(head)) => match head.kind {
            BlockKind::Other if has_size(&head) => Ok(Front::PassedOver(head)),
            _ => whole_block(order, head, interfaces, bytes),
        },
        Ok(None) => Ok(Front::Part),
        Err(cause) => Err(cause),
    }
}

/// The block with this head at the front of the bytes.
fn whole_block<'b>(
    order: Order,
    head: BlockHead,
    interfaces: &[Interface],
    bytes: &'b [u8],
) -> Result<Front<'b>, Cause>
    requires { Heads order bytes.now head }
    ensures front { IfOk result (λ front. IsFront order interfaces.now bytes.entry.now front) }
    ensures room { IfOk result (λ front. HasRoom bytes.entry.now front) }
    ensures refused { IfErr result (λ cause. IsRefusedBlock order interfaces.now bytes.entry.now cause) }
{
    match flaw(&head, bytes) {
        None => match said_by(&head, interfaces, bytes) {
            Ok(said) => Ok(Front::Whole(head, said)),
            Err(cause) => Err(cause),
        },
        Some(Cause::Cut) => Ok(Front::Part),
        Some(cause) => Err(cause),
    }
}

/// What a whole block says.
fn said_by<'b>(
    head: &BlockHead,
    interfaces: &[Interface],
    bytes: &'b [u8],
) -> Result<Said<'b>, Cause>
    requires { flaw head.now bytes.now ≡ None }
    ensures says { IfOk result (λ said. SaysAs head.now interfaces.now bytes.entry.now said) }
    ensures lacks { IfErr result (λ cause. Lacks head.now.kind head.now.order head.now.size interfaces.now
        bytes.entry.now cause) }
{
    match head.kind {
        BlockKind::Section => {
            if u16_at(head.order, bytes, 12) == 1 {
                Ok(Said::Section)
            } else {
                Err(Cause::Version)
            }
        }
        BlockKind::Description => Ok(Said::Description(interface_at(
            head.order,
            head.size as usize,
            bytes,
        ))),
        BlockKind::Data(kind) => packet_in(kind, head.order, head.size, interfaces, bytes),
        BlockKind::Other => Ok(Said::Nothing),
    }
}

/// The packet of a block of so many bytes.
fn packet_in<'b>(
    kind: PacketKind,
    order: Order,
    size: u32,
    interfaces: &[Interface],
    bytes: &'b [u8],
) -> Result<Said<'b>, Cause>
    requires least { least_size (Data kind) ≤ size }
    requires whole { size ≤ length bytes.now }
    ensures says { IfOk result (λ said. (n : ℕ) → Says (Data kind) order size interfaces.now n bytes.entry.now
        (found_of n said) (now_of interfaces.now said)) }
    ensures lacks { IfErr result (λ cause. Lacks (Data kind) order size interfaces.now bytes.entry.now cause) }
{
    let fields = fields_of(kind, order, size, bytes);
    if !fits(size, &fields) {
        return Err(Cause::Length);
    }
    let Some(interface) = interface_of(interfaces, fields.interface) else {
        return Err(Cause::Interface);
    };
    let start = fields.start as usize;
    Ok(Said::Packet(Captured {
        time: time_at(&interface, fields.stamp),
        link: interface.link,
        bytes: &bytes[start..start + fields.kept as usize],
        size: fields.size,
    }))
}

/// The interface of this number.
#[tactic(auto, using(std::proofs::lemmas::Option::slice_get_read, std::proofs::lemmas::Option::slice_get_past))]
fn interface_of(interfaces: &[Interface], number: u32) -> Option<Interface>
    ensures { MatchOption result (slice_get interfaces.now number ≡ None)
        (λ one. slice_get interfaces.now number ≡ Some one) }
{
    let index = number as usize;
    if index < interfaces.len() {
        Some(interfaces[index])
    } else {
        None
    }
}

/// The time of a packet, if its block has one and it is known.
fn time_at(interface: &Interface, stamp: Option<u64>) -> Option<u64>
    ensures { result ≡ option_and_then (λ stamp. time_of interface.now stamp) stamp }
{
    match stamp {
        Some(stamp) => time_of(interface, stamp),
        None => None,
    }
}
