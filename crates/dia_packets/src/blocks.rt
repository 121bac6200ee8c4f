//! The blocks of a pcapng file.

ghost use Rattle.std.specs.Prelude.{◌≡◌, ◌≢◌, ◌≤◌, ◌⊎◌, ◌↔◌, ℕ, length, Ok, None, Some, true, IfOk, IfErr, IfSome, IsNone, OnErr};
ghost use Rattle.std.specs.Prelude.{IsTrue};
ghost use Rattle.dia_packets.specs.declared.fault.Cause.TheVariants.{Block, Cut};
ghost use Rattle.dia_packets.specs.declared.order.Order.{Order as AnyOrder};
ghost use Rattle.dia_packets.specs.declared.blocks.BlockKind.TheVariants.{Data};
ghost use Rattle.dia_packets.specs.Blocks.{HasCutHead, HasMagic, HasNoOrder, Heads, IsSection, fits, fields_of, flaw, has_end};
ghost use Rattle.dia_packets.specs.Blocks.{has_size};
ghost use Rattle.dia_packets.specs.Blocks.{kind_of_type, least_size, most_size, stamp_of};
ghost use Rattle.dia_packets.specs.Fields.{field};

use crate::fault::Cause;
use crate::kind::{SECTION, has, order_magic};
use crate::order::{Order, u16_at, u32_at};
use crate::records::MOST_CAPTURED;

/// The kinds of blocks.
#[derive(Clone, Copy)]
pub enum BlockKind {
    Section,
    /// An Interface Description Block.
    Description,
    Data(PacketKind),
    /// A block that is passed over.
    Other,
}

/// The kinds of blocks with a packet.
#[derive(Clone, Copy)]
pub enum PacketKind {
    Enhanced,
    /// The obsolete Packet Block.
    Obsolete,
    Simple,
}

/// The head of a block.
#[derive(Clone, Copy)]
pub struct BlockHead {
    /// Its byte order.
    pub order: Order,
    pub kind: BlockKind,
    /// How many bytes it has with its head and its end.
    pub size: u32,
}

/// Where the packet of a block is.
#[derive(Clone, Copy)]
pub struct PacketFields {
    pub interface: u32,
    /// Where its bytes begin.
    pub start: u32,
    /// How many of its bytes were captured.
    pub kept: u32,
    /// How many bytes there were.
    pub size: u32,
    /// Its time in units of the interface.
    pub stamp: Option<u64>,
}

/// The head of the block at the front, in a section of this byte order. `None` where it isn't all there.
pub(crate) fn block_head(order: Order, bytes: &[u8]) -> Result<Option<BlockHead>, Cause>
    ensures head { IfOk result (λ found. IfSome found (λ head. Heads order bytes.now head)) }
    ensures none { result ≡ Ok None → HasCutHead bytes.now }
    ensures no_order { OnErr result (HasNoOrder bytes.now) }
    ensures cause { IfErr result (λ cause. cause ≡ Block) }
{
    if bytes.len() < 8 {
        return Ok(None);
    }
    if !has(bytes, 0, &SECTION) {
        return Ok(Some(other_head(order, bytes)));
    }
    if bytes.len() < 12 {
        return Ok(None);
    }
    match order_of_section(bytes) {
        Some(its) => Ok(Some(section_head(its, bytes))),
        None => Err(Cause::Block),
    }
}

fn section_head(order: Order, bytes: &[u8]) -> BlockHead
    requires section { IsSection bytes.now }
    requires long { 12 ≤ length bytes.now }
    requires magic { HasMagic bytes.now order }
    ensures { (outer : AnyOrder) → Heads outer bytes.now result }
{
    BlockHead {
        order,
        kind: BlockKind::Section,
        size: u32_at(order, bytes, 4),
    }
}

fn other_head(order: Order, bytes: &[u8]) -> BlockHead
    requires other { ¬ IsSection bytes.now }
    requires long { 8 ≤ length bytes.now }
    ensures { Heads order bytes.now result }
{
    BlockHead {
        order,
        kind: kind_of_type(u32_at(order, bytes, 0)),
        size: u32_at(order, bytes, 4),
    }
}

/// The byte order that a Section Header Block gives.
fn order_of_section(bytes: &[u8]) -> Option<Order>
    requires { 12 ≤ length bytes.now }
    ensures order { IfSome result (λ order. HasMagic bytes.now order) }
    ensures none { IsNone result → (order : AnyOrder) → ¬ HasMagic bytes.now order }
{
    if has(bytes, 8, &order_magic(Order::Big)) {
        Some(Order::Big)
    } else if has(bytes, 8, &order_magic(Order::Little)) {
        Some(Order::Little)
    } else {
        None
    }
}

/// The kind of a block with this type, if it isn't a Section Header Block.
fn kind_of_type(number: u32) -> BlockKind
    ensures { result ≡ kind_of_type number }
{
    match number {
        1 => BlockKind::Description,
        2 => BlockKind::Data(PacketKind::Obsolete),
        3 => BlockKind::Data(PacketKind::Simple),
        6 => BlockKind::Data(PacketKind::Enhanced),
        _ => BlockKind::Other,
    }
}

/// Why the block at the front can't be passed, if it can't.
pub(crate) fn flaw(head: &BlockHead, bytes: &[u8]) -> Option<Cause>
    ensures { result ≡ flaw head.now bytes.now }
{
    if !has_size(head) {
        return Some(Cause::Length);
    }
    let size = head.size as usize;
    if bytes.len() < size {
        return Some(Cause::Cut);
    }
    if u32_at(head.order, bytes, size - 4) == head.size {
        None
    } else {
        Some(Cause::Length)
    }
}

/// Whether a block of this kind may have so many bytes.
pub(crate) fn has_size(head: &BlockHead) -> bool
    ensures size { result ≡ has_size head.now }
    ensures least { IsTrue result → 12 ≤ head.now.size }
{
    least_size(head.kind) <= head.size && head.size <= most_size(head.kind) && head.size % 4 == 0
}

/// The bytes of a block's fields, with both lengths.
fn least_size(kind: BlockKind) -> u32
    ensures least { result ≡ least_size kind }
    ensures twelve { 12 ≤ result }
{
    match kind {
        BlockKind::Section => 28,
        BlockKind::Description => 20,
        BlockKind::Data(PacketKind::Simple) => 16,
        BlockKind::Data(_) => 32,
        BlockKind::Other => 12,
    }
}

/// The most bytes of a block of this kind.
fn most_size(kind: BlockKind) -> u32
    ensures { result ≡ most_size kind }
{
    match kind {
        BlockKind::Other => u32::MAX,
        _ => 1_048_576,
    }
}

/// Where the packet of a block of so many bytes is.
pub(crate) fn fields_of(kind: PacketKind, order: Order, size: u32, bytes: &[u8]) -> PacketFields
    requires { least_size (Data kind) ≤ length bytes.now }
    ensures { result ≡ fields_of kind order size bytes.now }
{
    match kind {
        PacketKind::Enhanced => with_time(order, u32_at(order, bytes, 8), bytes),
        PacketKind::Obsolete => with_time(order, u32::from(u16_at(order, bytes, 8)), bytes),
        PacketKind::Simple => {
            let there = u32_at(order, bytes, 8);
            PacketFields {
                interface: 0,
                start: 12,
                kept: there.min(size.saturating_sub(16)),
                size: there,
                stamp: None,
            }
        }
    }
}

fn with_time(order: Order, interface: u32, bytes: &[u8]) -> PacketFields
    requires { 32 ≤ length bytes.now }
    ensures interface { result.interface ≡ interface }
    ensures start { result.start ≡ 28 }
    ensures kept { result.kept ≡ field order 4 20 bytes.now }
    ensures size { result.size ≡ field order 4 24 bytes.now }
    ensures stamp { result.stamp ≡ Some (stamp_of order bytes.now) }
{
    let high = u64::from(u32_at(order, bytes, 12));
    let low = u64::from(u32_at(order, bytes, 16));
    PacketFields {
        interface,
        start: 28,
        kept: u32_at(order, bytes, 20),
        size: u32_at(order, bytes, 24),
        stamp: Some(high * 0x1_0000_0000 + low),
    }
}

/// Whether a packet is within the limit, and within a block of so many bytes.
pub(crate) fn fits(size: u32, fields: &PacketFields) -> bool
    ensures { result ≡ fits size fields.now }
{
    let end = u64::from(fields.start) + u64::from(fields.kept) + 4;
    fields.kept as usize <= MOST_CAPTURED && end <= u64::from(size)
}
