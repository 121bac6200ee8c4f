//! How far a capture was read.

ghost use Rattle.std.specs.Prelude.{◌↔◌, IsTrue};
ghost use Rattle.dia_packets.specs.UnderWay.{IsWhole};

use crate::fault::{CaptureFault, Cause, Refusal};
use crate::interfaces::Interface;
use crate::kind::{Kind, Unit};
use crate::order::{Order, u32_at};
use crate::packet::{Packet, push_packet};
use crate::records::{FILE_HEAD, Form, form_at, next_record};
use crate::sections::{Front, MOST_INTERFACES, Said, front_of};
use std::alloc::{AllocError, Global};

/// What is read next.
#[derive(Clone, Copy)]
pub enum State {
    /// The head of a pcap file.
    Head(Order, Unit),
    /// A record of a pcap file.
    Records(Form),
    /// A block of a pcapng file, in a section of this byte order.
    Blocks(Order),
    /// The rest of a block of a pcapng file that is passed over.
    Passing(Passed),
}

/// A block that is passed over, whatever its length.
#[derive(Clone, Copy)]
pub struct Passed {
    pub order: Order,
    /// How many bytes it has with its head and its end.
    pub size: u32,
    /// How many bytes are still before its end.
    pub left: u32,
}

/// How far a capture was read.
#[derive(Drop)]
pub struct Position {
    pub state: State,
    /// The interfaces of the section of a pcapng file.
    pub interfaces: Vec<Interface>,
    /// Where the header, the packet or the block begins that is read next, in bytes of the file.
    pub at: u64,
    /// The number of the next packet.
    pub number: u64,
}

impl Position {
    ghost use Rattle.std.specs.Prelude.{◌≡◌, ◌<◌, ◌+◌, List, [], Ok, None, IfOk, IfErr, IfSome, length, ◌++◌, map, IsNone, OnOk};
    ghost use Rattle.dia_packets.specs.declared.packet.Packet.{Packet as AnyPacket};
    ghost use Rattle.dia_packets.specs.Blocks.{next_number};
    ghost use Rattle.dia_packets.specs.Fields.{counted};
    ghost use Rattle.dia_packets.specs.Packets.{plain_packet};
    ghost use Rattle.dia_packets.specs.Sections.{found_of, now_of};
    ghost use Rattle.dia_packets.specs.declared.fault.CaptureFault.TheVariants.{Refused};
    ghost use Rattle.dia_packets.specs.declared.position.State.TheVariants.{Blocks, Head, Passing, Records};
    ghost use Rattle.dia_packets.specs.UnderWay.{AreFrom, IfRefused, IsPart, Reads, Stops, end_of, first_state};

    /// The beginning of a file.
    pub(crate) fn new(alloc: Global, kind: Kind) -> Position
        ensures state { result.state ≡ first_state kind }
        ensures interfaces { result.interfaces.items ≡ [] }
        ensures at { result.at ≡ 0 }
        ensures number { result.number ≡ 1 }
    {
        Position {
            state: match kind {
                Kind::Pcap(order, unit) => State::Head(order, unit),
                Kind::Pcapng => State::Blocks(Order::Big),
            },
            interfaces: Vec::new(alloc),
            at: 0,
            number: 1,
        }
    }

    /// Reads the headers and packets that are whole. Answers the bytes that are left.
    pub(crate) fn read_whole<'b>(
        &mut self,
        alloc: Global,
        bytes: &'b [u8],
        packets: &mut Vec<Packet>,
    ) -> Result<&'b [u8], CaptureFault>
        ensures reads { IfOk result (λ rest. Reads self.old self.new packets.old.items packets.new.items
            bytes.entry.now rest.now) }
        ensures part { IfOk result (λ rest. IsPart self.new.state rest.now) }
        ensures stops { IfErr result (λ fault. IfRefused fault
            (Stops self.old packets.old.items packets.new.items bytes.entry.now)) }
    {
        let mut rest = bytes;
        while let Some(following) = self.read_next(alloc, rest, packets)? {
            rest = following;
        }
        Ok(rest)
    }

    /// Reads the header or the packet at the front. Answers the bytes after it, or `None` if it isn't whole.
    fn read_next<'b>(
        &mut self,
        alloc: Global,
        bytes: &'b [u8],
        packets: &mut Vec<Packet>,
    ) -> Result<Option<&'b [u8]>, CaptureFault>
        ensures reads { IfOk result (λ next. IfSome next (λ rest. Reads self.old self.new packets.old.items
            packets.new.items bytes.entry.now rest.now)) }
        ensures shorter { IfOk result (λ next. IfSome next
            (λ rest. length rest.now < length bytes.entry.now)) }
        ensures part { result ≡ Ok None → IsPart self.old.state bytes.entry.now }
        ensures position { result ≡ Ok None → self.new ≡ self.old }
        ensures packets { result ≡ Ok None → packets.new.items ≡ packets.old.items }
        ensures stops { IfErr result (λ fault. IfRefused fault
            (Stops self.old packets.old.items packets.new.items bytes.entry.now)) }
    {
        match self.state {
            State::Head(order, unit) => self.read_head(order, unit, bytes),
            State::Records(form) => self.read_record(alloc, form, bytes, packets),
            State::Blocks(order) => self.read_block(alloc, order, bytes, packets),
            State::Passing(passed) => self.read_passed(passed, bytes),
        }
    }

    /// Reads the head of a pcap file.
    fn read_head<'b>(
        &mut self,
        order: Order,
        unit: Unit,
        bytes: &'b [u8],
    ) -> Result<Option<&'b [u8]>, CaptureFault>
        requires { self.old.state ≡ Head order unit }
        ensures reads { IfOk result (λ next. IfSome next (λ rest. (packets : List AnyPacket)
            → Reads self.old self.new packets packets bytes.entry.now rest.now)) }
        ensures shorter { IfOk result (λ next. IfSome next
            (λ rest. length rest.now < length bytes.entry.now)) }
        ensures part { result ≡ Ok None → IsPart self.old.state bytes.entry.now }
        ensures position { result ≡ Ok None → self.new ≡ self.old }
        ensures stops { IfErr result (λ fault. IfRefused fault
            (λ refusal. (packets : List AnyPacket) → Stops self.old packets packets bytes.entry.now refusal)) }
    {
        match form_at(order, unit, bytes) {
            Ok(Some(form)) => {
                self.state = State::Records(form);
                self.at = self.at.saturating_add(FILE_HEAD as u64);
                Ok(Some(&bytes[FILE_HEAD..]))
            }
            Ok(None) => Ok(None),
            Err(cause) => Err(self.refused(cause)),
        }
    }

    /// Reads a record of a pcap file, and adds its packet.
    fn read_record<'b>(
        &mut self,
        alloc: Global,
        form: Form,
        bytes: &'b [u8],
        packets: &mut Vec<Packet>,
    ) -> Result<Option<&'b [u8]>, CaptureFault>
        requires { self.old.state ≡ Records form }
        ensures reads { IfOk result (λ next. IfSome next (λ rest. Reads self.old self.new packets.old.items
            packets.new.items bytes.entry.now rest.now)) }
        ensures shorter { IfOk result (λ next. IfSome next
            (λ rest. length rest.now < length bytes.entry.now)) }
        ensures part { result ≡ Ok None → IsPart self.old.state bytes.entry.now }
        ensures position { result ≡ Ok None → self.new ≡ self.old }
        ensures packets { result ≡ Ok None → packets.new.items ≡ packets.old.items }
        ensures stops { IfErr result (λ fault. IfRefused fault
            (Stops self.old packets.old.items packets.new.items bytes.entry.now)) }
    {
        match next_record(form, bytes) {
            Ok(Some((captured, rest))) => {
                push_packet(alloc, self.number, &captured, packets)?;
                self.pass(bytes.len() - rest.len());
                Ok(Some(rest))
            }
            Ok(None) => Ok(None),
            Err(cause) => Err(self.refused(cause)),
        }
    }

    /// Reads a block of a pcapng file, and adds its packet. Of one that is passed over only the head is read.
    fn read_block<'b>(
        &mut self,
        alloc: Global,
        order: Order,
        bytes: &'b [u8],
        packets: &mut Vec<Packet>,
    ) -> Result<Option<&'b [u8]>, CaptureFault>
        requires { self.old.state ≡ Blocks order }
        ensures reads { IfOk result (λ next. IfSome next (λ rest. Reads self.old self.new packets.old.items
            packets.new.items bytes.entry.now rest.now)) }
        ensures shorter { IfOk result (λ next. IfSome next
            (λ rest. length rest.now < length bytes.entry.now)) }
        ensures part { result ≡ Ok None → IsPart self.old.state bytes.entry.now }
        ensures position { result ≡ Ok None → self.new ≡ self.old }
        ensures packets { result ≡ Ok None → packets.new.items ≡ packets.old.items }
        ensures stops { IfErr result (λ fault. IfRefused fault
            (Stops self.old packets.old.items packets.new.items bytes.entry.now)) }
    {
        match front_of(order, self.interfaces.as_slice(), bytes) {
            Ok(Front::Whole(head, said)) => {
                self.add(alloc, &said, packets)?;
                self.state = State::Blocks(head.order);
                self.at = self.at.saturating_add(u64::from(head.size));
                Ok(Some(&bytes[head.size as usize..]))
            }
            Ok(Front::PassedOver(head)) => {
                self.state = State::Passing(Passed {
                    order,
                    size: head.size,
                    left: head.size - 12,
                });
                Ok(Some(&bytes[8..]))
            }
            Ok(Front::Part) => Ok(None),
            Err(cause) => Err(self.refused(cause)),
        }
    }

    /// Adds what a block says.
    fn add(
        &mut self,
        alloc: Global,
        said: &Said<'_>,
        packets: &mut Vec<Packet>,
    ) -> Result<(), AllocError>
        ensures interfaces { OnOk result (self.new.interfaces.items ≡ now_of self.old.interfaces.items said.now) }
        ensures number { OnOk result (self.new.number ≡ next_number self.old.number (found_of self.old.number said.now)) }
        ensures packets { OnOk result (map plain_packet packets.new.items
            ≡ map plain_packet packets.old.items ++ found_of self.old.number said.now) }
        ensures at { self.new.at ≡ self.old.at }
    {
        match said {
            Said::Section => self.interfaces.clear(),
            Said::Description(interface) => {
                if self.interfaces.len() < MOST_INTERFACES {
                    self.interfaces.push(*interface)?;
                }
            }
            Said::Packet(captured) => {
                push_packet(alloc, self.number, captured, packets)?;
                self.number = self.number.saturating_add(1);
            }
            Said::Nothing => {}
        }
        Ok(())
    }

    /// Reads on in a block of a pcapng file that is passed over.
    fn read_passed<'b>(
        &mut self,
        passed: Passed,
        bytes: &'b [u8],
    ) -> Result<Option<&'b [u8]>, CaptureFault>
        requires { self.old.state ≡ Passing passed }
        ensures reads { IfOk result (λ next. IfSome next (λ rest. (packets : List AnyPacket)
            → Reads self.old self.new packets packets bytes.entry.now rest.now)) }
        ensures shorter { IfOk result (λ next. IfSome next
            (λ rest. length rest.now < length bytes.entry.now)) }
        ensures part { result ≡ Ok None → IsPart self.old.state bytes.entry.now }
        ensures position { result ≡ Ok None → self.new ≡ self.old }
        ensures stops { IfErr result (λ fault. IfRefused fault
            (λ refusal. (packets : List AnyPacket) → Stops self.old packets packets bytes.entry.now refusal)) }
    {
        if passed.left > 0 {
            return Ok(self.pass_over(passed, bytes));
        }
        if bytes.len() < 4 {
            return Ok(None);
        }
        if u32_at(passed.order, bytes, 0) != passed.size {
            return Err(self.refused(Cause::Length));
        }
        self.state = State::Blocks(passed.order);
        self.at = self.at.saturating_add(u64::from(passed.size));
        Ok(Some(&bytes[4..]))
    }

    /// Passes over bytes before the end of a block.
    fn pass_over<'b>(&mut self, passed: Passed, bytes: &'b [u8]) -> Option<&'b [u8]>
        requires state { self.old.state ≡ Passing passed }
        requires some { 0 < passed.left }
        ensures reads { IfSome result (λ rest. (packets : List AnyPacket)
            → Reads self.old self.new packets packets bytes.entry.now rest.now) }
        ensures shorter { IfSome result (λ rest. length rest.now < length bytes.entry.now) }
        ensures part { IsNone result → length bytes.entry.now ≡ 0 }
        ensures position { IsNone result → self.new ≡ self.old }
    {
        if bytes.is_empty() {
            return None;
        }
        let count = bytes.len().min(passed.left as usize);
        self.state = State::Passing(Passed {
            order: passed.order,
            size: passed.size,
            left: passed.left - count as u32,
        });
        Some(&bytes[count..])
    }

    /// What the end of the file is after these bytes, which are less than is read at a time.
    pub(crate) fn end(&self, bytes: &[u8]) -> Result<(), Refusal>
        ensures { IsPart self.now.state bytes.now → AreFrom self.now bytes.now [] (end_of result) }
    {
        if is_whole(self.state, bytes) {
            Ok(())
        } else {
            Err(Refusal {
                cause: Cause::Cut,
                at: self.at,
            })
        }
    }

    /// Goes on after a packet of so many bytes in the file.
    fn pass(&mut self, size: usize)
        ensures state { self.new.state ≡ self.old.state }
        ensures at { self.new.at ≡ counted (self.old.at + size) }
        ensures number { self.new.number ≡ counted (self.old.number + 1) }
    {
        self.at = self.at.saturating_add(size as u64);
        self.number = self.number.saturating_add(1);
    }

    /// The file can't be read on here.
    fn refused(&self, cause: Cause) -> CaptureFault
        ensures { result ≡ Refused (record { cause = cause; at = self.now.at }) }
    {
        CaptureFault::Refused(Refusal { cause, at: self.at })
    }
}

/// Whether nothing is missing where a file ends with these bytes.
fn is_whole(state: State, bytes: &[u8]) -> bool
    ensures { IsTrue result ↔ IsWhole state bytes.now }
{
    match state {
        State::Head(..) | State::Passing(_) => false,
        State::Records(_) | State::Blocks(_) => bytes.is_empty(),
    }
}
