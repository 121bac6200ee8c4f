//! A capture that is read in pieces.

use crate::fault::{CaptureFault, Refusal};
use crate::kind::Kind;
use crate::packet::Packet;
use crate::position::Position;
use std::alloc::Global;

/// A capture of which a front was read.
#[derive(Drop)]
pub struct Capture {
    position: Position,
    /// The bytes that were given and not read yet.
    bytes: Vec<u8>,
}

impl Capture {
    ghost use Rattle.std.specs.Prelude.{◌≡◌, ℕ, List, [], OnOk, IfErr};
    ghost use Rattle.dia_packets.specs.declared.kind.Kind.{Kind as AnyKind};
    ghost use Rattle.dia_packets.specs.Files.{AreOf};
    ghost use Rattle.dia_packets.specs.Packets.{PlainPacket};
    ghost use Rattle.dia_packets.specs.UnderWay.{IfRefused, IsUnderWay, ReadsPiece, StopsInPiece, end_of};

    /// A capture of this kind, of which nothing was read.
    pub fn new(alloc: Global, kind: Kind) -> Capture
        ensures { IsUnderWay kind result [] [] }
    {
        Capture {
            position: Position::new(alloc, kind),
            bytes: Vec::new(alloc),
        }
    }

    /// Reads the next piece of the file, and adds the packets that end in it. After an error the capture isn't read on.
    pub fn read(
        &mut self,
        alloc: Global,
        piece: &[u8],
        packets: &mut Vec<Packet>,
    ) -> Result<(), CaptureFault>
        ensures reads { OnOk result
            (ReadsPiece self.old self.new packets.old.items packets.new.items piece.now) }
        ensures stops { IfErr result (λ fault. IfRefused fault
            (StopsInPiece self.old packets.old.items packets.new.items piece.now)) }
    {
        self.bytes.extend_from_slice(piece)?;
        let bytes = self.bytes.as_slice();
        let rest = self.position.read_whole(alloc, bytes, packets)?;
        if rest.len() < bytes.len() {
            self.bytes = Vec::from_slice(alloc, rest)?;
        }
        Ok(())
    }

    /// What the end of the file is, after the pieces that were read.
    pub fn end(&self) -> Result<(), Refusal>
        ensures { (kind : AnyKind) (read : List ℕ) (found : List PlainPacket) → IsUnderWay kind self.now read found
            → AreOf kind read found (end_of result) }
    {
        self.position.end(self.bytes.as_slice())
    }
}
