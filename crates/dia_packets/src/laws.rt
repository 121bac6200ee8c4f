//! What holds of each file.

ghost use Rattle.dia_packets.specs.Files.{FileHasOneAnswer};

/// A file has one list of packets and one end.
pub fn one_answer()
    ensures { FileHasOneAnswer }
{}
