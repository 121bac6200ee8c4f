ghost use Rattle.std.specs.Prelude.{Some};
ghost use Rattle.dia_wire.specs.Printed.{key_text};

use std::fmt;

/// The name that an AVP has on the wire (RFC 6733 section 4.1): its code in a vendor's code space.
/// A missing Vendor-ID and the Vendor-ID 0 are one space, vendor 0.
///
/// It is displayed as `CODE:VENDOR`, both in decimal.
#[derive(Debug, Clone, Copy, PartialEq, Eq, Hash)]
pub struct Key {
    pub code: u32,
    pub vendor: u32,
}

impl fmt::Display for Key {
    ghost output = { λ key. Some (key_text key) };

    fn fmt<W: fmt::Write>(&self, f: &mut fmt::Formatter<W>) -> fmt::Result {
        let Key { code, vendor } = self;
        write!(f, "{code}:{vendor}")
    }
}
