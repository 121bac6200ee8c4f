//! What writes the rows of a message.

ghost use Rattle.std.specs.Prelude.{◌≡◌, List, ℕ, OnOk, option_map, string_bytes};
ghost use Rattle.dia_wire.specs.Wire.{plain_avp};
ghost use Rattle.dia_run.specs.Rows.{Row, of_avp, of_bad_length, of_header};
ghost use Rattle.dia_run.specs.Walk.{Adds, plain_known};

use dia_dict::Format;
use dia_wire::{Avp, Header};
use std::alloc::{AllocError, Global};

/// What a dictionary has of an AVP.
#[derive(Clone, Copy)]
pub struct Known<'a> {
    pub name: &'a str,
    pub format: &'a Format,
}

/// What writes the rows of a message: that of its header, and one for each AVP.
///
/// Each call adds one row to a text. After an error the text may hold a part of it.
pub trait RowWriter {
    // Whether a row is written as this text.
    ghost writes: { Self → Row → List ℕ → Type 0 };

    /// Adds the row of a header. `length` is the Message Length, and `command` the name that the dictionary has for the header's
    /// code, flags R and E, and application.
    fn write_header(
        &self,
        alloc: Global,
        text: &mut String,
        header: &Header,
        length: usize,
        command: Option<&str>,
    ) -> Result<(), AllocError>
        ensures { OnOk result (Adds
            (writes self.now (of_header header.now length (option_map (λ name. name.now) command.entry)))
            (string_bytes text.old) (string_bytes text.new)) };

    /// Adds the row of an AVP at an offset of the message and a depth, with what the dictionary has of it.
    fn write_avp(
        &self,
        alloc: Global,
        text: &mut String,
        place: usize,
        depth: usize,
        avp: &Avp<'_>,
        known: Option<Known<'_>>,
    ) -> Result<(), AllocError>
        ensures { OnOk result (Adds
            (writes self.now (of_avp place depth (plain_avp avp.now) (option_map plain_known known.entry)))
            (string_bytes text.old) (string_bytes text.new)) };

    /// Adds the row of an offset at which no AVP begins.
    fn write_bad_length(&self, text: &mut String, place: usize) -> Result<(), AllocError>
        ensures { OnOk result (Adds (writes self.now (of_bad_length place))
            (string_bytes text.old) (string_bytes text.new)) };
}
