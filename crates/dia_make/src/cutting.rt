//! Where a message ends that isn't AVPs to its end.

ghost use Rattle.dia_text.specs.TextOf.{HasNoText};
ghost use Rattle.dia_text.specs.declared.writing.NotWritten.TheVariants.{Avps};
ghost use Rattle.dia_make.specs.Shown.{IsCutAt};

use dia_wire::{AvpFault, HEADER_LENGTH, next_avp};

/// The first place outside groups at which no AVP begins.
pub(crate) fn cut_place(message: &[u8]) -> usize
    requires { HasNoText Avps message.now }
    ensures { IsCutAt message.now result }
{
    let mut rest = &message[HEADER_LENGTH..];
    loop {
        match next_avp(rest) {
            Ok(Some((_, following))) => rest = following,
            Ok(None) => unreachable!(),
            Err(AvpFault::Length) => return message.len() - rest.len(),
        }
    }
}
