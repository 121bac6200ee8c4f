//! A text, written whole.

ghost use Rattle.std.specs.Prelude.{◌≡◌, ◌↔◌, [], OnOk, IsErr, IsTrue};
ghost use Rattle.std.specs.Io.KnownBytes.{Appends};
ghost use Rattle.dia_io.specs.Writing.{AppendsFront};

use crate::streams::{Failed, Sink};

/// Writes a text to a sink, up to the call that fails. An empty text is put as no piece.
pub fn put_all<S: Sink>(sink: &mut S, text: &[u8]) -> Result<(), Failed>
    requires { ¬ IsTrue (S.has_failed sink.old) }
    ensures ok { OnOk result (Appends (S.written sink.old) (S.written sink.new) text.now) }
    ensures front { AppendsFront (S.written sink.old) (S.written sink.new) text.now }
    ensures failed { IsErr result ↔ IsTrue (S.has_failed sink.new) }
    ensures nothing { text.now ≡ [] → sink.new ≡ sink.old }
{
    let mut rest = text;
    while !rest.is_empty() {
        let count = sink.put(rest)?;
        rest = &rest[count..];
    }
    Ok(())
}
