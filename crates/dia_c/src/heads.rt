//! The header of a message.

ghost use Rattle.std.specs.Prelude.{◌⊎◌, ◌≡◌};
ghost use Rattle.dia_c_calls.specs.Heads.{BeginsWithHead};
ghost use Rattle.dia_c_calls.specs.Verdicts.{IsHeadVerdict};

use dia_c_calls::{DONE, MessageHead, REFUSED, Verdict};

/// The header with which the bytes begin.
#[unsafe(no_mangle)]
pub extern "C" fn dia_header(bytes: &[u8], head: &mut MessageHead, verdict: &mut Verdict) -> u32
    ensures ends { (result ≡ DONE) ⊎ (result ≡ REFUSED) }
    ensures done { result ≡ DONE → BeginsWithHead bytes.now head.new }
    ensures refused { result ≡ REFUSED → IsHeadVerdict bytes.now verdict.new }
    ensures only { result ≡ DONE → verdict.new ≡ verdict.old }
    ensures kept { result ≡ REFUSED → head.new ≡ head.old }
{
    dia_c_calls::header(bytes, head, verdict)
}
