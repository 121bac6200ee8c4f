//! The messages of a stream that were reported, and the one that is under way.

use crate::digits::Digits;
use crate::fault::LinesFault;
use crate::message_judge::MessageJudge;
use crate::messages::bad_header;
use crate::recorded::Recorded;
use crate::watch::Watch;
use std::alloc::{AllocError, Global};

/// A stream of which a front was read.
#[derive(Drop)]
pub struct Streamed {
    /// The digits of the message under way.
    pub digits: Digits,
    pub recorded: Recorded,
}

impl Streamed {
    ghost use Rattle.std.specs.Prelude.{◌≡◌, ◌≢◌, ◌≤◌, ◌++◌, List, ℕ, [], None, IfErr, IfOk, OnOk, length, string_bytes};
    ghost use Rattle.dia_streams.specs.declared.fault.LinesFault.TheVariants.{Device, Endless};
    ghost use Rattle.dia_streams.specs.Streams.{most_places};
    ghost use Rattle.dia_streams.specs.StreamUnderWay.{Ends, IsUnderWay, Reads};

    /// Nothing was read yet.
    pub fn new(alloc: Global) -> Streamed
        ensures half { result.digits.half ≡ None }
        ensures bytes { result.digits.bytes.items ≡ [] }
        ensures at { result.recorded.at ≡ 0 }
        ensures text { string_bytes result.recorded.text ≡ [] }
    {
        Streamed {
            digits: Digits::new(alloc),
            recorded: Recorded::new(alloc),
        }
    }

    /// Reports the messages that end in the next piece. `false` where no message can be found after them.
    pub fn read<J: MessageJudge, W: Watch<(u64, J::Verdict)>>(
        &mut self,
        alloc: Global,
        judge: &J,
        watch: &mut W,
        piece: &[u8],
    ) -> Result<bool, LinesFault>
        ensures device { IfErr result (λ fault. fault ≢ Device) }
        ensures endless { IfErr result (λ fault. fault ≡ Endless → (read : List ℕ)
            (verdicts : List (ℕ × J.Verdict)) → IsUnderWay (J.says judge.now) self.old read verdicts
            → most_places ≤ length (read ++ piece.now)) }
        ensures reads { IfOk result (λ goes_on. Reads (J.says judge.now) (J.recorded judge.now) W.saw
            goes_on self.old self.new watch.old watch.new piece.now) }
    {
        let hexadecimal = self.digits.take(alloc, piece)?;
        let bytes = self.digits.bytes.as_slice();
        let rest = self.recorded.report_whole(alloc, judge, watch, bytes)?;
        if let Some(header) = bad_header(rest) {
            self.recorded.deliver(alloc, judge, watch, header)?;
            return Ok(false);
        }
        if !hexadecimal {
            self.recorded.report_no_digits(judge, watch)?;
            return Ok(false);
        }
        if rest.len() < bytes.len() {
            self.digits.bytes = Vec::from_slice(alloc, rest)?;
        }
        Ok(true)
    }

    /// Reports what is under way, where the text is at its end.
    pub fn end<J: MessageJudge, W: Watch<(u64, J::Verdict)>>(
        &mut self,
        alloc: Global,
        judge: &J,
        watch: &mut W,
    ) -> Result<(), AllocError>
        ensures { OnOk result (Ends (J.says judge.now) (J.recorded judge.now) W.saw
            self.old self.new watch.old watch.new) }
    {
        let bytes = self.digits.bytes.as_slice();
        if self.digits.half.is_some() {
            self.recorded.report_no_digits(judge, watch)
        } else if bytes.is_empty() {
            Ok(())
        } else {
            self.recorded.deliver(alloc, judge, watch, bytes)
        }
    }
}
