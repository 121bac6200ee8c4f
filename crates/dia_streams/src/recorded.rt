//! The messages of a stream that were reported.

ghost use Rattle.std.specs.Prelude.{◌≡◌};

use crate::fault::LinesFault;
use crate::message_judge::MessageJudge;
use crate::messages::first_message;
use crate::watch::Watch;
use std::alloc::{AllocError, Global};

/// The lines of the messages that are whole.
#[derive(Debug, Drop)]
pub struct Recorded {
    /// Where the next message begins, in bytes of the stream.
    pub at: u64,
    /// The lines that weren't put yet.
    pub text: String,
}

impl Recorded {
    ghost use Rattle.std.specs.Prelude.{◌≡◌, ◌≢◌, ◌≤◌, ◌+◌, None, Some, [], Err, IfErr, IfOk, OnOk, length, string_bytes};
    ghost use Rattle.dia_streams.specs.declared.fault.LinesFault.TheVariants.{Device, Endless};
    ghost use Rattle.dia_streams.specs.Streams.{most_places};
    ghost use Rattle.dia_streams.specs.StreamUnderWay.{Adds, BeginsNone, RecordsWhole};

    /// Nothing was reported yet.
    pub fn new(alloc: Global) -> Recorded
        ensures at { result.at ≡ 0 }
        ensures text { string_bytes result.text ≡ [] }
    {
        Recorded {
            at: 0,
            text: String::new(alloc),
        }
    }

    /// Reports the messages at the front of the bytes. Answers the rest of the bytes.
    pub fn report_whole<'b, J: MessageJudge, W: Watch<(u64, J::Verdict)>>(
        &mut self,
        alloc: Global,
        judge: &J,
        watch: &mut W,
        bytes: &'b [u8],
    ) -> Result<&'b [u8], LinesFault>
        ensures device { IfErr result (λ fault. fault ≢ Device) }
        ensures endless { IfErr result (λ fault. fault ≡ Endless
            → most_places ≤ self.old.at + length bytes.entry.now) }
        ensures recorded { IfOk result (λ rest. RecordsWhole (J.says judge.now) (J.recorded judge.now) W.saw
            self.old self.new watch.old watch.new bytes.entry.now rest.now) }
        ensures none { IfOk result (λ rest. BeginsNone rest.now) }
    {
        let mut rest = bytes;
        while let Some((message, following)) = first_message(rest) {
            self.deliver(alloc, judge, watch, message)?;
            self.pass(message.len())?;
            rest = following;
        }
        Ok(rest)
    }

    /// Reports the verdict on these bytes.
    pub fn deliver<J: MessageJudge, W: Watch<(u64, J::Verdict)>>(
        &mut self,
        alloc: Global,
        judge: &J,
        watch: &mut W,
        bytes: &[u8],
    ) -> Result<(), AllocError>
        ensures { OnOk result ((verdict : J.Verdict) × J.says judge.now (Some bytes.now) verdict
            × Adds (J.recorded judge.now) W.saw self.old self.new watch.old watch.new verdict) }
    {
        let verdict = judge.judge(alloc, self.at, bytes, &mut self.text)?;
        watch.see((self.at, verdict));
        Ok(())
    }

    /// Reports the verdict on a text that isn't hexadecimal.
    pub fn report_no_digits<J: MessageJudge, W: Watch<(u64, J::Verdict)>>(
        &mut self,
        judge: &J,
        watch: &mut W,
    ) -> Result<(), AllocError>
        ensures { OnOk result ((verdict : J.Verdict) × J.says judge.now None verdict
            × Adds (J.recorded judge.now) W.saw self.old self.new watch.old watch.new verdict) }
    {
        let verdict = judge.judge_no_digits(self.at, &mut self.text)?;
        watch.see((self.at, verdict));
        Ok(())
    }

    /// The next message begins after so many bytes.
    fn pass(&mut self, length: usize) -> Result<(), LinesFault>
        ensures at { OnOk result (self.new.at ≡ self.old.at + length) }
        ensures text { self.new.text ≡ self.old.text }
        ensures err { IfErr result (λ fault. fault ≡ Endless) }
        ensures many { IfErr result (λ _. most_places ≤ self.old.at + length) }
    {
        match self.at.checked_add(length as u64) {
            Some(at) => {
                self.at = at;
                Ok(())
            }
            None => Err(LinesFault::Endless),
        }
    }
}
