//! Runs over texts that are given, under the base dictionary.

use dia_captures::{Captured, check_lines, check_stream, refute_lines};
use dia_check::{Levels, Unknown};
use dia_dict::base_text;
use dia_io::{FromReader, Input, Inputs, ToWriter};
use std::alloc::{AllocError, Global};
use std::process::Abort;

/// A run over a text.
#[derive(Clone, Copy)]
pub enum Run {
    CheckLines,
    /// With the empty dictionary as the second.
    RefuteLines,
    CheckStream,
}

/// Asserts what a run over a text puts, and its summary. AVPs that the base dictionary doesn't know are refused.
pub fn runs(rt: &(impl AllocGlobal + Abort), run: Run, text: &str, put: &str, summary: &str) {
    let alloc = rt.alloc();
    let inputs = inputs(alloc).expect(rt, "memory");
    let mut feed = FromReader::new(text.as_bytes());
    let mut sink = ToWriter::new(Vec::new(alloc));
    let (unknown, levels) = (Unknown::Refused, Levels::Any);
    let captured = match run {
        Run::CheckLines => check_lines(alloc, unknown, levels, &inputs, &mut feed, &mut sink),
        Run::RefuteLines => refute_lines(alloc, unknown, levels, &inputs, &mut feed, &mut sink),
        Run::CheckStream => check_stream(alloc, unknown, levels, &inputs, &mut feed, &mut sink),
    };
    assert!(rt; sink.writer.as_slice() == put.as_bytes());
    assert!(rt; captured.is_ok_and(|captured| is_summary(&captured, summary)));
}

fn is_summary(captured: &Captured, wanted: &str) -> bool {
    match &captured.summary {
        Some(Ok(summary)) => summary.as_str() == wanted,
        _ => false,
    }
}

fn inputs(alloc: Global) -> Result<Inputs, AllocError> {
    Ok(Inputs {
        first: Input::Bytes(Vec::from_slice(alloc, base_text().as_bytes())?),
        second: Input::Bytes(Vec::new(alloc)),
        table: Input::Bytes(Vec::new(alloc)),
        message: Input::Bytes(Vec::new(alloc)),
    })
}
