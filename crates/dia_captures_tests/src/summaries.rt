//! What runs put, and their summaries.

use crate::runs::{Run, runs};
use std::alloc::{AllocError, Global};

/// Two valid requests, one without its Origin-Realm, one that is cut, an empty line, one with a byte after it, a text that isn't
/// hexadecimal, and one with an AVP that isn't known.
const LINES: &str = "\
0100002c80000118000000000000000100000002000001084000000b612e6200000001284000000962000000
0100002080000118000000000000000100000002000001084000000b612e6200
0100002c80000118
0100002c80000118000000000000000100000002000001084000000b612e6200000001284000000962000000

0100002c80000118000000000000000100000002000001084000000b612e620000000128400000096200000000
x
010000348000011800000000000000010000000200ffffff00000008000001084000000b612e6200000001284000000962000000
";

const CHECKED: &str = "\
valid DWR
fault 5005 at 32 missing Origin-Realm
truncated
valid DWR
truncated
trailing
message: not hexadecimal
fault 5001 at 20 unknown 16777215:0
";

const SUMMARY: &str = "\
2 of 8 lines valid
2 x truncated, first in line 3
1 x fault 5005 missing Origin-Realm, first in line 2
1 x trailing, first in line 6
1 x message: not hexadecimal, first in line 7
1 x fault 5001 unknown 16777215:0, first in line 8
";

#[test]
fn counts_the_lines_of_check(rt: HostRuntime) {
    runs(&rt, Run::CheckLines, LINES, CHECKED, SUMMARY);
}

const REFUTED: &str = "\
refutes
does not refute
does not refute
refutes
does not refute
does not refute
message: not hexadecimal
does not refute
";

#[test]
fn counts_the_lines_of_refute(rt: HostRuntime) {
    let summary = "2 of 8 lines refute\n1 x message: not hexadecimal, first in line 7\n";
    runs(&rt, Run::RefuteLines, LINES, REFUTED, summary);
}

/// A valid request, twice one without AVPs, and half a digit.
const STREAM: &str = "\
0100002c80000118000000000000000100000002000001084000000b612e6200000001284000000962000000
0100001480000118000000000000000100000002 0100001480000118000000000000000100000002 0
";

#[test]
fn counts_the_messages_of_a_stream(rt: HostRuntime) {
    let put =
        "0 valid DWR\n44 fault 5005 at 20 missing Origin-Host\n64 fault 5005 at 20 missing Origin-Host\n\
        84 message: not hexadecimal\n";
    let summary = "1 of 4 messages valid\n2 x fault 5005 missing Origin-Host, first at byte 44\n\
        1 x message: not hexadecimal, first at byte 84\n";
    runs(&rt, Run::CheckStream, STREAM, put, summary);
}

/// A run over requests that have an unknown AVP each.
#[derive(Drop)]
struct Many {
    text: String,
    put: String,
    summary: String,
}

/// 103 reasons, each once, and then the first one again: the first 100 have a line of their own.
fn unknown_avps(alloc: Global) -> Result<Many, AllocError> {
    let mut text = String::new(alloc);
    let mut put = String::new(alloc);
    for code in 1_000_001u32..1_000_104 {
        push_unknown(&mut text, &mut put, code)?;
    }
    push_unknown(&mut text, &mut put, 1_000_001)?;
    let mut summary = String::new(alloc);
    summary.push_str("0 of 104 lines valid\n2 x fault 5001 unknown 1000001:0, first in line 1\n")?;
    for line in 2u32..101 {
        let code = 1_000_000 + line;
        write!(
            summary,
            "1 x fault 5001 unknown {code}:0, first in line {line}\n"
        )?;
    }
    summary.push_str("3 x other reasons, first in line 101\n")?;
    Ok(Many { text, put, summary })
}

/// Adds a request with an AVP of this code alone, and its verdict.
fn push_unknown(text: &mut String, put: &mut String, code: u32) -> Result<(), AllocError> {
    write!(
        text,
        "0100001c80000118000000000000000100000002{code:08x}00000008\n"
    )?;
    write!(put, "fault 5001 at 20 unknown {code}:0\n")
}

#[test]
fn counts_other_reasons_together(rt: HostRuntime) {
    let many = unknown_avps(rt.alloc()).expect(&rt, "memory");
    let Many { text, put, summary } = many;
    runs(
        &rt,
        Run::CheckLines,
        text.as_str(),
        put.as_str(),
        summary.as_str(),
    );
}
