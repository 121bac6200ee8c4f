//! `show` with words of values and names, over values. `.ci/named.py` has its cases.

use dia_dict::{base_book, base_text};
use dia_run::{Exit, FromReader, Input, Inputs, ToWriter};
use dia_show::{Manner, ValuesFault, read_words, show, show_lines, show_message};
use std::alloc::Global;
use std::test::Fail;

/// A Disconnect-Peer-Request with the Disconnect-Cause 0, which is REBOOTING (RFC 6733 section 5.4.3).
const REQUEST: &str = "010000208000011a000000000000000100000002000001114000000c00000000";

const BYTES: [u8; 32] = [
    1, 0, 0, 32, 0x80, 0, 1, 26, 0, 0, 0, 0, 0, 0, 0, 1, 0, 0, 0, 2, 0, 0, 1, 17, 0x40, 0, 0, 12,
    0, 0, 0, 0,
];

const WORDS: &str = "# RFC 6733\nDisconnect-Cause 0 REBOOTING\n";

/// What is shown of it.
const LINES: &str =
    "header flags R--- code 282 DPR app 0 hop 1 end 2 length 32\n20 0 273 - -M- 12 Disconnect-Cause 0 REBOOTING\n";

fn input(alloc: Global, text: &str) -> Result<Input, Fail> {
    Ok(Input::Bytes(Vec::from_slice(alloc, text.as_bytes())?))
}

#[test]
fn a_message_is_shown_with_words_and_names(rt: HostRuntime) -> Result<(), Fail> {
    let alloc = rt.alloc();
    let inputs = Inputs {
        first: input(alloc, base_text())?,
        second: input(alloc, "")?,
        table: input(alloc, WORDS)?,
        message: input(alloc, REQUEST)?,
    };
    let mut sink = ToWriter::new(Vec::new(alloc));
    let shown = show(alloc, true, &inputs, &mut sink)?;
    assert!(rt; shown.exit == Exit::Yes);
    assert!(rt; sink.writer.as_slice() == LINES.as_bytes());
    Ok(())
}

/// The request, half a byte, and the request again without a line feed after it.
const MESSAGES: &str = "\
010000208000011a000000000000000100000002000001114000000c00000000
0
010000208000011a000000000000000100000002000001114000000c00000000";

/// What is shown of these lines.
const NUMBERED: &str = "\
line 1
header flags R--- code 282 DPR app 0 hop 1 end 2 length 32
20 0 273 - -M- 12 Disconnect-Cause 0 REBOOTING
line 2
message: not hexadecimal
line 3
header flags R--- code 282 DPR app 0 hop 1 end 2 length 32
20 0 273 - -M- 12 Disconnect-Cause 0 REBOOTING
";

#[test]
fn each_line_is_shown_after_its_number(rt: HostRuntime) -> Result<(), Fail> {
    let alloc = rt.alloc();
    let inputs = Inputs {
        first: input(alloc, base_text())?,
        second: input(alloc, "")?,
        table: input(alloc, WORDS)?,
        message: input(alloc, "")?,
    };
    let mut feed = FromReader::new(MESSAGES.as_bytes());
    let mut sink = ToWriter::new(Vec::new(alloc));
    let Ok(shown) = show_lines(alloc, true, &inputs, &mut feed, &mut sink) else {
        return Err(Fail::from("the lines aren't shown"));
    };
    assert!(rt; shown.exit == Exit::No);
    assert!(rt; sink.writer.as_slice() == NUMBERED.as_bytes());
    Ok(())
}

#[test]
fn bytes_are_shown_so_too(rt: HostRuntime) -> Result<(), Fail> {
    let alloc = rt.alloc();
    let Ok(words) = read_words(alloc, WORDS) else {
        return Err(Fail::from("the words aren't read"));
    };
    assert!(rt; words.get("Disconnect-Cause", "0") == Some("REBOOTING"));
    assert!(rt; words.get("Disconnect-Cause", "1").is_none());
    let manner = Manner { words, names: true };
    let book = base_book(alloc)?;
    let Ok(shown) = show_message(alloc, &manner, &book, &BYTES) else {
        return Err(Fail::from("the message is refused"));
    };
    assert!(rt; shown.text.as_str() == LINES);
    Ok(())
}

#[test]
fn a_text_that_is_none_of_words_is_refused(rt: HostRuntime) {
    let read = read_words(
        rt.alloc(),
        "Disconnect-Cause 0 REBOOTING\n\nDisconnect-Cause 00 X\n",
    );
    assert!(rt; matches!(read, Err(ValuesFault::Syntax { line: 3 })));
}
