//! A text where memory runs out somewhere: the call answers that, or what it answers with ample memory.

use dia_dict::{PlainBook, base_book};
use dia_text::{NotMade, NotWritten, as_text, make};
use std::process::Abort;

/// A request with a group of the base dictionary.
const TEXT: &[u8] = b"DWR hop 1 end 2
Failed-AVP {
  Vendor-Id 7 pad x
}
";

/// Its bytes: 20 of the header, 8 of Failed-AVP (279 is 117) and 12 of Vendor-Id (266 is 10a).
const WANTED: [u8; 40] = [
    1, 0, 0, 40, 0x80, 0, 1, 0x18, 0, 0, 0, 0, 0, 0, 0, 1, 0, 0, 0, 2, 0, 0, 1, 0x17, 0x40, 0, 0,
    20, 0, 0, 1, 0x0a, 0x40, 0, 0, 12, 0, 0, 0, 7,
];

#[test]
fn a_message_is_made_and_written_or_memory_is_refused(rt: HostRuntime) {
    if let Ok(book) = base_book(rt.alloc()) {
        makes(&rt, &book);
        writes(&rt, &book);
    }
}

/// The text that is written of it.
const WRITTEN: &str = "DWR hop 1 end 2
Failed-AVP {
Vendor-Id 7
}
";

/// Checks that the message is made, or that memory is refused.
fn makes(rt: &(impl AllocGlobal + Abort), book: &PlainBook) {
    match make(rt.alloc(), book, TEXT) {
        Ok(message) => assert!(rt; message.as_slice() == WANTED.as_slice()),
        Err(fault) => assert!(rt; matches!(fault, NotMade::NoMemory)),
    }
}

/// Checks that the text is written, or that memory is refused.
fn writes(rt: &(impl AllocGlobal + Abort), book: &PlainBook) {
    match as_text(rt.alloc(), book, &WANTED) {
        Ok(text) => assert!(rt; text.as_str() == WRITTEN),
        Err(fault) => assert!(rt; matches!(fault, NotWritten::NoMemory)),
    }
}
