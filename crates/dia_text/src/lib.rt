//! Messages as text that people write: a line for each AVP, over any dictionary.
//!
//! `make` answers the bytes of the one message that a text writes, or the first line that can't follow those before it. The first
//! line with a word is the header's: `code N` or a command of the dictionary, then `flags F`, `app N`, `hop N` and `end N`
//! in this order; after a command's name the first two may be left out. Each other line is an AVP, the end of a group, or
//! blank:
//!
//! ```text
//! code 272 flags RP app 4 hop 1 end 2
//! 264 flags M x612e62
//! Auth-Application-Id 4
//! Session-Id "gw.a;1"
//! Host-IP-Address 10.0.0.1
//! 9002/32473 flags VM length 20 x00000001 pad xff
//! CC-Request-Type 1 INITIAL_REQUEST
//! Subscription-Id {
//! } pad x00
//! Proxy-Info { Proxy-Host "c", Proxy-State x01 }
//! # a comment
//! ```
//!
//! A value is `x` and hexadecimal digits, or what the dictionary's format has: a number with or without a word for the reader, a
//! date of a Time, a text in quotes or an address. What is made needn't be valid. `all_faults` has the faults of all lines of a text that makes no message.
#![tactic(auto)]

mod adding;
mod avp_lines;
mod avps;
mod commands;
mod dates;
mod draft;
mod fault;
mod faults;
mod fields;
mod groups;
mod header_lines;
mod keys;
mod laws;
mod line;
mod lines;
mod making;
mod many;
mod names;
mod notes;
mod numbers;
mod pushing;
mod splitting;
mod value_parts;
mod values;
mod words;
mod writing;

pub use fault::{Fault, Kind, Misfit, Misread, NotMade, NotRead, Wanted};
pub use faults::{Faults, MAX_FAULTS, all_faults};
pub use keys::{AvpCode, numbered};
pub use laws::{
    groups_are_read_to_their_end, named_headers_have_their_flags, valid_texts_make_valid_messages,
};
pub use line::{Head, Line};
pub use lines::{header_of, line_of};
pub use making::make;
pub use many::make_all;
pub use names::NamedBook;
pub use writing::{NotWritten, as_text};
