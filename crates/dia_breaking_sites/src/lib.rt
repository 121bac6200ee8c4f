//! What the sender's side sends, and when each message of it is valid under the receiver's dictionary.
//!
//! A site is a pair of definitions, one of each dictionary, by which one level of a message is read. The laws say that sites
//! at which nothing breaks, and out of which no group leads, show that no message breaks. How such sites are found is left to
//! the caller.
#![tactic(auto)]

mod open;
mod safe;
mod sent;

pub use dia_terms::Sends;
pub use open::is_open;
pub use safe::{
    few_headers_report, levels_are_read, levels_keep_to_room, safe_sites_include,
    safe_sites_read_levels,
};
pub use sent::{sent_is_valid, valid_is_sent, wider_sends_more};
