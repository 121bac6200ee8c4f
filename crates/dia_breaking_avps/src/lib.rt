//! Which AVPs of a key break by themselves: by their M flag or by their data, whatever is around them.
#![tactic(auto)]

mod addresses;
mod avp;
mod breaking;
mod flags;
mod forms;
mod laws;

pub use avp::avp_breaks;
pub use breaking::{AvpBreaks, DataBreak, HeadBreak};
pub use dia_book::{Book, DefId};
pub use dia_breaking_data::Witness;
pub use dia_terms::{Sends, Unknown};
pub use dia_wire::Key;
pub use laws::{keys_fit_alone, short_levels_are_accepted, shorter_data_are_accepted};
