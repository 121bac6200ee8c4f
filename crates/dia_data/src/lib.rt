//! The data formats of AVPs (RFC 6733 sections 4.2 and 4.3): which data each accepts, which of them accepts all that
//! another does, and their values as text.
//!
//! ```text
//! let data = [0, 0, 0x28, 0xaf];
//! assert!(rt; accepts(&Format::Unsigned32, &data) == Leaf::Fine);
//! assert!(rt; accepts(&Format::Unsigned64, &data) == Leaf::BadLength);
//! assert_eq!(rt; print_value(alloc, &Format::Unsigned32, &data)?.as_str(), "10415");
//!
//! let two_values = Format::Enumerated(Values::new(alloc, vec![in alloc; (0, 1)]?)?);
//! assert!(rt; accepts(&two_values, &data) == Leaf::BadValue);
//! assert!(rt; format_below(&two_values, &Format::Integer32));
//! assert!(rt; !format_below(&Format::Integer32, &two_values));
//! ```
#![tactic(auto)]

mod accept;
mod below;
mod format;
mod front;
mod leaf_state;
mod print;
mod range_set;
mod seen_text;
mod values;

pub use accept::{Leaf, accepts};
pub use below::{format_below, inclusion};
pub use format::{Format, FormatKind, Reading};
pub use leaf_state::{LeafState, SeenData};
pub use print::{print_value, push_decimal, push_hex_byte, push_value};
pub use values::Values;
