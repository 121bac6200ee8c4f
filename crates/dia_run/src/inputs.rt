//! What the texts of the inputs say.

pub mod dictionary;
pub mod message;
pub mod pieces;
pub mod table;
