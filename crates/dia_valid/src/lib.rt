//! Which messages are valid (`specs/Valid`), what the rules of a definition say of a key, which command a header selects,
//! and what a table of pairs includes, as definitions and lemmas, for what checks messages and what compares
//! dictionaries; there is no code.
#![tactic(auto)]
