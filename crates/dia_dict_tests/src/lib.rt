//! The tests of `dia_wire`, `dia_data`, `dia_breaking_data`, `dia_ccf`, `dia_dict` and `dia_text`, by library: each goes through
//! public calls alone. There is nothing but tests.
#![tactic(auto)]

#[cfg(test)]
mod ccf;
#[cfg(test)]
mod data;
#[cfg(test)]
mod dict;
#[cfg(test)]
mod refused;
#[cfg(test)]
mod text;
#[cfg(test)]
mod wire;
#[cfg(test)]
mod words;
