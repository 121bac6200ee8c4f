//! The tests of `dia_check`, `dia_faults`, `dia_compat`, `dia_peer` and `dia_run`, by library: each goes through
//! public calls alone. `rows` has what both kinds of book answer, and what `run` of `dia_run` writes; `devices` are some that
//! fail, and `refused` has calls that are refused memory. There is nothing but tests.
#![tactic(auto)]

#[cfg(test)]
mod books;
#[cfg(test)]
mod check;
#[cfg(test)]
mod comparing;
#[cfg(test)]
mod devices;
#[cfg(test)]
mod faults;
#[cfg(test)]
mod limits;
#[cfg(test)]
mod peer;
#[cfg(test)]
mod recorded;
#[cfg(test)]
mod refused;
#[cfg(test)]
mod rows;
#[cfg(test)]
mod running;
#[cfg(test)]
mod words;
