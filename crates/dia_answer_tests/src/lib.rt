//! The tests of `dia_answer`: `rows` has requests with their answers in bytes. There is nothing but tests.
#![tactic(auto)]

#[cfg(test)]
mod dictionaries;
#[cfg(test)]
mod lines;
#[cfg(test)]
mod requests;
#[cfg(test)]
mod rows;
