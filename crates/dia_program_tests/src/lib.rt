//! The tests of `dia_program`: whole runs over values, by their words and files. There is nothing but tests.
#![tactic(auto)]

#[cfg(test)]
mod running;
#[cfg(test)]
mod runs;
