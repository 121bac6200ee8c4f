//! The tests of `dia_examples` and `dia_examples_text`. There is nothing but tests.
#![tactic(auto)]

#[cfg(test)]
mod answers;
#[cfg(test)]
mod rows;
#[cfg(test)]
mod vectors;
