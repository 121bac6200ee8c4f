//! The tests of `dia_lint` and `dia_lint_text`: `rows` has dictionaries with the lines of their findings, and `held` with the AVPs
//! that messages have. There is nothing but tests.
#![tactic(auto)]

#[cfg(test)]
mod held;
#[cfg(test)]
mod rows;
#[cfg(test)]
mod texts;
