//! The tests of `dia_cli`: the example of its docs, and what its clauses say nothing of: devices of std that fail, and files.
//! `.ci/cases` has the words of the command line. There is nothing but tests.
#![tactic(auto)]

#[cfg(test)]
mod endings;
#[cfg(test)]
mod example;
#[cfg(test)]
mod named;
#[cfg(test)]
mod opened_inputs;
#[cfg(test)]
mod printed;
