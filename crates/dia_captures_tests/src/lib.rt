//! The tests of `dia_captures`: what each run puts, and its summary. They go through public calls alone. There is nothing but
//! tests.
#![tactic(auto)]

#[cfg(test)]
mod runs;
#[cfg(test)]
mod summaries;
