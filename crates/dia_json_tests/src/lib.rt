//! The tests of `dia_json`, `dia_compared_json`, `dia_breaking_places`, and `dia_upgrades_json`: what is put
//! as JSON. They go through public calls alone. There is nothing but tests.
#![tactic(auto)]

#[cfg(test)]
mod answers;
#[cfg(test)]
mod lines;
#[cfg(test)]
mod many;
#[cfg(test)]
mod places;
#[cfg(test)]
mod shown;
#[cfg(test)]
mod tables;
#[cfg(test)]
mod upgrades;
