//! The tests of what breaks between two dictionaries, by public calls alone: `worked`, `senders`, `meanings`, `budgets` and
//! `refusals` of dia_breaking, `formats` and `flags` of dia_breaking_avps, `ways` of dia_breaking_ways, and `unsent` of
//! dia_unsent. There is nothing but tests.
#![tactic(auto)]

#[cfg(test)]
mod books;
#[cfg(test)]
mod budgets;
#[cfg(test)]
mod flags;
#[cfg(test)]
mod formats;
#[cfg(test)]
mod meanings;
#[cfg(test)]
mod refusals;
#[cfg(test)]
mod senders;
#[cfg(test)]
mod unsent;
#[cfg(test)]
mod ways;
#[cfg(test)]
mod worked;
