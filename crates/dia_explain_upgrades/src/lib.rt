//! What standard error reports of an answer of `breaking`: where both dictionaries have what each cause is about and what can be
//! changed, how many lines and causes there are, also where less is sent, AVPs that no message has that is sent and that would
//! break, AVPs that are read as another format, an application whose messages are compared with none, names that are two AVPs,
//! why the list of accepted lines is refused, which of its lines are of no use any more, and what a dictionary has that has no
//! commands.
#![tactic(auto)]

mod causes;
mod less;
mod list;
mod namesakes;
mod tally;
mod unchosen;
mod unsent;
mod upgrade;
mod without_commands;

pub use upgrade::explain_upgrade;
