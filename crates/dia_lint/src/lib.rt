//! What a dictionary says in vain, and where it leaves RFC 6733: findings as values, over any book.
//!
//! Exact findings follow from what a valid message is. Guidelines are by the rules of commands alone, and have a section of an RFC
//! each.
#![tactic(auto)]

mod base_avps;
mod base_table;
mod books;
mod commands;
mod costs;
mod definitions;
mod detail;
mod exact;
mod finding;
mod guidelines;
mod held;
mod laws;
mod levels;
mod listed;
mod normal;
mod overlaps;
mod own_rules;
mod reached;
mod rule;
mod same_commands;
mod twice;
mod unreached;

pub use base_avps::BaseAvp;
pub use base_table::BaseRow;
pub use detail::Detail;
pub use exact::exact_findings;
pub use finding::{Finding, Named, Place, Subject};
pub use guidelines::{command_guidelines, group_guidelines, guideline_findings};
pub use held::held_avps;
pub use laws::{messages_without_rules, rules_of_one_form, rules_that_say_nothing};
pub use own_rules::rule_findings;
pub use rule::{RULE_COUNT, Rule, RuleSet, all_rules};
pub use same_commands::command_findings;
pub use twice::range_findings;
