//! The texts of the faults of dia_check and dia_compat.

use crate::words::same;
use dia_check::{Fault, Reason, Refusal, StreamFault, Subject};
use dia_compat::{ProposeFault, TableFault};
use std::fmt::Display;
use std::process::Abort;

/// Checks the text of a fault.
fn says<E: Display>(rt: &(impl AllocGlobal + Abort), fault: &E, words: &str) {
    let text = fault.to_string(rt.alloc()).expect(rt, words);
    same(rt, text.as_bytes(), words.as_bytes(), words);
}

const FAULT: Refusal = Refusal::Fault(Fault {
    place: 0,
    code: 5011,
    reason: Reason::Version,
    subject: Subject::Nothing,
});

#[test]
fn records_people_of_a_message(rt: HostRuntime) {
    says(&rt, &FAULT, "the message has a fault");
    says(&rt, &Refusal::Truncated, "the message is truncated");
    says(&rt, &Refusal::Trailing, "bytes follow the message");
    says(&rt, &Refusal::NoMemory, "out of memory");
    says(&rt, &Refusal::Spent, "the stream is spent");
    says(&rt, &StreamFault::NoMemory, "out of memory");
    says(
        &rt,
        &StreamFault::Spent,
        "the stream was refused memory before",
    );
}

#[test]
fn records_people_of_a_table(rt: HostRuntime) {
    says(
        &rt,
        &TableFault::Syntax { line: 3 },
        "line 3: no pair of names",
    );
    says(&rt, &TableFault::Limit { line: 0 }, "the text is too long");
    says(
        &rt,
        &TableFault::Limit { line: 7 },
        "line 7: too many pairs, or too long a name",
    );
    says(&rt, &TableFault::NoMemory, "out of memory");
    let name = String::from_str(rt.alloc(), "Q").expect(&rt, "memory");
    says(&rt, &ProposeFault::UnknownCommand { name }, "no command Q");
    says(&rt, &ProposeFault::NoMemory, "out of memory");
}
