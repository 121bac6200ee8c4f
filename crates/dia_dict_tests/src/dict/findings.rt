//! All faults of a source, each with what has it and what it does not go with.

use crate::words::same;
use dia_ccf::parse;
use dia_dict::{Finding, Part, PartKind, faults};
use std::alloc::{AllocError, Global};
use std::process::Abort;

/// The second A is reported for its name, and not compared with B.
const TEXT: &str = "
%avp A 1 Time any
%avp A 2 Time any
%avp B 2 Grouped any
%avp C 1 Time any
%avp H 7 Time any
<G> ::= < AVP Header: 5 > { X } { X }
<H> ::= < AVP Header: 7 >
<T> ::= < Diameter Header: 302, REQ > { A } 1*0 [ X ]
<U> ::= < Diameter Header: 302, REQ >
";

const WANTED: &[&str] = &[
    "duplicate-name A: declaration 1, declaration 0",
    "no-group-format B: declaration 2, none",
    "header-mismatch H: group 1, declaration 4",
    "duplicate-key C: declaration 3, declaration 0",
    "duplicate-command U: command 1, command 0",
    "undefined-name G X: group 0 rule 0, none",
    "undefined-name G X: group 0 rule 1, none",
    "undefined-name T X: command 0 rule 1, none",
    "repeated-slot G X: group 0 rule 1, group 0 rule 0",
    "min-over-max T X: command 0 rule 1, none",
    "optional-min T X: command 0 rule 1, none",
];

#[test]
fn records_all_faults_with_their_places(rt: HostRuntime) {
    let source = parse(rt.alloc(), TEXT).expect(&rt, TEXT);
    let findings = faults(rt.alloc(), &source).expect(&rt, "memory");
    assert!(rt; findings.len() == WANTED.len());
    for (finding, wanted) in findings.iter().zip(WANTED.iter()) {
        let words = words_of(rt.alloc(), finding).expect(&rt, "memory");
        same(&rt, words.as_bytes(), wanted.as_bytes(), wanted);
    }
}

fn words_of(alloc: Global, finding: &Finding<'_>) -> Result<String, AllocError> {
    let mut out = String::new(alloc);
    let kind = finding.recorded.kind;
    let name = finding.recorded.name;
    let slot = finding.recorded.slot;
    write!(out, "{kind} {name}")?;
    if !slot.is_empty() {
        write!(out, " {slot}")?;
    }
    out.push_str(": ")?;
    push_part(&mut out, finding.part)?;
    out.push_str(", ")?;
    push_part(&mut out, finding.other)?;
    Ok(out)
}

fn push_part(out: &mut String, part: Option<Part>) -> Result<(), AllocError> {
    let Some(part) = part else {
        return out.push_str("none");
    };
    let kind = match part.kind {
        PartKind::Declaration => "declaration",
        PartKind::Group => "group",
        PartKind::Command => "command",
    };
    let index = part.index;
    write!(out, "{kind} {index}")?;
    if let Some(rule) = part.rule {
        write!(out, " rule {rule}")?;
    }
    Ok(())
}
