//! Sources that name no dictionary, each by its first fault: its kind, and the names that are reported.

use super::read;
use crate::words::same;
use dia_dict::DictFault;
use dia_rows::{Names, Row};
use std::alloc::{AllocError, Global};
use std::process::Abort;

const ROWS: &str = r"
# Each kind, in the order in which they are reported.
%avp X 1 Time any %avp X 1 Grouped any <T> ::= < Diameter Header: 302, REQ > { Z } => DuplicateName X
%avp G 5 Grouped any <T> ::= < Diameter Header: 302, REQ > { Z } => NoGroupFormat G
%avp G 5 Time any <G> ::= < AVP Header: 5 > %avp H 5 Time any => HeaderMismatch G
%avp G 5 Grouped any <G> ::= < AVP Header: 6 > => HeaderMismatch G
%avp A 1 Time any %avp B 1 Time any => DuplicateKey B
<G> ::= < AVP Header: 1 > %avp A 1 Time any => DuplicateKey G
<T> ::= < Diameter Header: 302, REQ > <U> ::= < Diameter Header: 302, REQ, PXY > => DuplicateCommand U
<T> ::= < Diameter Header: code, ERR > <U> ::= < Diameter Header: code, ERR, PXY > => DuplicateCommand U
%avp X 9002 Time any <T> ::= < Diameter Header: 302, REQ > { X } [ Z ] => UndefinedName T Z
<T> ::= < Diameter Header: 302, REQ > { Z } <G> ::= < AVP Header: 5 > { Y } => UndefinedName G Y
%avp X 9002 Time any <T> ::= < Diameter Header: 302, REQ > { X } [ X ] => RepeatedSlot T X
<T> ::= < Diameter Header: 302, REQ > * [ AVP ] * { AVP } => RepeatedSlot T AVP
%avp X 9002 Time any <T> ::= < Diameter Header: 302, REQ > *0 { X } => MinOverMax T X
%avp X 9002 Time any <T> ::= < Diameter Header: 302, REQ > 0*0 { X } => RequiredMin T X
<T> ::= < Diameter Header: 302, REQ > 0* { AVP } => RequiredMin T AVP
%avp X 9002 Time any <T> ::= < Diameter Header: 302, REQ > 1* [ X ] => OptionalMin T X

# A definition has 1,024 rules at most.
let RULE = \x20[ X ]
let T = %avp X 9002 Unsigned32 any <T> ::= < Diameter Header: 302, REQ >
$T$RULE*1024 => RepeatedSlot T X
$T$RULE*1025 => Limit T
";

#[test]
fn records_the_first_fault(rt: HostRuntime) {
    let mut names = Names::new(rt.alloc());
    for line in ROWS.lines() {
        if let Some(row) = names.row(line).expect(&rt, line) {
            records(&rt, &names, &row);
        }
    }
}

/// Checks the fault of the text of a row.
fn records(rt: &(impl AllocGlobal + Abort), names: &Names, row: &Row<'_>) {
    let text = names.text(row.call).expect(rt, row.line);
    let text = str::from_utf8(text.as_slice()).expect(rt, row.line);
    let fault = read(rt, text).err().expect(rt, row.line);
    let found = fault_words(rt.alloc(), &fault).expect(rt, "memory");
    same(rt, found.as_bytes(), row.wanted.as_bytes(), row.line);
}

/// The kind of a fault, and the names that are reported.
fn fault_words(alloc: Global, fault: &DictFault) -> Result<String, AllocError> {
    match fault {
        DictFault::Stands { kind, name, slot } => {
            let mut text = format!(in alloc; "{kind:?}")?;
            for part in [name.as_str(), slot.as_str()] {
                if !part.is_empty() {
                    write!(text, " {part}")?;
                }
            }
            Ok(text)
        }
        DictFault::NoMemory => Err(AllocError),
    }
}

/// A fault's message for people has the names that there are, and no blanks where there are none.
const RECORDED: [(&str, &str); 2] = [
    (
        "<T> ::= < Diameter Header: 302, REQ > { Z }",
        "undefined-name: T Z",
    ),
    ("%avp X 9002 Grouped any", "no-group-format: X"),
];

#[test]
fn records_people_of_a_fault(rt: HostRuntime) {
    for (text, words) in RECORDED.iter() {
        let fault = read(&rt, text).err().expect(&rt, text);
        let recorded = fault.to_string(rt.alloc()).expect(&rt, "memory");
        same(&rt, recorded.as_bytes(), words.as_bytes(), words);
    }
}
