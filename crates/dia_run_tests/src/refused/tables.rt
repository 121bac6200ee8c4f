//! Tables that are read, compared by, and proposed.

use super::book_of;
use dia_check::Unknown;
use dia_compat::{Answer, ProposeFault, Table, TableFault, check_table, parse_table, propose};
use dia_dict::{Book, PlainBook, base_book};
use std::alloc::{AllocError, Global};
use std::process::Abort;

/// Each command of the base dictionary with itself, and each of its AVPs.
const TABLE: &str = "\
command CER = CER
command CEA = CEA
command DWR = DWR
command DWA = DWA
command DPR = DPR
command DPA = DPA
command answer-message = answer-message
avp User-Name = User-Name
avp Proxy-State = Proxy-State
avp Host-IP-Address = Host-IP-Address
avp Auth-Application-Id = Auth-Application-Id
avp Acct-Application-Id = Acct-Application-Id
avp Session-Id = Session-Id
avp Origin-Host = Origin-Host
avp Supported-Vendor-Id = Supported-Vendor-Id
avp Vendor-Id = Vendor-Id
avp Firmware-Revision = Firmware-Revision
avp Result-Code = Result-Code
avp Product-Name = Product-Name
avp Disconnect-Cause = Disconnect-Cause
avp Origin-State-Id = Origin-State-Id
avp Proxy-Host = Proxy-Host
avp Error-Message = Error-Message
avp Error-Reporting-Host = Error-Reporting-Host
avp Origin-Realm = Origin-Realm
avp Experimental-Result-Code = Experimental-Result-Code
avp Inband-Security-Id = Inband-Security-Id
avp Vendor-Specific-Application-Id = Vendor-Specific-Application-Id
avp Failed-AVP = Failed-AVP
avp Proxy-Info = Proxy-Info
avp Experimental-Result = Experimental-Result
";

/// The table, which is read twice where memory is refused at first.
fn table(rt: &(impl AllocGlobal + Abort)) -> Table {
    let read = match parse_table(rt.alloc(), TABLE) {
        Err(TableFault::NoMemory) => parse_table(rt.alloc(), TABLE),
        read => read,
    };
    read.expect(rt, "a table")
}

/// Compares a dictionary with itself, twice where memory is refused at first.
fn compares_again<B: Book>(rt: &(impl AllocGlobal + Abort), book: &B, table: &Table) {
    let answer = match check_table(rt.alloc(), book, book, Unknown::Kept, table) {
        Err(AllocError) => check_table(rt.alloc(), book, book, Unknown::Kept, table),
        answer => answer,
    };
    assert!(rt; answer == Ok(Answer::Yes));
}

#[test]
fn a_refused_comparison_answers_again(rt: HostRuntime) {
    if let Ok(book) = base_book(rt.alloc()) {
        compares_again(&rt, &book, &table(&rt));
    }
}

const A: &str = "%avp X 9002 Unsigned32 any
<T> ::= < Diameter Header: 302, REQ > { X } * [ AVP ]
";

const B: &str = "%avp X 9002 Unsigned32 any
%avp Y 9003 Unsigned32 any
<T> ::= < Diameter Header: 302, REQ > { X } * [ AVP ]
";

/// Whether a list is the pair of a name with itself.
fn is_pair(pairs: &[(String, String)], name: &str) -> bool {
    match pairs {
        [(a, b)] => a.as_str() == name && b.as_str() == name,
        _ => false,
    }
}

/// Proposes a table for a command, twice where memory is refused at first.
fn proposes_again(rt: &(impl AllocGlobal + Abort), a: &PlainBook, b: &PlainBook, names: &[String]) {
    let proposed = match propose(rt.alloc(), a, b, Unknown::Refused, names) {
        Err(ProposeFault::NoMemory) => propose(rt.alloc(), a, b, Unknown::Refused, names),
        proposed => proposed,
    };
    let table = proposed.expect(rt, "a table");
    assert!(rt; is_pair(&table.commands, "T") && is_pair(&table.avps, "X"));
}

/// The name of the command.
fn names(alloc: Global) -> Result<Vec<String>, AllocError> {
    let name = String::from_str(alloc, "T")?;
    Ok(vec![in alloc; name]?)
}

#[test]
fn a_refused_proposal_answers_again(rt: HostRuntime) {
    let Ok(names) = names(rt.alloc()) else {
        return;
    };
    let Some(a) = book_of(rt.alloc(), A) else {
        return;
    };
    if let Some(b) = book_of(rt.alloc(), B) {
        proposes_again(&rt, &a, &b, names.as_slice());
    }
}
