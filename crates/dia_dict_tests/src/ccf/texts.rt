//! Texts and what they are read as.

use crate::words::same;
use dia_ccf::{CcfFault, is_name, parse};

pub(super) const ROWS: &str = r"
let HEAD = <T> ::= < Diameter Header: 300, REQ >

# The first token that does not fit.
 => fine
<T> ::= < => syntax 6 1
$HEAD\n< AVP > => syntax 14 2
$HEAD\x20{ A }\n< B > => syntax 19 2
%avp X\n4294967296 Time any => number 2

# Texts and their canonical texts.
 => renders
t ::= <diameter-header:300 req pxy 5>{X}*[AVP] <Y>::=<AVP Header:9003 0>*2<X> => renders <Y> ::= < AVP Header: 9003 >\n  *2 < X >\n<t> ::= < Diameter Header: 300, REQ, PXY, 5 >\n  { X }\n  * [ AVP ]\n
%avp E 9004 Enumerated any (0..3 7..7 10) => renders %avp E 9004 Enumerated any ( 0..3 7 10 )\n
%avp 3GPP-IMSI 01 vendor 10415 UTF8String mustnot => renders %avp 3GPP-IMSI 1 vendor 10415 UTF8String mustnot\n
T ::= <diameter-header:code err> U ::= <Diameter Header: code, ERR PXY> V ::= <Diameter Header: CODE ERR [PXY]> => renders <T> ::= < Diameter Header: code, ERR >\n<U> ::= < Diameter Header: code, ERR, PXY >\n<V> ::= < Diameter Header: code, ERR [, PXY] >\n

# The example of dia_ccf's docs.
%avp Origin-Host 264 DiameterIdentity must <DWR> ::= <Diameter-Header:280,REQ> {Origin-Host} => renders %avp Origin-Host 264 DiameterIdentity must\n<DWR> ::= < Diameter Header: 280, REQ >\n  { Origin-Host }\n
%avp Origin-Host\nDiameterIdentity => syntax 3 2
";

#[test]
fn a_rule_names_its_slot(rt: HostRuntime) {
    let text = "<T> ::= < Diameter Header: 300, REQ > { A } *[ AVP ]";
    let source = parse(rt.alloc(), text).expect(&rt, text);
    let command = source.commands.first().expect(&rt, "a command");
    for (place, name) in [(0, "A"), (1, "AVP")] {
        let rule = command.rules.get(place).expect(&rt, name);
        assert!(rt; rule.slot_name() == name);
    }
}

#[test]
fn records_names(rt: HostRuntime) {
    let long = "n".repeat(rt.alloc(), 129).expect(&rt, "memory");
    assert!(rt; is_name("3GPP-IMSI") && !is_name(long.as_str()) && !is_name("AVP"));
}

/// The texts of faults.
const RECORDED: [(CcfFault, &str); 5] = [
    (
        CcfFault::Syntax { token: 3, line: 2 },
        "line 2: token 3 is not expected here",
    ),
    (
        CcfFault::Number { line: 5 },
        "line 5: the number is out of range",
    ),
    (CcfFault::Limit { line: 0 }, "the text is too long"),
    (CcfFault::Limit { line: 7 }, "line 7: the name is too long"),
    (CcfFault::NoMemory, "out of memory"),
];

#[test]
fn records_people_of_a_fault(rt: HostRuntime) {
    for (fault, words) in RECORDED.iter() {
        let text = fault.to_string(rt.alloc()).expect(&rt, words);
        same(&rt, text.as_bytes(), words.as_bytes(), words);
    }
}
