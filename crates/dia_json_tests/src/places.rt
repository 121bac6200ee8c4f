//! Where texts have what a line of `breaking` is about.

use dia_breaking_places::{Marks, Matter, MatterKind, Places, first_place, second_place};
use dia_ccf::parse;
use std::alloc::Global;
use std::test::Fail;

/// A group and a command, with an AVP that has no declaration in B's text below.
const FIRST: &str =
    "%avp X 9001 Time any\n%avp Z 9003 Time any\n<G> ::= < AVP Header: 9100 > * [ X ]\n\
    <T> ::= < Diameter Header: 302, REQ, PXY > { G } [ AVP ]";

/// X is Y here, G is H, and T is U, for any application and for one.
const SECOND: &str = "<H> ::= < AVP Header: 9100 > 2*3 { Y } %avp Y 9001 Time must\n\
    <U> ::= < Diameter Header: 302, REQ > { H }\n<U5> ::= < Diameter Header: 302, REQ, 5 > [ H ]";

/// The offsets in both texts of what a line is about.
fn offsets(
    alloc: Global,
    kind: MatterKind,
    application: Option<u32>,
    group: Option<&str>,
    subject: &str,
) -> Result<(Option<usize>, Option<usize>), Fail> {
    let (one, other) = (parse(alloc, FIRST)?, parse(alloc, SECOND)?);
    let first = Places::new(alloc, &one)?;
    let second = Places::new(alloc, &other)?;
    let matter = Matter {
        kind,
        command: "T",
        application,
        group,
        subject,
    };
    Ok((
        first_place(&first, matter),
        second_place(alloc, &first, &second, matter)?,
    ))
}

#[test]
fn places_are_those_of_the_same_numbers(rt: HostRuntime) -> Result<(), Fail> {
    let alloc = rt.alloc();
    let head = offsets(alloc, MatterKind::Head, None, None, "-")?;
    assert!(rt; head == (FIRST.find("<T>"), SECOND.find("<U>")));
    let named = offsets(alloc, MatterKind::Head, Some(5), None, "-")?;
    assert!(rt; named == (FIRST.find("<T>"), SECOND.find("<U5>")));
    let rule = offsets(alloc, MatterKind::Rule, None, Some("G"), "X")?;
    assert!(rt; rule == (FIRST.find("* [ X ]"), SECOND.find("2*3")));
    let wildcard = offsets(alloc, MatterKind::Rule, None, None, "Z")?;
    assert!(rt; wildcard == (FIRST.find("[ AVP ]"), SECOND.find("<U>")));
    let group = offsets(alloc, MatterKind::Rule, None, None, "G")?;
    assert!(rt; group == (FIRST.find("{ G }"), SECOND.find("{ H }")));
    let avp = offsets(alloc, MatterKind::Avp, None, None, "X")?;
    assert!(rt; avp == (FIRST.find("%avp X"), SECOND.find("%avp Y")));
    let lacking = offsets(alloc, MatterKind::Avp, None, None, "Z")?;
    assert!(rt; lacking == (FIRST.find("%avp Z"), None));
    Ok(())
}

#[test]
fn marks_have_lines_and_characters(rt: HostRuntime) -> Result<(), Fail> {
    let alloc = rt.alloc();
    let mut text = String::new(alloc);
    for _ in 0..70 {
        text.push('\u{e4}')?;
    }
    text.push_str("\nx")?;
    let marks = Marks::new(alloc, text.as_bytes())?;
    let rows = [
        (0, 1, 1),
        (64, 1, 33),
        (65, 1, 34),
        (140, 1, 71),
        (141, 2, 1),
        (142, 2, 2),
    ];
    for (at, line, column) in rows {
        let place = marks.place(at);
        assert!(rt; place.line == line && place.column == column);
    }
    Ok(())
}
