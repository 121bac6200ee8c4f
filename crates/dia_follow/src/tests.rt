use crate::{Connection, End, Judged, Line, Reason, read};
use std::process::Abort;

/// A DWR as the first message of a connection.
#[test]
fn a_step_answers_departures(rt: HostRuntime) {
    has_no_cer(&rt);
}

fn has_no_cer(rt: &(impl AllocGlobal + Abort)) {
    let alloc = rt.alloc();
    let dwr = b"\x01\x00\x00\x14\x80\x00\x01\x18\x00\x00\x00\x00\x00\x00\x00\x07\x00\x00\x00\x07";
    let seen = read(alloc, dwr).expect(rt, "memory");
    let line = Line {
        number: 1,
        time: None,
        bytes: dwr,
        seen,
        judged: Judged::Unasked,
    };
    let mut connection = Connection::new(alloc);
    let found = connection
        .step(alloc, End::Initiator, &line)
        .expect(rt, "memory");
    assert!(rt; found.as_slice() == [Reason::NoCer].as_slice());
    let unanswered = connection
        .unanswered(alloc, End::Initiator)
        .expect(rt, "memory");
    assert!(rt; unanswered.len() == 1);
}
