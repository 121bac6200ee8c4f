//! Two ends under schedules that lose, repeat and reorder their messages.

use super::drawing::Draw;
use super::{Ends, end, first, second};
use dia_check::{Levels, Unknown, check};
use dia_dict::{IndexedBook, base_book};
use dia_peer::{App, Cause, Core, Event, Kind, Output, Role, State, Why};
use std::alloc::Global;
use std::process::Abort;

const SCHEDULES: u64 = 300;

const EVENTS: usize = 60;

/// The messages that an end has sent, and why it closed.
#[derive(Drop)]
struct Record {
    sent: Vec<Vec<u8>>,
    why: Option<Why>,
}

impl Record {
    fn add(&mut self, rt: &impl Abort, outputs: Vec<Output>) {
        for output in outputs {
            match output {
                Output::Send(bytes) => self.sent.push(bytes).ok().expect(rt, "memory"),
                Output::Close(why) => self.why = Some(why),
            }
        }
    }
}

/// What both ends have done, and the applications that both configurations hold.
#[derive(Drop)]
struct History {
    initiator: Record,
    responder: Record,
    shared: Vec<(Kind, u32)>,
}

impl History {
    fn new(alloc: Global, shared: Vec<(Kind, u32)>) -> History {
        History {
            initiator: Record {
                sent: Vec::new(alloc),
                why: None,
            },
            responder: Record {
                sent: Vec::new(alloc),
                why: None,
            },
            shared,
        }
    }

    /// An event at one of the ends.
    fn goes_on(&mut self, rt: &impl Abort, draw: &mut Draw, ends: &mut Ends) {
        if draw.one_in(2) {
            let other = &self.responder;
            happens(rt, draw, &mut ends.initiator, &mut self.initiator, other);
        } else {
            let other = &self.initiator;
            happens(rt, draw, &mut ends.responder, &mut self.responder, other);
        }
    }

    /// An end that is open holds the shared applications, and the initiator is not the first to open.
    fn agrees(&self, rt: &impl Abort, ends: &Ends) {
        holds(rt, &ends.initiator, &self.shared);
        holds(rt, &ends.responder, &self.shared);
        if ends.initiator.state() == State::Open {
            let other = ends.responder.state();
            assert!(rt; matches!(other, State::Open | State::WaitDpa | State::Closed));
        }
    }

    /// At an open responder the CER gets the CEA that was sent, and nothing changes.
    fn repeats(&self, rt: &impl Abort, responder: &mut Core) {
        if responder.state() != State::Open {
            return;
        }
        let cer = self.initiator.sent.first().expect(rt, "a CER");
        let cea = self.responder.sent.first().expect(rt, "a CEA");
        let outputs = responder.step(Event::Bytes(cer)).expect(rt, "memory");
        assert!(rt; is_one(&outputs, cea));
        assert!(rt; responder.state() == State::Open);
        holds(rt, responder, &self.shared);
    }

    /// Each message that was sent is valid under the base dictionary.
    fn is_valid(&self, rt: &(impl AllocGlobal + Abort), book: &IndexedBook) {
        for bytes in self.initiator.sent.iter().chain(self.responder.sent.iter()) {
            let found = check(rt.alloc(), book, Unknown::Kept, Levels::Any, bytes);
            assert!(rt; found.is_ok());
        }
    }
}

fn holds(rt: &impl Abort, core: &Core, shared: &[(Kind, u32)]) {
    if core.state() == State::Open {
        assert!(rt; !shared.is_empty());
        assert!(rt; core.common() == shared);
    }
}

/// Whether this message is sent, and nothing else is done.
fn is_one(outputs: &[Output], message: &[u8]) -> bool {
    match outputs {
        [Output::Send(bytes)] => bytes.as_slice() == message,
        _ => false,
    }
}

/// An event of one end: most often the delivery of any message that the other has ever sent.
fn happens(rt: &impl Abort, draw: &mut Draw, core: &mut Core, own: &mut Record, other: &Record) {
    if let Some(event) = drawn(draw, other) {
        let outputs = core.step(event).expect(rt, "memory");
        own.add(rt, outputs);
    }
}

fn drawn<'a>(draw: &mut Draw, other: &'a Record) -> Option<Event<'a>> {
    match draw.below(24) {
        0..=4 => Some(Event::Start),
        5 | 6 => Some(Event::Tick),
        7 if draw.one_in(3) => Some(Event::Stop(Cause::DoNotWant)),
        8 if draw.one_in(8) => Some(Event::Lost),
        _ => {
            let bytes = draw.pick(&other.sent)?;
            Some(Event::Bytes(bytes))
        }
    }
}

/// The ends of a schedule, with configurations that are drawn.
fn begun(rt: &(impl AllocGlobal + Abort), draw: &mut Draw, ours: &[App], theirs: &[App]) -> Ends {
    let mut a = first(rt.alloc(), ours).expect(rt, "memory");
    let mut b = second(rt.alloc(), theirs).expect(rt, "memory");
    if draw.one_in(2) {
        a.state_id = Some(7);
        b.state_id = Some(u32::MAX);
    }
    a.hop = u32::MAX;
    Ends {
        initiator: end(rt, a, Role::Initiator),
        responder: end(rt, b, Role::Responder),
    }
}

/// The applications that both have, Auth first and then by number.
fn shared(rt: &(impl AllocGlobal + Abort), ours: &[App], theirs: &[App]) -> Vec<(Kind, u32)> {
    let mut pairs = Vec::new(rt.alloc());
    for kind in [Kind::Auth, Kind::Acct] {
        for id in 1..4 {
            if has(ours, kind, id) && has(theirs, kind, id) {
                pairs.push((kind, id)).ok().expect(rt, "memory");
            }
        }
    }
    pairs
}

fn has(apps: &[App], kind: Kind, id: u32) -> bool {
    apps.iter().any(|app| app.kind == kind && app.id == id)
}

/// What the schedules came by.
#[derive(Drop)]
struct Reached {
    states: Vec<(Role, State)>,
    whys: Vec<Option<Why>>,
}

impl Reached {
    fn add(&mut self, rt: &impl Abort, ends: &Ends, history: &History) {
        add(
            rt,
            &mut self.states,
            (Role::Initiator, ends.initiator.state()),
        );
        add(
            rt,
            &mut self.states,
            (Role::Responder, ends.responder.state()),
        );
        add(rt, &mut self.whys, history.initiator.why);
        add(rt, &mut self.whys, history.responder.why);
    }

    /// One schedule.
    fn run(&mut self, rt: &(impl AllocGlobal + Abort), book: &IndexedBook, seed: u64) {
        let mut draw = Draw::new(seed);
        let ours = draw.apps(rt);
        let theirs = draw.apps(rt);
        let mut history = History::new(rt.alloc(), shared(rt, &ours, &theirs));
        let mut ends = begun(rt, &mut draw, &ours, &theirs);
        for _ in 0..EVENTS {
            history.goes_on(rt, &mut draw, &mut ends);
            history.agrees(rt, &ends);
            self.add(rt, &ends, &history);
        }
        history.repeats(rt, &mut ends.responder);
        history.is_valid(rt, book);
    }
}

/// Adds what isn't there yet.
fn add<T: PartialEq + Copy>(rt: &impl Abort, list: &mut Vec<T>, found: T) {
    if !list.contains(&found) {
        list.push(found).ok().expect(rt, "memory");
    }
}

#[test]
fn ends_agree_whatever_is_delivered(rt: HostRuntime) {
    let plain = base_book(rt.alloc()).expect(&rt, "memory");
    let book = IndexedBook::new(rt.alloc(), &plain).expect(&rt, "memory");
    let mut reached = Reached {
        states: Vec::new(rt.alloc()),
        whys: Vec::new(rt.alloc()),
    };
    for seed in 0..SCHEDULES {
        reached.run(&rt, &book, seed);
    }
    // Five states each: only an initiator waits for a CEA, only a responder for a CER.
    assert!(rt; reached.states.len() == 10);
    // No message of an end is refused as invalid, and no CEA has another result code: five reasons, and none.
    assert!(rt; !reached.whys.contains(&Some(Why::Invalid)));
    assert!(rt; !reached.whys.contains(&Some(Why::Refused)));
    assert!(rt; reached.whys.len() == 6);
}
