//! Calls that are refused memory: what is there after it, and the same call again. `.ci/refused` runs each of these tests once
//! for each of its allocations, with that one refused; with ample memory each call gives its answer at once.

ghost use Rattle.std.specs.Prelude.{All};
ghost use Rattle.dia_wire.specs.Wire.{plain_avp, Agrees};

use dia_ccf::{CcfFault, Source, parse, render};
use dia_dict::{Book, DictFault, IndexedBook, PlainBook, base_text, resolve};
use dia_wire::{Avp, Header, PutFault, put_message};
use std::process::Abort;

const FRONT: [u8; 3] = [7, 8, 9];

/// A watchdog request, as it follows the three bytes.
const WANTED: [u8; 47] = [
    7, 8, 9, 1, 0, 0, 44, 0x80, 0, 1, 0x18, 0, 0, 0, 0, 0, 0, 0, 1, 0, 0, 0, 2, 0, 0, 1, 8, 0x40,
    0, 0, 11, b'a', b'.', b'b', 0, 0, 0, 1, 0x28, 0x40, 0, 0, 9, b'b', 0, 0, 0,
];

const HEADER: Header = Header {
    flags: 0x80,
    code: 280,
    app: 0,
    hop: 1,
    e2e: 2,
};

/// Puts the request, twice where memory is refused at first.
fn puts_again(rt: &impl Abort, out: &mut Vec<u8>, avps: &[Avp<'_>])
    requires { All (λ avp. Agrees (plain_avp avp)) avps.now }
{
    if let Err(fault) = put_message(out, &HEADER, avps) {
        is_unchanged(rt, fault, out.as_slice());
        assert!(rt; put_message(out, &HEADER, avps).is_ok());
    }
    assert!(rt; out.as_slice() == WANTED.as_slice());
}

/// Checks that memory was refused, and nothing was put.
fn is_unchanged(rt: &impl Abort, fault: PutFault, out: &[u8]) {
    assert!(rt; matches!(fault, PutFault::NoMemory) && out == FRONT.as_slice());
}

#[test]
fn a_refused_message_leaves_the_bytes_before_it(rt: HostRuntime) {
    let Ok(mut out) = Vec::from_slice(rt.alloc(), &FRONT) else {
        return;
    };
    let avps = [
        Avp {
            code: 264,
            flags: 0x40,
            vendor: None,
            bytes: b"a.b",
        },
        Avp {
            code: 296,
            flags: 0x40,
            vendor: None,
            bytes: b"b",
        },
    ];
    assert!(rt; avps[0].agrees() && avps[1].agrees());
    puts_again(&rt, &mut out, &avps);
}

/// Checks that a source of the base text is rendered as that, at the second time where memory is refused at first.
fn renders_again(rt: &(impl AllocGlobal + Abort), source: &Source) {
    let text = match render(rt.alloc(), source) {
        Ok(text) => Ok(text),
        Err(_) => render(rt.alloc(), source),
    };
    assert!(rt; text.is_ok_and(|text| text.as_str() == base_text()));
}

/// The base text as it is read, at the second time where memory is refused at first.
fn source(rt: &(impl AllocGlobal + Abort)) -> Source {
    let read = match parse(rt.alloc(), base_text()) {
        Err(CcfFault::NoMemory) => parse(rt.alloc(), base_text()),
        read => read,
    };
    read.expect(rt, "a source")
}

#[test]
fn a_refused_text_is_read_and_rendered_again(rt: HostRuntime) {
    renders_again(&rt, &source(&rt));
}

/// The dictionary of the base text, which is resolved again where memory is refused at first.
fn book(rt: &(impl AllocGlobal + Abort)) -> PlainBook {
    let resolved = match resolve(rt.alloc(), source(rt)) {
        Err(DictFault::NoMemory) => resolve(rt.alloc(), source(rt)),
        resolved => resolved,
    };
    resolved.expect(rt, "a dictionary")
}

/// Checks that two dictionaries have the same entries, by name and in their order.
fn same_entries(rt: &impl Abort, a: &PlainBook, b: &IndexedBook) {
    assert!(rt; a.entries() == 24 && b.entries() == 24);
    for place in 0..a.entries().min(b.entries()) {
        let (one, other) = (a.entry_at(place), b.entry_at(place));
        assert!(rt; a.entry_name(one) == b.entry_name(other));
    }
}

#[test]
fn a_refused_dictionary_is_indexed_again(rt: HostRuntime) {
    let plain = book(&rt);
    let indexed = match IndexedBook::new(rt.alloc(), &plain) {
        Ok(indexed) => Ok(indexed),
        Err(_) => IndexedBook::new(rt.alloc(), &plain),
    };
    match indexed {
        Ok(indexed) => same_entries(&rt, &plain, &indexed),
        Err(_) => assert!(rt; false),
    }
}
