//! The base text where memory runs out somewhere: every call answers that, or what it answers with ample memory.

use super::answers::same_answers;
use dia_ccf::{CcfFault, Source, parse};
use dia_dict::{DictFault, IndexedBook, PlainBook, base_book, base_text, resolve};
use std::process::Abort;

/// Checks that a base dictionary with tables answers as it should.
fn answers(rt: &(impl AllocGlobal + Abort), indexed: &IndexedBook) {
    if let Ok(plain) = base_book(rt.alloc()) {
        same_answers(rt, &plain, indexed);
    }
}

/// Checks that the base dictionary is indexed, or that memory is refused.
fn indexes(rt: &(impl AllocGlobal + Abort), plain: PlainBook) {
    if let Ok(indexed) = IndexedBook::new(rt.alloc(), &plain) {
        answers(rt, &indexed);
    }
}

/// Checks that the base text names the base dictionary, or that memory is refused.
fn resolves(rt: &(impl AllocGlobal + Abort), source: Source) {
    match resolve(rt.alloc(), source) {
        Ok(plain) => indexes(rt, plain),
        Err(fault) => assert!(rt; matches!(fault, DictFault::NoMemory)),
    }
}

#[test]
fn the_base_text_is_indexed_or_memory_is_refused(rt: HostRuntime) {
    match parse(rt.alloc(), base_text()) {
        Ok(source) => resolves(&rt, source),
        Err(fault) => assert!(rt; matches!(fault, CcfFault::NoMemory)),
    }
}
