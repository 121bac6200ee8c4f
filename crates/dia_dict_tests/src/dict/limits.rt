//! Sources at their limits, and above them.

use super::{declarations, read};
use dia_dict::{Book, DictFault, DictKind};

/// Whether a fault is that there is too much, of no name.
fn is_limit(fault: &DictFault) -> bool {
    match fault {
        DictFault::Stands { kind, name, slot } => {
            *kind == DictKind::Limit && name.is_empty() && slot.is_empty()
        }
        DictFault::NoMemory => false,
    }
}

#[test]
fn a_source_has_16384_parts_at_most(rt: HostRuntime) {
    let most = declarations(rt.alloc(), 16384).expect(&rt, "memory");
    let book = read(&rt, most.as_str()).expect(&rt, "a dictionary");
    assert!(rt; book.entries() == 16384);
    let more = declarations(rt.alloc(), 16385).expect(&rt, "memory");
    let fault = read(&rt, more.as_str()).err().expect(&rt, "a fault");
    assert!(rt; is_limit(&fault));
}
