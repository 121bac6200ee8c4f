//! The base dictionary.

use super::answers::same_answers;
use super::{read, same};
use dia_dict::{base_book, base_text, named_is_sound};

/// The 64-bit FNV-1a hash of a text.
fn fnv1a(text: &str) -> u64 {
    let mut hash = 0xcbf2_9ce4_8422_2325;
    for byte in text.as_bytes() {
        hash = (hash ^ u64::from(*byte)).wrapping_mul(0x0000_0100_0000_01b3);
    }
    hash
}

/// The profile's text has these bytes, lines and hash, as counted on a copy of it outside this repository. Proofs tie the
/// text only to `base_source`, which is in this repository too.
#[test]
fn text_is_that_of_the_profile(rt: HostRuntime) {
    let text = base_text();
    same(&rt, &text.len(), &2713);
    same(&rt, &text.lines().count(), &101);
    same(&rt, &fnv1a(text), &0x17ef_583b_7ee3_17da);
}

#[test]
fn base_text_names_the_base_book(rt: HostRuntime) {
    named_is_sound();
    let base = base_book(rt.alloc()).expect(&rt, "memory");
    let read = read(&rt, base_text()).expect(&rt, "the base dictionary");
    same_answers(&rt, &base, &read);
}
