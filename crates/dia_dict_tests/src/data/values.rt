//! The numbers of an Enumerated format.

use super::is_leaf;
use byteorder::{BigEndian, ByteOrder};
use dia_data::{Format, Leaf, Values, accepts, format_below};
use std::alloc::{AllocError, Global};
use std::process::Abort;

/// Checks whether a number is one of an Enumerated format.
fn lists(rt: &impl Abort, format: &Format, number: u32, listed: bool) {
    let answer = if listed { Leaf::Fine } else { Leaf::BadValue };
    let mut bytes = [0; 4];
    BigEndian::write_u32(&mut bytes, number);
    is_leaf(rt, accepts(format, &bytes), answer, "a listed number");
}

const WRITTEN: [(u32, u32); 5] = [(7, 9), (3, 2), (0, 3), (4, 4), (8, 12)];

/// A list is printed as it was written. Of the first numbers it holds those up to 4, and from 7 to 12.
#[test]
fn keeps_the_list_as_written(rt: HostRuntime) {
    assert!(rt; Values::any().list().is_none());
    let written = Vec::from_slice(rt.alloc(), &WRITTEN).expect(&rt, "memory");
    let values = Values::new(rt.alloc(), written).expect(&rt, "memory");
    assert!(rt; values.list() == Some(WRITTEN.as_slice()));
    has_first(&rt, &Format::Enumerated(values));
}

/// Checks which of the first numbers the list holds.
fn has_first(rt: &impl Abort, format: &Format) {
    for number in 0..15 {
        let listed = number <= 4 || (7..=12).contains(&number);
        lists(rt, format, number, listed);
    }
}

/// The ranges `(3 * i, 3 * i + 1)` below 9000, the last first.
fn many_ranges(alloc: Global) -> Result<Vec<(u32, u32)>, AllocError> {
    let mut written = Vec::new(alloc);
    for i in 0..3000u32 {
        let low = 3 * (2999 - i);
        written.push((low, low + 1))?;
    }
    Ok(written)
}

/// Checks which numbers are in these ranges.
fn has_each(rt: &impl Abort, format: &Format) {
    for number in 0..9001 {
        lists(rt, format, number, number % 3 < 2 && number < 9000);
    }
    assert!(rt; format_below(format, format));
}

#[test]
fn finds_each_number_of_many_ranges(rt: HostRuntime) {
    let written = many_ranges(rt.alloc()).expect(&rt, "memory");
    let values = Values::new(rt.alloc(), written).expect(&rt, "memory");
    has_each(&rt, &Format::Enumerated(values));
}
