//! Values as text.

use dia_data::{Format, push_decimal, push_value};
use std::alloc::AllocError;

pub(super) const ROWS: &str = r#"
print Integer32 ffffffff => -1
print Integer32 00 => x00
print Integer64 fffffffffffffffe => -2
print Enumerated 80000000 => -2147483648
print Unsigned32 ffffffff => 4294967295
print Time 00000100 => 256
print Unsigned64 ffffffffffffffff => 18446744073709551615
print UTF8String 22c3a961 => "\x22\xc3\xa9a"
print UTF8String 5c207e7f0a => "\x5c ~\x7f\x0a"
print UTF8String c3 => xc3
print DiameterIdentity 612e62 => "a.b"
print DiameterIdentity => x
print DiameterURI 6161613a2f2f68 => "aaa://h"
print Address 000220010db8000000000000000000000001 => 2001:0db8:0000:0000:0000:0000:0000:0001
print Address 00017f000001 => 127.0.0.1
print Address 0003aabb => family 3 xaabb
print Address 0002aabb => x0002aabb
print Float32 3f800000 => x3f800000
print Float64 00 => x00
print Grouped abcd => xabcd
print OctetString => x
print QoSFilterRule 70 => x70
"#;

#[test]
fn adds_numbers_and_values(rt: HostRuntime) {
    let mut line = String::new(rt.alloc());
    add(&mut line).expect(&rt, "memory");
    assert!(rt; line.as_str() == "0 9 10 99 100 999 1000 65536 18446744073709551615 256x");
}

/// Adds numbers of each count of digits that is printed in its own way, each with a space after it; then a value, and data that
/// the format doesn't accept.
fn add(line: &mut String) -> Result<(), AllocError> {
    for number in [0, 9, 10, 99, 100, 999, 1000, 65_536, u64::MAX] {
        push_decimal(line, number)?;
        line.push(' ')?;
    }
    push_value(line, &Format::Time, b"\x00\x00\x01\x00")?;
    push_value(line, &Format::Time, b"")
}
