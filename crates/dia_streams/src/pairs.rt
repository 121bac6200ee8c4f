//! The bytes that hexadecimal digits spell, when all digits are there.

ghost use Rattle.std.specs.Prelude.{◌≡◌, ◌≤◌, ◌*◌, length, take, Ok, IfOk, IfSome, IsNone, IsOk, IsTrue};
ghost use Rattle.hex.specs.Hex.{decode_of};
ghost use Rattle.dia_streams.specs.StreamUnderWay.{value_or_none};

use std::alloc::{AllocError, Global};

/// What `value` answers of a character that is no digit.
const NO_DIGIT: u8 = 255;

/// The bit that makes an upper case letter a lower case one.
const LOWER_CASE: u8 = 0x20;

/// Decodes pairs of digits of either letter case into the front of the space, which is made longer where it is too short. Answers
/// how many bytes they spell; `None` where a character is no digit, or a digit has no other.
pub fn decode_digits(
    alloc: Global,
    digits: &[u8],
    space: &mut Vec<u8>,
) -> Result<Option<usize>, AllocError>
    ensures within { IfOk result (λ spelled. IfSome spelled (λ count. count ≤ length space.new.items)) }
    ensures spelled { IfOk result (λ spelled. IfSome spelled
        (λ count. decode_of digits.now ≡ Ok (take count space.new.items))) }
    ensures none { IfOk result (λ spelled. IsNone spelled → ¬ IsOk (decode_of digits.now)) }
{
    if digits.len() % 2 != 0 {
        return Ok(None);
    }
    let count = digits.len() / 2;
    if space.len() < count {
        *space = vec![in alloc; 0u8; count]?;
    }
    if decode_pairs(digits, space.as_mut_slice(), count) {
        Ok(Some(count))
    } else {
        Ok(None)
    }
}

/// Decodes so many pairs of digits into the front of the bytes, and returns whether all are digits. Where one isn't, the bytes
/// mean nothing.
///
/// The loop doesn't branch on what it reads, so it takes several digits at a time once it is compiled, as long as it is in a
/// function of its own.
#[inline(never)]
fn decode_pairs(digits: &[u8], bytes: &mut [u8], count: usize) -> bool
    requires pairs { length digits.now ≡ 2 * count }
    requires room { count ≤ length bytes.old }
    ensures spelled { IsTrue result → decode_of digits.now ≡ Ok (take count bytes.new) }
    ensures none { ¬ IsTrue result → ¬ IsOk (decode_of digits.now) }
    ensures length { length bytes.new ≡ length bytes.old }
{
    let mut seen = 0u8;
    'pairs: for i in 0..count {
        let high = value(digits[2 * i]);
        let low = value(digits[2 * i + 1]);
        bytes[i] = high.wrapping_mul(16).wrapping_add(low);
        seen |= high | low;
    }
    seen < 16
}

/// The value of a digit, or `NO_DIGIT`.
fn value(character: u8) -> u8
    ensures { result ≡ value_or_none character }
{
    let digit = character.wrapping_sub(b'0');
    let letter = (character | LOWER_CASE).wrapping_sub(b'a');
    if digit < 10 {
        digit
    } else if letter < 6 {
        letter + 10
    } else {
        NO_DIGIT
    }
}
