//! The bytes that the text of a message spells, a piece at a time.

ghost use Rattle.std.specs.Prelude.{◌≡◌, ◌<◌, ◌≤◌, ◌⊎◌, length, take, IfOk, IfErr};
ghost use Rattle.dia_run.specs.Texts.{SpellsFirst, SpellsNone, digits_of};

use dia_report::BadMessage;
use dia_terms::is_white;
use hex::decode_to_slice;

/// The most bytes of a piece.
pub const MAX_PIECE: usize = 4096;

/// The most digits of a piece.
const MAX_DIGITS: usize = 2 * MAX_PIECE;

/// The next bytes of a text, at the front of a buffer.
#[derive(Clone, Copy)]
pub struct Piece<'a> {
    pub length: usize,
    /// The text that follows them.
    pub rest: &'a [u8],
}

/// The next digits of a text, at the front of a buffer.
#[derive(Clone, Copy)]
struct Digits {
    count: usize,
    /// How many bytes of the text they take, with their white space.
    taken: usize,
}

/// Decodes the next bytes of a text.
///
/// Digits without white space between them are decoded where they lie.
pub fn next_piece<'a>(text: &'a [u8], bytes: &mut [u8; MAX_PIECE]) -> Result<Piece<'a>, BadMessage>
    ensures spells { IfOk result (λ piece.
        SpellsFirst text.entry.now (take piece.length bytes.new) piece.rest.now) }
    ensures within { IfOk result (λ piece. piece.length ≤ 4096) }
    ensures shorter { 0 < length text.entry.now
        → IfOk result (λ piece. length piece.rest.now < length text.entry.now) }
    ensures err { IfErr result (λ bad.
        (bad ≡ BadMessage.NotHexadecimal) × SpellsNone text.entry.now) }
{
    let count = text.len().min(MAX_DIGITS);
    let length = count / 2;
    match decode_to_slice(&text[..count], &mut bytes[..length]) {
        Ok(()) => Ok(Piece {
            length,
            rest: &text[count..],
        }),
        Err(_) => next_digits(text, bytes),
    }
}

/// Decodes the next bytes of a text, whose digits are gathered first.
fn next_digits<'a>(text: &'a [u8], bytes: &mut [u8; MAX_PIECE]) -> Result<Piece<'a>, BadMessage>
    ensures spells { IfOk result (λ piece.
        SpellsFirst text.entry.now (take piece.length bytes.new) piece.rest.now) }
    ensures within { IfOk result (λ piece. piece.length ≤ 4096) }
    ensures shorter { 0 < length text.entry.now
        → IfOk result (λ piece. length piece.rest.now < length text.entry.now) }
    ensures err { IfErr result (λ bad.
        (bad ≡ BadMessage.NotHexadecimal) × SpellsNone text.entry.now) }
{
    let mut digits = [0u8; MAX_DIGITS];
    let Digits { count, taken } = take_digits(text, &mut digits);
    let length = count / 2;
    match decode_to_slice(&digits[..count], &mut bytes[..length]) {
        Ok(()) => Ok(Piece {
            length,
            rest: &text[taken..],
        }),
        Err(_) => Err(BadMessage::NotHexadecimal),
    }
}

/// Gathers the digits at the front of a text, as many as there is room for.
fn take_digits(text: &[u8], digits: &mut [u8; MAX_DIGITS]) -> Digits
    ensures digits { take result.count digits.new ≡ digits_of (take result.taken text.now) }
    ensures within { (result.count ≤ 8192) × (result.taken ≤ length text.now) }
    ensures some { 0 < length text.now → 0 < result.taken }
    ensures all { (result.count ≡ 8192) ⊎ (result.taken ≡ length text.now) }
{
    let mut count = 0;
    let mut taken = 0;
    while count < MAX_DIGITS && taken < text.len() {
        let byte = text[taken];
        if !is_white(byte) {
            digits[count] = byte;
            count += 1;
        }
        taken += 1;
    }
    Digits { count, taken }
}
