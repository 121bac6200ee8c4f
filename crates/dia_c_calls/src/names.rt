//! Names of commands and AVPs.

ghost use Rattle.std.specs.Prelude.{◌⊎◌, None, ◌≡◌, ◌≤◌, ◌<◌, ◌-◌, IfSome, IsTrue, length, take, drop, min};
ghost use Rattle.dia_book.specs.Dictionary.{definitions, entry_of, groups};
ghost use Rattle.dia_c_calls.specs.Names.{IsCommandName, IsAvpName};

use crate::status::{DONE, NO_ROOM};
use dia_book::{Book, DefId, Key};

/// The name of the command with this definition.
pub fn command_name<B: Book>(book: &B, command: u32) -> Option<&str>
    ensures some { IfSome result (λ name. IsCommandName (B.meaning book.now) command name.now) }
    ensures none { result ≡ None → (length (definitions (B.meaning book.now)) ≤ command)
        ⊎ (command < length (groups (B.meaning book.now))) }
    ensures command { IfSome result (λ _. length (groups (B.meaning book.now)) ≤ command) }
{
    let count = book.commands();
    if count == 0 {
        return None;
    }
    let first = book.command_at(0).index();
    let place = command as usize;
    if place < first || place - first >= count {
        return None;
    }
    Some(book.def(DefId::new(place)).name.as_str())
}

/// The name of the AVP with this key.
pub fn avp_name<B: Book>(book: &B, key: Key) -> Option<&str>
    ensures some { IfSome result (λ name. IsAvpName (B.meaning book.now) key name.now) }
    ensures none { result ≡ None → entry_of (B.meaning book.now) key ≡ None }
{
    let entry = book.avp(key)?;
    Some(book.entry_name(entry))
}

/// Copies a name out where there is room for it.
pub fn copied(name: &str, out: &mut [u8], count: &mut usize) -> u32
    ensures count { count.new ≡ length name.now }
    ensures kept { length out.new ≡ length out.old }
    ensures done { result ≡ DONE → (length name.now ≤ length out.new) × (take (length name.now) out.new ≡ name.now) }
    ensures rest { result ≡ DONE → drop (length name.now) out.new ≡ drop (length name.now) out.old }
    ensures room { result ≡ NO_ROOM → length out.new < length name.now }
    ensures untouched { result ≡ NO_ROOM → out.new ≡ out.old }
    ensures ends { (result ≡ DONE) ⊎ (result ≡ NO_ROOM) }
{
    *count = name.len();
    if copied_whole(name.as_bytes(), out) {
        DONE
    } else {
        NO_ROOM
    }
}

/// Copies bytes out where there is room for all of them, and answers whether there is.
pub fn copied_whole(bytes: &[u8], out: &mut [u8]) -> bool
    ensures kept { length out.new ≡ length out.old }
    ensures done { IsTrue result → (length bytes.now ≤ length out.new) × (take (length bytes.now) out.new ≡ bytes.now) }
    ensures rest { IsTrue result → drop (length bytes.now) out.new ≡ drop (length bytes.now) out.old }
    ensures room { ¬ IsTrue result → length out.new < length bytes.now }
    ensures untouched { ¬ IsTrue result → out.new ≡ out.old }
{
    if bytes.len() > out.len() {
        return false;
    }
    out[..bytes.len()].copy_from_slice(bytes);
    true
}

/// Copies the bytes from a place on, as many as there is room for. Answers how many.
pub fn copied_from(bytes: &[u8], from: usize, out: &mut [u8]) -> usize
    ensures count { result ≡ min (length out.old) (length bytes.now - from) }
    ensures copied { take result out.new ≡ take result (drop from bytes.now) }
    ensures rest { drop result out.new ≡ drop result out.old }
{
    if from >= bytes.len() {
        return 0;
    }
    let rest = &bytes[from..];
    let count = rest.len().min(out.len());
    out[..count].copy_from_slice(&rest[..count]);
    count
}
