//! The AVPs that no message has that is sent.
ghost use Rattle.std.specs.Prelude.{◌≡◌, ◌≢◌, ◌<◌, All, IfOk, length, map};
ghost use Rattle.dia_terms.specs.declared.Sends.{Sends};
ghost use Rattle.dia_lint.specs.Held.{held_at};
ghost use Rattle.dia_breaking.specs.Upgrades.{costs_in, sides_of};
ghost use Rattle.dia_unsent.specs.Unsent.{AreUnsent, Describes, unheld};

use dia_book::{Book, Entry};
use dia_breaking::Upgrade;
use dia_lint::held_avps;
use std::alloc::{AllocError, Global};

/// An AVP of A's dictionary that no message has that A's side sends.
#[derive(Drop)]
pub struct Unsent {
    pub entry: Entry,
    pub name: String,
    /// Whether B's side would refuse it by itself, or a level of it.
    pub would_break: bool,
}

/// The AVPs of A's dictionary that no message has that A's side sends, of any command, in the dictionary's order; not for
/// `Filled`. The only error is an allocation failure.
pub fn unsent_avps<A: Book, B: Book>(
    alloc: Global,
    upgrade: &Upgrade<'_, A, B>,
) -> Result<Vec<Unsent>, AllocError>
    requires { (sides_of upgrade.now).sends ≢ Sends.Filled }
    ensures exactly { IfOk result (λ avps.
        AreUnsent (sides_of upgrade.now).sender (sides_of upgrade.now).sends (map (λ avp. avp.entry) avps.items)) }
    ensures each { IfOk result (λ avps. All (Describes (sides_of upgrade.now) (costs_in upgrade.now)) avps.items) }
{
    let held = held_avps(alloc, upgrade.sender(), upgrade.sends())?;
    unheld_avps(alloc, upgrade, &held)
}

/// The AVPs that aren't held, in the dictionary's order.
fn unheld_avps<A: Book, B: Book>(
    alloc: Global,
    upgrade: &Upgrade<'_, A, B>,
    held: &[bool],
) -> Result<Vec<Unsent>, AllocError>
    ensures exactly { IfOk result (λ avps.
        map (λ avp. avp.entry) avps.items ≡ unheld held.now (length (sides_of upgrade.now).sender.entries)) }
    ensures each { IfOk result (λ avps. All (Describes (sides_of upgrade.now) (costs_in upgrade.now)) avps.items) }
{
    let book = upgrade.sender();
    let mut avps = Vec::new(alloc);
    for index in 0..book.entries() {
        if !is_held(held, index) {
            avps.push(described(alloc, upgrade, book.entry_at(index))?)?;
        }
    }
    Ok(avps)
}

fn is_held(held: &[bool], index: usize) -> bool
    ensures { result ≡ held_at held.now index }
{
    held.get(index).copied().unwrap_or(false)
}

fn described<A: Book, B: Book>(
    alloc: Global,
    upgrade: &Upgrade<'_, A, B>,
    entry: Entry,
) -> Result<Unsent, AllocError>
    requires { entry < length (sides_of upgrade.now).sender.entries }
    ensures entry { IfOk result (λ avp. avp.entry ≡ entry) }
    ensures described { IfOk result (Describes (sides_of upgrade.now) (costs_in upgrade.now)) }
{
    let book = upgrade.sender();
    let would_break = upgrade.refuses(alloc, book.entry_key(entry))?;
    let name = String::from_str(alloc, book.entry_name(entry))?;
    Ok(Unsent {
        entry,
        name,
        would_break,
    })
}
