ghost use Rattle.std.specs.Prelude.{◌≡◌, ◌<◌, ◌≤◌, ◌+◌, ◌++◌, [], IfOk, IfErr, OnOk};
ghost use Rattle.std.specs.Prelude.{Some, length, map, option_to_list, slice_get, string_bytes};
ghost use Rattle.std.specs.List.{filter_map};
ghost use Rattle.dia_book.specs.Dictionary.{DictEntry};
ghost use Rattle.dia_compat.specs.TableText.{plain_table, plain_pair, most_pairs};
ghost use Rattle.dia_compat.specs.WrittenTable.{IsWritable};
ghost use Rattle.dia_compat.specs.Proposed.{IsProposal, IsLeast, IsRefusal};
ghost use Rattle.dia_compat.specs.NamedCommands.{shared_pair, NamedSoFar};

mod naming;
mod reaching;
mod wanting;

use crate::comparing::{Commands, Sides, names_of_commands};
use crate::table::{Table, push_pair};
use dia_book::{Book, Entry};
use dia_terms::Unknown;
use indexmap::IndexSet;
use naming::NamedCommands;
use reaching::Reached;
use std::alloc::{AllocError, Global};
use thiserror::Error;

/// Why no table is proposed.
#[derive(Debug, Drop, Error)]
pub enum ProposeFault {
    /// The first name of which the first dictionary has no command.
    #[error("no command {name}")]
    UnknownCommand { name: String },
    /// Memory was refused.
    #[error("out of memory")]
    NoMemory,
}

/// The least table for the named commands of the first dictionary, as `compare` asks for it under this policy.
///
/// Each named command is in it at its first mention, with the definitions of the second dictionary that may be
/// selected for its messages, in that dictionary's order, or with its own name where there is none. An AVP
/// has a pair where both dictionaries know it, and a named command, or a group that has a pair, lets it in and asks for the
/// pair. These are in the first dictionary's order. So where no table that lists the commands passes, neither does this
/// one.
///
/// It takes time in proportion to the names, to both dictionaries and to the definitions that it reaches, up to a
/// logarithm: a command of the first dictionary is compared only with those of its code in the second. `UnknownCommand` has
/// the first name of which the first dictionary has no command. `NoMemory` comes only where memory was refused.
pub fn propose<A: Book, B: Book>(
    alloc: Global,
    a: &A,
    b: &B,
    unknown: Unknown,
    names: &[String],
) -> Result<Table, ProposeFault>
    ensures proposal { IfOk result (λ table. IsProposal (A.meaning a.now) (B.meaning b.now) unknown
        (map (λ n. string_bytes n) names.now) (plain_table table)) }
    ensures least { IfOk result (λ table. IsLeast (A.meaning a.now) (B.meaning b.now) unknown
        (map (λ n. string_bytes n) names.now) (plain_table table)) }
    // A table within the limit of pairs is read back from the text that `render_table` writes of it.
    ensures writable { IfOk result (λ table.
        length (plain_table table).commands + length (plain_table table).avps ≤ most_pairs
        → IsWritable (plain_table table)) }
    ensures refusal { IfErr result
        (IsRefusal (A.meaning a.now) (map (λ n. string_bytes n) names.now)) }
{
    let sides = Sides {
        first: a,
        second: b,
        unknown,
    };
    let named = named_commands(alloc, &sides, names)?;
    let NamedCommands {
        pairs: commands,
        mut reached,
        ..
    } = named;
    reached.follow(alloc, &sides)?;
    let avps = shared_pairs(alloc, &sides, &reached)?;
    Ok(Table { commands, avps })
}

/// The commands of these names, with what is paired with them and the AVPs that they let in.
fn named_commands<A: Book, B: Book>(
    alloc: Global,
    sides: &Sides<'_, A, B>,
    names: &[String],
) -> Result<NamedCommands, ProposeFault>
    ensures ok { IfOk result (NamedSoFar sides.now (map (λ n. string_bytes n) names.now) []) }
    ensures refusal { IfErr result
        (IsRefusal sides.now.first (map (λ n. string_bytes n) names.now)) }
{
    let commands = Commands::new(alloc, sides)?;
    named_by(alloc, &commands, names)
}

fn named_by<A: Book, B: Book>(
    alloc: Global,
    commands: &Commands<'_, A, B>,
    names: &[String],
) -> Result<NamedCommands, ProposeFault>
    ensures ok { IfOk result (NamedSoFar commands.now (map (λ n. string_bytes n) names.now) []) }
    ensures refusal { IfErr result
        (IsRefusal commands.now.first (map (λ n. string_bytes n) names.now)) }
{
    let places = names_of_commands(alloc, commands.sides().first())?;
    named_among(alloc, commands, &places, names)
}

/// The same. `places` has the names of the first's commands, each at its place.
fn named_among<A: Book, B: Book>(
    alloc: Global,
    commands: &Commands<'_, A, B>,
    places: &IndexSet<&str>,
    names: &[String],
) -> Result<NamedCommands, ProposeFault>
    requires { map (λ n. n.now) places.now.keys ≡ map (λ c. c.name) commands.now.first.commands }
    ensures ok { IfOk result (NamedSoFar commands.now (map (λ n. string_bytes n) names.now) []) }
    ensures refusal { IfErr result
        (IsRefusal commands.now.first (map (λ n. string_bytes n) names.now)) }
{
    let sides = commands.sides();
    let most = sides.first().entries().min(sides.second().entries());
    let mut named = NamedCommands::new(alloc, sides, most)?;
    named.add_all(alloc, commands, places, names)?;
    Ok(named)
}

impl From<AllocError> for ProposeFault {
    ghost use Rattle.std.specs.Prelude.{◌≡◌};
    ghost use Rattle.dia_compat.specs.declared.proposing.ProposeFault.TheVariants.{NoMemory};

    ghost from_gives = { λ e fault. fault ≡ NoMemory };

    fn from(_: AllocError) -> ProposeFault {
        ProposeFault::NoMemory
    }
}

/// The pairs of the AVPs that were reached, by their names, in the first's order.
fn shared_pairs<A: Book, B: Book>(
    alloc: Global,
    sides: &Sides<'_, A, B>,
    reached: &Reached,
) -> Result<Vec<(String, String)>, AllocError>
    ensures { IfOk result (λ pairs. map plain_pair pairs.items
        ≡ filter_map (shared_pair sides.now.second reached.now) sides.now.first.entries) }
{
    let a = sides.first();
    let mut pairs = Vec::new(alloc);
    for index in 0..a.entries() {
        push_if_shared(alloc, sides, reached, a.entry_at(index), &mut pairs)?;
    }
    Ok(pairs)
}

/// Adds the pair of an AVP of the first, if it was reached and the second knows it.
fn push_if_shared<A: Book, B: Book>(
    alloc: Global,
    sides: &Sides<'_, A, B>,
    reached: &Reached,
    entry: Entry,
    pairs: &mut Vec<(String, String)>,
) -> Result<(), AllocError>
    requires { entry < length sides.now.first.entries }
    ensures { (e : DictEntry) → slice_get sides.now.first.entries entry ≡ Some e → OnOk result
        (map plain_pair pairs.new.items ≡ map plain_pair pairs.old.items
        ++ option_to_list (shared_pair sides.now.second reached.now e)) }
{
    let a = sides.first();
    let b = sides.second();
    let key = a.entry_key(entry);
    if !reached.contains(key) {
        return Ok(());
    }
    let Some(other) = b.avp(key) else {
        return Ok(());
    };
    push_pair(alloc, pairs, a.entry_name(entry), b.entry_name(other))
}
