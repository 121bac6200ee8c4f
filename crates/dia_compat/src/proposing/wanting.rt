//! The definitions of the second dictionary that are paired with a command of the first.
ghost use Rattle.std.specs.Prelude.{OnOk, option_to_list};
ghost use Rattle.std.specs.List.{filter_map};
ghost use Rattle.dia_book.specs.Dictionary.{IsCommandHead, plain_definition};
ghost use Rattle.dia_compat.specs.WantedNames.{wanted_name, wanted_names, names_beside};
ghost use Rattle.dia_compat.specs.WantedNames.{AddsPairs};

use crate::comparing::{Commands, Sides, is_wanted, open_code};
use crate::table::push_pair;
use dia_book::{Book, Definition};
use std::alloc::{AllocError, Global};

/// Adds the pairs of a command of the first: with the definitions of the second that may be selected for
/// its messages, in the second's order, or a definition of its own name where there is none.
pub(crate) fn push_pairs<A: Book, B: Book>(
    alloc: Global,
    commands: &Commands<'_, A, B>,
    command: &Definition,
    pairs: &mut Vec<(String, String)>,
) -> Result<(), AllocError>
    requires { IsCommandHead command.now.head }
    ensures { OnOk result (AddsPairs (plain_definition command.now)
        (names_beside commands.now (plain_definition command.now)) pairs.old.items pairs.new.items) }
{
    let before = pairs.len();
    push_wanted(alloc, commands, command, pairs)?;
    if pairs.len() == before {
        push_pair(alloc, pairs, command.name.as_str(), command.name.as_str())?;
    }
    Ok(())
}

/// Adds the pairs of a command of the first with the definitions of the second that may be selected for its messages.
fn push_wanted<A: Book, B: Book>(
    alloc: Global,
    commands: &Commands<'_, A, B>,
    command: &Definition,
    pairs: &mut Vec<(String, String)>,
) -> Result<(), AllocError>
    requires { IsCommandHead command.now.head }
    ensures { OnOk result (AddsPairs (plain_definition command.now)
        (wanted_names commands.now command.now.head) pairs.old.items pairs.new.items) }
{
    let sides = commands.sides();
    match open_code(command.head) {
        Some(code) => match commands.of_code(code) {
            Some(others) => push_all_wanted(alloc, sides, command, others.as_slice(), pairs),
            None => Ok(()),
        },
        None => match commands.only_for(command.head) {
            Some(other) => push_pair(alloc, pairs, command.name.as_str(), other.name.as_str()),
            None => Ok(()),
        },
    }
}

/// Adds the pairs of a command of the first with those of these definitions of the second that may be selected for its messages.
fn push_all_wanted<A: Book, B: Book>(
    alloc: Global,
    sides: &Sides<'_, A, B>,
    command: &Definition,
    others: &[&Definition],
    pairs: &mut Vec<(String, String)>,
) -> Result<(), AllocError>
    ensures { OnOk result (AddsPairs (plain_definition command.now)
        (filter_map (λ d. wanted_name sides.now command.now.head (plain_definition d.now)) others.now)
        pairs.old.items pairs.new.items) }
{
    for other in others {
        push_if_wanted(alloc, sides, command, other, pairs)?;
    }
    Ok(())
}

/// Adds the pair of a command of the first and a definition of the second, if it may be selected for the command's messages.
fn push_if_wanted<A: Book, B: Book>(
    alloc: Global,
    sides: &Sides<'_, A, B>,
    command: &Definition,
    other: &Definition,
    pairs: &mut Vec<(String, String)>,
) -> Result<(), AllocError>
    ensures { OnOk result (AddsPairs (plain_definition command.now)
        (option_to_list (wanted_name sides.now command.now.head (plain_definition other.now)))
        pairs.old.items pairs.new.items) }
{
    if is_wanted(sides, &command.head, &other.head) {
        push_pair(alloc, pairs, command.name.as_str(), other.name.as_str())?;
    }
    Ok(())
}
