//! The second dictionary's commands, found by their codes.
ghost use Rattle.std.specs.Prelude.{◌≡◌, ◌++◌, ◌∷◌, [], IfOk, OnOk, ℕ, filter, nat_eq};
ghost use Rattle.std.specs.Option.{option_map};
ghost use Rattle.std.specs.HashMap.{get};
ghost use Rattle.dia_book.specs.Dictionary.{IsDictionary, plain_definition};
ghost use Rattle.dia_compat.specs.CommandsByCode.{commands_of, has_code, listed};
ghost use Rattle.dia_compat.specs.CommandsByCode.{only_for, open_code};

use super::sides::Sides;
use dia_book::{Book, Class, DefHead, Definition};
use std::alloc::{AllocError, Global};
use std::collections::HashMap;
use std::marker::Model;

/// Two sides, with the commands of the second by their codes, those of one code in the dictionary's order.
#[derive(Drop)]
pub(crate) struct Commands<'a, A: Book, B: Book> {
    sides: Sides<'a, A, B>,
    /// Of each code the commands, where there are any.
    by_code: HashMap<u32, Vec<&'a Definition>>,
}

impl<'a, A: Book, B: Book> Model for Commands<'a, A, B> {
    ghost use Rattle.std.specs.Prelude.{◌≡◌, ℕ, nat_eq};
    ghost use Rattle.std.specs.Option.{option_map};
    ghost use Rattle.std.specs.HashMap.{get};
    ghost use Rattle.dia_compat.specs.Sides.{Sides as PlainSides};
    ghost use Rattle.dia_compat.specs.CommandsByCode.{commands_of, listed};

    ghost Value = { PlainSides };

    ghost view = { λ c. c.sides };

    ghost invariant = { λ c. (code : ℕ) → listed (option_map (λ v. v.items) (get nat_eq c.by_code code)) ≡ commands_of c.sides.second code };
}

impl<'a, A: Book, B: Book> Commands<'a, A, B> {
    pub fn new(alloc: Global, sides: &Sides<'a, A, B>) -> Result<Self, AllocError>
        ensures { IfOk result (λ commands. commands ≡ sides.now) }
    {
        Ok(Commands {
            sides: sides.again(),
            by_code: commands_by_code(alloc, sides.second())?,
        })
    }

    pub fn sides(&self) -> &Sides<'a, A, B>
        ensures same { result.now ≡ self.now }
        ensures sound { IsDictionary self.now.first × IsDictionary self.now.second }
    {
        // Called for its law.
        let _ = self.sides.first();
        let _ = self.sides.second();
        &self.sides
    }

    /// The second's commands of a code, in its order, where there are any.
    pub fn of_code(&self, code: u32) -> Option<&Vec<&'a Definition>>
        ensures { listed (option_map (λ v. v.now.items) result)
            ≡ commands_of self.now.second code }
    {
        self.by_code.get(&code)
    }

    /// The one definition of the second that may be selected for messages of a command of the first, where that is for one
    /// application or for errors.
    pub fn only_for(&self, head: DefHead) -> Option<&'a Definition>
        ensures { option_map (λ d. plain_definition d.now) result ≡ only_for self.now.second head }
    {
        let book = self.sides.second();
        let def = match head {
            DefHead::Command {
                code,
                class,
                app: Some(app),
                ..
            } => book.select(code, class, app)?,
            DefHead::Error { .. } => book.select(0, Class::Error, 0)?,
            _ => return None,
        };
        Some(book.def(def))
    }
}

/// The code of a command for all applications that no other command names.
pub(crate) fn open_code(head: DefHead) -> Option<u32>
    ensures { result ≡ open_code head }
{
    match head {
        DefHead::Command {
            code,
            app: None,
            ..
        } => Some(code),
        _ => None,
    }
}

fn commands_by_code<B: Book>(
    alloc: Global,
    book: &B,
) -> Result<HashMap<u32, Vec<&Definition>>, AllocError>
    ensures { IfOk result
        (λ lists. (code : ℕ) → listed (option_map (λ v. v.items) (get nat_eq lists code))
        ≡ commands_of (B.meaning book.now) code) }
{
    let mut lists = HashMap::new(alloc);
    for index in 0..book.commands() {
        push_command(&mut lists, book.def(book.command_at(index)))?;
    }
    Ok(lists)
}

/// Adds a command to those of its code.
fn push_command<'a>(
    lists: &mut HashMap<u32, Vec<&'a Definition>>,
    command: &'a Definition,
) -> Result<(), AllocError>
    ensures { OnOk result ((code : ℕ)
        → listed (option_map (λ v. v.items) (get nat_eq lists.new code))
        ≡ listed (option_map (λ v. v.items) (get nat_eq lists.old code))
        ++ filter (λ c. has_code code c.head) (plain_definition command.now ∷ [])) }
{
    if let DefHead::Command { code, .. } = command.head {
        lists.entry(code)?.or_default().push(command)?;
    }
    Ok(())
}
