ghost use Rattle.std.specs.Prelude.{◌≡◌, ◌≤◌, ◌+◌, length, map, position};
ghost use Rattle.std.specs.List.{list_any};
ghost use Rattle.std.specs.Option.{option_or};
ghost use Rattle.dia_book.specs.Keys.{same_key};
ghost use Rattle.dia_book.specs.Dictionary.{IsDictionary, plain_definition, is_command, has_class};
ghost use Rattle.dia_book.specs.Limits.{max_parts};
ghost use Rattle.dia_book.specs.Opened.{opened};
ghost use Rattle.dia_dict.specs.PlainMeaning.{dictionary_of};

use crate::entry_list::{EntryList, Row};
use dia_book::{Book, Class, DefId, Definition, Entry, MRule, Slot};
use dia_data::Format;
use dia_wire::Key;
use std::alloc::AllocError;

/// A dictionary in lists, which every look-up scans.
#[derive(Drop)]
pub struct PlainBook {
    pub(crate) entries: EntryList,
    pub(crate) commands: Vec<Definition>,
    ghost few: { length entries.rows.items + length commands.items ≤ max_parts },
    ghost sound: { ∥ IsDictionary
        (dictionary_of entries.rows.items (map plain_definition entries.groups.items)
        (map plain_definition commands.items)) ∥₁ },
}

impl PlainBook {
    pub(crate) fn new(entries: EntryList, commands: Vec<Definition>) -> Self
        requires few { length entries.rows.items + length commands.items ≤ max_parts }
        requires sound { IsDictionary
            (dictionary_of entries.rows.items (map plain_definition entries.groups.items)
            (map plain_definition commands.items)) }
        ensures { ⟦<PlainBook as Book>⟧.meaning result ≡ dictionary_of entries.rows.items
            (map plain_definition entries.groups.items) (map plain_definition commands.items) }
    {
        PlainBook { entries, commands }
    }
}

/// A copy is of the same dictionary.
impl Clone for PlainBook {
    ghost use Rattle.std.specs.Prelude.{◌≡◌};

    ghost is_clone = { λ old new. ⟦<PlainBook as Book>⟧.meaning new
        ≡ ⟦<PlainBook as Book>⟧.meaning old };

    fn clone(&self) -> Result<PlainBook, AllocError> {
        Ok(PlainBook {
            entries: self.entries.clone()?,
            commands: self.commands.clone()?,
        })
    }
}

impl Book for PlainBook {
    ghost meaning = { λ b. dictionary_of b.entries.rows.items
        (map plain_definition b.entries.groups.items) (map plain_definition b.commands.items) };

    ghost sound = { λ b. opened (dictionary_of b.entries.rows.items
        (map plain_definition b.entries.groups.items) (map plain_definition b.commands.items)) b.sound };

    fn avp(&self, key: Key) -> Option<Entry> {
        let index = place_of_row(&self.entries.rows, key)?;
        Some(Entry::new(index))
    }

    fn entry_key(&self, entry: Entry) -> Key {
        self.entries.rows[entry.index()].key
    }

    fn entry_name(&self, entry: Entry) -> &str {
        &self.entries.rows[entry.index()].name
    }

    fn format(&self, entry: Entry) -> &Format {
        &self.entries.rows[entry.index()].format
    }

    fn rule(&self, entry: Entry) -> MRule {
        self.entries.rows[entry.index()].rule
    }

    fn group(&self, entry: Entry) -> Option<DefId> {
        let index = self.entries.rows[entry.index()].group?;
        Some(DefId::new(index))
    }

    fn select(&self, code: u32, class: Class, app: u32) -> Option<DefId> {
        let index = place_of_selected(&self.commands, code, class, app)?;
        Some(DefId::new(self.entries.groups.len() + index))
    }

    fn has_command(&self, code: u32, class: Class) -> bool {
        is_served(&self.commands, code, class)
    }

    fn def(&self, def: DefId) -> &Definition {
        let index = def.index();
        if index < self.entries.groups.len() {
            &self.entries.groups[index]
        } else {
            &self.commands[index - self.entries.groups.len()]
        }
    }

    fn slot(&self, def: DefId, key: Key) -> Slot {
        self.def(def).slot(key)
    }

    fn entries(&self) -> usize {
        self.entries.rows.len()
    }

    fn entry_at(&self, index: usize) -> Entry {
        Entry::new(index)
    }

    fn commands(&self) -> usize {
        self.commands.len()
    }

    fn command_at(&self, index: usize) -> DefId {
        DefId::new(self.entries.groups.len() + index)
    }
}

/// The place of the first row with the key.
fn place_of_row(rows: &[Row], key: Key) -> Option<usize>
    ensures { result ≡ position (λ row. same_key key row.key) rows.now }
{
    rows.iter().position(|row| key == row.key)
}

/// The place of the first command of this code and class, and of this application or of none.
fn place_of_command(
    commands: &[Definition],
    code: u32,
    class: Class,
    app: Option<u32>,
) -> Option<usize>
    ensures { result ≡ position (λ command. is_command code class app command.head) commands.now }
{
    commands
        .iter()
        .position(|command| command.head.is_command(code, class, app))
}

/// The place of the command for this application, else of the one without.
fn place_of_selected(commands: &[Definition], code: u32, class: Class, app: u32) -> Option<usize>
    ensures { result ≡ option_or
        (position (λ command. is_command code class (Some app) command.head) commands.now)
        (position (λ command. is_command code class None command.head) commands.now) }
{
    match place_of_command(commands, code, class, Some(app)) {
        Some(index) => Some(index),
        None => place_of_command(commands, code, class, None),
    }
}

/// Whether some command is of this code and class.
fn is_served(commands: &[Definition], code: u32, class: Class) -> bool
    ensures { result ≡ list_any (λ command. has_class code class command.head) commands.now }
{
    commands
        .iter()
        .any(|command| command.head.has_class(code, class))
}
