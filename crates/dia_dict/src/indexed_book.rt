ghost use Rattle.std.specs.Prelude.{◌≡◌, ◌==◌, ◌++◌, ℕ, IfOk, None, Some, length, map};
ghost use Rattle.std.specs.List.{list_any};
ghost use Rattle.std.specs.Option.{option_or};
ghost use Rattle.dia_book.specs.Opened.{opened};
ghost use Rattle.dia_dict.specs.Indexed.{AreEntries, AreCommands, AreSlotsOfEach, command_number};
ghost use Rattle.dia_dict.specs.Selectors.{is_for_app, service_of};

mod building;

use crate::hashing::Hashing;
use crate::key_map::KeyMap;
use crate::plain_book::PlainBook;
use crate::selectors::{Selector, service};
use dia_book::{Book, Class, DefId, Definition, Entry, MRule, Slot};
use dia_data::Format;
use dia_wire::Key;
use indexmap::{IndexMap, IndexSet};
use std::alloc::{AllocError, Global};

/// A dictionary with maps for its look-ups, each in the dictionary's order.
pub struct IndexedBook {
    book: PlainBook,
    entries: KeyMap<Entry>,
    /// The definitions of commands.
    commands: IndexMap<Selector, DefId, Hashing>,
    /// Whether some command is for an application.
    for_apps: bool,
    /// The numbers of the messages that the commands are for, whatever their application.
    services: IndexSet<u64, Hashing>,
    /// Of each definition the slots of its rules.
    slots: Vec<KeyMap<Slot>>,
    ghost known: { AreEntries entries book.entries.rows.items },
    ghost selected: { AreCommands ⟦<Selector as PartialEq>⟧.eq commands
        (length book.entries.groups.items) book.commands.items },
    ghost applied: { for_apps ≡ list_any (λ d. is_for_app d.head) book.commands.items },
    ghost served: { (n : ℕ) → list_any (λ m. n == m) services.keys
        ≡ list_any (λ m. n == m) (map (λ d. service_of d.head) book.commands.items) },
    ghost slotted: { ∥ AreSlotsOfEach slots.items
        (book.entries.groups.items ++ book.commands.items) ∥₁ },
}

// Written out: for a derived `Drop`, each crate that drops this type proves the drops of all its parts again.
impl Drop for IndexedBook {
    fn drop(self) {
        let IndexedBook {
            book: _,
            entries: _,
            commands: _,
            for_apps: _,
            services: _,
            slots: _,
        } = self;
    }
}

impl IndexedBook {
    /// A copy of the dictionary with its maps. The error comes only where memory was refused.
    pub fn new(alloc: Global, book: &PlainBook) -> Result<IndexedBook, AllocError>
        ensures { IfOk result (λ indexed. ⟦<IndexedBook as Book>⟧.meaning indexed
            ≡ ⟦<PlainBook as Book>⟧.meaning book.now) }
    {
        Self::from_plain(alloc, book.clone()?)
    }

    /// The dictionary itself with its maps, without a copy of it. The error comes only where memory was refused.
    pub fn from_plain(alloc: Global, book: PlainBook) -> Result<IndexedBook, AllocError>
        ensures { IfOk result (λ indexed. ⟦<IndexedBook as Book>⟧.meaning indexed
            ≡ ⟦<PlainBook as Book>⟧.meaning book) }
    {
        let entries = building::entries_of(alloc, &book.entries.rows)?;
        let commands = building::commands_of(alloc, book.entries.groups.len(), &book.commands)?;
        let for_apps = building::are_for_apps(&book.commands);
        let services = building::services_of(alloc, &book.commands)?;
        let slots = building::all_slots(alloc, &book.entries.groups, &book.commands)?;
        Ok(IndexedBook {
            book,
            entries,
            commands,
            for_apps,
            services,
            slots,
        })
    }

    /// The command of this code and class for an application. It need not be looked up if no command is for one.
    #[inline(always)]
    fn command_for(&self, code: u32, class: Class, app: u32) -> Option<DefId>
        ensures { option_or result (command_number self.now.book code class None)
            ≡ option_or (command_number self.now.book code class (Some app)) (command_number self.now.book code class None) }
    {
        if self.for_apps {
            self.command(code, class, Some(app))
        } else {
            None
        }
    }

    /// The command of this code and class, and of this application or of none.
    #[inline(always)]
    fn command(&self, code: u32, class: Class, app: Option<u32>) -> Option<DefId>
        ensures { result ≡ command_number self.now.book code class app }
    {
        self.commands.get(&Selector::new(code, class, app)).copied()
    }
}

impl Book for IndexedBook {
    ghost meaning = { λ b. ⟦<PlainBook as Book>⟧.meaning b.book };

    ghost sound = { λ b. opened (⟦<PlainBook as Book>⟧.meaning b.book) b.book.sound };

    #[inline(always)]
    fn avp(&self, key: Key) -> Option<Entry> {
        self.entries.get(key)
    }

    fn entry_key(&self, entry: Entry) -> Key {
        self.book.entry_key(entry)
    }

    fn entry_name(&self, entry: Entry) -> &str {
        self.book.entry_name(entry)
    }

    fn format(&self, entry: Entry) -> &Format {
        self.book.format(entry)
    }

    fn rule(&self, entry: Entry) -> MRule {
        self.book.rule(entry)
    }

    fn group(&self, entry: Entry) -> Option<DefId> {
        self.book.group(entry)
    }

    #[inline(always)]
    fn select(&self, code: u32, class: Class, app: u32) -> Option<DefId> {
        match self.command_for(code, class, app) {
            Some(def) => Some(def),
            None => self.command(code, class, None),
        }
    }

    fn has_command(&self, code: u32, class: Class) -> bool {
        self.services.contains(&service(code, class))
    }

    fn def(&self, def: DefId) -> &Definition {
        self.book.def(def)
    }

    #[inline(always)]
    fn slot(&self, def: DefId, key: Key) -> Slot {
        self.slots[def.index()].get(key).unwrap_or(Slot::Unlisted)
    }

    fn entries(&self) -> usize {
        self.book.entries()
    }

    fn entry_at(&self, index: usize) -> Entry {
        self.book.entry_at(index)
    }

    fn commands(&self) -> usize {
        self.book.commands()
    }

    fn command_at(&self, index: usize) -> DefId {
        self.book.command_at(index)
    }
}
