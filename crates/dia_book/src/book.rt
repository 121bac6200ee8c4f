ghost use Rattle.std.specs.Prelude.{◌≡◌, ◌<◌, ◌+◌, ◌↔◌, IsTrue, IfSome, length, slice_get, Option};
ghost use Rattle.dia_book.specs.Dictionary.{Dictionary, IsDictionary, plain_definition};
ghost use Rattle.dia_book.specs.Dictionary.{entry_of, group_place, selected};
ghost use Rattle.dia_book.specs.Dictionary.{has_command, slot_of, groups, definitions};
ghost use Rattle.dia_data.specs.Plain.{plain_format};

use crate::definition::{Class, Definition, Slot};
use crate::indices::{DefId, Entry};
use dia_data::Format;
use dia_terms::MRule;
use dia_wire::Key;

/// A dictionary, however it is stored: a finite map of keys to AVPs, of Grouped AVPs to their definitions, and of
/// codes, classes and applications to the definitions of commands.
///
/// Entries are the AVPs in the dictionary's order. Keys, names of AVPs, names of commands and what commands are for are
/// distinct. An AVP is Grouped exactly where it has a definition. Rules name known AVPs, each once in its definition,
/// fixed ones first, with counts that can be met. That is the law `sound`, of every book.
///
/// No call takes memory. An `Entry` or a `DefId` is passed only to the book that answered it.
pub trait Book {
    ghost meaning: { Self → Dictionary };

    /// The AVP with this code and this vendor, 0 where it has none (RFC 6733 section 4.1).
    fn avp(&self, key: Key) -> Option<Entry>
        ensures { result ≡ entry_of (meaning self.now) key };

    /// The AVP's code and vendor, 0 where it has none.
    fn entry_key(&self, entry: Entry) -> Key
        requires { entry < length (meaning self.now).entries }
        ensures { IfSome (slice_get (meaning self.now).entries entry) (λ e. result ≡ e.key) };

    /// The AVP's name.
    fn entry_name(&self, entry: Entry) -> &str
        requires { entry < length (meaning self.now).entries }
        ensures { IfSome (slice_get (meaning self.now).entries entry) (λ e. result.now ≡ e.name) };

    /// The AVP's data format (RFC 6733 sections 4.2 to 4.4).
    fn format(&self, entry: Entry) -> &Format
        requires { entry < length (meaning self.now).entries }
        ensures { IfSome (slice_get (meaning self.now).entries entry)
            (λ e. plain_format result.now ≡ e.format) };

    /// Whether the AVP's M flag has to be set, has to be clear, or may be either.
    fn rule(&self, entry: Entry) -> MRule
        requires { entry < length (meaning self.now).entries }
        ensures { IfSome (slice_get (meaning self.now).entries entry) (λ e. result ≡ e.rule) };

    /// The definition of a Grouped AVP, and none for other formats.
    fn group(&self, entry: Entry) -> Option<DefId>
        requires { entry < length (meaning self.now).entries }
        ensures { result ≡ group_place (meaning self.now) entry };

    /// The definition of a message of this command code, class and application (RFC 6733 section 3.2): the application's
    /// own, else the one without application. For an error it is the one of the header `code, ERR`, whatever the code and
    /// the application.
    fn select(&self, code: u32, class: Class, app: u32) -> Option<DefId>
        ensures { result ≡ selected (meaning self.now) code class app };

    /// Whether some definition is of this code and class, of whatever application. For an error the code doesn't matter.
    fn has_command(&self, code: u32, class: Class) -> bool
        ensures { result ≡ has_command (meaning self.now) code class };

    /// The definition of a group or a command.
    fn def(&self, def: DefId) -> &Definition
        requires { def < length (definitions (meaning self.now)) }
        ensures { slice_get (definitions (meaning self.now)) def
            ≡ Some (plain_definition result.now) };

    /// Where the key belongs among the rules of a definition. Rules count from 0.
    fn slot(&self, def: DefId, key: Key) -> Slot
        requires { def < length (definitions (meaning self.now)) }
        ensures { IfSome (slice_get (definitions (meaning self.now)) def)
            (λ d. result ≡ slot_of d.rules key) };

    /// How many AVPs there are.
    fn entries(&self) -> usize
        ensures count { result ≡ length (meaning self.now).entries };

    /// The AVP at a place of the dictionary's order, from 0.
    fn entry_at(&self, index: usize) -> Entry
        requires { index < length (meaning self.now).entries }
        ensures { result ≡ index };

    /// How many commands there are.
    fn commands(&self) -> usize
        ensures { result ≡ length (meaning self.now).commands };

    /// The definition of the command at a place of the dictionary's order, from 0.
    fn command_at(&self, index: usize) -> DefId
        requires { index < length (meaning self.now).commands }
        ensures { result ≡ length (groups (meaning self.now)) + index };

    ghost sound: { (b : Self) → IsDictionary (meaning b) };
}
