//! The diagnostic of a message whose header has a fault.

use crate::applications::application_of;
use crate::books::{Level, Wanted, command_at, definition, find_command, name_of};
use crate::faults::avp_bytes::push_flags;
use crate::faults::reasons::text_of_header;
use crate::sides::Side;
use crate::texts::{Scene, Word, push_hint, push_text};
use dia_book::{Book, Class, DefHead, Definition};
use dia_check::{Reason, class_of};
use dia_explain_places::Note;
use dia_wire::{COMMAND_ERROR, COMMAND_PROXIABLE, COMMAND_REQUEST, COMMAND_RETRANSMITTED, Header};

/// How many applications are reported.
const RECORDED: usize = 5;

/// The fields by which a command is found.
const HEADER: &str = "\n  header: flags {flags}, code {code}, application {app}\n";

/// Which dictionary has the commands of an application.
const DICTIONARY: &str = "application {id} is {name}, and this dictionary has no command of it; \
    {file} has them, see docs/CAPTURES.md";

/// The flags of a header (RFC 6733 section 3).
static FLAGS: [(u8, &str); 4] = [
    (COMMAND_REQUEST, " R"),
    (COMMAND_PROXIABLE, " P"),
    (COMMAND_ERROR, " E"),
    (COMMAND_RETRANSMITTED, " T"),
];

/// A header, and a command that its texts name.
#[derive(Clone, Copy)]
struct InHeader<'a> {
    side: &'a Side<'a>,
    header: &'a Header,
    command: Option<&'a Definition>,
}

/// Adds what is wrong with a header, its fields, where the dictionary says otherwise, and the hint.
pub fn push_header_fault(note: &mut Note, side: &Side<'_>, header: &Header, reason: Reason) {
    let command = match reason {
        Reason::Command => find_command(side.book, Wanted::Code(header.code)),
        _ => definition(side.book, Level::body(header)),
    };
    let scene = InHeader {
        side,
        header,
        command,
    };
    let text = text_of_header(reason, header, command);
    let (fault, hint) = text.split_once('\n').unwrap_or((text, ""));
    push_text(note, &scene, fault);
    push_text(note, &scene, HEADER);
    scene.push_commands(note, reason);
    push_hint(note, &scene, hint);
    scene.push_dictionary(note, reason)
}

impl InHeader<'_> {
    /// Adds where the dictionary says otherwise.
    fn push_commands(&self, note: &mut Note, reason: Reason) {
        match (reason, self.command) {
            (Reason::Command, Some(command)) if class_of(self.header) != Class::Error => {
                self.push_command(note, command, "{name} has this code")
            }
            (Reason::Proxiable, Some(command)) => {
                self.push_command(note, command, "{name} is defined here")
            }
            (Reason::Application, _) => self.push_applications(note),
            _ => {}
        }
    }

    fn push_command(&self, note: &mut Note, command: &Definition, recorded: &str) {
        self.side.push_part(note, self.side.definition_at(command, None), self, recorded)
    }

    /// Adds the first commands of the code and the class of the header, with their applications.
    fn push_applications(&self, note: &mut Note) {
        let mut recorded = 0usize;
        for place in 0..self.side.book.commands() {
            let command = command_at(self.side.book, place);
            let scene = InHeader { command, ..*self };
            match command {
                Some(command) if recorded < RECORDED && scene.application().is_some() => {
                    scene.push_command(note, command, "{name} is for application {theirs}");
                    recorded = recorded.saturating_add(1);
                }
                _ => {}
            }
        }
    }

    /// The application of the command, where it is of the header's code and class.
    fn application(&self) -> Option<u32> {
        match self.command?.head {
            DefHead::Command {
                code,
                class,
                app,
                ..
            } if code == self.header.code && class == class_of(self.header) => { app }
            _ => None,
        }
    }

    /// Adds which dictionary has the commands of an application, where this one has none of it and none for the header.
    fn push_dictionary(&self, note: &mut Note, reason: Reason) {
        let is_missing = match reason {
            Reason::Command => self.command.is_none() && class_of(self.header) != Class::Error,
            _ => reason == Reason::Application,
        };
        let own = find_command(self.side.book, Wanted::Application(self.header.app));
        if !is_missing || own.is_some() {
            return;
        }
        if let Some(application) = application_of(self.header.app) {
            push_hint(note, &application, DICTIONARY)
        }
    }

    /// The text that is the value of a word.
    fn text_for(&self, word: Word) -> &str {
        match word {
            Word::Class => match class_of(self.header) {
                Class::Request => "request",
                Class::Answer => "answer",
                Class::Error => "answer with the E flag",
            },
            Word::Req if self.header.is_request() => ", REQ",
            Word::Pxy if self.header.is_proxiable() => ", PXY",
            Word::Req | Word::Pxy => "",
            _ => name_of(self.command),
        }
    }
}

impl Scene for InHeader<'_> {
    fn push_word(&self, note: &mut Note, word: Word) {
        match word {
            Word::Flags => push_flags(note, self.header.flags, &FLAGS),
            Word::Code => note.put_number(self.header.code as u64),
            Word::App => note.put_number(self.header.app as u64),
            Word::Theirs => note.put_number(self.application().unwrap_or(0) as u64),
            _ => note.put(self.text_for(word)),
        }
    }
}
