//! The header of a command's messages.
ghost use Rattle.std.specs.Prelude.{◌<◌, length};
ghost use Rattle.dia_book.specs.Dictionary.{definitions};

use crate::change::HeadChange;
use crate::lookup::command_at;
use dia_book::{Book, Class, DefHead, DefId, Pxy};
use dia_wire::{COMMAND_ERROR, COMMAND_PROXIABLE, COMMAND_REQUEST};
use std::alloc::{AllocError, Global};

/// The fields by which a command is selected (RFC 6733 section 3), and what its flags may be.
#[derive(Clone, Copy)]
pub(crate) struct Head {
    pub code: u32,
    pub class: Class,
    pub app: u32,
    pub p: Pxy,
    /// Whether the command is the one of the class Error.
    pub is_error: bool,
}

impl Head {
    /// The header of a command's plain message.
    pub(crate) fn of<B: Book>(book: &B, head: DefHead) -> Head {
        match head {
            DefHead::Command {
                code,
                class,
                app,
                p,
            } => Head {
                code,
                class,
                app: match app {
                    Some(app) => app,
                    None => unnamed_app(book, code, class),
                },
                p,
                is_error: false,
            },
            DefHead::Error { p } => {
                let (code, app) = first_request(book);
                Head {
                    code,
                    class: Class::Error,
                    app,
                    p,
                    is_error: true,
                }
            }
            DefHead::Group(_) => Head {
                code: 0,
                class: Class::Request,
                app: 0,
                p: Pxy::Clear,
                is_error: false,
            },
        }
    }

    /// The Command Flags of the plain message.
    pub(crate) fn flags(&self) -> u8 {
        let class = match self.class {
            Class::Request => COMMAND_REQUEST,
            Class::Answer => 0,
            Class::Error => COMMAND_ERROR,
        };
        if self.p == Pxy::Set {
            class | COMMAND_PROXIABLE
        } else {
            class
        }
    }

    /// What leaves a plain message valid, done to its header.
    pub(crate) fn valid_changes(&self, alloc: Global) -> Result<Vec<HeadChange>, AllocError> {
        let mut changes = Vec::new(alloc);
        changes.push(HeadChange::Plain)?;
        if self.p == Pxy::Either {
            changes.push(HeadChange::P(true))?;
        }
        if self.class == Class::Request {
            changes.push(HeadChange::T)?;
        }
        changes.push(HeadChange::Reserved)?;
        Ok(changes)
    }

    /// What makes a plain message invalid, done to its header.
    pub(crate) fn faulty_changes<B: Book>(
        &self,
        alloc: Global,
        book: &B,
    ) -> Result<Vec<HeadChange>, AllocError> {
        let mut changes = Vec::new(alloc);
        changes.push(HeadChange::Version)?;
        changes.push(HeadChange::ShortLength)?;
        changes.push(HeadChange::LengthAndOne)?;
        changes.push(HeadChange::Cut)?;
        changes.push(HeadChange::Extended)?;
        changes.push(if self.class == Class::Request {
            HeadChange::E
        } else {
            HeadChange::T
        })?;
        if !self.is_error {
            if let Some(code) = self.next_code(book) {
                changes.push(HeadChange::Code(code))?;
            }
            if let Some(app) = self.next_app(book) {
                changes.push(HeadChange::App(app))?;
            }
        }
        match self.p {
            Pxy::Clear => changes.push(HeadChange::P(true))?,
            Pxy::Set => changes.push(HeadChange::P(false))?,
            Pxy::Either => {}
        }
        Ok(changes)
    }

    /// The next code that no command of the class has.
    fn next_code<B: Book>(&self, book: &B) -> Option<u32> {
        let mut code = self.code;
        for _ in 0..=book.commands() {
            code = code.wrapping_add(1) & 0xff_ffff;
            if !book.has_command(code, self.class) {
                return Some(code);
            }
        }
        None
    }

    /// The next application that no command of the code and the class has, if each of them has one.
    fn next_app<B: Book>(&self, book: &B) -> Option<u32> {
        let mut app = self.app;
        for _ in 0..=book.commands() {
            app = app.wrapping_add(1);
            match book.select(self.code, self.class, app) {
                None => return Some(app),
                Some(def) => {
                    if app_at(book, def).is_none() {
                        return None;
                    }
                }
            }
        }
        None
    }
}

/// The least application that no command of the code and the class has, where one of them has none.
fn unnamed_app<B: Book>(book: &B, code: u32, class: Class) -> u32 {
    let mut app: u32 = 0;
    for _ in 0..book.commands() {
        match book.select(code, class, app) {
            Some(def) => {
                if app_at(book, def).is_none() {
                    return app;
                }
            }
            None => return app,
        }
        app = app.wrapping_add(1);
    }
    app
}

/// The application of a definition's header.
fn app_at<B: Book>(book: &B, def: DefId) -> Option<u32>
    requires { def < length (definitions (B.meaning book.now)) }
{
    match book.def(def).head {
        DefHead::Command { app, .. } => app,
        DefHead::Error { .. } => None,
        DefHead::Group(_) => None,
    }
}

/// The code and the application of the first request, and 0 for what isn't there.
fn first_request<B: Book>(book: &B) -> (u32, u32) {
    for index in 0..book.commands() {
        if let DefHead::Command {
            code,
            class: Class::Request,
            app,
            ..
        } = book.def(command_at(book, index)).head
        {
            return (code, app.unwrap_or(0));
        }
    }
    (0, 0)
}
