//! The diagnostic of a message whose listing ends at a place where no AVP begins.

use crate::applications::application_of;
use crate::books::Level;
use crate::checking::Asked;
use crate::faults::Message;
use crate::faults::in_body::InBody;
use crate::faults::walk::walk_to;
use crate::sides::Side;
use crate::texts::push_text;
use dia_check::{Fault, Levels, Reason, Subject, Unknown};
use dia_dict::base_book;
use dia_explain_places::{InputTexts, Note};
use dia_report::CutListing;
use dia_wire::read_header;
use std::alloc::{AllocError, Global};

/// Adds why the listing of a message ends where it does.
pub fn push_show(note: &mut Note, texts: &InputTexts<'_>, cut: &CutListing) {
    let Ok((header, _)) = read_header(&cut.message) else {
        return;
    };
    let side = Side::of(&texts.first, &cut.first);
    let message = Message::of(&texts.message, &cut.message);
    match walk_to(
        note.allocator(),
        side.book,
        message.bytes,
        message.bytes.len(),
    ) {
        Ok(walk) => {
            let fault = Fault {
                place: u32::try_from(walk.at).unwrap_or(u32::MAX),
                code: 5014,
                reason: Reason::AvpLength,
                subject: Subject::Nothing,
            };
            let scene = InBody {
                side: &side,
                message: &message,
                asked: &Asked::new(Unknown::Kept, Levels::Any),
                fault: &fault,
                body: Level::body(&header),
                outermost: "the message",
                groups: &walk.groups,
                counting: None,
            };
            scene.push(note)
        }
        Err(error) => note.keep(Err(error)),
    }
}

/// Adds how all AVPs of a message are named, where the base dictionary, by which it was shown, doesn't know each of them. `sign`
/// is shown in place of a name.
pub fn push_unnamed(note: &mut Note, message: &[u8], sign: &str) {
    let Ok((header, _)) = read_header(message) else {
        return;
    };
    match has_unnamed(note.allocator(), message) {
        Ok(true) => push_naming(note, sign, header.app),
        Ok(false) => {}
        Err(error) => note.keep(Err(error)),
    }
}

/// Adds which dictionary names the AVPs of messages of an application.
fn push_naming(note: &mut Note, sign: &str, app: u32) {
    note.put_all(&[
        "hint: ",
        sign,
        " is an AVP that the base dictionary doesn't have; --dict ",
    ]);
    match application_of(app) {
        Some(application) => push_text(
            note,
            &application,
            "{file} names those of application {id} ({name}), see docs/CAPTURES.md\n",
        ),
        None => note.put("D names those of the dictionary D\n"),
    }
}

/// Whether the base dictionary lacks an AVP of a message.
fn has_unnamed(alloc: Global, message: &[u8]) -> Result<bool, AllocError> {
    let base = base_book(alloc)?;
    let walk = walk_to(alloc, &base, message, message.len())?;
    Ok(walk.has_unnamed)
}
