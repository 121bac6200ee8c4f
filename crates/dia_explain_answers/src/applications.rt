//! The applications for which there are dictionaries (`docs/CAPTURES.md`).

use crate::texts::{Scene, Word};
use dia_explain_places::Note;

/// An application: its Application-ID, its name, and the dictionary that has its commands.
#[derive(Clone, Copy)]
pub struct Application {
    pub id: u32,
    pub name: &'static str,
    pub file: &'static str,
}

/// The application with this Application-ID, if there is a dictionary for it.
pub fn application_of(id: u32) -> Option<Application> {
    // its name and, after a line feed, the dictionary
    let named = match id {
        0 => "the base\nrfc6733.txt",
        1 => "NASREQ\nnas.txt",
        3 => "Rf\nro.txt",
        4 => "credit control\ncredit-control.txt",
        16_777_216 => "Cx\ncx.txt",
        16_777_217 => "Sh\nsh.txt",
        16_777_236 => "Rx\nrx.txt",
        16_777_238 => "Gx\ngx.txt",
        16_777_250 => "STa\nsta.txt",
        16_777_251 => "S6a\ns6a.txt",
        16_777_252 => "S13\ns6a.txt",
        16_777_255 => "SLg\nslg.txt",
        16_777_264 => "SWm\nsta.txt",
        16_777_265 => "SWx\nswx.txt",
        16_777_267 => "S9\ns9.txt",
        16_777_272 => "S6b\nsta.txt",
        16_777_291 => "SLh\nslh.txt",
        16_777_302 => "Sy\nsy.txt",
        16_777_303 => "Sd\nsd.txt",
        16_777_310 => "S6m\ns6t.txt",
        16_777_312 => "S6c\ns6c.txt",
        16_777_313 => "SGd\ns6c.txt",
        16_777_345 => "S6t\ns6t.txt",
        16_777_346 => "T6a\nt6a.txt",
        _ => return None,
    };
    let (name, file) = named.split_once('\n')?;
    Some(Application { id, name, file })
}

impl Scene for Application {
    fn push_word(&self, note: &mut Note, word: Word) {
        match word {
            Word::Id => note.put_number(self.id as u64),
            Word::Name => note.put(self.name),
            _ => note.put(self.file),
        }
    }
}
