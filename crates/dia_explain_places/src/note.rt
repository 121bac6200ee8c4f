//! A diagnostic as it grows.

ghost use Rattle.std.specs.Prelude.{◌≡◌, ◌++◌, ℕ, List, [], Option, Some, None, IfOk, OnOk, OnErr, codes, flat_map, string_bytes};
ghost use Rattle.std.specs.Fmt.{decimal};
ghost use Rattle.dia_explain_places.specs.Notes.{Gains, held};
ghost use Rattle.dia_explain_places.specs.Places.{excerpt, place_text, shown, start_text};

use crate::place::{push_excerpt, push_place, push_shown, push_start};
use std::alloc::{AllocError, Global};
use std::marker::Model;

/// A text for standard error. After an allocation failure it stays refused, and `finish` reports that: what adds to it returns no
/// error.
#[derive(Drop)]
pub struct Note {
    text: String,
    refused: Option<AllocError>,
}

impl Model for Note {
    ghost Value = { Option (List ℕ) };

    ghost view = { λ note. held note.refused (string_bytes note.text) };
}

impl Note {
    pub fn new(alloc: Global) -> Self
        ensures { result ≡ Some [] }
    {
        Note {
            text: String::new(alloc),
            refused: None,
        }
    }

    /// Adds a text.
    pub fn put(&mut self, text: &str)
        ensures { Gains self.old self.new text.now }
    {
        let done = self.text.push_str(text);
        self.keep(done);
    }

    /// Adds texts, one after the other.
    pub fn put_all(&mut self, texts: &[&str])
        ensures { Gains self.old self.new (flat_map (λ text. text.now) texts.now) }
    {
        for text in texts {
            self.put(text);
        }
    }

    /// Adds a text that was made for the diagnostic, or records that its allocation failed.
    pub fn put_made(&mut self, made: Result<String, AllocError>)
        ensures text { IfOk made (λ text. Gains self.old self.new (string_bytes text)) }
        ensures refused { OnErr made (self.new ≡ None) }
    {
        match made {
            Ok(text) => self.put(text.as_str()),
            Err(error) => self.refused = Some(error),
        }
    }

    /// Records an allocation failure of work for the diagnostic.
    pub fn keep(&mut self, done: Result<(), AllocError>)
        ensures kept { OnOk done (self.new ≡ self.old) }
        ensures refused { OnErr done (self.new ≡ None) }
    {
        if let Err(error) = done {
            self.refused = Some(error);
        }
    }

    /// Adds a number in decimal digits.
    pub fn put_number(&mut self, number: u64)
        ensures { Gains self.old self.new (decimal number) }
    {
        let done = write!(&mut self.text, "{number}");
        self.keep(done);
    }

    /// Adds a hint.
    pub fn put_hint(&mut self, hint: &str)
        ensures { Gains self.old self.new (codes "hint: " ++ hint.now ++ codes "\n") }
    {
        let done = write!(&mut self.text, "hint: {hint}\n");
        self.keep(done);
    }

    /// Adds the name that is meant.
    pub fn put_near(&mut self, near: &str)
        ensures { Gains self.old self.new (codes "hint: did you mean " ++ near.now ++ codes "?\n") }
    {
        let done = write!(&mut self.text, "hint: did you mean {near}?\n");
        self.keep(done);
    }

    /// Begins a line about a place of a text: `NAME:LINE:COLUMN: `.
    pub fn put_place(&mut self, name: &str, text: &[u8], at: usize)
        ensures { Gains self.old self.new (place_text name.now text.now at) }
    {
        let done = push_place(&mut self.text, name, text, at);
        self.keep(done);
    }

    /// Begins a line about a place of a text, or about the whole text: `NAME: `.
    pub fn put_start(&mut self, name: &str, text: &[u8], at: Option<usize>)
        ensures { Gains self.old self.new (start_text name.now text.now at) }
    {
        let done = push_start(&mut self.text, name, text, at);
        self.keep(done);
    }

    /// Adds the line of a place, and below it a caret at the place. Of a long line a part is shown.
    pub fn put_excerpt(&mut self, text: &[u8], at: usize)
        ensures { Gains self.old self.new (excerpt text.now at) }
    {
        let done = push_excerpt(&mut self.text, text, at);
        self.keep(done);
    }

    /// Adds bytes as text, with a space for each control character.
    pub fn put_shown(&mut self, bytes: &[u8])
        ensures { Gains self.old self.new (shown bytes.now) }
    {
        let done = push_shown(&mut self.text, bytes);
        self.keep(done);
    }

    /// The allocator of the diagnostic.
    pub fn allocator(&self) -> Global {
        *self.text.allocator()
    }

    /// The text. The only error is an allocation failure.
    pub fn finish(self) -> Result<String, AllocError>
        ensures text { IfOk result (λ text. self ≡ Some (string_bytes text)) }
        ensures refused { OnErr result (self ≡ None) }
    {
        match self.refused {
            None => Ok(self.text),
            Some(error) => Err(error),
        }
    }
}
