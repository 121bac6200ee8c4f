//! A text that is refused, and the tokens round the place where it is.

use crate::dictionary::expecting::{number_at, place_of, push_expected};
use crate::hints::Sight;
use crate::kinds::kind_of_byte;
use crate::notes::push_quoted;
use dia_ccf::{CcfFault, InRules, Kind, Lexeme, Misfit, Wanted, next_lexeme};
use dia_explain_places::{Note, back, place_of as place_in};

/// How many bytes of a token are shown.
const SHOWN: usize = 60;

/// A text that is refused.
#[derive(Clone, Copy)]
pub struct Scene<'a> {
    pub text: &'a [u8],
    pub misfit: &'a Misfit,
    /// What could come at the place, as hints name it.
    pub place: &'static str,
    /// The token at the place, or none at the end of the text.
    pub token: Option<Lexeme>,
    /// The token before the place, and the one before that.
    pub last: Option<Lexeme>,
    pub earlier: Option<Lexeme>,
}

/// The token at a place, if it is one of the text.
fn token_at(text: &str, at: Option<usize>) -> Option<Lexeme> {
    next_lexeme(text, at?)
}

impl<'a> Scene<'a> {
    pub fn new(text: &'a str, misfit: &'a Misfit) -> Self {
        Scene {
            text: text.as_bytes(),
            misfit,
            place: place_of(misfit.wanted),
            token: token_at(text, Some(misfit.at)),
            last: token_at(text, misfit.last),
            earlier: token_at(text, misfit.earlier),
        }
    }

    /// The bytes of a token, none where there is no token.
    pub fn word(&self, token: Option<Lexeme>) -> &'a [u8] {
        let bytes = match token {
            Some(token) => self.text.get(token.at..token.end),
            None => None,
        };
        bytes.unwrap_or(b"".as_slice())
    }

    /// The token after another.
    pub fn following(&self, token: Option<Lexeme>) -> Option<Lexeme> {
        next_lexeme(str::from_utf8(self.text).ok()?, token?.end)
    }

    /// The name in the last declaration that begins before the place.
    pub fn declared(&self) -> Option<Lexeme> {
        let text = str::from_utf8(self.text).ok()?;
        let mut name = None;
        let mut is_next = false;
        let mut at = 0;
        for _ in 0..self.misfit.at {
            let Some(token) = next_lexeme(text, at) else {
                return name;
            };
            if token.at >= self.misfit.at {
                return name;
            }
            if is_next {
                name = Some(token);
            }
            is_next = self.word(Some(token)) == b"%avp".as_slice();
            at = token.end;
        }
        name
    }

    /// The name in angle brackets that was read as that of a definition, where `::=` is wanted after it on a later line.
    pub fn late_name(&self) -> Option<Lexeme> {
        let name = self.earlier?;
        match self.misfit.wanted {
            Wanted::Rules(InRules::Angled { only_fixed: false })
                if place_in(self.text, name.at).line < place_in(self.text, self.misfit.at).line => {
                Some(name)
            }
            _ => None,
        }
    }

    /// The token, as signs of hints name it.
    pub fn sight(&self) -> Sight<'a> {
        let word = self.word(self.token);
        let kind = match self.token {
            None => "the end",
            Some(token) => match token.kind {
                Kind::Name => "a name",
                Kind::Number => "a number",
                Kind::Sign => "a sign",
                Kind::Other => kind_of_byte(word),
            },
        };
        Sight {
            kind,
            word,
            rest: back(self.text, self.misfit.at),
            before: self.word(self.last),
        }
    }

    /// Adds what is wrong.
    pub fn push_fault(&self, note: &mut Note) {
        let wanted = self.misfit.wanted;
        match self.misfit.fault {
            CcfFault::Limit { .. } => note.put("the name has more than 128 bytes"),
            CcfFault::Number { .. } => {
                self.push_token(note);
                note.put(" is out of range; expected ");
                match number_at(wanted) {
                    Some(number) => note.put(number),
                    None => push_expected(note, wanted),
                }
            }
            CcfFault::Syntax { .. } | CcfFault::NoMemory => {
                note.put(match self.token {
                    None => "the text ends here",
                    Some(_) => "found ",
                });
                self.push_token(note);
                note.put("; expected ");
                push_expected(note, wanted);
            }
        }
    }

    /// Adds the token in quotes, if there is one. Of a character that no text has all bytes are shown.
    fn push_token(&self, note: &mut Note) {
        let Sight { word, rest, .. } = self.sight();
        if word.is_empty() {
            return;
        }
        let length = match word {
            [0xc0..=0xdf] => 2,
            [0xe0..=0xef] => 3,
            [0xf0..=0xff] => 4,
            _ => word.len().min(SHOWN),
        };
        push_quoted(note, rest.get(..length).unwrap_or(word));
    }
}
