//! Reading the grammar (RFC 6733 section 3.2) with one token of look-ahead.
ghost use Rattle.std.specs.Prelude.{◌≡◌, ◌+◌, ◌-◌, ◌<◌, ◌≤◌, ℕ, List, take, drop, length, map, slice_get, OnOk, IfErr};
ghost use Rattle.std.specs.Char.{to_ascii_lowercase};
ghost use Rattle.dia_ccf.specs.Limits.{max_text};
ghost use Rattle.dia_ccf.specs.Plain.{plain_source, plain_decl, plain_def};
ghost use Rattle.dia_ccf.specs.Machine.{add_decl, add_def};
ghost use Rattle.dia_ccf.specs.Tokens.{placed_tokens, line_at};
ghost use Rattle.dia_ccf.specs.declared.wanted.Wanted.TheVariants.{Item};
ghost use Rattle.dia_ccf.specs.Faults.{token_place};
ghost use Rattle.dia_ccf.specs.Places.{IsPlaced, IsPlacedBefore, DeclOccurs, DefOccurs};
ghost use Rattle.dia_ccf.specs.Refusals.{place_before};
ghost use Rattle.dia_ccf.specs.Wanting.{after_all};
ghost use Rattle.dia_ccf.specs.LexerTokens.{tokens_from, left_from, ahead, sees};

mod declarations;
mod definitions;
mod heads;
mod refusal;

use crate::fault::CcfFault;
use crate::lexer::{Sign, Token, next_token};
use crate::names::{is_name, is_same, is_same_word};
use crate::refused::{Misfit, Refused};
use crate::source::{Decl, Def, Head, Source};
use crate::wanted::Wanted;
use definitions::Opening;
use dia_terms::MAX_NAME;
use refusal::Refusal;
use std::alloc::Global;

/// A text, and how far it has been read.
#[derive(Drop)]
pub(crate) struct Reader<'a> {
    alloc: Global,
    text: &'a str,
    /// The token ahead, or none at the end of the text.
    token: Option<Token<'a>>,
    /// The place in bytes where the token ahead begins, and the one where it ends.
    at: usize,
    end: usize,
    /// How many tokens precede it.
    taken: u32,
    /// What would fit in its place.
    wanted: Wanted,
    /// The places of the token before it, and of the one before that.
    last: Option<usize>,
    earlier: Option<usize>,
    ghost small: { length text.now ≤ max_text },
    ghost within: { end ≤ length text.now },
    ghost long: { at + length (ahead token) ≤ end },
    ghost few: { taken ≤ at },
    ghost reached: { taken ≤ length (placed_tokens text.now) },
    ghost counted: { drop taken (placed_tokens text.now) ≡ tokens_from text.now at },
    ghost rest: { drop (length (ahead token)) (tokens_from text.now at)
        ≡ tokens_from text.now end },
    ghost placed: { token_place text.now (slice_get (tokens_from text.now at) 0) ≡ at },
    ghost begins: { left_from text.now at ≡ sees token (left_from text.now end) },
    ghost wants: { wanted ≡ after_all Item (take taken (left_from text.now 0)) },
    ghost before: { last ≡ place_before text.now taken },
    ghost before_that: { earlier ≡ place_before text.now (taken - 1) },
}

impl<'a> Reader<'a> {
    ghost use Rattle.std.specs.Prelude.{true, false, IsSome, IfOk, string_bytes};
    ghost use Rattle.dia_ccf.specs.LexerTokens.{shown_sign};
    ghost use Rattle.dia_ccf.specs.Machine.{Between, same_sign, is_word, is_keyword, is_number};
    ghost use Rattle.dia_ccf.specs.Machine.{number_at, name_at, sign_at, keyword_at};
    ghost use Rattle.dia_ccf.specs.ReaderFunctions.{left, Passes, Takes, Accepts, Finishes};
    ghost use Rattle.dia_ccf.specs.ReaderFunctions.{IsRecordedAt, recorded_at, course, begins_with, nothing_read};

    /// A reader at the first token.
    pub(crate) fn new(alloc: Global, text: &'a str) -> Self
        requires { length text.now ≤ max_text }
        ensures { (result.text.now ≡ text.now) × (result.taken ≡ 0) }
    {
        let (token, at, end) = look(text, 0);
        Reader {
            alloc,
            text,
            token,
            at,
            end,
            taken: 0,
            wanted: Wanted::Item,
            last: None,
            earlier: None,
        }
    }

    /// Goes on to the next token.
    fn advance(&mut self)
        requires { IsSome self.old.token }
        ensures { Passes self.old (ahead self.old.token) self.new }
    {
        self.wanted = self.wanted_after();
        self.earlier = self.last;
        self.last = Some(self.at);
        let (token, at, end) = look(self.text, self.end);
        self.token = token;
        self.at = at;
        self.end = end;
        self.taken += 1;
    }

    /// What fits after the token ahead.
    fn wanted_after(&self) -> Wanted
        ensures { result ≡ after_all self.now.wanted (ahead self.now.token) }
    {
        match self.token {
            Some(token) => self.wanted.following(token),
            None => self.wanted,
        }
    }

    /// Whether the sign is ahead.
    fn is_at(&self, sign: Sign) -> bool
        ensures { result ≡ begins_with (same_sign (shown_sign sign)) (left self.now) }
    {
        match self.token {
            Some(Token::Sign(found)) => found == sign,
            _ => false,
        }
    }

    /// Whether a number is ahead.
    fn is_at_number(&self) -> bool
        ensures { result ≡ begins_with is_number (left self.now) }
    {
        matches!(self.token, Some(Token::Number(_) | Token::TooGreat))
    }

    /// Goes past the sign, if it is ahead.
    fn takes(&mut self, sign: Sign) -> bool
        ensures { Takes (same_sign (shown_sign sign)) self.old result self.new }
    {
        let found = self.is_at(sign);
        if found {
            self.advance();
        }
        found
    }

    /// Goes past the sign.
    fn expect(&mut self, sign: Sign) -> Result<(), Refusal>
        ensures { Accepts false false (sign_at (shown_sign sign))
            (λ u. tt) self.old result self.new }
    {
        if self.takes(sign) {
            Ok(())
        } else {
            Err(Refusal::Syntax)
        }
    }

    /// Goes past the word, if it is ahead.
    fn takes_word(&mut self, word: &str) -> bool
        ensures { Takes (is_word word.now) self.old result self.new }
    {
        let token = self.token;
        match token {
            Some(Token::Name(name)) if is_same(name, word) => {
                self.advance();
                true
            }
            _ => false,
        }
    }

    /// Goes past the word in either letter case, if it is ahead.
    fn takes_keyword(&mut self, word: &str) -> bool
        ensures { Takes (is_keyword (map to_ascii_lowercase word.now)) self.old result self.new }
    {
        let token = self.token;
        match token {
            Some(Token::Name(name)) if is_same_word(name, word) => {
                self.advance();
                true
            }
            _ => false,
        }
    }

    /// Goes past the word in either letter case.
    fn expect_keyword(&mut self, word: &str) -> Result<(), Refusal>
        ensures { Accepts false false (keyword_at (map to_ascii_lowercase word.now))
            (λ u. tt) self.old result self.new }
    {
        if self.takes_keyword(word) {
            Ok(())
        } else {
            Err(Refusal::Syntax)
        }
    }

    /// A number from `least` to `most`.
    fn number(&mut self, least: u32, most: u32) -> Result<u32, Refusal>
        ensures { Accepts true false (number_at least most) (λ n. n) self.old result self.new }
    {
        let token = self.token;
        match token {
            Some(Token::Number(n)) if least <= n && n <= most => {
                self.advance();
                Ok(n)
            }
            Some(Token::Number(_) | Token::TooGreat) => Err(Refusal::Number),
            _ => Err(Refusal::Syntax),
        }
    }

    /// A name that is free to choose.
    fn name(&mut self) -> Result<String, Refusal>
        ensures { Accepts false true name_at (λ name. string_bytes name) self.old result self.new }
    {
        let token = self.token;
        let Some(Token::Name(name)) = token else {
            return Err(Refusal::Syntax);
        };
        if is_name(name) {
            let name = String::from_str(self.alloc, name)?;
            self.advance();
            return Ok(name);
        }
        if name.len() > MAX_NAME {
            return Err(Refusal::Limit);
        }
        Err(Refusal::Syntax)
    }

    /// The whole text, from its first token.
    pub(crate) fn source(&mut self) -> Result<Source, Refusal>
        ensures read { Finishes (course (nothing_read, Between) self.old) result self.new }
        ensures placed { IfOk result (IsPlaced self.new.text.now) }
    {
        let mut source = Source {
            avps: Vec::new(self.alloc),
            groups: Vec::new(self.alloc),
            commands: Vec::new(self.alloc),
        };
        let mut next = None;
        loop {
            let at = self.at;
            if let Some(opening) = next {
                let (def, following) = self.definition(opening)?;
                keep_definition(&mut source, def)?;
                next = following;
            } else if self.takes(Sign::Declares) {
                let decl = self.declaration(at)?;
                keep_declaration(&mut source, decl)?;
            } else if self.token.is_none() {
                return Ok(source);
            } else {
                let name = self.defined_name()?;
                next = Some(Opening { at, name });
            }
        }
    }

    /// What is reported of a refusal at the token ahead.
    pub(crate) fn refused(&self, refusal: Refusal) -> Refused
        ensures { IsRecordedAt refusal self.now result }
    {
        let line = line_of(self.text, self.at);
        match refusal {
            Refusal::Syntax => self.misfit(CcfFault::Syntax {
                token: self.taken + 1,
                line,
            }),
            Refusal::Number => self.misfit(CcfFault::Number { line }),
            Refusal::Limit => self.misfit(CcfFault::Limit { line }),
            Refusal::NoMemory => Refused::NoMemory,
        }
    }

    /// A fault of the token ahead.
    fn misfit(&self, fault: CcfFault) -> Refused
        ensures { result ≡ recorded_at self.now fault }
    {
        Refused::At(Misfit {
            fault,
            at: self.at,
            wanted: self.wanted,
            last: self.last,
            earlier: self.earlier,
        })
    }
}

/// The token from a place on, where it begins and where it ends.
fn look(text: &str, from: usize) -> (Option<Token<'_>>, usize, usize)
    requires { from ≤ length text.now }
    ensures within { (from ≤ result.1) × (result.1 + length (ahead result.0) ≤ result.2)
        × (result.2 ≤ length text.now) }
    ensures same { tokens_from text.now from ≡ tokens_from text.now result.1 }
    ensures rest { drop (length (ahead result.0)) (tokens_from text.now result.1)
        ≡ tokens_from text.now result.2 }
    ensures placed { token_place text.now (slice_get (tokens_from text.now result.1) 0)
        ≡ result.1 }
    ensures begins { left_from text.now result.1 ≡ sees result.0 (left_from text.now result.2) }
{
    match next_token(text, from) {
        Some(found) => (Some(found.token), found.at, found.end),
        None => (None, text.len(), text.len()),
    }
}

/// The line of a place: 1 and the line feeds before it.
fn line_of(text: &str, at: usize) -> u32
    requires small { length text.now ≤ max_text }
    requires within { at ≤ length text.now }
    ensures { result ≡ line_at text.now at }
{
    let mut line = 1;
    for b in &text.as_bytes()[..at] {
        if *b == b'\n' {
            line += 1;
        }
    }
    line
}

fn keep_declaration(source: &mut Source, decl: Decl) -> Result<(), Refusal>
    ensures kept { OnOk result
        (plain_source source.new ≡ add_decl (plain_source source.old) (plain_decl decl)) }
    ensures placed { (text : List ℕ) (at : ℕ) → IsPlacedBefore text decl.at source.old
        → DeclOccurs text decl → decl.at < at → OnOk result (IsPlacedBefore text at source.new) }
    ensures err { IfErr result (λ e. e ≡ Refusal.NoMemory) }
{
    source.avps.push(decl)?;
    Ok(())
}

/// Adds a definition to the groups or to the commands.
fn keep_definition(source: &mut Source, def: Def) -> Result<(), Refusal>
    ensures kept { OnOk result
        (plain_source source.new ≡ add_def (plain_source source.old) (plain_def def)) }
    ensures placed { (text : List ℕ) (at : ℕ) → IsPlacedBefore text def.at source.old
        → DefOccurs text def → def.at < at → OnOk result (IsPlacedBefore text at source.new) }
    ensures err { IfErr result (λ e. e ≡ Refusal.NoMemory) }
{
    match def.head {
        Head::Group { .. } => source.groups.push(def)?,
        Head::Command { .. } | Head::Error { .. } => source.commands.push(def)?,
    }
    Ok(())
}
