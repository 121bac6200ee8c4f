//! The tokens of a text, for those who show parts of it.
ghost use Rattle.std.specs.Prelude.{◌≡◌, [], MatchOption};
ghost use Rattle.std.specs.Option.{option_map};
ghost use Rattle.std.specs.List.{find};
ghost use Rattle.dia_ccf.specs.LexerTokens.{shown, tokens_from};
ghost use Rattle.dia_ccf.specs.Lexemes.{IsLexeme, kind_of, is_named};

use crate::lexer::{Token, next_token};

/// What a token is.
#[derive(Clone, Copy, PartialEq, Eq)]
pub enum Kind {
    /// A bracket, `*`, `,`, `..`, `::=`, `:` or `%avp`.
    Sign,
    Number,
    /// A run that begins with a letter or a digit and holds a letter, of any length.
    Name,
    /// A character or a run that may occur in comments alone.
    Other,
}

/// A token: what it is, and the places in bytes where it begins and where it ends.
#[derive(Clone, Copy)]
pub struct Lexeme {
    pub kind: Kind,
    pub at: usize,
    pub end: usize,
}

/// The first token from a place on.
pub fn next_lexeme(text: &str, from: usize) -> Option<Lexeme>
    ensures { MatchOption result (tokens_from text.now from ≡ []) (IsLexeme text.now from) }
{
    if from > text.len() {
        return None;
    }
    let found = next_token(text, from)?;
    Some(Lexeme {
        kind: kind_of(found.token),
        at: found.at,
        end: found.end,
    })
}

fn kind_of(token: Token<'_>) -> Kind
    ensures { result ≡ kind_of (shown token.entry) }
{
    match token {
        Token::Sign(_) => Kind::Sign,
        Token::Number(_) | Token::TooGreat => Kind::Number,
        Token::Name(_) => Kind::Name,
        Token::Other => Kind::Other,
    }
}

/// The place of the first name from a place on.
pub fn first_name(text: &str, from: usize) -> Option<usize>
    ensures { result ≡ option_map (λ p. p.at) (find is_named (tokens_from text.now from)) }
{
    let mut at = from;
    while let Some(lexeme) = next_lexeme(text, at) {
        if lexeme.kind == Kind::Name {
            return Some(lexeme.at);
        }
        at = lexeme.end;
    }
    None
}
