//! The tokens of a dictionary text.
ghost use Rattle.std.specs.Prelude.{◌≡◌, ◌≤◌, ◌<◌, ◌+◌, ◌==◌, ◌↔◌, ℕ, not, false, true, List, []};
ghost use Rattle.std.specs.Prelude.{length, drop, MatchOption, IfSome, IsNone, None, Some};
ghost use Rattle.std.specs.List.{prefix_len, list_all, list_any};
ghost use Rattle.std.specs.Char.{is_ascii_digit, is_ascii_alphabetic};
ghost use Rattle.std.specs.Str.Parse.{digits_value};
ghost use Rattle.dia_ccf.specs.Names.{is_run_byte, is_name_run};
ghost use Rattle.dia_ccf.specs.Tokens.{Token as AnyToken, Number, sign, run_token};
ghost use Rattle.dia_ccf.specs.Front.{front, begins_blank, blank, run_piece, byte_piece, run_front};
ghost use Rattle.dia_ccf.specs.LexerTokens.{tokens_from, IsNext, capped, shown, shown_sign};

use crate::names::{is_same, is_same_word};

/// A sign of the text.
#[derive(Clone, Copy, PartialEq, Eq)]
pub(crate) enum Sign {
    Less,
    Greater,
    OpenBrace,
    CloseBrace,
    OpenBracket,
    CloseBracket,
    OpenParenthesis,
    CloseParenthesis,
    Star,
    Comma,
    /// `..`
    Dots,
    /// `::=`
    Assign,
    Colon,
    /// `%avp`
    Declares,
}

/// A token. A name is a part of the text.
#[derive(Clone, Copy)]
pub(crate) enum Token<'a> {
    Sign(Sign),
    Number(u32),
    /// A number above 32 bits.
    TooGreat,
    /// A run that begins with a letter or a digit and holds a letter, of any length.
    Name(&'a str),
    /// A character or a run that no text has.
    Other,
}

impl Token<'_> {
    ghost use Rattle.std.specs.Prelude.{map};
    ghost use Rattle.std.specs.Char.{to_ascii_lowercase};
    ghost use Rattle.dia_ccf.specs.Machine.{same_sign, is_word, is_keyword, is_number};
    ghost use Rattle.dia_ccf.specs.Wanting.{value_of};

    /// Whether the token is the sign.
    pub(crate) fn is_sign(self, sign: Sign) -> bool
        ensures { result ≡ same_sign (shown_sign sign) (shown self.entry) }
    {
        match self {
            Token::Sign(found) => found == sign,
            _ => false,
        }
    }

    /// Whether the token is a number.
    pub(crate) fn is_number(self) -> bool
        ensures { result ≡ is_number (shown self.entry) }
    {
        matches!(self, Token::Number(_) | Token::TooGreat)
    }

    /// Whether the token is the word.
    pub(crate) fn is_word(self, word: &str) -> bool
        ensures { result ≡ is_word word.now (shown self.entry) }
    {
        match self {
            Token::Name(name) => is_same(name, word),
            _ => false,
        }
    }

    /// Whether the token is the word in either letter case.
    pub(crate) fn is_keyword(self, word: &str) -> bool
        ensures { result ≡ is_keyword (map to_ascii_lowercase word.now) (shown self.entry) }
    {
        match self {
            Token::Name(name) => is_same_word(name, word),
            _ => false,
        }
    }

    /// The number, and 0 for any other token.
    pub(crate) fn value(self) -> u32
        ensures { result ≡ value_of (shown self.entry) }
    {
        match self {
            Token::Number(n) => n,
            _ => 0,
        }
    }
}

/// A token, and the places in bytes where it begins and where it ends.
#[derive(Clone, Copy)]
pub(crate) struct Lexed<'a> {
    pub(crate) token: Token<'a>,
    pub(crate) at: usize,
    pub(crate) end: usize,
}

/// The first token from a place on.
pub(crate) fn next_token(text: &str, from: usize) -> Option<Lexed<'_>>
    requires { from ≤ length text.now }
    ensures { MatchOption result (tokens_from text.now from ≡ []) (IsNext text.now from) }
{
    let at = skip_blanks(text.as_bytes(), from);
    if at == text.len() {
        return None;
    }
    let (token, len) = token_at(text, at);
    Some(Lexed {
        token,
        at,
        end: at + len,
    })
}

/// The first place from `from` on where neither white space nor a comment begins.
fn skip_blanks(bytes: &[u8], from: usize) -> usize
    requires { from ≤ length bytes.now }
    ensures same { tokens_from bytes.now from ≡ tokens_from bytes.now result }
    ensures begins { from ≤ result }
    ensures within { result ≤ length bytes.now }
    ensures token { begins_blank (drop result bytes.now) ≡ false }
{
    let mut at = from;
    while let Some(len) = blank_len(&bytes[at..]) {
        at += len;
    }
    at
}

/// The length of the white space byte or the comment at the front.
fn blank_len(bytes: &[u8]) -> Option<usize>
    ensures none { IsNone result ↔ (begins_blank bytes.now ≡ false) }
    ensures some { IfSome result (λ len. front bytes.now ≡ Some (blank len)) }
    ensures long { IfSome result (λ len. 0 < len) }
    ensures within { IfSome result (λ len. len ≤ length bytes.now) }
{
    match bytes {
        [b' ' | b'\t' | b'\r' | b'\n', ..] => Some(1),
        [b';', rest @ ..] => Some(1 + comment_len(rest)),
        _ => None,
    }
}

/// How many bytes precede the next line feed.
fn comment_len(bytes: &[u8]) -> usize
    ensures len { result ≡ prefix_len (λ b. not (b == 10)) bytes.now }
    ensures within { result ≤ length bytes.now }
{
    for index in 0..bytes.len() {
        if bytes[index] == b'\n' {
            return index;
        }
    }
    bytes.len()
}

/// The token that begins at a place, and its length.
fn token_at(text: &str, at: usize) -> (Token<'_>, usize)
    requires within { at < length text.now }
    requires begins { begins_blank (drop at text.now) ≡ false }
    ensures token { (token : AnyToken) × (capped token ≡ shown result.0)
        × (front (drop at text.now) ≡ Some (sign token result.1)) }
    ensures long { 0 < result.1 }
    ensures within { at + result.1 ≤ length text.now }
{
    let rest = &text.as_bytes()[at..];
    if let Some((sign, len)) = sign_at_front(rest) {
        return (Token::Sign(sign), len);
    }
    let len = run_len(rest);
    if len == 0 {
        return (Token::Other, 1);
    }
    (run_token(&text[at..at + len]), len)
}

/// The sign at the front, and its length.
fn sign_at_front(bytes: &[u8]) -> Option<(Sign, usize)>
    requires { begins_blank bytes.now ≡ false }
    ensures some { IfSome result
        (λ found. front bytes.now ≡ Some (sign (shown_sign found.0) found.1)) }
    ensures none { result ≡ None → front bytes.now ≡ run_front bytes.now }
    ensures long { IfSome result (λ found. 0 < found.1) }
    ensures within { IfSome result (λ found. found.1 ≤ length bytes.now) }
{
    if bytes.starts_with(b"%avp") {
        return Some((Sign::Declares, 4));
    }
    if bytes.starts_with(b"::=") {
        return Some((Sign::Assign, 3));
    }
    if bytes.starts_with(b"..") {
        return Some((Sign::Dots, 2));
    }
    let sign = sign_of(*bytes.first()?)?;
    Some((sign, 1))
}

/// The sign that a byte is.
fn sign_of(b: u8) -> Option<Sign>
    ensures { MatchOption result ((rest : List ℕ) → byte_piece b rest ≡ run_piece b rest)
        (λ found. (rest : List ℕ)
        → byte_piece b rest ≡ sign (shown_sign found) 1) }
{
    let sign = match b {
        b':' => Sign::Colon,
        b'<' => Sign::Less,
        b'>' => Sign::Greater,
        b'{' => Sign::OpenBrace,
        b'}' => Sign::CloseBrace,
        b'[' => Sign::OpenBracket,
        b']' => Sign::CloseBracket,
        b'(' => Sign::OpenParenthesis,
        b')' => Sign::CloseParenthesis,
        b'*' => Sign::Star,
        b',' => Sign::Comma,
        _ => return None,
    };
    Some(sign)
}

/// How many letters, digits and dashes are at the front.
fn run_len(bytes: &[u8]) -> usize
    ensures len { result ≡ prefix_len is_run_byte bytes.now }
    ensures within { result ≤ length bytes.now }
{
    for index in 0..bytes.len() {
        if !is_run_byte(bytes[index]) {
            return index;
        }
    }
    bytes.len()
}

fn is_run_byte(b: u8) -> bool
    ensures { result ≡ is_run_byte b }
{
    b.is_ascii_alphanumeric() || b == b'-'
}

/// The token that a run of letters, digits and dashes is.
fn run_token(run: &str) -> Token<'_>
    requires { 0 < length run.now }
    ensures { capped (run_token run.now) ≡ shown result }
{
    let bytes = run.as_bytes();
    if is_digits(bytes) {
        return number_token(run);
    }
    if is_name_run(bytes) {
        Token::Name(run)
    } else {
        Token::Other
    }
}

fn is_digits(bytes: &[u8]) -> bool
    ensures { result ≡ list_all is_ascii_digit bytes.now }
{
    for b in bytes {
        if !b.is_ascii_digit() {
            return false;
        }
    }
    true
}

/// The token that a run of digits is.
fn number_token(run: &str) -> Token<'_>
    requires long { 0 < length run.now }
    requires digits { list_all is_ascii_digit run.now ≡ true }
    ensures { capped (Number (digits_value 10 run.now)) ≡ shown result }
{
    match run.parse::<u32>() {
        Ok(n) => Token::Number(n),
        Err(_) => Token::TooGreat,
    }
}

/// Whether the run begins with a letter or a digit and holds a letter.
pub(crate) fn is_name_run(bytes: &[u8]) -> bool
    ensures { result ≡ is_name_run bytes.now }
{
    match bytes {
        [first, rest @ ..] => first.is_ascii_alphanumeric() && is_run(rest) && has_letter(bytes),
        [] => false,
    }
}

fn is_run(bytes: &[u8]) -> bool
    ensures { result ≡ list_all is_run_byte bytes.now }
{
    for b in bytes {
        if !is_run_byte(*b) {
            return false;
        }
    }
    true
}

fn has_letter(bytes: &[u8]) -> bool
    ensures { result ≡ list_any is_ascii_alphabetic bytes.now }
{
    for b in bytes {
        if b.is_ascii_alphabetic() {
            return true;
        }
    }
    false
}
