//! The words of a line, with their places, and which of them don't fit where they are.
ghost use Rattle.std.specs.Prelude.{◌≡◌, ◌≤◌, ◌==◌, length, IfSome, None};
ghost use Rattle.std.specs.Char.{is_ascii_alphabetic};
ghost use Rattle.std.specs.List.{list_all, list_any, prefix_len};
ghost use Rattle.std.specs.Str.{IsUtf8};
ghost use Rattle.dia_compat.specs.TableText.{is_blank, is_name_run, is_run_byte};
ghost use Rattle.dia_compat.specs.Words.{is_word_byte, after_word, plain_word, plain_words};
ghost use Rattle.dia_compat.specs.Words.{word_in, words_in};

use dia_terms::MAX_NAME;

/// A word of a line, and how many bytes of the line precede it. Where there is none it is empty, and its place is the end of the
/// line or where its comment begins.
#[derive(Clone, Copy)]
pub struct Word<'a> {
    pub text: &'a [u8],
    pub at: usize,
}

/// The words of a line: those of a pair, and the first after them.
#[derive(Clone, Copy)]
pub struct PairWords<'a> {
    pub kind: Word<'a>,
    pub first: Word<'a>,
    pub sign: Word<'a>,
    pub second: Word<'a>,
    pub more: Word<'a>,
}

/// A part of a line `command A = B`, or what follows it.
#[derive(Clone, Copy, PartialEq, Eq)]
pub enum PairPart {
    /// `command` or `avp`.
    Kind,
    First,
    Sign,
    Second,
    After,
}

/// The words of a line without its end. Spaces and tabs separate them, and a semicolon begins a comment (our profile).
pub fn words_of(line: &[u8]) -> PairWords<'_>
    ensures { plain_words result ≡ words_in line.entry.now }
{
    let (kind, rest) = next_word(line, line);
    let (first, rest) = next_word(line, rest);
    let (sign, rest) = next_word(line, rest);
    let (second, rest) = next_word(line, rest);
    let (more, _) = next_word(line, rest);
    PairWords {
        kind,
        first,
        sign,
        second,
        more,
    }
}

/// The first word of the rest of a line, and the rest after it.
fn next_word<'a>(line: &[u8], rest: &'a [u8]) -> (Word<'a>, &'a [u8])
    ensures word { plain_word result.0 ≡ word_in line.now rest.now }
    ensures rest { result.1.now ≡ after_word rest.now }
{
    let rest = &rest[blanks_len(rest)..];
    let (text, following) = rest.split_at(word_len(rest));
    let at = line.len().saturating_sub(rest.len());
    (Word { text, at }, following)
}

/// How many blanks are at the front.
fn blanks_len(bytes: &[u8]) -> usize
    ensures len { result ≡ prefix_len is_blank bytes.now }
    ensures within { result ≤ length bytes.now }
{
    bytes.iter().take_while(|b| is_blank(**b)).count()
}

/// How many bytes of a word are at the front.
fn word_len(bytes: &[u8]) -> usize
    ensures len { result ≡ prefix_len is_word_byte bytes.now }
    ensures within { result ≤ length bytes.now }
{
    bytes.iter().take_while(|b| is_word_byte(**b)).count()
}

fn is_blank(b: u8) -> bool
    ensures { result ≡ is_blank b }
{
    b == b' ' || b == b'\t'
}

fn is_word_byte(b: u8) -> bool
    ensures { result ≡ is_word_byte b }
{
    !(is_blank(b) || b == b';')
}

impl<'a> Word<'a> {
    /// Whether there is no such word.
    pub fn is_empty(&self) -> bool
        ensures { result ≡ (length self.now.text.now == 0) }
    {
        self.text.is_empty()
    }

    /// The word as text, if it is UTF-8.
    pub fn as_text(&self) -> Option<&'a str>
        ensures text { IfSome result (λ text. text.now ≡ self.now.text.now) }
        ensures none { result ≡ None → ¬ IsUtf8 self.now.text.now }
    {
        str::from_utf8(self.text).ok()
    }

    /// Whether the word is a name, of any length.
    fn is_name(&self) -> bool
        ensures { result ≡ is_name_run self.now.text.now }
    {
        match self.text {
            [first, rest @ ..] => {
                first.is_ascii_alphanumeric() && is_run(rest) && has_letter(self.text)
            }
            [] => false,
        }
    }
}

fn is_run(bytes: &[u8]) -> bool
    ensures { result ≡ list_all is_run_byte bytes.now }
{
    bytes
        .iter()
        .all(|b| b.is_ascii_alphanumeric() || *b == b'-')
}

fn has_letter(bytes: &[u8]) -> bool
    ensures { result ≡ list_any is_ascii_alphabetic bytes.now }
{
    bytes.iter().any(|b| b.is_ascii_alphabetic())
}

impl<'a> PairWords<'a> {
    ghost use Rattle.dia_compat.specs.Words.{fits, limit_part, plain_word, plain_words, word_of, wrong_part};

    /// The word in the place of a part.
    pub fn word(&self, part: PairPart) -> Word<'a>
        ensures { plain_word result ≡ word_of (plain_words self.now) part }
    {
        match part {
            PairPart::Kind => self.kind,
            PairPart::First => self.first,
            PairPart::Sign => self.sign,
            PairPart::Second => self.second,
            PairPart::After => self.more,
        }
    }

    /// The first part whose word doesn't fit there. A line with words is a pair where there is none.
    pub fn wrong_part(&self) -> Option<PairPart>
        ensures { result ≡ wrong_part (plain_words self.now) }
    {
        [
            PairPart::Kind,
            PairPart::First,
            PairPart::Sign,
            PairPart::Second,
            PairPart::After,
        ]
        .iter()
        .copied()
        .find(|part| !self.fits(*part))
    }

    /// Whether the word in the place of a part fits there.
    fn fits(&self, part: PairPart) -> bool
        ensures { result ≡ fits (plain_words self.now) part }
    {
        match part {
            PairPart::Kind => self.kind.text == b"command".as_slice()
                || self.kind.text == b"avp".as_slice(),
            PairPart::First => self.first.is_name(),
            PairPart::Sign => self.sign.text == b"=".as_slice(),
            PairPart::Second => self.second.is_name(),
            PairPart::After => self.more.is_empty(),
        }
    }

    /// The first name that is too long, of a line that passes a limit. Where none is, the pair is one too many.
    pub fn limit_part(&self) -> PairPart
        ensures { result ≡ limit_part (plain_words self.now) }
    {
        if self.first.text.len() > MAX_NAME {
            PairPart::First
        } else if self.second.text.len() > MAX_NAME {
            PairPart::Second
        } else {
            PairPart::Kind
        }
    }
}
