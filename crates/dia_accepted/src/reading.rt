//! How a line of a list is read.
ghost use Rattle.std.specs.Prelude.{◌≡◌, Err, IfErr, IfOk, Ok, drop};
ghost use Rattle.std.specs.Option.{option_map};
ghost use Rattle.std.specs.Result.{MatchResult};
ghost use Rattle.dia_accepted.specs.LineReader.{answer_read, colon_read, detail_read, first_word, after_word, front_read};
ghost use Rattle.dia_accepted.specs.LineReader.{line_read, once_read, path_read, subject_read, undecided_read, verdict_read};
ghost use Rattle.dia_accepted.specs.Lines.{IsLine, IsMisfit, plain_line, plain_scope};

use crate::line::{AcceptedLine, Reason, Scope, Verdict};
use crate::parts::{
    before_last, is_counting, is_placing, last_part, name_len, names_len, subject_len, word_len,
};
use crate::words::{begins, following};
use thiserror::Error;

/// Where words are no line.
#[derive(Clone, Copy, Debug, Error)]
#[error("no line goes on after {at} bytes")]
pub(crate) struct Misfit {
    /// The bytes that precede the first place at which no line goes on.
    pub at: usize,
}

/// What begins a line up to DETAIL, and what follows.
#[derive(Clone, Copy)]
struct Front<'a> {
    verdict: Verdict,
    subject: &'a [u8],
    rest: &'a [u8],
}

/// Reads a line that `breaking` writes, or writes with `--once`: `PATH: REASON SUBJECT: DETAIL`, where PATH may be `*`, or
/// `REASON SUBJECT: DETAIL, in N commands, first in PATH`. A misfit of words that begin with a reason is that of the second
/// form.
pub(crate) fn read_line(words: &[u8]) -> Result<AcceptedLine<'_>, Misfit>
    ensures line { IfOk result (λ line. IsLine words.now (plain_line line)) }
    ensures misfit { IfErr result (λ misfit. IsMisfit words.now misfit.at) }
{
    match line_or_rest(words) {
        Ok(line) => Ok(line),
        Err(rest) => Err(Misfit {
            at: words.len().saturating_sub(rest.len()),
        }),
    }
}

/// The line; else the words from the misfit on, here and below.
fn line_or_rest(words: &[u8]) -> Result<AcceptedLine<'_>, &[u8]>
    ensures { MatchResult result (λ line. line_read words.now ≡ Ok (plain_line line))
        (λ rest. line_read words.now ≡ Err rest.now) }
{
    match read_answer(words) {
        Ok(line) => Ok(line),
        Err(rest) => {
            if read_verdict(words).is_some() {
                read_once(words)
            } else {
                Err(rest)
            }
        }
    }
}

fn read_answer(words: &[u8]) -> Result<AcceptedLine<'_>, &[u8]>
    ensures { MatchResult result (λ line. answer_read words.now ≡ Ok (plain_line line))
        (λ rest. answer_read words.now ≡ Err rest.now) }
{
    let Some((scope, after_path)) = read_path(words) else {
        return Err(words);
    };
    let Some(text) = after_colon(after_path) else {
        return Err(after_path);
    };
    let front = match read_front(text) {
        Ok(front) => front,
        Err(rest) => return Err(rest),
    };
    if front.rest.is_empty() {
        return Err(front.rest);
    }
    Ok(AcceptedLine {
        scope,
        verdict: front.verdict,
        subject: front.subject,
        detail: front.rest,
    })
}

fn read_once(words: &[u8]) -> Result<AcceptedLine<'_>, &[u8]>
    ensures { MatchResult result (λ line. once_read words.now ≡ Ok (plain_line line))
        (λ rest. once_read words.now ≡ Err rest.now) }
{
    let front = match read_front(words) {
        Ok(front) => front,
        Err(rest) => return Err(rest),
    };
    let Some(detail) = read_detail(front.rest) else {
        return Err(b"");
    };
    Ok(AcceptedLine {
        scope: Scope::Everywhere,
        verdict: front.verdict,
        subject: front.subject,
        detail,
    })
}

/// `REASON SUBJECT: `
fn read_front(text: &[u8]) -> Result<Front<'_>, &[u8]>
    ensures { MatchResult result (λ front. front_read text.now ≡ Ok ((front.verdict, front.subject.now), front.rest.now))
        (λ rest. front_read text.now ≡ Err rest.now) }
{
    let Some((verdict, after_verdict)) = read_verdict(text) else {
        return Err(text);
    };
    let Some((subject, after_subject)) = read_subject(after_verdict) else {
        return Err(after_verdict);
    };
    let Some(rest) = after_colon(after_subject) else {
        return Err(after_subject);
    };
    Ok(Front {
        verdict,
        subject,
        rest,
    })
}

fn read_path(text: &[u8]) -> Option<(Scope<'_>, &[u8])>
    ensures { option_map (λ found. (plain_scope found.0, found.1.now)) result ≡ path_read text.now }
{
    if begins(text, b"*") {
        Some((Scope::Everywhere, following(text, 1)))
    } else if name_len(text) > 0 {
        let (path, rest) = text.split_at(names_len(text));
        Some((Scope::At(path), rest))
    } else {
        None
    }
}

/// What follows a colon and a space.
fn after_colon(text: &[u8]) -> Option<&[u8]>
    ensures { option_map (λ rest. rest.now) result ≡ colon_read text.now }
{
    if begins(text, b": ") {
        Some(following(text, 2))
    } else {
        None
    }
}

/// A reason; or `undecided`, with a reason or without.
fn read_verdict(text: &[u8]) -> Option<(Verdict, &[u8])>
    ensures { option_map (λ found. (found.0, found.1.now)) result ≡ verdict_read text.now }
{
    let word = first_word(text);
    let rest = after_word(text);
    match Reason::named(word) {
        Some(reason) => Some((Verdict::Breaks(reason), rest)),
        None => {
            if word == b"undecided".as_slice() {
                Some(read_undecided(rest))
            } else {
                None
            }
        }
    }
}

fn read_undecided(text: &[u8]) -> (Verdict, &[u8])
    ensures { (result.0, result.1.now) ≡ undecided_read text.now }
{
    match Reason::named(first_word(text)) {
        Some(reason) => (Verdict::Undecided(Some(reason)), after_word(text)),
        None => (Verdict::Undecided(None), text),
    }
}

fn read_subject(text: &[u8]) -> Option<(&[u8], &[u8])>
    ensures { option_map (λ parts. (parts.0.now, parts.1.now)) result ≡ subject_read text.now }
{
    if name_len(text) > 0 {
        Some(text.split_at(subject_len(text)))
    } else {
        None
    }
}

/// What precedes `, in N commands, first in PATH`.
fn read_detail(text: &[u8]) -> Option<&[u8]>
    ensures { option_map (λ detail. detail.now) result ≡ detail_read text.now }
{
    let front = before_last(text);
    let detail = before_last(front);
    if is_placing(last_part(text)) && is_counting(last_part(front)) && detail.len() > 0 {
        Some(detail)
    } else {
        None
    }
}

fn first_word(text: &[u8]) -> &[u8]
    ensures { result.now ≡ first_word text.now }
{
    let (word, _) = text.split_at(word_len(text));
    word
}

/// What follows the first word and a space.
fn after_word(text: &[u8]) -> &[u8]
    ensures { result.now ≡ after_word text.now }
{
    after_one(following(text, word_len(text)))
}

fn after_one(text: &[u8]) -> &[u8]
    ensures { result.now ≡ drop 1 text.now }
{
    if text.is_empty() { text } else { &text[1..] }
}
