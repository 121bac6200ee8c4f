//! The forms in which vectors are written.

ghost use Rattle.std.specs.Prelude.{◌≡◌, ◌≢◌, ◌<◌, ◌++◌, ℕ, List, Err, IfOk, length, string_bytes};
ghost use Rattle.dia_dict.specs.Dictionary.{definitions};
ghost use Rattle.dia_examples_text.specs.Vectors.{IsBody, IsVector, IsVerdictOf, before, columns, heading};
ghost use Rattle.dia_terms.specs.declared.Unknown.{Unknown as AnyPolicy};

use crate::objects::object;
use dia_check::{Refusal, Selected};
use dia_dict::Book;
use dia_text::{NotWritten, as_text};
use std::alloc::{AllocError, Global};

/// The form in which vectors are written.
#[derive(Clone, Copy)]
pub enum Form {
    /// A line each, with the verdict, what the vector is, and its bytes in hexadecimal digits, and a tab between two of them.
    Columns,
    /// A block each that `make` reads, with an empty line between two.
    Text,
    /// A JSON object each, on a line of its own.
    Json,
}

/// A vector with its verdict.
#[derive(Drop)]
pub(crate) struct Vector<'v> {
    /// Both identifiers of the message.
    pub number: u32,
    pub path: &'v str,
    pub what: &'v str,
    pub bytes: &'v [u8],
}

/// What is written of a vector with this answer of a check, and its words. `is_first` is for the first of all.
pub(crate) fn vector_text<B: Book>(
    alloc: Global,
    book: &B,
    form: Form,
    vector: &Vector<'_>,
    answer: &Result<Selected, Refusal>,
    words: &str,
    is_first: bool,
) -> Result<String, AllocError>
    requires def { IfOk answer.now (λ found. found.def < length (definitions (B.meaning book.now))) }
    requires live { answer.now ≢ Err Refusal.Spent }
    ensures { (u : AnyPolicy) → IsVerdictOf (B.meaning book.now) u vector.now.bytes.now words.now
        → IfOk result (λ text. IsVector form (B.meaning book.now) u (string_bytes text)) }
{
    match form {
        Form::Columns => columns(alloc, vector, words),
        Form::Text => block(alloc, book, vector, words, is_first),
        Form::Json => object(alloc, book, vector, answer),
    }
}

fn columns(alloc: Global, vector: &Vector<'_>, words: &str) -> Result<String, AllocError>
    ensures { IfOk result (λ text. string_bytes text ≡ columns words.now
        vector.now.path.now vector.now.what.now vector.now.bytes.now) }
{
    let digits = hex::encode(alloc, vector.bytes)?;
    let mut text = String::from_str(alloc, words)?;
    text.push_str("\t")?;
    text.push_str(vector.path)?;
    text.push_str(": ")?;
    text.push_str(vector.what)?;
    text.push_str("\t")?;
    text.push_str(digits.as_str())?;
    text.push_str("\n")?;
    Ok(text)
}

/// A text that `make` reads. Where the bytes have none, they are a comment.
fn block<B: Book>(
    alloc: Global,
    book: &B,
    vector: &Vector<'_>,
    words: &str,
    is_first: bool,
) -> Result<String, AllocError>
    ensures { IfOk result (λ text. (body : List ℕ) × IsBody (B.meaning book.now) vector.now.bytes.now body
        × (string_bytes text ≡ heading is_first vector.now.number words.now vector.now.path.now vector.now.what.now ++ body)) }
{
    let mut text = heading(alloc, vector, words, is_first)?;
    let body = body(alloc, book, vector.bytes)?;
    text.push_str(body.as_str())?;
    Ok(text)
}

/// The comments before a text.
fn heading(
    alloc: Global,
    vector: &Vector<'_>,
    words: &str,
    is_first: bool,
) -> Result<String, AllocError>
    ensures { IfOk result (λ text. string_bytes text
        ≡ heading is_first vector.now.number words.now vector.now.path.now vector.now.what.now) }
{
    let number = vector.number;
    let mut text = String::from_str(alloc, before(is_first))?;
    write!(text, "# {number} ")?;
    text.push_str(words)?;
    text.push_str("\n# ")?;
    text.push_str(vector.path)?;
    text.push_str(": ")?;
    text.push_str(vector.what)?;
    text.push_str("\n")?;
    Ok(text)
}

fn before(is_first: bool) -> &'static str
    ensures { result.now ≡ before is_first }
{
    if is_first { "" } else { "\n" }
}

fn body<B: Book>(alloc: Global, book: &B, message: &[u8]) -> Result<String, AllocError>
    ensures { IfOk result (λ text. IsBody (B.meaning book.now) message.now (string_bytes text)) }
{
    match as_text(alloc, book, message) {
        Ok(text) => Ok(text),
        Err(NotWritten::NoMemory) => Err(AllocError),
        Err(_) => {
            let digits = hex::encode(alloc, message)?;
            format!(in alloc; "# {digits}\n")
        }
    }
}
