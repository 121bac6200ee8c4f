//! What `check` and `refute` find of a message, and what is written of it.

ghost use Rattle.std.specs.Prelude.{◌≡◌, ◌≢◌, ◌++◌, Err, Some, IfOk, OnOk, string_bytes};
ghost use Rattle.dia_captures.specs.Counts.{checked_flaw, reason_of, refuted_flaw};
ghost use Rattle.dia_captures.specs.Verdicts.{IsNamed, answer_of, checked_exit, checked_line, flaw_exit, flaw_text};
ghost use Rattle.dia_captures.specs.Verdicts.{is_valid, refuted_exit, refuted_line, refutes};

use dia_check::{Fault, Refusal, Selected};
use dia_dict::Book;
use dia_io::Exit;
use dia_run::push_subject;
use std::alloc::AllocError;
use thiserror::Error;

/// What `check` finds of a message.
#[derive(Clone, Copy, PartialEq, Eq)]
pub enum Checked {
    /// It is valid, and this is its command.
    Valid(Selected),
    Wrong(Flaw),
}

/// What is wrong with a message, or with its text.
#[derive(Clone, Copy, Debug, PartialEq, Eq, Error)]
pub enum Flaw {
    /// Its first fault.
    #[error("the message has a fault")]
    Fault(Fault),
    /// Fewer bytes than a header, or than the Message Length.
    #[error("the message is truncated")]
    Truncated,
    /// More bytes than the Message Length.
    #[error("bytes follow the message")]
    Trailing,
    /// A text above the limit.
    #[error("the text is too long")]
    TooLong,
    /// A text that isn't hexadecimal.
    #[error("the text is not hexadecimal")]
    NotHexadecimal,
}

/// What `refute` finds of a message.
#[derive(Clone, Copy, PartialEq, Eq)]
pub struct Refuted {
    /// Under the first dictionary.
    pub first: Checked,
    /// Under the second.
    pub second: Checked,
}

impl Checked {
    /// What a check of the bytes of a message answered, unless memory was refused.
    pub fn of_answer(answer: Result<Selected, Refusal>) -> Result<Checked, AllocError>
        requires { answer ≢ Err Refusal.Spent }
        ensures { IfOk result (λ verdict. answer_of verdict ≡ Some answer) }
    {
        match answer {
            Ok(found) => Ok(Checked::Valid(found)),
            Err(Refusal::Fault(fault)) => Ok(Checked::Wrong(Flaw::Fault(fault))),
            Err(Refusal::Truncated) => Ok(Checked::Wrong(Flaw::Truncated)),
            Err(Refusal::Trailing) => Ok(Checked::Wrong(Flaw::Trailing)),
            Err(Refusal::NoMemory) => Err(AllocError),
            Err(Refusal::Spent) => unreachable!(),
        }
    }

    /// How `check` ends with it.
    pub fn exit(&self) -> Exit
        ensures { result ≡ checked_exit self.now }
    {
        match self {
            Checked::Valid(_) => Exit::Yes,
            Checked::Wrong(flaw) => flaw.exit(),
        }
    }

    /// Adds its line to a text.
    pub fn push<B: Book>(&self, text: &mut String, book: &B) -> Result<(), AllocError>
        requires { IsNamed (B.meaning book.now) self.now }
        ensures { OnOk result (string_bytes text.new
            ≡ string_bytes text.old ++ checked_line (B.meaning book.now) self.now) }
    {
        match self {
            Checked::Valid(found) => {
                let name = book.def(found.def).name.as_str();
                write!(text, "valid {name}\n")
            }
            Checked::Wrong(flaw) => {
                flaw.push(text, book)?;
                text.push('\n')
            }
        }
    }

    /// What is wrong with the message, or with its text.
    pub fn flaw(&self) -> Option<Flaw>
        ensures { result ≡ checked_flaw self.now }
    {
        match self {
            Checked::Valid(_) => None,
            Checked::Wrong(flaw) => Some(*flaw),
        }
    }

    fn is_valid(&self) -> bool
        ensures { result ≡ is_valid self.now }
    {
        matches!(self, Checked::Valid(_))
    }
}

impl Flaw {
    /// How `check` ends with it.
    pub fn exit(&self) -> Exit
        ensures { result ≡ flaw_exit self.now }
    {
        match self {
            Flaw::Fault(_) => Exit::No,
            Flaw::Truncated => Exit::No,
            Flaw::Trailing => Exit::No,
            Flaw::TooLong => Exit::Bad,
            Flaw::NotHexadecimal => Exit::Bad,
        }
    }

    /// The same flaw at the front of its message: flaws that differ in their place alone are one reason.
    pub fn reason(&self) -> Flaw
        ensures { result ≡ reason_of self.now }
    {
        match self {
            Flaw::Fault(fault) => Flaw::Fault(Fault {
                place: 0,
                code: fault.code,
                reason: fault.reason,
                subject: fault.subject,
            }),
            Flaw::Truncated => Flaw::Truncated,
            Flaw::Trailing => Flaw::Trailing,
            Flaw::TooLong => Flaw::TooLong,
            Flaw::NotHexadecimal => Flaw::NotHexadecimal,
        }
    }

    /// Adds its line to a text, without the line feed.
    pub fn push<B: Book>(&self, text: &mut String, book: &B) -> Result<(), AllocError>
        ensures { OnOk result (string_bytes text.new
            ≡ string_bytes text.old ++ flaw_text (B.meaning book.now) self.now) }
    {
        match self {
            Flaw::Fault(fault) => push_fault(text, book, fault),
            Flaw::Truncated => text.push_str("truncated"),
            Flaw::Trailing => text.push_str("trailing"),
            Flaw::TooLong => text.push_str("message: too long"),
            Flaw::NotHexadecimal => text.push_str("message: not hexadecimal"),
        }
    }
}

impl Refuted {
    /// Whether the message is valid under the first dictionary and not under the second.
    pub fn refutes(&self) -> bool
        ensures { result ≡ refutes self.now }
    {
        self.first.is_valid() && !self.second.is_valid()
    }

    /// How `refute` ends with it.
    pub fn exit(&self) -> Exit
        ensures { result ≡ refuted_exit self.now }
    {
        let answer = if self.refutes() { Exit::Yes } else { Exit::No };
        match &self.first {
            Checked::Wrong(Flaw::TooLong) => Exit::Bad,
            Checked::Wrong(Flaw::NotHexadecimal) => Exit::Bad,
            _ => answer,
        }
    }

    /// What is wrong with a text that spells no message.
    pub fn flaw(&self) -> Option<Flaw>
        ensures { result ≡ refuted_flaw self.now }
    {
        match &self.first {
            Checked::Wrong(Flaw::TooLong) => Some(Flaw::TooLong),
            Checked::Wrong(Flaw::NotHexadecimal) => Some(Flaw::NotHexadecimal),
            _ => None,
        }
    }

    /// Its line.
    pub fn line(&self) -> &'static str
        ensures { result.now ≡ refuted_line self.now }
    {
        let answer = if self.refutes() {
            "refutes\n"
        } else {
            "does not refute\n"
        };
        match &self.first {
            Checked::Wrong(Flaw::TooLong) => "message: too long\n",
            Checked::Wrong(Flaw::NotHexadecimal) => "message: not hexadecimal\n",
            _ => answer,
        }
    }
}

/// Adds the line of a fault, without the line feed.
fn push_fault<B: Book>(text: &mut String, book: &B, fault: &Fault) -> Result<(), AllocError>
    ensures { OnOk result (string_bytes text.new
        ≡ string_bytes text.old ++ flaw_text (B.meaning book.now) (Flaw.Fault fault.now)) }
{
    let code = fault.code;
    let place = fault.place;
    let reason = fault.reason.word();
    write!(text, "fault {code} at {place} {reason} ")?;
    push_subject(text, book, fault.subject)
}
