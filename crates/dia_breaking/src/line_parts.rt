//! The parts of a line.
ghost use Rattle.std.specs.Prelude.{◌≡◌, ◌++◌, OnOk};
ghost use Rattle.dia_breaking.specs.LineParts.{amount_text, plain_amount, reason_text};
ghost use Rattle.dia_breaking.specs.Words.{Writes, flag_word};

use crate::bounds::{Bounds, push_bounds};
use crate::line::Standing;
use crate::words::flag_word;
use std::alloc::AllocError;
use std::fmt;

/// Where a line is.
#[derive(Drop)]
pub struct Path<'u> {
    /// The name of the command.
    pub command: &'u str,
    /// The application of B's definition, where the path names it.
    pub application: Option<u32>,
    /// The names of the groups that lead to the level, the outermost first.
    pub groups: Vec<&'u str>,
}

/// Why messages break, as docs/FAULTS.md lists it.
#[derive(Clone, Copy, PartialEq, Eq)]
pub enum LineReason {
    Command,
    Application,
    Proxiable,
    Missing,
    TooMany,
    NotAllowed,
    Order,
    Unknown,
    MBit,
    Format,
    Meaning,
}

/// What a line is about.
#[derive(Clone, Copy)]
pub enum Subject<'u> {
    /// The header.
    Header,
    /// This application, which B refuses.
    Application(u32),
    /// The AVPs of this name; `AVP` where the wildcard counts.
    Avp(&'u str),
}

/// What is sent or accepted.
#[derive(Drop)]
pub enum Amount {
    /// How often an AVP may stand in a level; without `max` any number of times.
    Counts { min: u32, max: Option<u32> },
    /// The P flag of the header, set or clear.
    P(bool),
    /// The M flag of an AVP, set or clear.
    M(bool),
    /// The words of a format, with the numbers of its list; or numbers of it alone.
    Data(String),
}

/// What a line says, in its parts.
#[derive(Drop)]
pub struct LineParts<'u> {
    pub path: Path<'u>,
    pub standing: Standing,
    /// None where it isn't known whether B accepts a group that it reads as a leaf.
    pub reason: Option<LineReason>,
    pub subject: Subject<'u>,
    pub sent: Option<Amount>,
    /// The name of the AVP that may precede, where the reason is the order.
    pub following: Option<&'u str>,
    pub accepted: Option<Amount>,
    /// The words of the format as which B reads the AVP, where the reason is the meaning.
    pub read: Option<String>,
}

impl fmt::Display for LineReason {
    ghost use Rattle.std.specs.Prelude.{Some};
    ghost use Rattle.dia_breaking.specs.LineParts.{reason_text};

    ghost output = { λ reason. Some (reason_text reason) };

    fn fmt<W: fmt::Write>(&self, f: &mut fmt::Formatter<W>) -> fmt::Result {
        f.write_str(self.word())
    }
}

impl LineReason {
    /// The word of the reason.
    pub fn word(self) -> &'static str
        ensures { result.now ≡ reason_text self }
    {
        match self {
            LineReason::Command => "command",
            LineReason::Application => "application",
            LineReason::Proxiable => "proxiable",
            LineReason::Missing => "missing",
            LineReason::TooMany => "too-many",
            LineReason::NotAllowed => "not-allowed",
            LineReason::Order => "order",
            LineReason::Unknown => "unknown",
            LineReason::MBit => "m-bit",
            LineReason::Format => "format",
            LineReason::Meaning => "meaning",
        }
    }
}

impl Amount {
    /// Adds the words of what is sent or accepted, as `0..1`, `P set`, `M clear` or `Unsigned32`. The error comes only where
    /// memory was refused.
    pub fn push(&self, out: &mut String) -> Result<(), AllocError>
        ensures { OnOk result (Writes out.old out.new (amount_text (plain_amount self.now))) }
    {
        match self {
            Amount::Counts { min, max } => {
                push_bounds(
                    out,
                    Bounds {
                        min: *min,
                        max: *max,
                    },
                )
            }
            Amount::P(set) => push_flag(out, "P ", *set),
            Amount::M(set) => push_flag(out, "M ", *set),
            Amount::Data(text) => out.push_str(text.as_str()),
        }
    }
}

fn push_flag(out: &mut String, flag: &str, set: bool) -> Result<(), AllocError>
    ensures { OnOk result (Writes out.old out.new (flag.now ++ flag_word set)) }
{
    let word = flag_word(set);
    write!(out, "{flag}{word}")
}
