//! Tables of pairs of names, and their text.
ghost use Rattle.std.specs.Prelude.{◌≡◌, ◌<◌, ◌≤◌, length, Err, IfOk, IfErr, MatchResult};
ghost use Rattle.std.specs.Prelude.{OnOk, ◌↔◌, ◌++◌, ◌∷◌, [], map, IsTrue};
ghost use Rattle.dia_compat.specs.TableText.{PlainTable, plain_table, plain_pair, max_table};
ghost use Rattle.dia_compat.specs.TableText.{IsTable, IsTableFault, IsWithinLimits, HasForm};
ghost use Rattle.dia_compat.specs.Lines.{Adds, PassesLimit, HasRoom};

mod line;
mod rendering;
mod words;

pub use dia_terms::{MAX_NAME, MAX_TABLE};
use line::{Line, read_line};
pub use rendering::render_table;
use std::alloc::{AllocError, Global};
use std::fmt;
use thiserror::Error;
pub use words::{PairPart, PairWords, Word, words_of};

/// The most pairs of a table that is read (our profile).
pub const MAX_PAIRS: usize = 65_536;

/// Pairs of names, each of the first dictionary and of the second, which correspond. Both lists are in order, and
/// may have a pair more than once.
#[derive(Drop, PartialEq, Eq)]
pub struct Table {
    pub commands: Vec<(String, String)>,
    pub avps: Vec<(String, String)>,
}

/// Why a text is no table. Lines count from 1.
#[derive(Clone, Copy, Debug, PartialEq, Eq, Error)]
pub enum TableFault {
    /// The line is not empty, and neither `command A = B` nor `avp A = B`.
    #[error("line {line}: no pair of names")]
    Syntax { line: u32 },
    /// A name of the line's pair is longer than [`MAX_NAME`], or the pair is one more than [`MAX_PAIRS`]; or, on line 0,
    /// the text is longer than [`MAX_TABLE`].
    #[error(fmt = report_limit)]
    Limit { line: u32 },
    /// Memory was refused.
    #[error("out of memory")]
    NoMemory,
}

/// Writes which limit is passed.
fn report_limit<W: fmt::Write>(line: &u32, f: &mut fmt::Formatter<W>) -> fmt::Result {
    if *line == 0 {
        write!(f, "the text is too long")
    } else {
        write!(f, "line {line}: too many pairs, or too long a name")
    }
}

/// Reads a table's text (our profile): lines `command A = B` and `avp A = B`, whose words are separated by spaces or tabs,
/// and lines without words. A semicolon begins a comment up to the line's end, which is a line feed with or without a
/// carriage return before it; the last line needs none. Names are ASCII letters, digits and dashes, the first no dash,
/// with one letter at least.
///
/// A text above [`MAX_TABLE`] bytes is `Limit { line: 0 }`, before anything else is looked at. Otherwise the fault is that
/// of the first line with which the lines so far are no table: `Syntax` where the line has none of the forms with
/// names of any length, else `Limit`. `NoMemory` comes only where memory was refused.
pub fn parse_table(alloc: Global, text: &str) -> Result<Table, TableFault>
    // What is read is what the text says.
    ensures found { IfOk result (λ table. IsTable text.now (plain_table table)) }
    // It says nothing else, and a text that says something is read, unless memory runs out.
    ensures only { (table : PlainTable) → length text.now ≤ max_table → IsTable text.now table
        → MatchResult result (λ found. plain_table found ≡ table) (λ e. e ≡ TableFault.NoMemory) }
    ensures too_long { max_table < length text.now → result ≡ Err (TableFault.Limit 0) }
    ensures fault { length text.now ≤ max_table → IfErr result (IsTableFault text.now) }
{
    if text.len() > MAX_TABLE {
        return Err(TableFault::Limit { line: 0 });
    }
    let mut table = Table {
        commands: Vec::new(alloc),
        avps: Vec::new(alloc),
    };
    let mut number = 0;
    for line in text.lines() {
        number += 1;
        match table.add(alloc, line) {
            Ok(()) => {}
            Err(LineFault::Syntax) => return Err(TableFault::Syntax { line: number }),
            Err(LineFault::Limit) => return Err(TableFault::Limit { line: number }),
            Err(LineFault::NoMemory) => return Err(TableFault::NoMemory),
        }
    }
    Ok(table)
}

/// Why a line adds no pair.
#[derive(Clone, Copy, Debug, PartialEq, Eq, Error)]
enum LineFault {
    #[error("no pair of names")]
    Syntax,
    #[error("too many pairs, or too long a name")]
    Limit,
    #[error("out of memory")]
    NoMemory,
}

impl From<AllocError> for LineFault {
    ghost use Rattle.std.specs.Prelude.{◌≡◌};
    ghost use Rattle.dia_compat.specs.declared.table.LineFault.TheVariants.{NoMemory};

    ghost from_gives = { λ e fault. fault ≡ NoMemory };

    fn from(_: AllocError) -> LineFault {
        LineFault::NoMemory
    }
}

impl Table {
    /// Adds the pair of a line, if it has one.
    fn add(&mut self, alloc: Global, line: &str) -> Result<(), LineFault>
        requires { IsWithinLimits (plain_table self.old) }
        ensures ok { OnOk result (Adds line.now (plain_table self.old) (plain_table self.new)) }
        ensures syntax { result ≡ Err LineFault.Syntax → ¬ HasForm line.now }
        ensures limit { result ≡ Err LineFault.Limit → PassesLimit line.now (plain_table self.old) }
    {
        match read_line(line) {
            None => return Err(LineFault::Syntax),
            Some(Line::Blank) => {}
            Some(Line::Command(a, b)) => {
                if !self.has_room_for(a, b) {
                    return Err(LineFault::Limit);
                }
                push_pair(alloc, &mut self.commands, a, b)?;
            }
            Some(Line::Avp(a, b)) => {
                if !self.has_room_for(a, b) {
                    return Err(LineFault::Limit);
                }
                push_pair(alloc, &mut self.avps, a, b)?;
            }
        }
        Ok(())
    }

    /// Whether one more pair, of these names, is within the limits.
    fn has_room_for(&self, a: &str, b: &str) -> bool
        requires { IsWithinLimits (plain_table self.now) }
        ensures { IsTrue result ↔ HasRoom (plain_table self.now) (a.now, b.now) }
    {
        self.commands.len() + self.avps.len() < MAX_PAIRS
            && a.len() <= MAX_NAME
            && b.len() <= MAX_NAME
    }
}

/// Adds a pair after the others. `AllocError` comes only where memory was refused.
pub fn push_pair(
    alloc: Global,
    pairs: &mut Vec<(String, String)>,
    a: &str,
    b: &str,
) -> Result<(), AllocError>
    ensures { OnOk result (map plain_pair pairs.new.items
        ≡ map plain_pair pairs.old.items ++ (a.now, b.now) ∷ []) }
{
    let pair = (String::from_str(alloc, a)?, String::from_str(alloc, b)?);
    pairs.push(pair)?;
    Ok(())
}
