//! The lines: what differs.
ghost use Rattle.std.specs.Prelude.{◌≡◌, ◌∷◌, ◌++◌, OnOk, [], if◌then◌else◌};
ghost use Rattle.dia_differences.specs.Lines.{no_effects, unmarked};

use crate::owner::Owner;
use crate::sides::Side;
use std::alloc::AllocError;

/// A field of an AVP.
#[derive(Clone, Copy, PartialEq, Eq, Hash)]
pub enum AvpField {
    Name,
    Code,
    Vendor,
    Format,
    MRule,
}

/// A field of a command's header, or its name.
#[derive(Clone, Copy, PartialEq, Eq, Hash)]
pub enum HeadField {
    Name,
    Code,
    Class,
    Application,
    Proxiable,
}

/// A rule, by its definition and its place there.
#[derive(Clone, Copy, PartialEq, Eq, Hash)]
pub struct RulePlace {
    pub of: Owner,
    pub rule: usize,
}

/// What differs. AVPs and commands are named by their places.
#[derive(Clone, Copy, PartialEq, Eq)]
pub enum What {
    /// The dictionary of this side alone has the AVP.
    Avp(Side, usize),
    AvpField {
        first: usize,
        second: usize,
        field: AvpField,
    },
    /// The dictionary of this side alone has the command.
    Command(Side, usize),
    HeadField {
        first: usize,
        second: usize,
        field: HeadField,
    },
    /// This side alone has the rule: in a definition that its dictionary alone has, or the first in one of both.
    Rule(Side, RulePlace),
    /// The second side alone has the rule in a definition of both, of which `own` is the first's.
    NewRule {
        own: Owner,
        place: RulePlace,
    },
    /// The counts, the brackets, or the place among the fixed rules.
    RuleChange {
        first: RulePlace,
        second: RulePlace,
    },
}

/// What comes of a difference where one side reads what the other sends.
#[derive(Clone, Copy, PartialEq, Eq)]
pub struct Effects {
    /// Messages break.
    pub breaks: bool,
    /// AVPs are accepted, and read as another format.
    pub other_format: bool,
    /// AVPs that a rule of the sender lists are accepted by a wildcard alone.
    pub ignored: bool,
}

impl Effects {
    pub fn none() -> Effects
        ensures { result ≡ no_effects }
    {
        Effects {
            breaks: false,
            other_format: false,
            ignored: false,
        }
    }
}

/// A difference, and what comes of it.
#[derive(Clone, Copy, PartialEq, Eq)]
pub struct Line {
    pub what: What,
    /// Of messages of the first side, which the second reads.
    pub there: Effects,
    /// Of messages of the second side, which the first reads.
    pub back: Effects,
}

impl Line {
    /// A line of which nothing comes so far.
    pub fn new(what: What) -> Line
        ensures { result ≡ unmarked what }
    {
        Line {
            what,
            there: Effects::none(),
            back: Effects::none(),
        }
    }
}

/// Adds a line, unless what it is about is the same.
pub(crate) fn push_unless(lines: &mut Vec<Line>, same: bool, what: What) -> Result<(), AllocError>
    ensures { OnOk result (lines.new.items
        ≡ if same then lines.old.items else lines.old.items ++ unmarked what ∷ []) }
{
    if same { Ok(()) } else { push_line(lines, what) }
}

/// Adds a line.
pub(crate) fn push_line(lines: &mut Vec<Line>, what: What) -> Result<(), AllocError>
    ensures { OnOk result (lines.new.items ≡ lines.old.items ++ unmarked what ∷ []) }
{
    lines.push(Line::new(what))?;
    Ok(())
}
