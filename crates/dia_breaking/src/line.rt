//! The lines of a command, and their sites.
ghost use Rattle.std.specs.Prelude.{◌≡◌, IfOk};
ghost use Rattle.dia_breaking.specs.Words.{outer_of, path_to};

use dia_book::{Class, DefId, Key};
use dia_breaking_data::Witness;
use dia_breaking_levels::Line as LevelLine;
use std::alloc::{AllocError, Global};

/// Where a level of a message is read: by a definition of A and one of B.
#[derive(Clone, Copy, PartialEq, Eq)]
pub enum Place {
    /// The level of the command itself, in messages of this application.
    Command {
        app: u32,
        /// The application of B's definition: that of the messages; or, where B refuses that one, the one other that B alone
        /// names.
        read_as: u32,
        /// Whether the path reports the application of B's definition: it differs from that of the messages, or B's definition is
        /// for one application alone, and A's for more.
        is_recorded: bool,
        /// Whether P is set.
        proxiable: bool,
    },
    /// The data of an AVP that is Grouped in both, in a level of another site.
    Group {
        key: Key,
        outer: usize,
    },
}

impl Place {
    /// The site whose level holds the level at the place. No level holds that of a command.
    fn outer(&self) -> Option<usize>
        ensures { result ≡ outer_of self.now }
    {
        match self {
            Place::Command { .. } => None,
            Place::Group { outer, .. } => Some(*outer),
        }
    }
}

/// A place, and the fewest bytes that a message needs around a level there, without its header.
#[derive(Clone, Copy, PartialEq, Eq)]
pub struct Site {
    pub place: Place,
    pub way: u64,
    /// Whether B's side reads a level there.
    pub is_read: bool,
}

/// What breaks.
#[derive(Clone, Copy)]
pub enum Cause {
    /// B has no command of the code and the class.
    Command,
    /// B has no command of the code and the class for the application.
    Application,
    /// The P flag.
    Proxiable { set: bool },
    /// How often AVPs occur in the level, or in which order.
    Level(LevelLine),
    /// B doesn't know the AVP, and refuses it with this M flag.
    Unknown { key: Key, m: bool },
    /// B's rule forbids this M flag.
    MBit { key: Key, m: bool },
    /// B refuses the data. Without data here, it refuses the data of a shortest AVP.
    Format { key: Key, data: Option<Witness> },
    /// The AVPs are Grouped for A, and leaves for B. Whether B accepts all data isn't known: it accepts those of a shortest AVP;
    /// or they are UTF8String or Address for B, and a shortest AVP takes more than 65,536 bytes, and isn't tried.
    LevelAsLeaf { key: Key },
    /// Nothing breaks: B accepts all data of the AVP, and reads them as another format than A's.
    Meaning { key: Key },
}

/// The status of a line.
#[derive(Clone, Copy, PartialEq, Eq)]
pub enum Standing {
    /// Its message was checked: it is valid under A, and B's side refuses it. For `Sends::Filled` and `Sends::Listed` it
    /// isn't checked that A's side sends each of its AVPs where it is.
    Confirmed,
    /// Its message wasn't checked: it is too long to be checked with the others, or it is that of a meaning.
    Unchecked,
    /// It has no message, or its message was checked and doesn't break.
    Undecided,
}

/// A way to break the messages of a command, or an AVP that is read as another format.
#[derive(Clone, Copy)]
pub struct Line {
    /// The place of its site among those of the command.
    pub site: usize,
    pub cause: Cause,
    /// What the AVPs of its message take, in bytes.
    pub length: u64,
    pub standing: Standing,
}

/// What can break the messages of a command: the lines in their order, and the sites, of which the ones with the shortest way
/// come first.
#[derive(Drop)]
pub struct Breaks {
    /// The command of A.
    pub command: DefId,
    pub code: u32,
    pub class: Class,
    pub sites: Vec<Site>,
    pub lines: Vec<Line>,
    /// The AVPs that break nothing and are read as another format: a line of `Cause::Meaning` for each key, in the order of the
    /// sites. Their messages aren't checked.
    pub meanings: Vec<Line>,
}

impl Breaks {
    /// The sites from the command's to one of them. An outer site has a lower number.
    pub(crate) fn path(&self, alloc: Global, site: usize) -> Result<Vec<Site>, AllocError>
        ensures { IfOk result (λ path. path.items ≡ path_to self.now.sites.items site) }
    {
        let mut path = Vec::new(alloc);
        let mut wanted = site;
        let mut below = self.sites.len();
        while wanted < below {
            let site = self.sites[wanted];
            path.push(site)?;
            below = wanted;
            wanted = site.place.outer().unwrap_or(below);
        }
        path.reverse();
        Ok(path)
    }
}
