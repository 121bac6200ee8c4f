//! The sites of a command: its own level for each of its readings, and the groups that a walk reaches.
ghost use Rattle.std.specs.Prelude.{◌≡◌, ◌++◌, ◌∷◌, [], IfOk, OnOk};
ghost use Rattle.dia_breaking.specs.Sites.{both_allow, command_site, command_sites, first_read, group_site, group_sites};
ghost use Rattle.dia_breaking.specs.Sites.{other_head, read_site, refused_site, sets_p, site_number, records_app};

use crate::books::command_of;
use crate::heads::{Head, allows, head_of};
use crate::line::{Place, Site};
use crate::own_breaks::OwnBreaks;
use crate::readings::Reading;
use dia_book::{Book, Key};
use dia_breaking_ways::Step;
use std::alloc::{AllocError, Global};

/// The head of B's definition for messages with this head and this application.
pub(crate) fn other_head<B: Book>(b: &B, head: &Head, app: u32) -> Option<Head>
    ensures { result ≡ other_head (B.meaning b.now) head.now app }
{
    let def = command_of(b, head.code, head.class, app)?;
    head_of(b, def)
}

/// Whether both allow this P flag.
fn both_allow(head: &Head, other: &Head, set: bool) -> bool
    ensures { result ≡ both_allow head.now other.now set }
{
    allows(head.p, set) && allows(other.p, set)
}

/// The site of the command's own level for a reading.
pub(crate) fn command_site<B: Book>(b: &B, head: &Head, reading: &Reading) -> Site
    ensures { result ≡ command_site (B.meaning b.now) head.now reading.now }
{
    match other_head(b, head, reading.read_as) {
        Some(other) => read_site(head, reading, &other),
        None => refused_site(head, reading),
    }
}

/// The site where B selects no definition.
fn refused_site(head: &Head, reading: &Reading) -> Site
    ensures { result ≡ refused_site head.now reading.now }
{
    Site {
        place: Place::Command {
            app: reading.app,
            read_as: reading.read_as,
            is_recorded: false,
            proxiable: !allows(head.p, false),
        },
        way: 0,
        is_read: false,
    }
}

/// The site where B selects a definition with the head `other`. B's side reads its level whatever its P flag: where no P flag
/// is allowed by both, it is one that A allows.
fn read_site(head: &Head, reading: &Reading, other: &Head) -> Site
    ensures { result ≡ read_site head.now reading.now other.now }
{
    Site {
        place: Place::Command {
            app: reading.app,
            read_as: reading.read_as,
            is_recorded: records_app(head, reading, other),
            proxiable: sets_p(head, other),
        },
        way: 0,
        is_read: true,
    }
}

/// Whether B's definition is for another application than that of the messages, or for one alone where A's is for more.
fn records_app(head: &Head, reading: &Reading, other: &Head) -> bool
    ensures { result ≡ records_app head.now reading.now other.now }
{
    reading.app != reading.read_as || (head.app.is_none() && other.app.is_some())
}

/// Whether P is set: where it can't be clear, or where both allow neither, and A doesn't allow it clear.
fn sets_p(head: &Head, other: &Head) -> bool
    ensures { result ≡ sets_p head.now other.now }
{
    let clear = both_allow(head, other, false);
    let set = both_allow(head, other, true);
    let must_set = set || !allows(head.p, false);
    !clear && must_set
}

/// One site for each reading.
pub(crate) fn command_sites<B: Book>(
    alloc: Global,
    b: &B,
    head: &Head,
    readings: &[Reading],
) -> Result<Vec<Site>, AllocError>
    ensures { IfOk result (λ sites. sites.items ≡ command_sites (B.meaning b.now) head.now readings.now) }
{
    let mut sites = Vec::new(alloc);
    for reading in readings {
        sites.push(command_site(b, head, reading))?;
    }
    Ok(sites)
}

/// The first site at which B's side reads a level.
pub(crate) fn first_read(sites: &[Site]) -> Option<usize>
    ensures { result ≡ first_read sites.now }
{
    sites.iter().position(|site| site.is_read)
}

/// How the sites are numbered: those of the command come first.
#[derive(Clone, Copy)]
pub(crate) struct Numbers {
    /// The first site of the command at which B's side reads a level.
    pub first: usize,
    /// How many sites the command has.
    pub count: usize,
}

impl Numbers {
    /// The site of a level of the walk.
    pub fn site(&self, level: usize) -> usize
        ensures { result ≡ site_number self.now.first self.now.count level }
    {
        if level == 0 {
            self.first
        } else {
            self.count.saturating_add(level - 1)
        }
    }
}

/// Adds the sites of groups, which a walk has reached by these steps.
pub(crate) fn push_group_sites(
    sites: &mut Vec<Site>,
    own: &[OwnBreaks],
    numbers: Numbers,
    steps: &[Step],
) -> Result<(), AllocError>
    ensures { OnOk result (sites.new.items ≡ sites.old.items ++ group_sites own.now numbers.first numbers.count steps.now) }
{
    for step in steps {
        push_group_site(sites, own, numbers, step)?;
    }
    Ok(())
}

fn push_group_site(
    sites: &mut Vec<Site>,
    own: &[OwnBreaks],
    numbers: Numbers,
    step: &Step,
) -> Result<(), AllocError>
    ensures { OnOk result (sites.new.items ≡ sites.old.items ++ group_sites own.now numbers.first numbers.count (step.now ∷ [])) }
{
    match own.get(step.place) {
        Some(one) => {
            sites.push(group_site(one.key, numbers, step))?;
            Ok(())
        }
        None => Ok(()),
    }
}

fn group_site(key: Key, numbers: Numbers, step: &Step) -> Site
    ensures { result ≡ group_site numbers.first numbers.count step.now key }
{
    Site {
        place: Place::Group {
            key,
            outer: numbers.site(step.outer),
        },
        way: step.way,
        is_read: true,
    }
}
