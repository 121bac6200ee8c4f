//! What the lines of `breaking`, and AVPs that are ignored, are about.

ghost use Rattle.std.specs.Prelude.{◌≡◌, Some, nat_eq, slice_get};
ghost use Rattle.std.specs.Option.{option_eq};
ghost use Rattle.dia_book.specs.Dictionary.{entry_of};
ghost use Rattle.dia_diff.specs.Origins.{command_for, command_level, found_of, group_level, level, origin, place_at, reader_at};
ghost use Rattle.dia_diff.specs.Routes.{route_of};

use crate::traffic::Traffic;
use dia_book::{Book, Class};
use dia_breaking::{Breaks, Cause, Line as Breach, Place, Site};
use dia_breaking_levels::Line as LevelLine;
use dia_differences::{AvpField, HeadField, Owner};
use dia_wire::Key;

/// What a line of `breaking`, or that AVPs are ignored, is about.
#[derive(Clone, Copy)]
pub(crate) enum Origin {
    /// The headers of commands, by their places: the sender's, and the receiver's that reads the message, if one does.
    Header {
        own: usize,
        other: Option<usize>,
        field: Option<HeadField>,
    },
    /// A level, by the definitions of the sender and of the receiver.
    Level {
        own: Owner,
        other: Owner,
        line: LevelLine,
    },
    /// The flags or the data of an AVP, or, by its code, that it isn't known.
    Avp {
        key: Key,
        field: AvpField,
    },
    /// AVPs of a level that the sender's definition lists and the receiver's doesn't.
    Ignored {
        own: Owner,
        other: Owner,
        key: Key,
    },
}

/// What a line about the command at a place of the sender's is about.
pub(crate) fn origin_of<A: Book, B: Book>(
    traffic: &Traffic<'_, A, B>,
    index: usize,
    breaks: &Breaks,
    breach: &Breach,
) -> Origin
    ensures { result ≡ origin (route_of A.meaning B.meaning traffic.now) (found_of index breaks.now) breach.now }
{
    let place = place_at(&breaks.sites, breach.site);
    match breach.cause {
        Cause::Command | Cause::Application => header(index, None, None),
        Cause::Proxiable { .. } => header(
            index,
            reader_of(traffic.receiver, breaks, place),
            Some(HeadField::Proxiable),
        ),
        Cause::Level(line) => level(traffic, index, breaks, line, place),
        Cause::Unknown { key, .. } => avp(key, AvpField::Code),
        Cause::MBit { key, .. } => avp(key, AvpField::MRule),
        Cause::Format { key, .. } => avp(key, AvpField::Format),
        Cause::LevelAsLeaf { key } => avp(key, AvpField::Format),
        Cause::Meaning { key } => avp(key, AvpField::Format),
    }
}

fn place_at(sites: &[Site], site: usize) -> Option<Place>
    ensures { result ≡ place_at sites.now site }
{
    match sites.get(site) {
        Some(site) => Some(site.place),
        None => None,
    }
}

pub(crate) fn header(own: usize, other: Option<usize>, field: Option<HeadField>) -> Origin
    ensures { result ≡ Origin.Header own other field }
{
    Origin::Header { own, other, field }
}

fn avp(key: Key, field: AvpField) -> Origin
    ensures { result ≡ Origin.Avp key field }
{
    Origin::Avp { key, field }
}

/// A line about a level. Where the receiver reads the command by another than the one that corresponds, it is about the headers.
fn level<A: Book, B: Book>(
    traffic: &Traffic<'_, A, B>,
    index: usize,
    breaks: &Breaks,
    line: LevelLine,
    place: Option<Place>,
) -> Origin
    ensures { result ≡ level (route_of A.meaning B.meaning traffic.now) (found_of index breaks.now) line place }
{
    match place {
        Some(Place::Group { key, .. }) => group_level(traffic, index, line, key),
        Some(Place::Command { .. }) => {
            let reader = reader_of(traffic.receiver, breaks, place);
            command_level(traffic.commands, index, line, reader)
        }
        None => header(index, None, None),
    }
}

fn group_level<A: Book, B: Book>(
    traffic: &Traffic<'_, A, B>,
    index: usize,
    line: LevelLine,
    key: Key,
) -> Origin
    ensures { result ≡ group_level index line
        (entry_of (route_of A.meaning B.meaning traffic.now).between.sender key) (entry_of (route_of A.meaning B.meaning traffic.now).between.receiver key) }
{
    match (traffic.sender.avp(key), traffic.receiver.avp(key)) {
        (Some(own), Some(other)) => Origin::Level {
            own: Owner::Avp(own.index()),
            other: Owner::Avp(other.index()),
            line,
        },
        _ => header(index, None, None),
    }
}

fn command_level(
    commands: &[Option<usize>],
    index: usize,
    line: LevelLine,
    reader: Option<usize>,
) -> Origin
    ensures { result ≡ command_level commands.now index line reader }
{
    match reader {
        Some(other) if corresponds(commands, index, other) => Origin::Level {
            own: Owner::Command(index),
            other: Owner::Command(other),
            line,
        },
        _ => header(index, reader, None),
    }
}

pub(crate) fn corresponds(commands: &[Option<usize>], own: usize, other: usize) -> bool
    ensures { result ≡ option_eq (option_eq nat_eq) (slice_get commands.now own) (Some (Some other)) }
{
    commands.get(own).copied() == Some(Some(other))
}

/// The place of the receiver's command that reads a command's level.
fn reader_of<D: Book>(receiver: &D, breaks: &Breaks, place: Option<Place>) -> Option<usize>
    ensures { result ≡ reader_at (D.meaning receiver.now) breaks.now.code breaks.now.class place }
{
    match place {
        Some(Place::Command { read_as, .. }) => {
            selected_place(receiver, breaks.code, breaks.class, read_as)
        }
        _ => None,
    }
}

/// The place of the command that is selected for messages of a code, a class and an application.
pub(crate) fn selected_place<D: Book>(book: &D, code: u32, class: Class, app: u32) -> Option<usize>
    ensures { result ≡ command_for (D.meaning book.now) code class app }
{
    let def = book.select(code, class, app)?;
    if book.commands() == 0 {
        return None;
    }
    def.index().checked_sub(book.command_at(0).index())
}
