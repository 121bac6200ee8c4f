//! Shortest data of a format, and shortest data that one format accepts and another doesn't.
ghost use Rattle.std.specs.Prelude.{◌≡◌, IfSome, List, ℕ};
ghost use Rattle.std.specs.Option.{option_map};
ghost use Rattle.dia_data.specs.Leaf.{IsLeaf};
ghost use Rattle.dia_data.specs.Plain.{plain_format};
ghost use Rattle.dia_data.specs.Ranges.{AreApart};
ghost use Rattle.dia_breaking_data.specs.Shortest.{AreBytes, IsShortest, IsShortestLeaf, witness_bytes};
ghost use Rattle.dia_breaking_data.specs.Kinds.{IsWitness, IsApart, IsKindOf, Four, Listed, four_bytes, shown};
ghost use Rattle.dia_breaking_data.specs.TheData.{first_number, kind_data, the_data};

use crate::candidates::first_refused;
use crate::kinds::{Kind, kind_of};
use crate::numbers::{first_missing, refused_number};
use crate::short_data::Witness;
use dia_data::Format;

/// Shortest data that the first format accepts and the second doesn't; none where the second accepts each leaf of the
/// first. Grouped has no leaf. The steps are linear in the ranges of the two, up to a log.
pub fn witness(f: &Format, g: &Format) -> Option<Witness>
    ensures some { IfSome result (λ found. IsShortest (plain_format f.now) (plain_format g.now) (witness_bytes found)) }
    ensures none { result ≡ None → (bytes : List ℕ) → AreBytes bytes → IsLeaf (plain_format f.now) bytes
        → IsLeaf (plain_format g.now) bytes }
{
    answer(kind_of(f), kind_of(g), g)
}

/// Shortest data of the format; none where it has no leaf, as Grouped and a list of no number. A number is 0, or the least of
/// its list.
pub fn shortest(f: &Format) -> Option<Witness>
    ensures exactly { option_map witness_bytes result ≡ the_data (plain_format f.now) }
    ensures some { IfSome result (λ found. IsShortestLeaf (plain_format f.now) (witness_bytes found)) }
    ensures none { result ≡ None → (bytes : List ℕ) → AreBytes bytes → ¬ IsLeaf (plain_format f.now) bytes }
{
    data_of(kind_of(f))
}

/// The data that are retained for a kind.
fn data_of(kind: Kind<'_>) -> Option<Witness>
    ensures { option_map witness_bytes result ≡ kind_data (shown kind.entry) }
{
    match kind {
        Kind::Octets => Some(Witness::new(b"")),
        Kind::Four => Some(Witness::new(&[0; 4])),
        Kind::Eight => Some(Witness::new(&[0; 8])),
        Kind::Level => None,
        Kind::Host => Some(Witness::new(b"\0\0")),
        Kind::Text => Some(Witness::new(b"")),
        Kind::Identity => Some(Witness::new(b"a")),
        Kind::Link => Some(Witness::new(b"aaa://a")),
        Kind::Listed(ranges) => first_number(ranges),
    }
}

/// The first number of the ranges.
fn first_number(ranges: &[(u32, u32)]) -> Option<Witness>
    ensures { option_map witness_bytes result ≡ option_map four_bytes (first_number ranges.now) }
{
    match ranges.first() {
        Some(&(low, _)) => Some(Witness::of_number(low)),
        None => None,
    }
}

/// Data of the one kind that the format, which is of the other, doesn't accept.
fn answer(sent: Kind<'_>, accepted: Kind<'_>, format: &Format) -> Option<Witness>
    requires sent { IsApart (shown sent) }
    requires apart { IsApart (shown accepted) }
    requires kind { IsKindOf (shown accepted) (plain_format format.now) }
    ensures { IsWitness (shown sent.entry) (shown accepted.entry) (option_map witness_bytes result) }
{
    match sent {
        Kind::Octets => first_refused(format, &[Witness::new(b""), Witness::new(b"\xff")]),
        Kind::Four => of_four(accepted, format),
        Kind::Eight => first_refused(
            format,
            &[
                Witness::new(&[0; 8]),
                Witness::new(&[0xff; 8]),
                Witness::new(b"\0\x01\0\0\0\0\0\0"),
            ],
        ),
        Kind::Level => None,
        Kind::Host => first_refused(format, &[Witness::new(b"\0\0"), Witness::new(b"\xff\xff")]),
        Kind::Text => first_refused(format, &[Witness::new(b"")]),
        Kind::Identity => first_refused(format, &[Witness::new(b"a")]),
        Kind::Link => first_refused(format, &[Witness::new(b"aaa://a")]),
        Kind::Listed(numbers) => of_listed(numbers, accepted, format),
    }
}

/// 4 bytes that a format of this kind doesn't accept.
fn of_four(kind: Kind<'_>, format: &Format) -> Option<Witness>
    requires kind { IsKindOf (shown kind) (plain_format format.now) }
    requires apart { IsApart (shown kind) }
    ensures { IsWitness Four (shown kind.entry) (option_map witness_bytes result) }
{
    match kind {
        Kind::Listed(ranges) => {
            let number = first_missing(ranges)?;
            Some(Witness::of_number(number))
        }
        _ => first_refused(
            format,
            &[
                Witness::new(&[0; 4]),
                Witness::new(&[0xff; 4]),
                Witness::new(b"\0\x01\0\0"),
            ],
        ),
    }
}

/// 4 bytes with a number of the ranges that a format of this kind doesn't accept.
fn of_listed(ranges: &[(u32, u32)], kind: Kind<'_>, format: &Format) -> Option<Witness>
    requires ranges { AreApart ranges.now }
    requires kind { IsKindOf (shown kind) (plain_format format.now) }
    requires apart { IsApart (shown kind) }
    ensures { IsWitness (Listed ranges.now) (shown kind.entry) (option_map witness_bytes result) }
{
    let number = refused_number(ranges, kind, format)?;
    Some(Witness::of_number(number))
}
