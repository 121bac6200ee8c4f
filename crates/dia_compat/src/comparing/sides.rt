//! The two dictionaries that are compared.
ghost use Rattle.std.specs.Prelude.{◌≡◌, ◌<◌, ◌↔◌, IsTrue, length};
ghost use Rattle.dia_book.specs.Dictionary.{IsDictionary, definitions};
ghost use Rattle.dia_compat.specs.Tests.{is_kept, may_come};
ghost use Rattle.dia_valid.specs.Rules.{rules_in};
ghost use Rattle.dia_compat.specs.ReachedKeys.{IsShared};

use super::rules::Rules;
use dia_book::{Book, DefId, Key};
use dia_terms::Unknown;
use std::marker::Model;

/// Two dictionaries, and whether AVPs that they don't know are accepted.
#[derive(Drop)]
pub(crate) struct Sides<'a, A: Book, B: Book> {
    pub first: &'a A,
    pub second: &'a B,
    pub unknown: Unknown,
}

impl<'a, A: Book, B: Book> Model for Sides<'a, A, B> {
    ghost use Rattle.dia_compat.specs.Sides.{Sides as PlainSides};

    ghost Value = { PlainSides };

    ghost view = { λ s. record { first = A.meaning s.first.now; second = B.meaning s.second.now; unknown = s.unknown } };
}

impl<'a, A: Book, B: Book> Sides<'a, A, B> {
    /// The same two.
    pub fn again(&self) -> Self
        ensures { result ≡ self.now }
    {
        Sides {
            first: self.first,
            second: self.second,
            unknown: self.unknown,
        }
    }

    pub fn first(&self) -> &'a A
        ensures meaning { A.meaning result.now ≡ self.now.first }
        ensures sound { IsDictionary self.now.first }
    {
        self.first
    }

    pub fn second(&self) -> &'a B
        ensures meaning { B.meaning result.now ≡ self.now.second }
        ensures sound { IsDictionary self.now.second }
    {
        self.second
    }

    /// Whether AVPs that they don't know are accepted.
    pub fn keeps(&self) -> bool
        ensures { result ≡ is_kept self.now.unknown }
    {
        match self.unknown {
            Unknown::Kept => true,
            Unknown::Refused => false,
        }
    }

    /// Whether a wildcard of the first may let the key in where a definition doesn't list it.
    pub fn may_come(&self, key: Key) -> bool
        ensures { result ≡ may_come self.now key }
    {
        self.keeps() || self.first().avp(key).is_some()
    }

    /// Whether both know the key.
    pub fn both_know(&self, key: Key) -> bool
        ensures { IsTrue result ↔ IsShared self.now key }
    {
        self.first().avp(key).is_some() && self.second().avp(key).is_some()
    }

    /// The rules of a definition of the first.
    pub fn first_rules(&self, def: DefId) -> Rules<'a, A>
        requires { def < length (definitions self.now.first) }
        ensures { result ≡ rules_in self.now.first def }
    {
        Rules {
            book: self.first(),
            def,
        }
    }

    /// The rules of a definition of the second.
    pub(super) fn second_rules(&self, def: DefId) -> Rules<'a, B>
        requires { def < length (definitions self.now.second) }
        ensures { result ≡ rules_in self.now.second def }
    {
        Rules {
            book: self.second(),
            def,
        }
    }
}
