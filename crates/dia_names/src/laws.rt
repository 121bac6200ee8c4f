//! What holds of the names.
ghost use Rattle.dia_names.specs.Names.{AreApart};

use dia_book::Book;

/// A name is that of one AVP: no two AVPs that one of the dictionaries knows are called the same.
pub fn names_are_apart<A: Book, B: Book>(_a: &A, _b: &B)
    ensures { AreApart (A.meaning _a.now) (B.meaning _b.now) }
{}
