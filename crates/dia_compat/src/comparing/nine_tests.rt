//! The nine tests of two definitions.
ghost use Rattle.std.specs.Prelude.{◌≡◌};
ghost use Rattle.dia_compat.specs.PairTests.{failed_rules, is_passed};

use super::bounds::fixed_within;
use super::covers::Cover;
use super::keys::{all_covered, common_within, let_in, own_fit};
use super::rules::Rules;
use super::wildcards::{max_kept, min_kept, wildcard_kept};
use crate::checking::Test;
use dia_book::Book;

/// The first test that two definitions fail.
pub(super) fn failed_rules<A: Book, B: Book>(
    a: &Rules<'_, A>,
    b: &Rules<'_, B>,
    cover: &Cover<'_, A, B>,
) -> Option<Test>
    ensures { result ≡ failed_rules cover.now a.now b.now }
{
    [
        Test::N1,
        Test::N2,
        Test::N3,
        Test::N4,
        Test::N5,
        Test::N6,
        Test::N7,
        Test::N8,
        Test::N9,
    ]
    .iter()
    .copied()
    .find(|test| !is_passed(*test, a, b, cover))
}

/// Whether two definitions pass a test.
fn is_passed<A: Book, B: Book>(
    test: Test,
    a: &Rules<'_, A>,
    b: &Rules<'_, B>,
    cover: &Cover<'_, A, B>,
) -> bool
    ensures { result ≡ is_passed cover.now test a.now b.now }
{
    match test {
        Test::N1 => fixed_within(a.list(), b.list()),
        Test::N2 => common_within(a, b),
        Test::N3 => let_in(a, b),
        Test::N4 => all_covered(a, cover),
        Test::N5 => own_fit(a, b, cover.sides()),
        Test::N6 => wildcard_kept(a, b),
        Test::N7 => max_kept(a, b),
        Test::N8 => min_kept(a, b),
        Test::N9 => cover.covers_wildcard(a),
        Test::N10 => true,
    }
}
