//! The object of a pair that fails a test.

ghost use Rattle.std.specs.Prelude.{◌≡◌, ◌<◌, IfOk, List, Some, length, slice_get, string_bytes};
ghost use Rattle.serde_json.specs.Data.{Data, array};
ghost use Rattle.serde_json.specs.Written.{compact_text};
ghost use Rattle.dia_compat.specs.TableText.{plain_pair, plain_table};
ghost use Rattle.dia_refused_json.specs.Members.{json_line};
ghost use Rattle.dia_compared_json.specs.Objects.{items_of};
ghost use Rattle.dia_compared_json.specs.Failures.{failure_json, failure_members, kind_word, pairs_listed};

use crate::failings::failings_text;
use crate::sides::Side;
use dia_book::Book;
use dia_compat::{Failing, PairKind, Table, Test};
use dia_refused_json::quoted;
use dia_run::test_word;
use std::alloc::{AllocError, Global};

/// The pair at this place of the table.
pub fn pair_at(table: &Table, kind: PairKind, place: usize) -> &(String, String)
    requires { place < length (pairs_listed kind (plain_table table.now)) }
    ensures { slice_get (pairs_listed kind (plain_table table.now)) place ≡ Some (plain_pair result.now) }
{
    match kind {
        PairKind::Command => &table.commands[place],
        PairKind::Avp => &table.avps[place],
    }
}

/// The object of a pair that fails this test, for all of these.
pub fn failure_text<A: Book, B: Book>(
    alloc: Global,
    a: &A,
    b: &B,
    kind: PairKind,
    pair: &(String, String),
    test: Test,
    fails: &[Failing],
) -> Result<String, AllocError>
    ensures { IfOk result (λ text. string_bytes text ≡ failure_json (A.meaning a.now) (B.meaning b.now)
        kind (plain_pair pair.now) test fails.now) }
{
    let first = Side::of(a, kind, pair.0.as_str());
    let second = Side::of(b, kind, pair.1.as_str());
    let fails = failings_text(alloc, &first, &second, fails)?;
    failed_text(alloc, kind, pair, test, fails.as_str())
}

/// The object of a pair that fails this test. `fails` is the array of what fails it.
fn failed_text(
    alloc: Global,
    kind: PairKind,
    pair: &(String, String),
    test: Test,
    fails: &str,
) -> Result<String, AllocError>
    ensures { IfOk result (λ text. (recorded : List Data) → fails.now ≡ compact_text (array (items_of recorded))
        → string_bytes text ≡ json_line (failure_members kind (plain_pair pair.now) test recorded)) }
{
    let kind = kind_word(kind);
    let test = test_word(test);
    let first = quoted(alloc, pair.0.as_str())?;
    let second = quoted(alloc, pair.1.as_str())?;
    format!(in alloc;
        "{{\"verdict\":\"no\",\"kind\":\"{kind}\",\"first\":{first},\"second\":{second},\"test\":\"{test}\",\"fails\":{fails}}}\n"
    )
}

fn kind_word(kind: PairKind) -> &'static str
    ensures { result.now ≡ kind_word kind }
{
    match kind {
        PairKind::Command => "command",
        PairKind::Avp => "avp",
    }
}
