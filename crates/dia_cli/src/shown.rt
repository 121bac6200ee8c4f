//! What `breaking`, `show` and `mask` are to print.

ghost use Rattle.std.specs.Prelude.{◌≡◌, IfSome, None, codes, false, option_map};
ghost use Rattle.clap.specs.Words.{found_of, rows_of};
ghost use Rattle.dia_cli.specs.FoundTasks.{has_flags};
ghost use Rattle.dia_cli.specs.Words.{IsFlag, apart_in, is_file, masked_apart_in};

use crate::apart::{Apart, mask_apart, show_apart};
use crate::origin::NO_TABLE;
use crate::values::{flag_of, is_given, word_of};
use clap::ArgMatches;

/// What `breaking` prints beside its lines, or in their place.
#[derive(Clone, Copy)]
pub(crate) struct Shown {
    pub messages: bool,
    pub once: bool,
    pub meaning: bool,
    pub stale_allowed: bool,
    pub explain: bool,
}

/// Which of `--messages`, `--once`, `--meaning`, `--stale-allowed` and `--explain` are given.
pub(crate) fn shown_of(found: &ArgMatches<'_>) -> Option<Shown>
    ensures messages { IfSome result
        (λ shown. IsFlag (codes "messages") shown.messages (rows_of (found_of found.now))) }
    ensures once { IfSome result
        (λ shown. IsFlag (codes "once") shown.once (rows_of (found_of found.now))) }
    ensures meaning { IfSome result
        (λ shown. IsFlag (codes "meaning") shown.meaning (rows_of (found_of found.now))) }
    ensures stale { IfSome result
        (λ shown. IsFlag (codes "stale-allowed") shown.stale_allowed (rows_of (found_of found.now))) }
    ensures explain { IfSome result
        (λ shown. IsFlag (codes "explain") shown.explain (rows_of (found_of found.now))) }
    ensures none { result ≡ None → has_flags (rows_of (found_of found.now)) ≡ false }
{
    let messages = flag_of(found, "messages")?;
    let once = flag_of(found, "once")?;
    let meaning = flag_of(found, "meaning")?;
    let stale_allowed = flag_of(found, "stale-allowed")?;
    let explain = flag_of(found, "explain")?;
    Some(Shown {
        messages,
        once,
        meaning,
        stale_allowed,
        explain,
    })
}

/// The first two options of `show` that are given, and don't go together.
pub(crate) fn apart_in(found: &ArgMatches<'_>) -> Option<Apart>
    ensures { result ≡ apart_in (rows_of (found_of found.now)) }
{
    show_apart(
        is_given(found, "as-text"),
        is_given(found, "names"),
        is_file(word_of(found, "values")),
        is_given(found, "lines"),
        is_given(found, "json"),
    )
}

/// The first two options of `mask` that are given, and don't go together.
pub(crate) fn masked_apart_in(found: &ArgMatches<'_>) -> Option<Apart>
    ensures { result ≡ masked_apart_in (rows_of (found_of found.now)) }
{
    mask_apart(
        is_file(word_of(found, "keep")),
        is_file(word_of(found, "mask")),
        is_file(word_of(found, "only")),
    )
}

/// Whether a word isn't that for a text without lines, or for an empty list.
fn is_file(word: Option<&str>) -> bool
    ensures { result ≡ is_file (option_map (λ text. text.now) word.entry) }
{
    match word {
        Some(word) => word != NO_TABLE,
        None => false,
    }
}
