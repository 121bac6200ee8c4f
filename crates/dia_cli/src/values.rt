//! The values that clap found for options and arguments.

ghost use Rattle.std.specs.Prelude.{◌≡◌, [], IfOk, IfSome, None, Some, false, map, option_map, string_bytes};
ghost use Rattle.std.specs.Prelude.{codes, unwrap_or};
ghost use Rattle.clap.specs.Walk.{texts};
ghost use Rattle.clap.specs.Words.{all_of, first_of, found_of, rows_of};
ghost use Rattle.dia_cli.specs.Words.{has_word, is_flag, is_limit, is_policy, is_sender};
ghost use Rattle.dia_cli.specs.InputWords.{IsFound};
ghost use Rattle.dia_cli.specs.Origins.{dictionary_origin, message_origin, messages_origin, table_origin};
ghost use Rattle.dia_cli.specs.Words.{IsLimitOf, flag_word, is_given, policy_word, sends_word};

use crate::origin::Origin;
use clap::ArgMatches;
use dia_terms::{Levels, Sends, Unknown};
use std::alloc::{AllocError, Global};

/// The origin of the dictionary that this argument names.
pub(crate) fn dictionary_of<'a>(found: &ArgMatches<'a>, id: &str) -> Option<Origin<'a>>
    ensures found { IfSome result (λ origin.
        IsFound dictionary_origin (Some id.now) origin (rows_of (found_of found.now))) }
    ensures none { result ≡ None → has_word id.now (rows_of (found_of found.now)) ≡ false }
{
    Some(Origin::of_dictionary(word_of(found, id)?))
}

/// The origin of the table of pairs.
pub(crate) fn table_of<'a>(found: &ArgMatches<'a>, id: &str) -> Option<Origin<'a>>
    ensures found { IfSome result (λ origin.
        IsFound table_origin (Some id.now) origin (rows_of (found_of found.now))) }
    ensures none { result ≡ None → has_word id.now (rows_of (found_of found.now)) ≡ false }
{
    Some(Origin::of_table(word_of(found, id)?))
}

/// The origin of the message, or of the text of messages, that this argument names.
pub(crate) fn message_of<'a>(found: &ArgMatches<'a>, id: &str) -> Option<Origin<'a>>
    ensures found { IfSome result (λ origin.
        IsFound message_origin (Some id.now) origin (rows_of (found_of found.now))) }
    ensures none { result ≡ None → has_word id.now (rows_of (found_of found.now)) ≡ false }
{
    Some(Origin::of_message(word_of(found, id)?))
}

/// The origin of messages that are read a piece at a time.
pub(crate) fn messages_of<'a>(found: &ArgMatches<'a>, id: &str) -> Option<Origin<'a>>
    ensures found { IfSome result (λ origin.
        IsFound messages_origin (Some id.now) origin (rows_of (found_of found.now))) }
    ensures none { result ≡ None → has_word id.now (rows_of (found_of found.now)) ≡ false }
{
    Some(Origin::of_messages(word_of(found, id)?))
}

/// The names of commands, also none.
pub(crate) fn names_of(alloc: Global, found: &ArgMatches<'_>) -> Result<Vec<String>, AllocError>
    ensures { IfOk result (λ names. map string_bytes names.items
        ≡ unwrap_or (all_of (codes "COMMAND") (rows_of (found_of found.now))) []) }
{
    match words_of(found, "COMMAND") {
        Some(words) => copies_of(alloc, words),
        None => Ok(Vec::new(alloc)),
    }
}

pub(crate) fn copies_of(alloc: Global, words: &[&str]) -> Result<Vec<String>, AllocError>
    ensures { IfOk result (λ copies. map string_bytes copies.items ≡ texts words.now) }
{
    let mut copies = Vec::with_capacity(alloc, words.len())?;
    for word in words {
        copies.push(String::from_str(alloc, word)?)?;
    }
    Ok(copies)
}

/// The policy that a word names.
pub(crate) fn policy_of(word: &str) -> Option<Unknown>
    ensures policy { IfSome result (λ policy. word.now ≡ policy_word policy) }
    ensures none { result ≡ None → is_policy (Some word.now) ≡ false }
{
    match word {
        "kept" => Some(Unknown::Kept),
        "refused" => Some(Unknown::Refused),
        _ => None,
    }
}

/// The sender that a word names.
pub(crate) fn sends_of(word: &str) -> Option<Sends>
    ensures sends { IfSome result (λ sends. word.now ≡ sends_word sends) }
    ensures none { result ≡ None → is_sender (Some word.now) ≡ false }
{
    match word {
        "any" => Some(Sends::Any),
        "known" => Some(Sends::Known),
        "filled" => Some(Sends::Filled),
        "listed" => Some(Sends::Listed),
        _ => None,
    }
}

/// Whether the option of this id was given, which has no value.
pub(crate) fn flag_of(found: &ArgMatches<'_>, id: &str) -> Option<bool>
    ensures given { IfSome result (λ given.
        first_of id.now (rows_of (found_of found.now)) ≡ Some (flag_word given)) }
    ensures none { result ≡ None → is_flag (first_of id.now (rows_of (found_of found.now))) ≡ false }
{
    match word_of(found, id)? {
        "true" => Some(true),
        "false" => Some(false),
        _ => None,
    }
}

/// Whether the option of this id was given. A command that has no such option isn't given it.
pub(crate) fn is_given(found: &ArgMatches<'_>, id: &str) -> bool
    ensures { result ≡ is_given (first_of id.now (rows_of (found_of found.now))) }
{
    match word_of(found, id) {
        Some("true") => true,
        _ => false,
    }
}

/// The first word that was found for this id.
pub(crate) fn word_of<'a>(found: &ArgMatches<'a>, id: &str) -> Option<&'a str>
    ensures { option_map (λ word. word.now) result ≡ first_of id.now (rows_of (found_of found.now)) }
{
    found.get_str(id)
}

/// All words that were found for this id.
pub(crate) fn words_of<'f, 'a>(found: &'f ArgMatches<'a>, id: &str) -> Option<&'f [&'a str]>
    ensures { option_map (λ words. texts words.now) result ≡ all_of id.now (rows_of (found_of found.now)) }
{
    found.get_strs(id)
}

/// The limit on levels, a decimal number. Without a word there is no limit.
pub(crate) fn limit_of(word: Option<&str>) -> Option<Levels>
    ensures limit { IfSome result (IsLimitOf (option_map (λ text. text.now) word.entry)) }
    ensures none { result ≡ None → is_limit (option_map (λ text. text.now) word.entry) ≡ false }
{
    match word {
        None => Some(Levels::Any),
        Some(number) => Some(Levels::AtMost(number.parse().ok()?)),
    }
}
