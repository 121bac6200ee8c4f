//! The rules that are asked for.

ghost use Rattle.std.specs.Prelude.{◌≡◌, ◌&&◌, ◌||◌, ◌++◌, ◌∷◌, List, ℕ, [], IfOk, IfSome, None, OnOk, find};
ghost use Rattle.std.specs.Prelude.{length, map, not, ◌<◌};
ghost use Rattle.std.specs.List.{list_any};
ghost use Rattle.std.specs.Option.{option_copied, option_map};
ghost use Rattle.dia_lint.specs.Words.{rules};
ghost use Rattle.dia_lint_text.specs.Asking.{chooses, is_chosen, is_strange, is_wanted, words_from, words_of};
ghost use Rattle.dia_lint_text.specs.Lists.{split_at};

use crate::asked::Asked;
use dia_lint::{Rule, RuleSet, all_rules};
use std::alloc::{AllocError, Global};

/// The rules that are asked for.
#[derive(Drop)]
pub(crate) struct Choice {
    /// For each rule, in their order, whether it is.
    pub chosen: Vec<bool>,
}

impl Choice {
    ghost use Rattle.std.specs.Prelude.{◌≡◌, IfErr, IfOk, None, Some, map};
    ghost use Rattle.std.specs.List.{list_any};
    ghost use Rattle.dia_lint.specs.Words.{rules};
    ghost use Rattle.dia_lint_text.specs.Asking.{has_in, is_asked, question, stranger};

    /// The rules that are asked for; or the first word that names none.
    pub fn of<'a>(alloc: Global, asked: &Asked<'a>) -> Result<Result<Choice, &'a str>, AllocError>
        ensures chosen { IfOk result (λ made. IfOk made (λ choice. choice.chosen.items
            ≡ map (is_asked (question asked.now)) rules)) }
        ensures known { IfOk result (λ made. IfOk made (λ choice. stranger (question asked.now) ≡ None)) }
        ensures strange { IfOk result (λ made. IfErr made (λ word. stranger (question asked.now) ≡ Some word.now)) }
    {
        let only = words_of(alloc, asked.only)?;
        let except = words_of(alloc, asked.except)?;
        match first_strange(&only, &except) {
            Some(word) => Ok(Err(word)),
            None => Ok(Ok(Choice {
                chosen: chosen(alloc, &only, &except)?,
            })),
        }
    }

    /// Whether some rule is asked for.
    pub fn has_any(&self) -> bool
        ensures { result ≡ list_any (λ chosen. chosen) self.now.chosen.items }
    {
        self.chosen.iter().any(|chosen| *chosen)
    }

    /// Whether the rule is asked for.
    pub fn has(&self, rule: Rule) -> bool
        ensures { result ≡ has_in self.now.chosen.items rule }
    {
        match self.chosen.get(usize::from(rule.number())) {
            Some(chosen) => *chosen,
            None => false,
        }
    }
}

/// The words of a list, if there is one.
fn words_of<'a>(alloc: Global, text: Option<&'a str>) -> Result<Vec<&'a str>, AllocError>
    ensures { IfOk result (λ words. map (λ word. word.now) words.items ≡ words_of (option_copied text.entry)) }
{
    match text {
        Some(text) => words_in(alloc, text),
        None => Ok(Vec::new(alloc)),
    }
}

/// The words of a list with commas between them.
fn words_in<'a>(alloc: Global, text: &'a str) -> Result<Vec<&'a str>, AllocError>
    ensures { IfOk result (λ words. map (λ word. word.now) words.items ≡ words_from [] text.now) }
{
    let mut words = Vec::new(alloc);
    let mut rest = Some(text);
    for _ in 0..text.len() {
        rest = push_word(&mut words, rest)?;
    }
    push_last(&mut words, rest)?;
    Ok(words)
}

/// Adds the first word of the rest of a list, and returns what follows it.
fn push_word<'a>(
    words: &mut Vec<&'a str>,
    rest: Option<&'a str>,
) -> Result<Option<&'a str>, AllocError>
    ensures added { IfOk result (λ following. map (λ word. word.now) words.new.items
        ++ words_of (option_map (λ r. r.now) following)
        ≡ map (λ word. word.now) words.old.items ++ words_of (option_copied rest.entry)) }
    ensures shorter { IfOk result (λ following. IfSome following (λ f. IfSome rest.entry (λ r. length f.now < length r.now))) }
    ensures ended { IfOk result (λ following. rest.entry ≡ None → following ≡ None) }
{
    let Some(list) = rest else {
        return Ok(None);
    };
    match split_at_comma(list) {
        Some((word, following)) => {
            words.push(word)?;
            Ok(Some(following))
        }
        None => {
            words.push(list)?;
            Ok(None)
        }
    }
}

fn split_at_comma(text: &str) -> Option<(&str, &str)>
    ensures { option_map (λ parts. (parts.0.now, parts.1.now)) result ≡ split_at 44 text.now }
{
    text.split_once(',')
}

/// Adds the rest of a list that has no comma.
fn push_last<'a>(words: &mut Vec<&'a str>, rest: Option<&'a str>) -> Result<(), AllocError>
    requires { IfSome rest (λ r. r.now ≡ []) }
    ensures { OnOk result (map (λ word. word.now) words.new.items
        ≡ map (λ word. word.now) words.old.items ++ words_of (option_copied rest.entry)) }
{
    if let Some(word) = rest {
        words.push(word)?;
    }
    Ok(())
}

/// The first word that names no rule.
fn first_strange<'a>(only: &[&'a str], except: &[&'a str]) -> Option<&'a str>
    ensures { option_map (λ word. word.now) result
        ≡ find is_strange (map (λ word. word.now) only.now ++ map (λ word. word.now) except.now) }
{
    match strange_in(only) {
        Some(word) => Some(word),
        None => strange_in(except),
    }
}

fn strange_in<'a>(words: &[&'a str]) -> Option<&'a str>
    ensures { option_map (λ word. word.now) result ≡ find is_strange (map (λ word. word.now) words.now) }
{
    for word in words {
        if is_strange(word) {
            return Some(*word);
        }
    }
    None
}

/// Whether the word names no rule and no set.
fn is_strange(word: &str) -> bool
    ensures { result ≡ is_strange word.now }
{
    !all_rules().iter().any(|rule| chooses(*rule, word))
}

/// Whether the word is that of the rule or of its set.
fn chooses(rule: Rule, word: &str) -> bool
    ensures { result ≡ chooses rule word.now }
{
    word == rule.set().word() || word == rule.word()
}

/// For each rule whether it is asked for.
fn chosen(alloc: Global, only: &[&str], except: &[&str]) -> Result<Vec<bool>, AllocError>
    ensures { IfOk result (λ chosen. chosen.items
        ≡ map (is_chosen (map (λ word. word.now) only.now) (map (λ word. word.now) except.now)) rules) }
{
    let mut chosen = Vec::new(alloc);
    for rule in all_rules() {
        chosen.push(is_chosen(only, except, *rule))?;
    }
    Ok(chosen)
}

fn is_chosen(only: &[&str], except: &[&str], rule: Rule) -> bool
    ensures { result ≡ is_chosen (map (λ word. word.now) only.now) (map (λ word. word.now) except.now) rule }
{
    is_wanted(only, rule) && !is_named(except, rule)
}

/// Without words each rule but those of the set `more`.
fn is_wanted(only: &[&str], rule: Rule) -> bool
    ensures { result ≡ is_wanted (map (λ word. word.now) only.now) rule }
{
    match only {
        [] => rule.set() != RuleSet::More,
        _ => is_named(only, rule),
    }
}

/// Whether one of the words is that of the rule or of its set.
fn is_named(words: &[&str], rule: Rule) -> bool
    ensures { result ≡ list_any (chooses rule) (map (λ word. word.now) words.now) }
{
    words.iter().any(|word| chooses(rule, word))
}
