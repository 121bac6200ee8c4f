//! The form of an accepted line: `RULE SUBJECT: DETAIL`.
ghost use Rattle.std.specs.Prelude.{◌≡◌, ◌==◌, IfErr, IfOk, None, Some};
ghost use Rattle.std.specs.Char.{is_ascii_digit};
ghost use Rattle.std.specs.List.{after_first, list_all};
ghost use Rattle.std.specs.Option.{option_map};
ghost use Rattle.dia_lint_text.specs.Forms.{plain_form};
ghost use Rattle.dia_lint_text.specs.Lists.{after_place, after_space, faulty_rest, form_of, is_number};
ghost use Rattle.dia_lint_text.specs.Lists.{is_of_subject, is_subject, rule_and_rest, split_at, subject_and_detail};
ghost use Rattle.dia_lint_text.specs.Lists.{without_place};

use dia_lint::Rule;

/// The parts of an accepted line.
#[derive(Clone, Copy)]
pub(crate) struct Form<'a> {
    pub rule: Rule,
    /// A command, group or AVP; or `*` for all.
    pub subject: &'a str,
    pub detail: &'a str,
}

/// The parts of an entry; or its rest from the fault on.
pub(crate) fn form_of(entry: &str) -> Result<Form<'_>, &str>
    ensures form { IfOk result (λ form. form_of entry.now ≡ Some (plain_form form)) }
    ensures none { IfErr result (λ rest. form_of entry.now ≡ None) }
    ensures rest { IfErr result (λ rest. rest.now ≡ faulty_rest entry.now) }
{
    let words = without_place(entry);
    let Some((rule, rest)) = rule_and_rest(words) else {
        return Err(words);
    };
    let Some((subject, detail)) = subject_and_detail(rest) else {
        return Err(rest);
    };
    if detail.is_empty() {
        return Err(detail);
    }
    Ok(Form {
        rule,
        subject,
        detail,
    })
}

fn rule_and_rest(words: &str) -> Option<(Rule, &str)>
    ensures { option_map (λ found. (found.0, found.1.now)) result ≡ rule_and_rest words.now }
{
    let (word, rest) = split_at_space(words)?;
    let rule = Rule::named(word)?;
    Some((rule, rest))
}

fn subject_and_detail(rest: &str) -> Option<(&str, &str)>
    ensures { option_map (λ parts. (parts.0.now, parts.1.now)) result ≡ subject_and_detail rest.now }
{
    let (subject, following) = split_at_colon(rest)?;
    if !is_subject(subject) {
        return None;
    }
    let detail = after_space(following)?;
    Some((subject, detail))
}

fn split_at_space(text: &str) -> Option<(&str, &str)>
    ensures { option_map (λ parts. (parts.0.now, parts.1.now)) result ≡ split_at 32 text.now }
{
    text.split_once(' ')
}

fn split_at_colon(text: &str) -> Option<(&str, &str)>
    ensures { option_map (λ parts. (parts.0.now, parts.1.now)) result ≡ split_at 58 text.now }
{
    text.split_once(':')
}

fn after_space(text: &str) -> Option<&str>
    ensures { option_map (λ rest. rest.now) result ≡ after_space text.now }
{
    let (before, rest) = split_at_space(text)?;
    if before.is_empty() { Some(rest) } else { None }
}

/// What follows the first `:NUMBER:NUMBER: `.
fn without_place(entry: &str) -> &str
    ensures { result.now ≡ without_place entry.now }
{
    let mut rest = entry;
    for _ in 0..entry.len() {
        rest = after_colon(rest);
        if let Some(words) = after_place(rest) {
            return words;
        }
    }
    entry
}

/// What follows the first colon; nothing where there is none.
fn after_colon(text: &str) -> &str
    ensures { result.now ≡ after_first (λ b. b == 58) text.now }
{
    match text.split_once(':') {
        Some((_, rest)) => rest,
        None => "",
    }
}

/// What follows `NUMBER:NUMBER: `.
fn after_place(text: &str) -> Option<&str>
    ensures { option_map (λ rest. rest.now) result ≡ after_place text.now }
{
    let (line, rest) = split_at_colon(text)?;
    let (column, words) = split_at_colon(rest)?;
    if is_number(line) && is_number(column) {
        after_space(words)
    } else {
        None
    }
}

fn is_number(text: &str) -> bool
    ensures { result ≡ is_number text.now }
{
    text.len() > 0 && all_digits(text.as_bytes())
}

fn all_digits(text: &[u8]) -> bool
    ensures { result ≡ list_all is_ascii_digit text.now }
{
    text.iter().all(|byte| byte.is_ascii_digit())
}

fn is_subject(text: &str) -> bool
    ensures { result ≡ is_subject text.now }
{
    text == "*" || (text.len() > 0 && all_of_subject(text.as_bytes()))
}

fn all_of_subject(text: &[u8]) -> bool
    ensures { result ≡ list_all is_of_subject text.now }
{
    text.iter().all(|byte| is_of_subject(*byte))
}

fn is_of_subject(byte: u8) -> bool
    ensures { result ≡ is_of_subject byte }
{
    byte.is_ascii_alphanumeric() || byte == b'-' || byte == b'/'
}
