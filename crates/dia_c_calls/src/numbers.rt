//! The words of the numbers of `c/dia.h`.

ghost use Rattle.std.specs.Prelude.{◌≡◌, IfSome, None};
ghost use Rattle.std.specs.Option.{option_map};
ghost use Rattle.dia_check.specs.Reasons.{row_of};
ghost use Rattle.dia_c_calls.specs.Words.{kind_text, reason_text, status_text};

use dia_check::Reason;

/// The word of a status.
pub fn word_of_status(status: u32) -> Option<&'static str>
    ensures { option_map (λ word. word.now) result ≡ status_text status }
{
    match status {
        0 => Some("ok"),
        1 => Some("refused"),
        2 => Some("none"),
        3 => Some("no memory"),
        4 => Some("no room"),
        5 => Some("is open"),
        6 => Some("is closed"),
        7 => Some("bad argument"),
        8 => Some("outputs left"),
        9 => Some("spent"),
        _ => None,
    }
}

/// The word of a reason, as lines of `check` have it.
pub fn word_of_reason(reason: u32) -> Option<&'static str>
    ensures { option_map (λ word. word.now) result ≡ reason_text reason }
{
    match reason_of(reason) {
        Some(reason) => Some(reason.word()),
        None => None,
    }
}

/// The reason of a number.
pub fn reason_of(number: u32) -> Option<Reason>
    ensures some { IfSome result (λ reason. number ≡ row_of reason) }
    ensures none { result ≡ None → reason_text number ≡ None }
{
    match number {
        0 => Some(Reason::Version),
        1 => Some(Reason::Length),
        2 => Some(Reason::Bits),
        3 => Some(Reason::Command),
        4 => Some(Reason::Application),
        5 => Some(Reason::Proxiable),
        6 => Some(Reason::AvpLength),
        7 => Some(Reason::Unknown),
        8 => Some(Reason::MBit),
        9 => Some(Reason::Missing),
        10 => Some(Reason::NotAllowed),
        11 => Some(Reason::TooMany),
        12 => Some(Reason::LeafLength),
        13 => Some(Reason::LeafValue),
        14 => Some(Reason::Depth),
        _ => None,
    }
}

/// The word of a kind of problem, as answers in JSON have it.
pub fn word_of_kind(kind: u32) -> Option<&'static str>
    ensures { option_map (λ word. word.now) result ≡ kind_text kind }
{
    match kind {
        0 => Some("not text"),
        1 => Some("syntax"),
        2 => Some("number"),
        3 => Some("limit"),
        10 => Some("limit"),
        11 => Some("duplicate-name"),
        12 => Some("no-group-format"),
        13 => Some("header-mismatch"),
        14 => Some("duplicate-key"),
        15 => Some("duplicate-command"),
        16 => Some("undefined-name"),
        17 => Some("repeated-slot"),
        18 => Some("min-over-max"),
        19 => Some("required-min"),
        20 => Some("optional-min"),
        30 => Some("no commands"),
        31 => Some("no command"),
        _ => None,
    }
}
