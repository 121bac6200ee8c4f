//! The words and sections of departures and notes.

ghost use Rattle.std.specs.Prelude.{◌≡◌, None, is_some};
ghost use Rattle.std.specs.Option.{option_copied};
ghost use Rattle.dia_follow_text.specs.Reasons.{answer_section, error_flag_section, is_departure, kind, section, word};

use dia_follow::Reason;

/// The word of a departure or a note.
pub(crate) fn word(reason: Reason) -> &'static str
    ensures { result.now ≡ word reason }
{
    match reason {
        Reason::Version => "version",
        Reason::Length => "length",
        Reason::Bits => "bits",
        Reason::AvpLength => "avp-length",
        Reason::Invalid => "invalid",
        Reason::NoCer => "no-cer",
        Reason::CerFromAcceptor => "cer-from-acceptor",
        Reason::CerAgain => "cer-again",
        Reason::BeforeCea => "before-cea",
        Reason::AfterDpr => "behind-dpr",
        Reason::AfterDpa => "behind-dpa",
        Reason::HopByHop => "hop-by-hop",
        Reason::WatchdogWaits => "watchdog-waits",
        Reason::NotAdvertised => "not-advertised",
        Reason::AnswersNothing => "answers-nothing",
        Reason::EndToEnd => "end-to-end",
        Reason::Command => "command",
        Reason::Application => "application",
        Reason::Proxiable => "proxiable",
        Reason::SessionId => "session-id",
        Reason::Destination => "destination",
        Reason::NoResult => "no-result",
        Reason::NoCommon => "no-common",
        Reason::CommonRefused => "common-refused",
        Reason::ErrorFlag => "error-flag",
        Reason::OriginHost => "origin-host",
        Reason::Truncated => "truncated",
        Reason::Trailing => "trailing",
        Reason::AnswersBefore => "answers-before",
        Reason::Order => "order",
        Reason::Again => "again",
        Reason::OwnApplication => "own-application",
        Reason::Kinds => "kinds",
        Reason::GoesOn => "goes-on",
        Reason::WatchdogEarly => "watchdog-early",
        Reason::Silence => "silence",
        Reason::OriginState => "origin-state",
        Reason::Forgotten => "forgotten",
    }
}

/// Whether it is a departure, and not a note: what `check` finds, and what departs from a section of RFC 6733.
pub(crate) fn is_departure(reason: Reason) -> bool
    ensures { result ≡ is_departure reason }
{
    match reason {
        Reason::Invalid => true,
        _ => section(reason, None).is_some(),
    }
}

/// Whether it is a departure or a note, as a word.
pub(crate) fn kind(reason: Reason) -> &'static str
    ensures { result.now ≡ kind reason }
{
    if is_departure(reason) {
        "departure"
    } else {
        "note"
    }
}

/// The section of RFC 6733 that a departure is from. `None` for notes and for what `check` finds. That of `error-flag` goes by
/// the Result-Code.
pub(crate) fn section(reason: Reason, result_code: Option<u32>) -> Option<&'static str>
    ensures { option_copied result ≡ section reason result_code }
{
    match reason {
        Reason::Version | Reason::Length | Reason::Bits => Some("3"),
        Reason::AvpLength => Some("4.1"),
        Reason::NoCer => Some("5.6.1"),
        Reason::CerFromAcceptor | Reason::CerAgain | Reason::BeforeCea => Some("5.6"),
        Reason::AfterDpr | Reason::AfterDpa => Some("5.6"),
        Reason::HopByHop => Some("3"),
        Reason::WatchdogWaits => Some("5.5.3"),
        Reason::NotAdvertised | Reason::NoCommon => Some("5.3"),
        Reason::ErrorFlag => Some(error_flag_section(result_code)),
        Reason::CommonRefused => Some("7.1.5"),
        Reason::OriginHost => Some("4.3.1"),
        _ => answer_section(reason),
    }
}

/// The section of what an answer has to repeat of its request.
fn answer_section(reason: Reason) -> Option<&'static str>
    ensures { option_copied result ≡ answer_section reason }
{
    match reason {
        Reason::AnswersNothing | Reason::EndToEnd | Reason::Proxiable => Some("6.2"),
        Reason::SessionId | Reason::Destination => Some("6.2"),
        Reason::NoResult => Some("7.1"),
        Reason::Command => Some("3.1"),
        Reason::Application => Some("3"),
        _ => None,
    }
}

fn error_flag_section(result_code: Option<u32>) -> &'static str
    ensures { result.now ≡ error_flag_section result_code }
{
    let Some(code) = result_code else {
        return "3";
    };
    let class = code / 1000;
    if class == 3 {
        "7.1.3"
    } else if class == 4 {
        "7.1.4"
    } else {
        "3"
    }
}
