//! Advice that goes with an ending.

ghost use Rattle.std.specs.Prelude.{◌↔◌, IsTrue};
ghost use Rattle.dia_driver.specs.Program.{IsUnread};

use dia_cli::{BASE_DICTIONARY, Ending, STANDARD_OUTPUT};
use dia_explain_places::nearest_name;
use std::io;

/// Another word is given in place of a dictionary.
const NEAR: &str = "hint: did you mean @base?\n";

/// The base dictionary is given in place of a file.
const ELSEWHERE: &str =
    "hint: @base is the base dictionary only as D, A or B, and after --dict; as any other input it is a file of this name: \
    a dictionary precedes a message\n";

/// Whether standard output is a pipe that nobody reads any more.
pub(crate) fn is_unread(ending: &Ending<'_>) -> bool
    ensures { IsTrue result ↔ IsUnread ending.now }
{
    match ending {
        Ending::Device {
            name,
            error: Some(error),
        } => *name == STANDARD_OUTPUT && matches!(error.kind(), io::ErrorKind::BrokenPipe),
        _ => false,
    }
}

/// The hint about a file that isn't there, and whose name is that of the base dictionary, or nearly.
pub(crate) fn hint_of(ending: &Ending<'_>) -> &'static str {
    match ending {
        Ending::Device {
            name,
            error: Some(error),
        } => {
            if matches!(error.kind(), io::ErrorKind::NotFound) {
                hint_of_name(name)
            } else {
                ""
            }
        }
        _ => "",
    }
}

/// The hint about this name of a missing file.
fn hint_of_name(name: &str) -> &'static str {
    if name == BASE_DICTIONARY {
        ELSEWHERE
    } else if name.starts_with("@") && nearest_name(name, &[BASE_DICTIONARY]).is_some() {
        NEAR
    } else {
        ""
    }
}
