//! What a message is to a core.

use crate::kept_requests::Ids;
use crate::named_apps::NamedApps;

#[derive(Drop)]
pub(crate) enum Incoming {
    /// The bytes are not one message.
    Unreadable,
    /// The message has another command code.
    Foreign,
    /// The message is not valid under the base dictionary.
    Invalid,
    Cer {
        ids: Ids,
        named: NamedApps,
    },
    Dwr(Ids),
    Dpr(Ids),
    Cea {
        ids: Ids,
        result_code: u32,
        named: NamedApps,
    },
    /// An error message of the command code 257 (RFC 6733 section 7.2).
    Refusal(Ids),
    Dwa(Ids),
    Dpa(Ids),
    /// An error message of the command code 280.
    WatchdogError(Ids),
    /// An error message of the command code 282.
    Other,
}
