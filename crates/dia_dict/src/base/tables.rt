//! The base dictionary as tables (after RFC 6733 sections 5 to 8; which rules and counts they list is our profile).
use RuleRow::{AnyAvps, FixedAtMostOne, Optional, OptionalMany, Required, RequiredMany, SomeAvps};
use dia_ccf::{FormatName, Head, Pxy};

/// An AVP without a vendor, whose M flag may be set or clear.
#[derive(Clone, Copy)]
pub(super) struct AvpRow {
    pub name: &'static str,
    pub code: u32,
    pub format: FormatName,
    /// The ranges of an Enumerated one, low and high.
    pub values: Option<&'static [(u32, u32)]>,
}

/// A rule, as the Command Code Format writes it (RFC 6733 section 3.2).
#[derive(Clone, Copy)]
pub(super) enum RuleRow {
    /// `0*1 < name >`
    FixedAtMostOne(&'static str),
    /// `{ name }`
    Required(&'static str),
    /// `1* { name }`
    RequiredMany(&'static str),
    /// `[ name ]`
    Optional(&'static str),
    /// `* [ name ]`
    OptionalMany(&'static str),
    /// `1* { AVP }`
    SomeAvps,
    /// `* [ AVP ]`
    AnyAvps,
}

/// A group or a command.
#[derive(Clone, Copy)]
pub(super) struct DefRow {
    pub name: &'static str,
    pub head: Head,
    pub rules: &'static [RuleRow],
}

/// The row of an AVP: its name, its code, its format and, where Enumerated, its values.
macro_rules! avp {
    ($name:literal, $code:literal, $format:ident) => {
        AvpRow {
            name: $name,
            code: $code,
            format: FormatName::$format,
            values: None,
        }
    };
    ($name:literal, $code:literal, $format:ident, $values:expr) => {
        AvpRow {
            name: $name,
            code: $code,
            format: FormatName::$format,
            values: Some($values),
        }
    };
}

/// The AVPs that are no groups, by their codes.
pub(super) const AVPS: [AvpRow; 20] = [
    avp!("User-Name", 1, Utf8String),
    avp!("Proxy-State", 33, OctetString),
    avp!("Host-IP-Address", 257, Address),
    avp!("Auth-Application-Id", 258, Unsigned32),
    avp!("Acct-Application-Id", 259, Unsigned32),
    avp!("Session-Id", 263, Utf8String),
    avp!("Origin-Host", 264, DiameterIdentity),
    avp!("Supported-Vendor-Id", 265, Unsigned32),
    avp!("Vendor-Id", 266, Unsigned32),
    avp!("Firmware-Revision", 267, Unsigned32),
    avp!("Result-Code", 268, Unsigned32),
    avp!("Product-Name", 269, Utf8String),
    avp!(
        "Disconnect-Cause",
        273,
        Enumerated,
        &[(0, 0), (1, 1), (2, 2)]
    ),
    avp!("Origin-State-Id", 278, Unsigned32),
    avp!("Proxy-Host", 280, DiameterIdentity),
    avp!("Error-Message", 281, Utf8String),
    avp!("Error-Reporting-Host", 294, DiameterIdentity),
    avp!("Origin-Realm", 296, DiameterIdentity),
    avp!("Experimental-Result-Code", 298, Unsigned32),
    avp!("Inband-Security-Id", 299, Unsigned32),
];

/// The groups.
pub(super) const GROUPS: [DefRow; 4] = [
    DefRow {
        name: "Vendor-Specific-Application-Id",
        head: Head::Group {
            code: 260,
            vendor: 0,
        },
        rules: &[
            Required("Vendor-Id"),
            Optional("Auth-Application-Id"),
            Optional("Acct-Application-Id"),
        ],
    },
    DefRow {
        name: "Failed-AVP",
        head: Head::Group {
            code: 279,
            vendor: 0,
        },
        rules: &[SomeAvps],
    },
    DefRow {
        name: "Proxy-Info",
        head: Head::Group {
            code: 284,
            vendor: 0,
        },
        rules: &[Required("Proxy-Host"), Required("Proxy-State"), AnyAvps],
    },
    DefRow {
        name: "Experimental-Result",
        head: Head::Group {
            code: 297,
            vendor: 0,
        },
        rules: &[Required("Vendor-Id"), Required("Experimental-Result-Code")],
    },
];

/// The header of a command's requests, for all applications.
macro_rules! request {
    ($code:literal) => {
        Head::Command {
            code: $code,
            request: true,
            pxy: false,
            app: None,
        }
    };
}

/// The header of a command's answers, for all applications.
macro_rules! answer {
    ($code:literal) => {
        Head::Command {
            code: $code,
            request: false,
            pxy: false,
            app: None,
        }
    };
}

/// The commands.
pub(super) const COMMANDS: [DefRow; 7] = [
    DefRow {
        name: "CER",
        head: request!(257),
        rules: &[
            Required("Origin-Host"),
            Required("Origin-Realm"),
            RequiredMany("Host-IP-Address"),
            Required("Vendor-Id"),
            Required("Product-Name"),
            Optional("Origin-State-Id"),
            OptionalMany("Supported-Vendor-Id"),
            OptionalMany("Auth-Application-Id"),
            OptionalMany("Inband-Security-Id"),
            OptionalMany("Acct-Application-Id"),
            OptionalMany("Vendor-Specific-Application-Id"),
            Optional("Firmware-Revision"),
            AnyAvps,
        ],
    },
    DefRow {
        name: "CEA",
        head: answer!(257),
        rules: &[
            Required("Result-Code"),
            Required("Origin-Host"),
            Required("Origin-Realm"),
            RequiredMany("Host-IP-Address"),
            Required("Vendor-Id"),
            Required("Product-Name"),
            Optional("Origin-State-Id"),
            Optional("Error-Message"),
            Optional("Failed-AVP"),
            OptionalMany("Supported-Vendor-Id"),
            OptionalMany("Auth-Application-Id"),
            OptionalMany("Inband-Security-Id"),
            OptionalMany("Acct-Application-Id"),
            OptionalMany("Vendor-Specific-Application-Id"),
            Optional("Firmware-Revision"),
            AnyAvps,
        ],
    },
    DefRow {
        name: "DWR",
        head: request!(280),
        rules: &[
            Required("Origin-Host"),
            Required("Origin-Realm"),
            Optional("Origin-State-Id"),
            AnyAvps,
        ],
    },
    DefRow {
        name: "DWA",
        head: answer!(280),
        rules: &[
            Required("Result-Code"),
            Required("Origin-Host"),
            Required("Origin-Realm"),
            Optional("Error-Message"),
            Optional("Failed-AVP"),
            Optional("Origin-State-Id"),
            AnyAvps,
        ],
    },
    DefRow {
        name: "DPR",
        head: request!(282),
        rules: &[
            Required("Origin-Host"),
            Required("Origin-Realm"),
            Required("Disconnect-Cause"),
            AnyAvps,
        ],
    },
    DefRow {
        name: "DPA",
        head: answer!(282),
        rules: &[
            Required("Result-Code"),
            Required("Origin-Host"),
            Required("Origin-Realm"),
            Optional("Error-Message"),
            Optional("Failed-AVP"),
            AnyAvps,
        ],
    },
    DefRow {
        name: "answer-message",
        head: Head::Error { pxy: Pxy::Either },
        rules: &[
            FixedAtMostOne("Session-Id"),
            Required("Origin-Host"),
            Required("Origin-Realm"),
            Required("Result-Code"),
            Optional("Origin-State-Id"),
            Optional("Error-Message"),
            Optional("Error-Reporting-Host"),
            Optional("Failed-AVP"),
            Optional("Experimental-Result"),
            OptionalMany("Proxy-Info"),
            AnyAvps,
        ],
    },
];
