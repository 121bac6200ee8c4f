//! The AVPs of the base protocol (RFC 6733 section 4.5).
ghost use Rattle.std.specs.Prelude.{◌≡◌, map};
ghost use Rattle.dia_lint.specs.BaseTable.{base_rows, plain_row};

use dia_terms::{FormatName, MRule};

/// An AVP of the base protocol. It has no vendor.
#[derive(Clone, Copy)]
pub struct BaseRow {
    pub code: u32,
    pub name: &'static str,
    pub format: FormatName,
    pub m: MRule,
}

impl BaseRow {
    ghost use Rattle.std.specs.Prelude.{◌≡◌, slice_get};
    ghost use Rattle.std.specs.Option.{option_map};
    ghost use Rattle.dia_lint.specs.BaseTable.{base_rows, plain_row};

    /// How many AVPs there are.
    pub const COUNT: usize = 49;

    /// The AVPs, by their codes.
    pub const ALL: [BaseRow; 49] = [
        BaseRow {
            code: 1,
            name: "User-Name",
            format: FormatName::Utf8String,
            m: MRule::Must,
        },
        BaseRow {
            code: 25,
            name: "Class",
            format: FormatName::OctetString,
            m: MRule::Must,
        },
        BaseRow {
            code: 27,
            name: "Session-Timeout",
            format: FormatName::Unsigned32,
            m: MRule::Must,
        },
        BaseRow {
            code: 33,
            name: "Proxy-State",
            format: FormatName::OctetString,
            m: MRule::Must,
        },
        BaseRow {
            code: 44,
            name: "Acct-Session-Id",
            format: FormatName::OctetString,
            m: MRule::Must,
        },
        BaseRow {
            code: 50,
            name: "Acct-Multi-Session-Id",
            format: FormatName::Utf8String,
            m: MRule::Must,
        },
        BaseRow {
            code: 55,
            name: "Event-Timestamp",
            format: FormatName::Time,
            m: MRule::Must,
        },
        BaseRow {
            code: 85,
            name: "Acct-Interim-Interval",
            format: FormatName::Unsigned32,
            m: MRule::Must,
        },
        BaseRow {
            code: 257,
            name: "Host-IP-Address",
            format: FormatName::Address,
            m: MRule::Must,
        },
        BaseRow {
            code: 258,
            name: "Auth-Application-Id",
            format: FormatName::Unsigned32,
            m: MRule::Must,
        },
        BaseRow {
            code: 259,
            name: "Acct-Application-Id",
            format: FormatName::Unsigned32,
            m: MRule::Must,
        },
        BaseRow {
            code: 260,
            name: "Vendor-Specific-Application-Id",
            format: FormatName::Grouped,
            m: MRule::Must,
        },
        BaseRow {
            code: 261,
            name: "Redirect-Host-Usage",
            format: FormatName::Enumerated,
            m: MRule::Must,
        },
        BaseRow {
            code: 262,
            name: "Redirect-Max-Cache-Time",
            format: FormatName::Unsigned32,
            m: MRule::Must,
        },
        BaseRow {
            code: 263,
            name: "Session-Id",
            format: FormatName::Utf8String,
            m: MRule::Must,
        },
        BaseRow {
            code: 264,
            name: "Origin-Host",
            format: FormatName::DiameterIdentity,
            m: MRule::Must,
        },
        BaseRow {
            code: 265,
            name: "Supported-Vendor-Id",
            format: FormatName::Unsigned32,
            m: MRule::Must,
        },
        BaseRow {
            code: 266,
            name: "Vendor-Id",
            format: FormatName::Unsigned32,
            m: MRule::Must,
        },
        BaseRow {
            code: 267,
            name: "Firmware-Revision",
            format: FormatName::Unsigned32,
            m: MRule::MustNot,
        },
        BaseRow {
            code: 268,
            name: "Result-Code",
            format: FormatName::Unsigned32,
            m: MRule::Must,
        },
        BaseRow {
            code: 269,
            name: "Product-Name",
            format: FormatName::Utf8String,
            m: MRule::MustNot,
        },
        BaseRow {
            code: 270,
            name: "Session-Binding",
            format: FormatName::Unsigned32,
            m: MRule::Must,
        },
        BaseRow {
            code: 271,
            name: "Session-Server-Failover",
            format: FormatName::Enumerated,
            m: MRule::Must,
        },
        BaseRow {
            code: 272,
            name: "Multi-Round-Time-Out",
            format: FormatName::Unsigned32,
            m: MRule::Must,
        },
        BaseRow {
            code: 273,
            name: "Disconnect-Cause",
            format: FormatName::Enumerated,
            m: MRule::Must,
        },
        BaseRow {
            code: 274,
            name: "Auth-Request-Type",
            format: FormatName::Enumerated,
            m: MRule::Must,
        },
        BaseRow {
            code: 276,
            name: "Auth-Grace-Period",
            format: FormatName::Unsigned32,
            m: MRule::Must,
        },
        BaseRow {
            code: 277,
            name: "Auth-Session-State",
            format: FormatName::Enumerated,
            m: MRule::Must,
        },
        BaseRow {
            code: 278,
            name: "Origin-State-Id",
            format: FormatName::Unsigned32,
            m: MRule::Must,
        },
        BaseRow {
            code: 279,
            name: "Failed-AVP",
            format: FormatName::Grouped,
            m: MRule::Must,
        },
        BaseRow {
            code: 280,
            name: "Proxy-Host",
            format: FormatName::DiameterIdentity,
            m: MRule::Must,
        },
        BaseRow {
            code: 281,
            name: "Error-Message",
            format: FormatName::Utf8String,
            m: MRule::MustNot,
        },
        BaseRow {
            code: 282,
            name: "Route-Record",
            format: FormatName::DiameterIdentity,
            m: MRule::Must,
        },
        BaseRow {
            code: 283,
            name: "Destination-Realm",
            format: FormatName::DiameterIdentity,
            m: MRule::Must,
        },
        BaseRow {
            code: 284,
            name: "Proxy-Info",
            format: FormatName::Grouped,
            m: MRule::Must,
        },
        BaseRow {
            code: 285,
            name: "Re-Auth-Request-Type",
            format: FormatName::Enumerated,
            m: MRule::Must,
        },
        BaseRow {
            code: 287,
            name: "Accounting-Sub-Session-Id",
            format: FormatName::Unsigned64,
            m: MRule::Must,
        },
        BaseRow {
            code: 291,
            name: "Authorization-Lifetime",
            format: FormatName::Unsigned32,
            m: MRule::Must,
        },
        BaseRow {
            code: 292,
            name: "Redirect-Host",
            format: FormatName::DiameterUri,
            m: MRule::Must,
        },
        BaseRow {
            code: 293,
            name: "Destination-Host",
            format: FormatName::DiameterIdentity,
            m: MRule::Must,
        },
        BaseRow {
            code: 294,
            name: "Error-Reporting-Host",
            format: FormatName::DiameterIdentity,
            m: MRule::MustNot,
        },
        BaseRow {
            code: 295,
            name: "Termination-Cause",
            format: FormatName::Enumerated,
            m: MRule::Must,
        },
        BaseRow {
            code: 296,
            name: "Origin-Realm",
            format: FormatName::DiameterIdentity,
            m: MRule::Must,
        },
        BaseRow {
            code: 297,
            name: "Experimental-Result",
            format: FormatName::Grouped,
            m: MRule::Must,
        },
        BaseRow {
            code: 298,
            name: "Experimental-Result-Code",
            format: FormatName::Unsigned32,
            m: MRule::Must,
        },
        BaseRow {
            code: 299,
            name: "Inband-Security-Id",
            format: FormatName::Unsigned32,
            m: MRule::Must,
        },
        BaseRow {
            code: 480,
            name: "Accounting-Record-Type",
            format: FormatName::Enumerated,
            m: MRule::Must,
        },
        BaseRow {
            code: 483,
            name: "Accounting-Realtime-Required",
            format: FormatName::Enumerated,
            m: MRule::Must,
        },
        BaseRow {
            code: 485,
            name: "Accounting-Record-Number",
            format: FormatName::Unsigned32,
            m: MRule::Must,
        },
    ];

    /// The AVP at a place of the table, from 0.
    pub fn at(place: usize) -> Option<&'static BaseRow>
        ensures { option_map (λ row. plain_row row.now) result ≡ slice_get base_rows place }
    {
        match base_rows().get(place) {
            Some(row) => Some(row),
            None => None,
        }
    }
}

static BASE_ROWS: [BaseRow; 49] = BaseRow::ALL;

/// The AVPs, by their codes.
pub(crate) fn base_rows() -> &'static [BaseRow]
    ensures { map plain_row result.now ≡ base_rows }
{
    BASE_ROWS.as_slice()
}
