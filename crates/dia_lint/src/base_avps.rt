//! The AVPs of the base protocol that guidelines speak of.

use dia_book::Key;

/// An AVP of RFC 6733 that guidelines speak of.
#[derive(Clone, Copy)]
pub enum BaseAvp {
    AuthSessionState,
    DestinationHost,
    DestinationRealm,
    ExperimentalResult,
    FailedAvp,
    OriginHost,
    OriginRealm,
    ProxyInfo,
    ResultCode,
    RouteRecord,
    SessionId,
}

impl BaseAvp {
    ghost use Rattle.std.specs.Prelude.{◌≡◌};
    ghost use Rattle.dia_lint.specs.BaseAvps.{base_code, base_key, base_name};

    /// The AVP's code (RFC 6733 section 4.5).
    pub fn code(self) -> u32
        ensures { result ≡ base_code self }
    {
        match self {
            BaseAvp::AuthSessionState => 277,
            BaseAvp::DestinationHost => 293,
            BaseAvp::DestinationRealm => 283,
            BaseAvp::ExperimentalResult => 297,
            BaseAvp::FailedAvp => 279,
            BaseAvp::OriginHost => 264,
            BaseAvp::OriginRealm => 296,
            BaseAvp::ProxyInfo => 284,
            BaseAvp::ResultCode => 268,
            BaseAvp::RouteRecord => 282,
            BaseAvp::SessionId => 263,
        }
    }

    /// The AVP's name (RFC 6733 section 4.5).
    pub fn name(self) -> &'static str
        ensures { result.now ≡ base_name self }
    {
        match self {
            BaseAvp::AuthSessionState => "Auth-Session-State",
            BaseAvp::DestinationHost => "Destination-Host",
            BaseAvp::DestinationRealm => "Destination-Realm",
            BaseAvp::ExperimentalResult => "Experimental-Result",
            BaseAvp::FailedAvp => "Failed-AVP",
            BaseAvp::OriginHost => "Origin-Host",
            BaseAvp::OriginRealm => "Origin-Realm",
            BaseAvp::ProxyInfo => "Proxy-Info",
            BaseAvp::ResultCode => "Result-Code",
            BaseAvp::RouteRecord => "Route-Record",
            BaseAvp::SessionId => "Session-Id",
        }
    }

    /// The AVP's code, without a vendor.
    pub fn key(self) -> Key
        ensures { result ≡ base_key self }
    {
        Key {
            code: self.code(),
            vendor: 0,
        }
    }
}
