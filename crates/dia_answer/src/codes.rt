//! AVPs of the base protocol that answers are made of, or that no answer copies (RFC 6733 section 4.5).

ghost use Rattle.std.specs.Prelude.{◌≡◌};
ghost use Rattle.dia_answer.specs.Dictionaries.{base_key};
ghost use Rattle.dia_answer.specs.Stocks.{is_own, is_own_code};

use dia_wire::Key;

pub(crate) const SESSION_ID: u32 = 263;

pub(crate) const ORIGIN_HOST: u32 = 264;

pub(crate) const RESULT_CODE: u32 = 268;

pub(crate) const FAILED_AVP: u32 = 279;

pub(crate) const ERROR_MESSAGE: u32 = 281;

pub(crate) const PROXY_INFO: u32 = 284;

pub(crate) const ORIGIN_REALM: u32 = 296;

/// The key of an AVP of the base protocol, which has no Vendor-ID.
pub(crate) fn base_key(code: u32) -> Key
    ensures { result ≡ base_key code }
{
    Key { code, vendor: 0 }
}

/// Whether an answer has the AVP from elsewhere than from the request's AVPs of its key that are required: the AVPs of an
/// answer that are its own, and those that say something of a node or of a route (our profile).
pub(crate) fn is_own(key: Key) -> bool
    ensures { result ≡ is_own key }
{
    key.vendor == 0 && is_own_code(key.code)
}

fn is_own_code(code: u32) -> bool
    ensures { result ≡ is_own_code code }
{
    match code {
        257 | 263 | 264 | 265 | 266 | 267 | 268 | 269 | 278 | 279 => true,
        281 | 282 | 283 | 284 | 293 | 294 | 296 | 297 | 299 => true,
        _ => false,
    }
}
