//! The names of the node that answers.

ghost use Rattle.std.specs.Prelude.{◌≡◌, ◌↔◌, Err, IfOk, IsTrue};
ghost use Rattle.dia_answer.specs.Names.{IsName};

use dia_book::{Format, Leaf, accepts};
use thiserror::Error;

/// The names of the node that answers: Origin-Host and Origin-Realm (RFC 6733 sections 6.3 and 6.4).
#[derive(Clone, Copy)]
pub struct Names<'a> {
    pub host: &'a str,
    pub realm: &'a str,
}

/// Why names are refused: the first that holds.
#[derive(Clone, Copy, Debug, PartialEq, Eq, Error)]
pub enum NameFault {
    #[error("the host is no DiameterIdentity of at most 255 bytes")]
    Host,
    #[error("the realm is no DiameterIdentity of at most 255 bytes")]
    Realm,
}

/// The greatest count of bytes of a name (our profile).
const NAME_LIMIT: usize = 255;

impl<'a> Names<'a> {
    /// These names, if both are DiameterIdentities of at most 255 bytes (our profile). With others no form of an answer is
    /// valid.
    pub fn new(host: &'a str, realm: &'a str) -> Result<Self, NameFault>
        ensures ok { IfOk result
            (λ names. (names.host.now ≡ host.now) × (names.realm.now ≡ realm.now)) }
        ensures names { IfOk result (λ _. IsName host.now × IsName realm.now) }
        ensures host { (result ≡ Err NameFault.Host) ↔ (¬ IsName host.now) }
        ensures realm { (result ≡ Err NameFault.Realm) ↔ (IsName host.now × (¬ IsName realm.now)) }
    {
        if !is_name(host) {
            return Err(NameFault::Host);
        }
        if !is_name(realm) {
            return Err(NameFault::Realm);
        }
        Ok(Names { host, realm })
    }
}

fn is_name(name: &str) -> bool
    ensures { IsTrue result ↔ IsName name.now }
{
    name.len() <= NAME_LIMIT && accepts(&Format::DiameterIdentity, name.as_bytes()) == Leaf::Fine
}
