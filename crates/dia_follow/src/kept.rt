//! What is kept of an end beside its requests: a name, and answers to nothing.

ghost use Rattle.std.specs.Prelude.{◌≡◌, ◌<◌, IfSome, length, position};
ghost use Rattle.dia_follow.specs.Kept.{is_stray, same_host};

use crate::codes::MOST_STRAYS;
use std::alloc::{AllocError, Global};
use std::marker::Model;

/// An Origin-Host (RFC 6733 section 6.3).
#[derive(Drop)]
pub(crate) struct Host {
    bytes: Vec<u8>,
}

impl Model for Host {
    ghost use Rattle.std.specs.Prelude.{List, ℕ};

    ghost Value = { List ℕ };

    ghost view = { λ h. h.bytes.items };
}

impl Host {
    ghost use Rattle.std.specs.Prelude.{◌≡◌, IfOk};
    ghost use Rattle.dia_follow.specs.Kept.{same_host};

    pub(crate) fn new(alloc: Global, bytes: &[u8]) -> Result<Host, AllocError>
        ensures { IfOk result (λ host. host ≡ bytes.now) }
    {
        let bytes = Vec::from_slice(alloc, bytes)?;
        Ok(Host { bytes })
    }

    pub(crate) fn bytes(&self) -> &[u8]
        ensures { result.now ≡ self.entry.now }
    {
        self.bytes.as_slice()
    }

    /// Whether this names the same host: the case of letters of ASCII doesn't count.
    pub(crate) fn is(&self, name: &[u8]) -> bool
        ensures { result ≡ same_host self.now name.now }
    {
        is_same_name(&self.bytes, name)
    }
}

fn is_same_name(one: &[u8], other: &[u8]) -> bool
    ensures { result ≡ same_host one.now other.now }
{
    one.eq_ignore_ascii_case(other)
}

/// An answer without a request.
#[derive(Clone, Copy)]
pub(crate) struct Stray {
    pub(crate) line: u64,
    pub(crate) hop: u32,
    pub(crate) e2e: u32,
    pub(crate) code: u32,
}

/// The last answers of an end to nothing, in order.
#[derive(Drop)]
pub(crate) struct Strays {
    strays: Vec<Stray>,
}

impl Model for Strays {
    ghost use Rattle.std.specs.Prelude.{List};
    ghost use Rattle.dia_follow.specs.declared.kept.Stray.{Stray};

    ghost Value = { List Stray };

    ghost view = { λ s. s.strays.items };
}

impl Strays {
    ghost use Rattle.std.specs.Prelude.{◌≡◌, [], OnOk};
    ghost use Rattle.dia_follow.specs.Kept.{has_stray, stray_line, with_stray, without_stray};

    pub(crate) fn new(alloc: Global) -> Strays
        ensures { result ≡ [] }
    {
        Strays {
            strays: Vec::new(alloc),
        }
    }

    /// Remembers an answer. Of more than 64 the first is forgotten.
    pub(crate) fn add(&mut self, stray: Stray) -> Result<(), AllocError>
        ensures { OnOk result (self.new ≡ with_stray self.old stray) }
    {
        if self.strays.len() >= MOST_STRAYS {
            self.strays.remove(0);
        }
        self.strays.push(stray)?;
        Ok(())
    }

    /// The line of the first answer with these identifiers and this code.
    pub(crate) fn line(&self, hop: u32, e2e: u32, code: u32) -> Option<u64>
        ensures { result ≡ stray_line self.now hop e2e code }
    {
        let place = place_of(&self.strays, hop, e2e, code)?;
        Some(self.strays[place].line)
    }

    /// Whether there is an answer with these identifiers and this code.
    pub(crate) fn has(&self, hop: u32, e2e: u32, code: u32) -> bool
        ensures { result ≡ has_stray self.now hop e2e code }
    {
        match place_of(&self.strays, hop, e2e, code) {
            Some(_) => true,
            None => false,
        }
    }

    /// Takes out the first such answer.
    pub(crate) fn remove(&mut self, hop: u32, e2e: u32, code: u32)
        ensures { self.new ≡ without_stray self.old hop e2e code }
    {
        if let Some(place) = place_of(&self.strays, hop, e2e, code) {
            self.strays.remove(place);
        }
    }
}

/// The place of the first answer with these identifiers and this code.
fn place_of(strays: &[Stray], hop: u32, e2e: u32, code: u32) -> Option<usize>
    ensures place { result ≡ position (is_stray hop e2e code) strays.now }
    ensures inside { IfSome result (λ place. place < length strays.now) }
{
    strays
        .iter()
        .position(|stray| is_stray(stray, hop, e2e, code))
}

fn is_stray(stray: &Stray, hop: u32, e2e: u32, code: u32) -> bool
    ensures { result ≡ is_stray hop e2e code stray.now }
{
    stray.hop == hop && stray.e2e == e2e && stray.code == code
}
