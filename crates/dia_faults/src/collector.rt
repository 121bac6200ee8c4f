//! Faults as they are found.

ghost use Rattle.std.specs.Prelude.{◌≡◌, ◌<◌, ◌^◌, ◌∷◌, [], OnOk};
ghost use Rattle.dia_check.specs.Recording.{recorded};
ghost use Rattle.dia_faults.specs.Collecting.{Adds, Holds};

use dia_check::{Fault, Wrong};
use std::alloc::{AllocError, Global};

/// The first faults of a message, in their order.
#[derive(Drop)]
pub(crate) struct Collector {
    pub(crate) faults: Vec<Fault>,
    /// Whether there are more.
    pub(crate) more: bool,
    /// How many are collected at most.
    most: usize,
}

impl Collector {
    /// Collects at most so many.
    pub(crate) fn new(alloc: Global, most: usize) -> Self
        ensures none { Holds result [] }
        ensures most { result.most ≡ most }
    {
        Collector {
            faults: Vec::new(alloc),
            more: false,
            most,
        }
    }

    /// Adds what is wrong at a place, if it isn't one too many.
    pub(crate) fn push(&mut self, place: usize, wrong: Wrong) -> Result<(), AllocError>
        requires { place < 2 ^ 32 }
        ensures { OnOk result (Adds self.old self.new (recorded place wrong ∷ [])) }
    {
        if self.faults.len() >= self.most {
            self.more = true;
            return Ok(());
        }
        self.faults.push(Fault {
            place: place as u32,
            code: wrong.reason.code(),
            reason: wrong.reason,
            subject: wrong.subject,
        })?;
        Ok(())
    }
}
