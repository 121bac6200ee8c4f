//! What is known of one end of a connection.

use crate::applications::Applications;
use crate::kept::{Host, Strays};
use crate::waiting::Waiting;
use std::alloc::Global;

/// What is known of one end of a connection.
#[derive(Drop)]
pub(crate) struct Side {
    /// Its requests without answer.
    pub(crate) waits: Waiting,
    /// The applications that it advertises, where they are known.
    pub(crate) apps: Option<Applications>,
    /// Its Origin-Host, where it is known.
    pub(crate) host: Option<Host>,
    /// Its last Origin-State-Id, where it is known.
    pub(crate) origin_state: Option<u32>,
    /// Its last DWR.
    pub(crate) dwr: Option<Watchdog>,
    /// Its DPR is sent, and not refused.
    pub(crate) dpr: bool,
    /// It has answered a DPR by success.
    pub(crate) dpa: bool,
    /// Requests of it may be missing.
    pub(crate) gap: bool,
    /// It was noted that it sends too early, or after a CEA that refuses.
    pub(crate) noted: bool,
    /// It was noted that a request of it was forgotten.
    pub(crate) forgot: bool,
    /// Its last answers to nothing.
    pub(crate) strays: Strays,
}

/// The line of a DWR, and its time.
#[derive(Clone, Copy)]
pub struct Watchdog {
    /// The number of its line, from 1.
    pub line: u64,
    /// When it was captured, in nanoseconds.
    pub time: Option<u64>,
}

impl Side {
    ghost use Rattle.std.specs.Prelude.{◌≡◌};
    ghost use Rattle.dia_follow.specs.Sides.{cut_off, emptied, new_side};

    /// Nothing is known.
    pub(crate) fn new(alloc: Global) -> Side
        ensures { result ≡ new_side }
    {
        Side {
            waits: Waiting::new(alloc),
            apps: None,
            host: None,
            origin_state: None,
            dwr: None,
            dpr: false,
            dpa: false,
            gap: false,
            noted: false,
            forgot: false,
            strays: Strays::new(alloc),
        }
    }

    /// Messages may be missing: only its requests, its host and its Origin-State-Id stay.
    pub(crate) fn cut_off(&mut self, alloc: Global)
        ensures { self.new ≡ cut_off self.old }
    {
        self.apps = None;
        self.dwr = None;
        self.dpr = false;
        self.dpa = false;
        self.gap = true;
        self.noted = false;
        self.forgot = false;
        self.strays = Strays::new(alloc);
    }

    /// A message can't be read: only its host and its Origin-State-Id stay.
    pub(crate) fn empty(&mut self, alloc: Global)
        ensures { self.new ≡ emptied self.old }
    {
        self.waits = Waiting::new(alloc);
        self.cut_off(alloc);
    }
}
