//! Numbers and applications that follow from a seed.

ghost use Rattle.std.specs.Prelude.{◌<◌};

use dia_peer::{App, Kind};
use std::process::Abort;

/// The linear congruential generator of Knuth's MMIX.
#[derive(Drop)]
pub(super) struct Draw {
    state: u64,
}

impl Draw {
    pub(super) fn new(seed: u64) -> Draw {
        Draw { state: seed }
    }

    /// A number below the bound.
    pub(super) fn below(&mut self, bound: usize) -> usize
        requires { 0 < bound }
        ensures { result < bound }
    {
        self.state = self
            .state
            .wrapping_mul(6_364_136_223_846_793_005)
            .wrapping_add(1_442_695_040_888_963_407);
        (self.state >> 33) as usize % bound
    }

    pub(super) fn one_in(&mut self, count: usize) -> bool
        requires { 0 < count }
    {
        self.below(count) == 0
    }

    /// One of the elements, where there is one.
    pub(super) fn pick<'a, T>(&mut self, from: &'a [T]) -> Option<&'a T> {
        if from.is_empty() {
            return None;
        }
        from.get(self.below(from.len()))
    }

    /// One or more applications with a number from 1 to 3, in any order of kinds.
    pub(super) fn apps(&mut self, rt: &(impl AllocGlobal + Abort)) -> Vec<App> {
        let mut apps = Vec::new(rt.alloc());
        for id in 1..4 {
            for kind in [Kind::Acct, Kind::Auth] {
                if self.one_in(3) {
                    apps.push(self.app(kind, id)).ok().expect(rt, "memory");
                }
            }
        }
        if apps.is_empty() {
            apps.push(self.app(Kind::Auth, 1)).ok().expect(rt, "memory");
        }
        apps
    }

    fn app(&mut self, kind: Kind, id: u32) -> App {
        let vendor = if self.one_in(3) { Some(10415) } else { None };
        App { kind, id, vendor }
    }
}
