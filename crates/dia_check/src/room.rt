//! Memory for the levels of messages.

use crate::open_levels::OpenLevels;
use std::alloc::Global;
use std::marker::Model;

/// Memory for the levels of a message, used again for the next one: for most messages no more is taken then. It retains
/// nothing else, so all rooms are one value.
#[derive(Drop)]
pub struct Room {
    alloc: Global,
    pub(crate) open_levels: OpenLevels,
}

impl Model for Room {
    ghost Value = { Unit {0} };

    ghost view = { λ _. tt };
}

impl Room {
    /// A room without memory.
    pub fn new(alloc: Global) -> Self {
        Room {
            alloc,
            open_levels: OpenLevels::empty(alloc),
        }
    }

    /// Gives memory back, but for 80 KB at most.
    #[inline(always)]
    pub(crate) fn give_back(&mut self) {
        self.open_levels.give_back(self.alloc);
    }
}
