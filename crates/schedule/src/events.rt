ghost use Rattle.std.specs.Prelude.{◌≡◌, ◌<◌, [], ◌∷◌, ◌++◌, length};
ghost use Rattle.schedule.specs.declared.events.TheConstants.{MOST_EVENTS};

use std::marker::Model;
use vdo_core::MOST_ZONES;

/// How many events a core has at most: a step of each of its zones, and a move from each to each.
const MOST_EVENTS: usize = MOST_ZONES + MOST_ZONES * MOST_ZONES;

/// Numbers of events, in a list with room for those of any core, which is emptied without going over it. A contract
/// sees the list.
#[derive(Drop)]
pub(crate) struct EventList {
    numbers: [u16; MOST_EVENTS],
    len: usize,
}

impl Model for EventList {
    ghost use Rattle.std.specs.Prelude.{ℕ, ◌≤◌, List, take};
    ghost use Rattle.schedule.specs.declared.events.TheConstants.{MOST_EVENTS};

    ghost Value = { List ℕ };

    ghost view = { λ l. take l.len l.numbers };

    ghost invariant = { λ l. l.len ≤ MOST_EVENTS };
}

impl EventList {
    /// A list of none.
    pub(crate) fn new() -> EventList
        ensures { result ≡ [] }
    {
        EventList {
            numbers: [0; MOST_EVENTS],
            len: 0,
        }
    }

    /// The numbers.
    pub(crate) fn as_slice(&self) -> &[u16]
        ensures { result.now ≡ self.now }
    {
        &self.numbers[..self.len]
    }

    /// Adds a number behind the others.
    pub(crate) fn push(&mut self, number: u16)
        requires { length self.old < MOST_EVENTS }
        ensures { self.new ≡ self.old ++ number ∷ [] }
    {
        self.numbers[self.len] = number;
        self.len += 1;
    }

    /// All numbers leave the list.
    pub(crate) fn clear(&mut self)
        ensures { self.new ≡ [] }
    {
        self.len = 0;
    }
}
