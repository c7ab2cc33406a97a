ghost use Rattle.std.specs.Prelude.{◌≡◌, ◌<◌, [], ◌∷◌, ◌++◌, length};

use arrayvec::ArrayVec;
use std::marker::Model;

/// At most 3 slots, which a contract sees as a list. They lie in the value itself.
#[derive(Drop)]
pub struct Slots {
    items: ArrayVec<u16, 3>,
}

impl Model for Slots {
    ghost use Rattle.std.specs.Prelude.{ℕ, List};

    ghost Value = { List ℕ };

    ghost view = { λ list. list.items.items };
}

impl Slots {
    /// No slot.
    pub fn new() -> Self
        ensures { result ≡ [] }
    {
        Slots {
            items: ArrayVec::new(),
        }
    }

    /// Adds a slot at the end.
    pub fn push(&mut self, slot: u16)
        requires { length self.old < 3 }
        ensures { self.new ≡ self.old ++ slot ∷ [] }
    {
        self.items.push(slot);
    }

    /// The slots, that of the root first.
    pub fn as_slice(&self) -> &[u16]
        ensures { result.now ≡ self.now }
    {
        self.items.as_slice()
    }
}
