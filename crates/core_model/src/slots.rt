ghost use Rattle.std.specs.Prelude.{ℕ, ◌≡◌, ◌==◌, ◌+◌, ◌<◌, ◌≤◌, if◌then◌else◌, [], ◌∷◌, Some, IfOk, length, nat_eq};
ghost use Rattle.std.specs.HashMap.{get, spare};
ghost use Rattle.core_model.specs.Trace.{newest, of_address};

use blk_base::Lba;
use data_vio::{REQUEST_ROOM, Register, Remapping};
use std::alloc::{AllocError, Global};
use std::collections::HashMap;
use std::marker::Model;

// A map by hash, and none in order: it has its room beforehand, so that no step is refused for memory.
/// The slots that were set, each with the write that set it. Their room, for `REQUEST_ROOM` writes, is taken when they are
/// made. A contract sees the newest write first.
#[derive(Drop)]
pub struct Slots {
    writes: Register<Remapping, REQUEST_ROOM>,
    // The newest write of each address that was set.
    by_address: HashMap<u32, Remapping>,
}

impl Model for Slots {
    ghost use Rattle.std.specs.Prelude.{ℕ, ◌≡◌, ◌+◌, ◌<◌, List, length, nat_eq};
    ghost use Rattle.std.specs.HashMap.{get, spare};
    ghost use Rattle.core_model.specs.SessionLimits.{most_requests};
    ghost use Rattle.core_model.specs.Trace.{newest, of_address};
    ghost use Rattle.data_vio.specs.declared.logged.Remapping.{Remapping};

    ghost Value = { List Remapping };

    ghost view = { λ s. s.writes };

    ghost invariant = { λ s. record {
      room : most_requests < length s.writes + spare s.by_address;
      newest : (a : ℕ) → get nat_eq s.by_address a ≡ newest (of_address a s.writes);
    } };
}

impl Slots {
    /// No slot is set.
    pub fn new(alloc: Global) -> Result<Slots, AllocError>
        ensures { IfOk result (λ slots. slots ≡ []) }
    {
        let writes = Register::new(alloc)?;
        let by_address = HashMap::with_capacity(alloc, REQUEST_ROOM)?;
        Ok(Slots { writes, by_address })
    }

    /// A write sets the slot of its address.
    pub fn push(&mut self, write: Remapping)
        requires { length self.old < REQUEST_ROOM }
        ensures { self.new ≡ write ∷ self.old }
    {
        put(&mut self.by_address, write);
        self.writes.push(write);
    }

    /// How many slots were set; one that was set again counts again.
    pub fn len(&self) -> usize
        ensures { result ≡ length self.now }
    {
        self.writes.len()
    }

    /// The last write that set the slot of an address; `None` exactly where none did.
    pub fn latest(&self, at: Lba) -> Option<Remapping>
        ensures { result ≡ newest (of_address at.0 self.now) }
    {
        self.by_address.get(&at.0).copied()
    }
}

// The newest write of its address is this one, for which there is room.
fn put(by_address: &mut HashMap<u32, Remapping>, write: Remapping)
    requires { 0 < spare by_address.old }
    ensures newest { (a : ℕ) →
        get nat_eq by_address.new a
        ≡ (if write.at.0 == a then Some write else get nat_eq by_address.old a) }
    ensures room { spare by_address.old ≤ spare by_address.new + 1 }
{
    let Ok(_) = by_address.insert(write.at.0, write) else {
        unreachable!()
    };
}
