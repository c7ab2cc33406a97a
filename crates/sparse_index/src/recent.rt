ghost use Rattle.std.specs.Prelude.{◌≡◌, ◌<◌, [], Some, filter, not, nat_eq, IfOk};
ghost use Rattle.index_advice.specs.Books.{is_same_place};
ghost use Rattle.sparse_index.specs.Lookups.{with_used};

use std::alloc::{AllocError, Global};
use std::marker::Model;
use uds_index::is_same_place;

/// The numbers of chapters that were used lately, the last one first. There is room for all that it will have, so that no
/// call asks for memory.
#[derive(Drop)]
pub(crate) struct Recent {
    room: usize,
    numbers: Vec<u32>,
}

impl Model for Recent {
    ghost use Rattle.std.specs.Prelude.{◌<◌, ◌≤◌, vec_capacity, vec_len};
    ghost use Rattle.sparse_index.specs.Lookups.{Recents};

    ghost Value = { Recents };

    ghost view = { λ r. record { room = r.room; numbers = r.numbers.items } };

    ghost invariant = { λ r. record {
      some : 0 < r.room;
      few : vec_len r.numbers ≤ r.room;
      capacity : r.room ≤ vec_capacity r.numbers;
    } };
}

impl Recent {
    /// None yet, and room for so many.
    pub(crate) fn new(alloc: Global, room: u32) -> Result<Recent, AllocError>
        requires { 0 < room }
        ensures { IfOk result (λ recent. recent ≡ record { room = room; numbers = [] }) }
    {
        let room = room as usize;
        Ok(Recent {
            room,
            numbers: Vec::with_capacity(alloc, room)?,
        })
    }

    /// The numbers.
    pub(crate) fn numbers(&self) -> &[u32]
        ensures { result.now ≡ self.now.numbers }
    {
        &self.numbers
    }

    /// This one is used: it stands first, and where there is no room the last one goes.
    pub(crate) fn mark(&mut self, number: u32)
        ensures { self.new
            ≡ record self.old
            { numbers = with_used self.old.room self.old.numbers (Some number) } }
    {
        self.numbers.retain(|other| *other != number);
        self.numbers.truncate(self.room - 1);
        let Ok(()) = self.numbers.insert(0, number) else {
            unreachable!()
        };
    }

    /// Leaves out the chapters that stand where this one does.
    pub(crate) fn leave_out(&mut self, places: u32, number: u32)
        requires { 0 < places }
        ensures { self.new
            ≡ record self.old
            { numbers = filter (λ other. not (is_same_place places other number)) self.old.numbers } }
    {
        self.numbers
            .retain(|other| !is_same_place(places, *other, number));
    }
}
