ghost use Rattle.std.specs.Prelude.{◌≡◌, ◌+◌, ◌<◌, ◌≤◌, ◌↔◌, [], ◌∷◌, ◌++◌, IfOk, IfSome, IfNone, IsTrue, Some, length, slice_get};

use std::alloc::{AllocError, Global};
use std::marker::Model;
use zone_queues::Lane;

/// A list, first in, first out. Its room, for `ROOM` items, is taken when it is made: no item is ever refused.
#[derive(Drop)]
pub struct Fifo<T, const ROOM: u32> {
    pub items: Lane<T>,
}

impl<T, const ROOM: u32> Model for Fifo<T, ROOM> {
    ghost use Rattle.std.specs.Prelude.{◌≤◌, ◌≡◌, List, length};

    ghost Value = { List T };

    ghost view = { λ f. f.items.items };

    ghost invariant = { λ f. (f.items.room ≡ ROOM) × (length f.items.items ≤ ROOM) };
}

impl<T: Drop, const ROOM: u32> Fifo<T, ROOM> {
    /// The empty list.
    pub fn new(alloc: Global) -> Result<Fifo<T, ROOM>, AllocError>
        ensures { IfOk result (λ fifo. fifo ≡ []) }
    {
        Ok(Fifo {
            items: Lane::new(alloc, ROOM)?,
        })
    }

    /// An item behind all others.
    pub fn push(&mut self, item: T)
        requires { length self.old < ROOM }
        ensures { self.new ≡ self.old ++ item ∷ [] }
    {
        self.items.post(item);
    }

    /// All items of another list, behind those that are here. The other list is empty then, and keeps its room.
    pub fn append(&mut self, more: &mut Fifo<T, ROOM>)
        requires { length self.old + length more.old ≤ ROOM }
        ensures added { self.new ≡ self.old ++ more.old }
        ensures emptied { more.new ≡ [] }
    {
        self.items.append(&mut more.items);
    }

    /// The item in front, which leaves the list.
    pub fn pop(&mut self) -> Option<T>
        ensures some { IfSome result (λ item. self.old ≡ item ∷ self.new) }
        ensures none { IfNone result ((self.old ≡ []) × (self.new ≡ [])) }
    {
        self.items.take()
    }

    /// The item of this number, from 0 at the front; `None` where there are no more.
    pub fn get(&self, index: usize) -> Option<&T>
        ensures some { IfSome result (λ item. slice_get self.now index ≡ Some item.now) }
        ensures none { IfNone result (length self.now ≤ index) }
    {
        self.items.get(index)
    }

    /// All items leave the list.
    pub fn clear(&mut self)
        ensures { self.new ≡ [] }
    {
        self.items.clear();
    }

    /// Whether there is no item.
    pub fn is_empty(&self) -> bool
        ensures { IsTrue result ↔ (self.now ≡ []) }
    {
        self.items.is_empty()
    }

    /// How many items there are, at most as many as there is room for.
    pub fn len(&self) -> usize
        ensures count { result ≡ length self.now }
        ensures most { result ≤ ROOM }
    {
        self.items.len()
    }
}
