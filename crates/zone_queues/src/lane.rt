ghost use Rattle.std.specs.Prelude.{◌≡◌, ◌∷◌, ◌++◌, ◌≤◌, [], Some, length, slice_get, IfOk, IfSome, IfNone, IsTrue, ◌↔◌};
ghost use Rattle.zone_queues.specs.Queues.{empty, HasRoom, HasRoomFor, with_more};

use std::alloc::{AllocError, Global};
use std::collections::VecDeque;
use std::marker::Model;
use std::mem::swap;

// Long to prove: how one is let go, item by item.
/// A list, first in, first out. Its room is taken when it is made, so that no item is ever refused.
#[derive(Drop)]
pub struct Lane<V> {
    items: VecDeque<V>,
    room: u32,
}

impl<V> Model for Lane<V> {
    ghost use Rattle.std.specs.Prelude.{◌≤◌};
    ghost use Rattle.std.specs.VecDeque.{deque_capacity};
    ghost use Rattle.zone_queues.specs.Queues.{Queue};

    ghost Value = { Queue V };

    ghost view = { λ l. record { room = l.room; items = l.items.items } };

    ghost invariant = { λ l. l.room ≤ deque_capacity l.items };
}

impl<V: Drop> Lane<V> {
    /// An empty list with room for so many items.
    pub fn new(alloc: Global, room: u32) -> Result<Lane<V>, AllocError>
        ensures { IfOk result (λ lane. lane ≡ empty V room) }
    {
        Ok(Lane {
            items: VecDeque::with_capacity(alloc, room as usize)?,
            room,
        })
    }

    /// An empty list without room, for which no memory is needed.
    pub(crate) fn without_room(alloc: Global) -> Lane<V>
        ensures { result ≡ empty V 0 }
    {
        Lane {
            items: VecDeque::new(alloc),
            room: 0,
        }
    }

    /// How many items there are.
    pub fn len(&self) -> usize
        ensures { result ≡ length self.now.items }
    {
        self.items.len()
    }

    /// Whether there is no item.
    pub fn is_empty(&self) -> bool
        ensures { IsTrue result ↔ (length self.now.items ≡ 0) }
    {
        self.items.is_empty()
    }

    /// Adds an item behind all others.
    pub fn post(&mut self, item: V)
        requires { HasRoom self.old }
        ensures { self.new ≡ with_more self.old (item ∷ []) }
    {
        self.items.push_back_reserved(item);
    }

    /// Takes the oldest item; `None` exactly where there is none.
    pub fn take(&mut self) -> Option<V>
        ensures some { IfSome result (λ item.
            self.old ≡ record self.new { items = item ∷ self.new.items }) }
        ensures none { IfNone result ((self.old.items ≡ []) × (self.new ≡ self.old)) }
    {
        self.items.pop_front()
    }

    /// The item of this number, from 0 at the front; `None` exactly where there are no more.
    pub fn get(&self, index: usize) -> Option<&V>
        ensures some { IfSome result (λ item. slice_get self.now.items index ≡ Some item.now) }
        ensures none { IfNone result (length self.now.items ≤ index) }
    {
        self.items.get(index)
    }

    /// All items leave the list.
    pub fn clear(&mut self)
        ensures { self.new ≡ empty V self.old.room }
    {
        self.items.clear();
    }

    /// Adds all items of another list behind those here, in their order. The other list is empty then, and keeps its
    /// room.
    pub fn append(&mut self, batch: &mut Lane<V>)
        requires { HasRoomFor self.old batch.old.items }
        ensures added { self.new ≡ with_more self.old batch.old.items }
        ensures emptied { batch.new ≡ empty V batch.old.room }
    {
        // The two change places, which moves no item.
        if self.room == batch.room && self.items.is_empty() {
            swap(&mut self.items, &mut batch.items);
            return;
        }
        let Ok(()) = self.items.append(&mut batch.items) else {
            unreachable!()
        };
    }
}
