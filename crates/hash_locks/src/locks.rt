ghost use Rattle.std.specs.Prelude.{ℕ, List, ◌≡◌, ◌+◌, ◌<◌, ◌≤◌, ◌∷◌, ◌++◌, [], length, position, vec_len, vec_capacity, IfOk, IfSome, IfNone};
ghost use Rattle.std.specs.Option.{option_map};
ghost use Rattle.std.specs.Str.{bytes_eq};
ghost use Rattle.hash_locks.specs.LockedNames.{nothing, HasRoom, Arrives, Leaves, Frees, lock_of, first_for};

use crate::held::Held;
use crate::{Role, Waiter};
use blk_base::{Block, HasBlock};
use block_names::Name;
use std::alloc::{AllocError, Global};
use std::marker::Model;

/// The locks on the names of one zone. The first that arrives with a name holds its lock, as agent; those that arrive
/// later with the same bytes wait for what it finds out.
///
/// A lock keeps a copy of its agent's bytes, and not the agent: each value is either with its owner or kept here as a
/// waiter.
#[derive(Drop)]
pub struct HashLocks<V: HasBlock> {
    room: u32,
    held: Vec<Held>,
    // Whoever waits, for any name, in the order in which they came.
    waiting: Vec<Waiter<V>>,
    // The blocks for the locks to come.
    spare: Vec<Box<Block>>,
}

impl<V: HasBlock> Model for HashLocks<V> {
    ghost use Rattle.std.specs.Prelude.{◌≡◌, ◌+◌, ◌≤◌, vec_len, vec_capacity};
    ghost use Rattle.hash_locks.specs.LockedNames.{Sharing, AreInOrder};

    ghost Value = { Sharing V };

    ghost view = { λ l. record { room = l.room; held = l.held.items; waiting = l.waiting.items } };

    ghost invariant = { λ l. record {
      blocks : vec_len l.spare + vec_len l.held ≡ l.room;
      spare_room : l.room ≤ vec_capacity l.spare;
      held_room : l.room ≤ vec_capacity l.held;
      waiting_room : l.room ≤ vec_capacity l.waiting;
      order : AreInOrder V.bytes_of
          (record { room = l.room; held = l.held.items; waiting = l.waiting.items });
    } };
}

impl<V: HasBlock + Drop> HashLocks<V> {
    /// Locks for at most `room` agents and waiters, with a block for each.
    pub fn new(alloc: Global, room: u32) -> Result<HashLocks<V>, AllocError>
        ensures { IfOk result (λ locks. locks ≡ nothing V room) }
    {
        let waiting = Vec::with_capacity(alloc, room as usize)?;
        let spare = blocks(alloc, room)?;
        Ok(HashLocks {
            room,
            held: Vec::with_capacity(alloc, room as usize)?,
            waiting,
            spare,
        })
    }

    /// Arrives with a name: as agent exactly where no lock of the name is held, alone exactly where one is held and its
    /// agent's bytes are others; else it waits.
    pub fn arrive(&mut self, name: &Name, vio: V) -> Role<V>
        requires { HasRoom self.old }
        ensures role { Arrives V.bytes_of self.old self.new name.now vio result }

        // At most one more is kept.
        ensures grows { length self.new.held + length self.new.waiting
            ≤ length self.old.held + length self.old.waiting + 1 }
        ensures room { self.new.room ≡ self.old.room }
    {
        match has_lock(&self.held, name, vio.block()) {
            Some(true) => {
                self.waiting.push_reserved(Waiter { name: *name, vio });
                Role::Waits
            }
            Some(false) => Role::Alone(vio),
            None => {
                hold(&mut self.held, &mut self.spare, name, vio.block());
                Role::Agent(vio)
            }
        }
    }

    /// The agent's block is settled. It gives the next that waits for the name, which shares that block; `None` exactly
    /// where nobody waits, and then nothing changes.
    pub fn settle(&mut self, name: &Name) -> Option<V>
        ensures some { IfSome result (λ vio.
            Leaves V.bytes_of self.old self.new (record { name = name.now; vio = vio })) }
        ensures none { IfNone result
            ((first_for name.now self.old.waiting ≡ None) × (self.new ≡ self.old)) }
    {
        let first = first_for(&self.waiting, name)?;
        let Waiter { name: _, vio } = self.waiting.remove(first);
        Some(vio)
    }

    // Whatever the names: at a stop no agent comes back, and its lock stays.
    /// Whoever has waited longest, for any name, waits no longer; `None` exactly where nobody waits. Once the agents don't
    /// come back, this is how those who wait for them are ended.
    pub fn next_waiter(&mut self) -> Option<V>
        ensures some { IfSome result (λ vio. (name : List ℕ) × (self.old ≡ record self.new {
          waiting = record { name = name; vio = vio } ∷ self.new.waiting;
        })) }
        ensures none { IfNone result ((self.old.waiting ≡ []) × (self.new ≡ self.old)) }
    {
        if self.waiting.is_empty() {
            return None;
        }
        let Waiter { name: _, vio } = self.waiting.remove(0);
        Some(vio)
    }

    /// The agent lets the lock go. It gives the next that waits for the name, which is its agent now; `None` exactly where
    /// nobody waits, and the lock is gone.
    pub fn roll_over(&mut self, name: &Name) -> Option<V>
        ensures some { IfSome result (λ vio.
            Leaves V.bytes_of self.old self.new (record { name = name.now; vio = vio })) }
        ensures none { IfNone result (Frees self.old self.new name.now) }
    {
        match self.settle(name) {
            Some(vio) => Some(vio),
            None => {
                self.free(name);
                None
            }
        }
    }

    // The lock of a name, for which nobody waits, is gone.
    fn free(&mut self, name: &Name)
        requires { first_for name.now self.old.waiting ≡ None }
        ensures { Frees self.old self.new name.now }
    {
        if let Some(place) = lock_at(&self.held, name) {
            let lock = self.held.remove(place);
            self.spare.push_reserved(lock.into_room());
        }
    }
}

// So many blocks.
fn blocks(alloc: Global, count: u32) -> Result<Vec<Box<Block>>, AllocError>
    ensures len { IfOk result (λ blocks. vec_len blocks ≡ count) }
    ensures capacity { IfOk result (λ blocks. count ≤ vec_capacity blocks) }
{
    let mut blocks = Vec::with_capacity(alloc, count as usize)?;
    for _made in 0..count {
        blocks.push_reserved(Box::new(alloc, Block::zero())?);
    }
    Ok(blocks)
}

// Whether the lock of a name has these bytes; `None` where no lock of the name is held.
fn has_lock(held: &[Held], name: &Name, block: &Block) -> Option<bool>
    ensures { result
        ≡ option_map (λ lock. bytes_eq lock.bytes block.now) (lock_of name.now held.now) }
{
    let lock = held.iter().find(|lock| lock.is_of(name))?;
    Some(lock.has(block))
}

// The index of the lock of a name.
fn lock_at(held: &[Held], name: &Name) -> Option<usize>
    ensures { result ≡ position (λ lock. bytes_eq lock.name name.now) held.now }
{
    held.iter().position(|lock| lock.is_of(name))
}

// The index of the first that waits for a name.
fn first_for<V>(waiting: &[Waiter<V>], name: &Name) -> Option<usize>
    ensures { result ≡ position (λ waiter. bytes_eq waiter.name name.now) waiting.now }
{
    waiting.iter().position(|waiter| waiter.name == *name)
}

// Holds the lock of a name, with one of the spare blocks.
fn hold(held: &mut Vec<Held>, spare: &mut Vec<Box<Block>>, name: &Name, block: &Block)
    requires block { 0 < vec_len spare.old }
    requires room { vec_len held.old < vec_capacity held.old }
    ensures items { held.new.items
        ≡ held.old.items ++ record { name = name.now; bytes = block.now } ∷ [] }
    ensures len { vec_len held.new ≡ vec_len held.old + 1 }
    ensures capacity { vec_capacity held.new ≡ vec_capacity held.old }
    ensures spare { vec_len spare.new + 1 ≡ vec_len spare.old }
    ensures spare_capacity { vec_capacity spare.new ≡ vec_capacity spare.old }
{
    let Some(room) = spare.pop() else {
        unreachable!()
    };
    held.push_reserved(Held::new(*name, room, block));
}
