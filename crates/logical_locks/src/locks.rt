ghost use Rattle.std.specs.Prelude.{◌≡◌, ◌≤◌, ◌==◌, ℕ, length, position, vec_len, vec_capacity, IfOk, IfSome, IfNone};
ghost use Rattle.logical_locks.specs.Holders.{nobody, HasRoom, Takes, Waits, HoldsNext, Frees, is_held, without};

use crate::{Lock, Waiter};
use blk_base::Lba;
use std::alloc::{AllocError, Global};
use std::marker::Model;

/// The locks on the addresses of one zone. An address has one holder at most, and those who wait for it get it first
/// come, first served.
///
/// A lock knows the place of its holder, and not the holder: each value is either with its owner or kept here as a waiter.
#[derive(Drop)]
pub struct Locks<V> {
    room: u32,
    next: u64,
    held: Vec<Lock>,
    // Whoever waits, for any address, in the order of their places.
    waiting: Vec<Waiter<V>>,
}

impl<V> Model for Locks<V> {
    ghost use Rattle.std.specs.Prelude.{◌+◌, ◌≤◌, vec_capacity, vec_len};
    ghost use Rattle.logical_locks.specs.Holders.{Holders};

    ghost Value = { Holders V };

    ghost view = { λ l. record {
      room = l.room;
      next = l.next;
      held = l.held.items;
      waiting = l.waiting.items;
    } };

    ghost invariant = { λ l. record {
      held_room : l.room ≤ vec_capacity l.held;
      waiting_room : l.room ≤ vec_capacity l.waiting;
      filled : vec_len l.held + vec_len l.waiting ≤ l.room;
    } };
}

impl<V: Drop> Locks<V> {
    /// Locks for at most `room` values that hold or wait.
    pub fn new(alloc: Global, room: u32) -> Result<Locks<V>, AllocError>
        ensures { IfOk result (λ locks. locks ≡ nobody V room) }
    {
        Ok(Locks {
            room,
            next: 0,
            held: Vec::with_capacity(alloc, room as usize)?,
            waiting: Vec::with_capacity(alloc, room as usize)?,
        })
    }

    /// The place that is drawn next.
    pub fn next(&self) -> u64
        ensures { result ≡ self.now.next }
    {
        self.next
    }

    /// How many addresses are held.
    pub fn held(&self) -> usize
        ensures { result ≡ length self.now.held }
    {
        self.held.len()
    }

    /// How many values wait, for any address.
    pub fn waiting(&self) -> usize
        ensures { result ≡ length self.now.waiting }
    {
        self.waiting.len()
    }

    /// Asks for an address. It gives the place, which rises with each call, and the value back exactly where the address
    /// wasn't held: then it holds it. Else the value waits.
    pub fn ask(&mut self, at: Lba, vio: V) -> (u64, Option<V>)
        requires { HasRoom self.old }
        ensures place { result.0 ≡ self.old.next }
        ensures taken { IfSome result.1 (λ back.
            (back ≡ vio) × Takes self.old self.new (record { at = at; place = result.0 })) }
        ensures waits { IfNone result.1
            (Waits self.old self.new (record { at = at; place = result.0; vio = vio })) }
    {
        let place = self.next;
        self.next += 1;
        if is_held(&self.held, at) {
            self.waiting.push_reserved(Waiter { at, place, vio });
            (place, None)
        } else {
            self.held.push_reserved(Lock { at, place });
            (place, Some(vio))
        }
    }

    /// The holder of an address lets it go. It gives the next that waits for it, who now holds it with its own place;
    /// `None` exactly where nobody waits, and the address is free.
    pub fn release(&mut self, at: Lba) -> Option<V>
        ensures next { IfSome result (λ vio.
            (place : ℕ)
            × HoldsNext self.old self.new (record { at = at; place = place; vio = vio })) }
        ensures none { IfNone result (Frees self.old self.new at) }
    {
        leave_out(&mut self.held, at);
        let next = first_for(&self.waiting, at)?;
        let Waiter { at, place, vio } = self.waiting.remove(next);
        self.held.push_reserved(Lock { at, place });
        Some(vio)
    }
}

// Whether the address is held.
fn is_held(held: &[Lock], at: Lba) -> bool
    ensures { result ≡ is_held at held.now }
{
    held.iter().any(|lock| lock.at == at)
}

// Leaves out the lock of the address.
fn leave_out(held: &mut Vec<Lock>, at: Lba)
    ensures items { held.new.items ≡ without at held.old.items }
    ensures len { vec_len held.new ≤ vec_len held.old }
    ensures capacity { vec_capacity held.new ≡ vec_capacity held.old }
{
    held.retain(|lock| lock.at != at);
}

// The index of the first that waits for the address.
fn first_for<V>(waiting: &[Waiter<V>], at: Lba) -> Option<usize>
    ensures { result ≡ position (λ waiter. waiter.at.0 == at.0) waiting.now }
{
    waiting.iter().position(|waiter| waiter.at == at)
}
