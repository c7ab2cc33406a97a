ghost use Rattle.std.specs.Prelude.{◌≡◌, ◌==◌, ◌↔◌, ℕ, not, false, position, IsTrue, IfOk};
ghost use Rattle.slab_tickets.specs.Tickets.{empty_desk, IsNow, IsNext, IsBelow, NoneWaits, HasRoom, Issues, Gives, IsOutAt, Withdraws, begun, is_served};

use crate::{Waiting, Withdrawn};
use blk_base::Writer;
use slab_counts::{Claim, Receipt, Ticket};
use std::alloc::{AllocError, Global};
use std::marker::Model;

/// The tickets of a zone that are out, and the zone's steps.
#[derive(Drop)]
pub struct Tickets {
    zone: u32,
    room: u32,
    // The number of the next ticket.
    issued: u64,
    // The step under way, and the last one at whose end the zone had a free block.
    step: Option<u64>,
    last_free: Option<u64>,
    // The tickets that are out, the oldest first.
    out: Vec<Waiting>,
}

impl Model for Tickets {
    ghost use Rattle.std.specs.Prelude.{◌≤◌, vec_capacity, vec_len};
    ghost use Rattle.slab_tickets.specs.Tickets.{Desk};

    ghost Value = { Desk };

    ghost view = { λ t. record {
      zone = t.zone;
      room = t.room;
      issued = t.issued;
      step = t.step;
      last_free = t.last_free;
      out = t.out.items;
    } };

    ghost invariant = { λ t. record {
      capacity : t.room ≤ vec_capacity t.out;
      filled : vec_len t.out ≤ t.room;
    } };
}

impl Tickets {
    /// No ticket of this zone is out, and there is room for so many.
    pub fn new(alloc: Global, zone: u32, room: u32) -> Result<Tickets, AllocError>
        ensures { IfOk result (λ tickets. tickets ≡ empty_desk zone room) }
    {
        Ok(Tickets {
            zone,
            room,
            issued: 0,
            step: None,
            last_free: None,
            out: Vec::with_capacity(alloc, room as usize)?,
        })
    }

    /// A step of the zone begins, with a number above that of the one before, which ended with a free block or without one.
    pub fn begin_step(&mut self, step: u64, is_free: bool)
        requires { IsBelow self.old.step step }
        ensures { self.new ≡ begun is_free step self.old }
    {
        if is_free {
            self.last_free = self.step;
        }
        self.step = Some(step);
    }

    /// The number of the step under way; `None` exactly where no step was begun.
    pub fn step(&self) -> Option<u64>
        ensures { result ≡ self.now.step }
    {
        self.step
    }

    /// Whether there is room for one more ticket, and a number.
    pub fn has_room(&self) -> bool
        ensures { IsTrue result ↔ HasRoom self.now }
    {
        self.out.len() < self.room as usize && self.issued < u64::MAX
    }

    /// Whether the ticket is out.
    pub fn is_out(&self, ticket: &Ticket) -> bool
        ensures yes { IsTrue result → (place : ℕ) × IsOutAt self.now ticket.now place }
        ensures no { (result ≡ false) → ¬ ((place : ℕ) × IsOutAt self.now ticket.now place) }
    {
        index_of(&self.out, ticket.number).is_some()
    }

    /// Gives a ticket to a request that finds no free block. A step was begun.
    pub fn issue(&mut self, writer: Writer) -> Ticket
        requires room { HasRoom self.old }
        requires begun { (step : ℕ) × IsNow self.old step }
        ensures { Issues self.old self.new writer result }
    {
        let asked = self.step.unwrap_or(0);
        let number = self.issued;
        self.issued += 1;
        self.out.push_reserved(Waiting {
            number,
            asked,
            writer,
            block: None,
        });
        Ticket {
            zone: self.zone,
            number,
            asked,
        }
    }

    /// Whether some ticket has no block yet.
    pub fn waits(&self) -> bool
        ensures yes { IsTrue result → (place : ℕ) × IsNext self.now place }
        ensures no { (result ≡ false) → NoneWaits self.now }
    {
        first_unserved(&self.out).is_some()
    }

    /// A block that became free goes to the oldest ticket without one; there is such a ticket.
    pub fn give(&mut self, claim: Claim)
        requires { (place : ℕ) × IsNext self.old place }
        ensures { Gives self.old self.new claim }
    {
        if let Some(place) = first_unserved(&self.out) {
            self.out[place].block = Some(claim);
        }
    }

    /// Withdraws a ticket that is out: it is worth the block that went to it, and a receipt exactly where none did.
    pub fn withdraw(&mut self, ticket: Ticket) -> Withdrawn
        requires out { (place : ℕ) × IsOutAt self.old ticket place }
        requires begun { (step : ℕ) × IsNow self.old step }
        ensures { Withdraws self.old self.new ticket result }
    {
        let withdrawn = self.step.unwrap_or(0);
        let place = index_of(&self.out, ticket.number).unwrap_or(0);
        let waiting = self.out.remove(place);
        match waiting.block {
            Some(claim) => Withdrawn::Block(claim),
            None => Withdrawn::Nothing(Receipt {
                zone: self.zone,
                asked: waiting.asked,
                withdrawn,
            }),
        }
    }
}

// The place of the oldest ticket that has no block.
fn first_unserved(out: &[Waiting]) -> Option<usize>
    ensures { result ≡ position (λ waiting. not (is_served waiting)) out.now }
{
    out.iter().position(|waiting| waiting.block.is_none())
}

// The place of the ticket with this number.
fn index_of(out: &[Waiting], number: u64) -> Option<usize>
    ensures { result ≡ position (λ waiting. waiting.number == number) out.now }
{
    out.iter().position(|waiting| waiting.number == number)
}
