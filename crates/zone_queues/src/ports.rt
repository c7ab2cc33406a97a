ghost use Rattle.std.specs.Prelude.{◌≡◌, ◌<◌, ◌∷◌, ◌++◌, [], length, map, IfOk, IfSome, IfNone, IsTrue, ◌↔◌};
ghost use Rattle.zone_queues.specs.Queues.{Boxes, empty, HasRoom, HasRoomFor, with_more, outbox_to, with_outbox};

use crate::Lane;
use std::alloc::{AllocError, Global};
use std::marker::Model;
use std::mem::replace;

/// One zone's inbox, and an outbox to each zone. All room is taken when they are made.
#[derive(Drop)]
pub struct Ports<V> {
    inbox: Lane<V>,
    outboxes: Vec<Lane<V>>,
}

impl<V> Model for Ports<V> {
    ghost use Rattle.zone_queues.specs.Queues.{Boxes};

    ghost Value = { Boxes V };

    ghost view = { λ p. record { inbox = p.inbox; outboxes = p.outboxes.items } };
}

impl<V: Drop> Ports<V> {
    /// An empty inbox with room for `inbox` items, and for each zone an empty outbox with the room that `outboxes` says.
    pub fn new(alloc: Global, inbox: u32, outboxes: &[u32]) -> Result<Ports<V>, AllocError>
        ensures { IfOk result (λ ports. ports ≡ record {
          inbox = empty V inbox;
          outboxes = map (empty V) outboxes.now;
        }) }
    {
        let inbox = Lane::new(alloc, inbox)?;
        Ok(Ports {
            inbox,
            outboxes: lanes(alloc, outboxes)?,
        })
    }

    /// The inbox.
    pub fn inbox(&self) -> &Lane<V>
        ensures { result.now ≡ self.now.inbox }
    {
        &self.inbox
    }

    /// The outboxes, by the numbers of the zones that they go to.
    pub fn outboxes(&self) -> &[Lane<V>]
        ensures { result.now ≡ self.now.outboxes }
    {
        &self.outboxes
    }

    /// Adds an item to the outbox to a zone.
    pub fn post(&mut self, to: u32, item: V)
        requires zone { to < length self.old.outboxes }
        requires room { HasRoom (outbox_to self.old to) }
        ensures { self.new
            ≡ with_outbox self.old to (with_more (outbox_to self.old to) (item ∷ [])) }
    {
        self.outboxes[to as usize].post(item);
    }

    /// Adds an item to the zone's own inbox.
    pub fn keep(&mut self, item: V)
        requires { HasRoom self.old.inbox }
        ensures { self.new ≡ record self.old { inbox = with_more self.old.inbox (item ∷ []) } }
    {
        self.inbox.post(item);
    }

    /// Takes the oldest item of the inbox; `None` exactly where there is none.
    pub fn take(&mut self) -> Option<V>
        ensures some { IfSome result (λ item. self.old ≡ record self.new {
          inbox = record self.new.inbox { items = item ∷ self.new.inbox.items };
        }) }
        ensures none { IfNone result ((self.old.inbox.items ≡ []) × (self.new ≡ self.old)) }
    {
        self.inbox.take()
    }

    /// Whether an item is in the inbox.
    pub fn has_item(&self) -> bool
        ensures { IsTrue result ↔ (0 < length self.now.inbox.items) }
    {
        !self.inbox.is_empty()
    }

    /// Whether an item is in the outbox to a zone.
    pub fn has_posts(&self, to: u32) -> bool
        requires { to < length self.now.outboxes }
        ensures { IsTrue result ↔ (0 < length (outbox_to self.now to).items) }
    {
        !self.outboxes[to as usize].is_empty()
    }

    /// Hands out the outbox to a zone with all its items, and puts this list in its place.
    pub(crate) fn exchange(&mut self, to: u32, lane: Lane<V>) -> Lane<V>
        requires { to < length self.old.outboxes }
        ensures out { result ≡ outbox_to self.old to }
        ensures kept { self.new ≡ with_outbox self.old to lane }
    {
        replace(&mut self.outboxes[to as usize], lane)
    }

    /// Adds all items of a batch to the inbox, in their order. The batch is empty then, and keeps its room.
    pub(crate) fn receive(&mut self, batch: &mut Lane<V>)
        requires { HasRoomFor self.old.inbox batch.old.items }
        ensures added { self.new
            ≡ record self.old { inbox = with_more self.old.inbox batch.old.items } }
        ensures emptied { batch.new ≡ empty V batch.old.room }
    {
        self.inbox.append(batch);
    }

    /// All items of the outbox to a zone go to the inbox in that zone's ports, behind those that are there, in their
    /// order.
    pub fn hand_over(&mut self, to: u32, receiver: &mut Ports<V>)
        requires zone { to < length self.old.outboxes }
        requires room { HasRoomFor receiver.old.inbox (outbox_to self.old to).items }
        ensures left { self.new ≡ with_outbox self.old to (empty V (outbox_to self.old to).room) }
        ensures added { receiver.new ≡ record receiver.old {
          inbox = with_more receiver.old.inbox (outbox_to self.old to).items;
        } }
    {
        receiver.inbox.append(&mut self.outboxes[to as usize]);
    }
}

// An empty list for each of these rooms.
fn lanes<V: Drop>(alloc: Global, rooms: &[u32]) -> Result<Vec<Lane<V>>, AllocError>
    ensures { IfOk result (λ lanes. lanes.items ≡ map (empty V) rooms.now) }
{
    let mut lanes = Vec::with_capacity(alloc, rooms.len())?;
    for room in rooms {
        lanes.push_reserved(Lane::new(alloc, *room)?);
    }
    Ok(lanes)
}
