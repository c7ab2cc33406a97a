ghost use Rattle.std.specs.Prelude.{◌≡◌, ◌<◌, ◌∷◌, [], length, slice_set, slice_index_or, IfOk, IfSome, IfNone, IsTrue, ◌↔◌};
ghost use Rattle.zone_queues.specs.Queues.{empty, HasRoom, HasRoomFor, HasRoomTo, with_more, inbox_at, outbox_at, set_outbox, opening, moved, Takes, network_of};

use crate::{Lane, Ports};
use std::alloc::{AllocError, Global};
use std::marker::Model;

/// The inboxes and outboxes of all zones. Zones go by their numbers, from 0.
#[derive(Drop)]
pub struct Lanes<V> {
    ports: Vec<Ports<V>>,
    alloc: Global,
}

impl<V> Model for Lanes<V> {
    ghost use Rattle.zone_queues.specs.Queues.{Network, network_of, IsFit};

    ghost Value = { Network V };

    ghost view = { λ l. network_of l.ports.items };

    ghost invariant = { λ l. IsFit (network_of l.ports.items) };
}

impl<V: Drop> Lanes<V> {
    /// Empty lists for as many zones as the list has numbers: each is the room of the lists to that zone.
    pub fn new(alloc: Global, room: &[u32]) -> Result<Lanes<V>, AllocError>
        ensures { IfOk result (λ lanes. lanes ≡ opening V room.now) }
    {
        let mut ports = Vec::new(alloc);
        for own in room {
            ports.push(Ports::new(alloc, *own, room)?)?;
        }
        Ok(Lanes { ports, alloc })
    }

    // It asks for room at the receiver too, in the inbox and all lanes to it: so a whole lane is moved with no
    // condition.
    /// Adds an item to the outbox of a zone to a zone. There is room for it with all that is on the way to the receiver.
    pub fn post(&mut self, from: u32, to: u32, item: V)
        requires sender { from < length self.old.inboxes }
        requires receiver { to < length self.old.inboxes }
        requires room { HasRoomTo self.old to }
        ensures { self.new ≡ record self.old {
          outboxes = set_outbox self.old.outboxes from to
              (with_more (outbox_at self.old from to) (item ∷ []));
        } }
    {
        post_at(&mut self.ports, from, to, item);
    }

    /// Moves all items of an outbox to the receiver's inbox. It is false exactly where the outbox is empty; then nothing
    /// changes.
    pub fn move_all(&mut self, from: u32, to: u32) -> bool
        requires sender { from < length self.old.inboxes }
        requires receiver { to < length self.old.inboxes }
        ensures some { IsTrue result ↔ (0 < length (outbox_at self.old from to).items) }
        ensures moved { self.new ≡ moved self.old from to }
    {
        let none = Lane::without_room(self.alloc);
        let mut batch = exchange_at(&mut self.ports, from, to, none);
        let some = !batch.is_empty();
        receive_at(&mut self.ports, to, &mut batch);
        let _none = exchange_at(&mut self.ports, from, to, batch);
        some
    }

    /// Takes the oldest item of a zone's inbox; `None` exactly where there is none.
    pub fn take(&mut self, zone: u32) -> Option<V>
        requires { zone < length self.old.inboxes }
        ensures some { IfSome result (Takes self.old self.new zone) }
        ensures none { IfNone result
            (((inbox_at self.old zone).items ≡ []) × (self.new ≡ self.old)) }
    {
        take_at(&mut self.ports, zone)
    }
}

// Adds an item to the outbox of a zone to a zone.
#[tactic(auto, using(crate::proofs::NetworkLaws::rows_network))]
fn post_at<V: Drop>(ports: &mut Vec<Ports<V>>, from: u32, to: u32, item: V)
    requires sender { from < length (network_of ports.old.items).outboxes }
    requires receiver { to < length (slice_index_or (network_of ports.old.items).outboxes from []) }
    requires room { HasRoom (outbox_at (network_of ports.old.items) from to) }
    ensures { network_of ports.new.items ≡ record (network_of ports.old.items) {
      outboxes = set_outbox (network_of ports.old.items).outboxes from to
          (with_more (outbox_at (network_of ports.old.items) from to) (item ∷ []));
    } }
{
    ports[from as usize].post(to, item);
}

// Takes the oldest item of a zone's inbox.
#[tactic(auto, using(crate::proofs::NetworkLaws::zones_network))]
fn take_at<V: Drop>(ports: &mut Vec<Ports<V>>, zone: u32) -> Option<V>
    requires { zone < length (network_of ports.old.items).inboxes }
    ensures some { IfSome result
        (Takes (network_of ports.old.items) (network_of ports.new.items) zone) }
    ensures none { IfNone result (((inbox_at (network_of ports.old.items) zone).items ≡ [])
        × (network_of ports.new.items ≡ network_of ports.old.items)) }
{
    ports[zone as usize].take()
}

// Hands out the outbox from a zone to a zone, and puts this list in its place.
#[tactic(auto, using(crate::proofs::NetworkLaws::rows_network))]
fn exchange_at<V: Drop>(ports: &mut Vec<Ports<V>>, from: u32, to: u32, lane: Lane<V>) -> Lane<V>
    requires sender { from < length (network_of ports.old.items).outboxes }
    requires receiver { to < length (slice_index_or (network_of ports.old.items).outboxes from []) }
    ensures out { result ≡ outbox_at (network_of ports.old.items) from to }
    ensures kept { network_of ports.new.items ≡ record (network_of ports.old.items) {
      outboxes = set_outbox (network_of ports.old.items).outboxes from to lane;
    } }
{
    ports[from as usize].exchange(to, lane)
}

// Adds all items of a batch to a zone's inbox. The batch is empty then.
#[tactic(auto, using(crate::proofs::NetworkLaws::zones_network))]
fn receive_at<V: Drop>(ports: &mut Vec<Ports<V>>, to: u32, batch: &mut Lane<V>)
    requires receiver { to < length (network_of ports.old.items).inboxes }
    requires room { HasRoomFor (inbox_at (network_of ports.old.items) to) batch.old.items }
    ensures added { network_of ports.new.items ≡ record (network_of ports.old.items) {
      inboxes = slice_set (network_of ports.old.items).inboxes to
          (with_more (inbox_at (network_of ports.old.items) to) batch.old.items);
    } }
    ensures emptied { batch.new ≡ empty V batch.old.room }
{
    ports[to as usize].receive(batch);
}
