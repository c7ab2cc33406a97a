ghost use Rattle.std.specs.Prelude.{◌≡◌, ◌+◌, ◌<◌, ◌≤◌, ◌↔◌, List, [], ◌∷◌, ◌++◌, Some, IfOk, IfSome, IfNone, IsTrue, false, length, replicate, slice_get, slice_index_or, slice_set};
ghost use Rattle.std.specs.List.{AllByRecursion};
ghost use Rattle.data_vio.specs.declared.items.Item.{Item};
ghost use Rattle.core_model.specs.SessionLimits.{IsShort};
ghost use Rattle.core_model.specs.PortsData.{IsSetOfPosts, items_of};
ghost use Rattle.core_model.specs.Steps.{posted};

use crate::zone_set::ZoneSet;
use data_vio::{Item, LANE_ROOM};
use std::alloc::{AllocError, Global};
use std::marker::Model;

/// The ports of a zone: its inbox, and an outbox to each zone by its number. Each is a list with room for all items that
/// are under way and for those of one step or move more, which is taken when they are made: no item is ever refused. A
/// contract sees the items, the oldest first.
#[derive(Drop)]
pub struct Ports {
    boxes: zone_queues::Ports<Item>,
    posts: ZoneSet,
}

impl Model for Ports {
    ghost use Rattle.core_model.specs.PortsData.{ArePorts, Ports as PortsData, ports_of};

    ghost Value = { PortsData };

    ghost view = { λ p. ports_of p.boxes };

    ghost invariant = { λ p. ArePorts p.boxes p.posts };
}

impl Ports {
    /// An inbox, and as many outboxes, with nothing in them. There are 32 outboxes at most.
    pub fn new(alloc: Global, count: u32) -> Result<Ports, AllocError>
        requires { count ≤ 32 }
        ensures { IfOk result (λ ports.
            ports ≡ record { inbox = []; outboxes = replicate count [] }) }
    {
        let rooms = rooms(alloc, count)?;
        let boxes = zone_queues::Ports::new(alloc, LANE_ROOM, &rooms)?;
        Ok(Ports {
            boxes,
            posts: ZoneSet::empty(),
        })
    }

    /// How many outboxes there are.
    pub fn count(&self) -> u32
        ensures { result ≡ length self.now.outboxes }
    {
        self.boxes.outboxes().len() as u32
    }

    /// Adds an item behind those of the outbox to a zone.
    pub fn post(&mut self, to: u32, item: Item)
        requires there { to < length self.old.outboxes }
        requires room { (lane : List Item) → slice_get self.old.outboxes to ≡ Some lane →
            length lane < LANE_ROOM }
        ensures { self.new ≡ record self.old { outboxes = posted to item self.old.outboxes } }
    {
        self.boxes.post(to, item);
        self.posts.put(to, true);
    }

    /// Adds an item behind those of the zone's own inbox.
    pub fn keep(&mut self, item: Item)
        requires { length self.old.inbox < LANE_ROOM }
        ensures { self.new ≡ record self.old { inbox = self.old.inbox ++ item ∷ [] } }
    {
        self.boxes.keep(item);
    }

    /// The item in front of the inbox, which leaves it; `None` exactly where there is none.
    pub fn take(&mut self) -> Option<Item>
        ensures some { IfSome result (λ item.
            self.old ≡ record self.new { inbox = item ∷ self.new.inbox }) }
        ensures none { IfNone result ((self.old.inbox ≡ []) × (self.new ≡ self.old)) }
    {
        self.boxes.take()
    }

    /// Whether an item is in the inbox.
    pub fn has_item(&self) -> bool
        ensures { IsTrue result ↔ (0 < length self.now.inbox) }
    {
        self.boxes.has_item()
    }

    /// Whether an item is in the outbox to a zone.
    pub fn has_posts(&self, to: u32) -> bool
        requires { to < length self.now.outboxes }
        ensures { (result ≡ false) ↔ (slice_get self.now.outboxes to ≡ Some []) }
    {
        self.posts.has(to)
    }

    /// The zones in whose outboxes there are items.
    pub fn posts(&self) -> ZoneSet
        ensures { IsSetOfPosts self.now.outboxes result }
    {
        self.posts
    }

    /// All items of the outbox to a zone go to the inbox in that zone's ports, behind those that are there, in their
    /// order.
    pub fn hand_over(&mut self, to: u32, receiver: &mut Ports)
        requires there { to < length self.old.outboxes }
        requires room { length receiver.old.inbox
            + length (slice_index_or self.old.outboxes to []) ≤ LANE_ROOM }
        ensures left { self.new
            ≡ record self.old { outboxes = slice_set self.old.outboxes to [] } }
        ensures added { receiver.new ≡ record receiver.old {
          inbox = receiver.old.inbox ++ slice_index_or self.old.outboxes to [];
        } }
    {
        self.boxes.hand_over(to, &mut receiver.boxes);
        self.posts.put(to, false);
    }
}

// The room of a lane for each of so many.
fn rooms(alloc: Global, count: u32) -> Result<Vec<u32>, AllocError>
    ensures { IfOk result (λ rooms. rooms.items ≡ replicate count LANE_ROOM) }
{
    let mut rooms = Vec::with_capacity(alloc, count as usize)?;
    for _ in 0..count {
        rooms.push_reserved(LANE_ROOM);
    }
    Ok(rooms)
}
