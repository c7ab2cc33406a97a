ghost use Rattle.std.specs.Prelude.{◌↔◌, IsTrue, ◌≡◌, ◌+◌, ◌-◌, ◌^◌, ◌<◌, ◌≤◌, [], ◌∷◌, ◌++◌, IfOk, IfSome, IfNone, None, true, false, length, position, reverse};
ghost use Rattle.logical_locks.specs.Holders.{HasRoom};
ghost use Rattle.core_model.specs.LogicalLimits.{IsLogicalWithin};
ghost use Rattle.core_model.specs.LogicalRules as rules;
ghost use Rattle.core_model.specs.PageTrees.{HasPath, MayLink, but_page, is_listed, leaf_at, missing_at};
ghost use Rattle.core_model.specs.SessionLimits.{most_entries, most_items, most_requests};
ghost use Rattle.core_model.specs.Waiters.{AreOwn, IsFree, vios};
ghost use Rattle.data_vio.specs.Vios.{turned};
ghost use Rattle.vdo_model.specs.Scripts.{same_writer};
ghost use Rattle.data_vio.specs.declared.items.Phase.TheVariants as phase;

use crate::{MapTree, PageList, Slots};
use blk_base::{Lba, PageId, Pbn, Writer};
use data_vio::{
    BoxedVio, ENTRY_ROOM, Fifo, LANE_ROOM, LOCK_ROOM, MAKING_ROOM, Phase, REQUEST_ROOM, Register,
    Remapping,
};
use logical_locks::Locks;
use std::alloc::{AllocError, Global};
use std::marker::Model;
use vdo_model::Placed;

/// The addresses of some trees: their places, locks and slots.
#[derive(Drop)]
pub struct LogicalZone {
    // Its number among the logical zones.
    zone: u8,
    // The stop notice has come.
    notified: bool,
    places: Register<Placed, REQUEST_ROOM>,
    locks: Locks<BoxedVio>,
    // The addresses whose locks are never released. The parts hold none of these: that no request gets one is seen here.
    retired: Register<Lba, REQUEST_ROOM>,
    // The pages of its trees that are no leaves.
    tree: MapTree,
    // The pages that are being made, each by one request, and who waits for one of these.
    making: PageList<MAKING_ROOM>,
    lacking: Fifo<BoxedVio, LANE_ROOM>,
    // The pages whose entry was handed in and that are never linked.
    unlinkable: PageList<ENTRY_ROOM>,
    // Who waits for the report of its decrement, and the entries of which that came before their request.
    settling: Vec<BoxedVio>,
    reported: Vec<Remapping>,
    slots: Slots,
}

impl Model for LogicalZone {
    ghost use Rattle.std.specs.Prelude.{◌≡◌, ◌+◌, ◌*◌, ◌≤◌, reverse, vec_capacity};
    ghost use Rattle.core_model.specs.LogicalData.{LogicalZone as LogicalData};
    ghost use Rattle.core_model.specs.PortsData.{lane_room};
    ghost use Rattle.core_model.specs.SessionLimits.{most_items};
    ghost use Rattle.core_model.specs.Waiters.{AreFree, AreOwn, vios};

    ghost Value = { LogicalData };

    ghost view = { λ l. record {
      zone = l.zone;
      notified = l.notified;
      next = l.locks.next;
      places = l.places;
      held = reverse l.locks.held;
      waiting = vios l.locks.waiting;
      retired = l.retired;
      tree = l.tree;
      making = l.making;
      lacking = l.lacking;
      unlinkable = l.unlinkable;
      settling = l.settling.items;
      reported = l.reported.items;
      slots = l.slots;
    } };

    ghost invariant = { λ l. record {
      room : l.locks.room ≡ 2 * most_items + 1;
      own : AreOwn l.locks.waiting;
      free : AreFree (reverse l.locks.held) (vios l.locks.waiting) l.retired;
      settling : lane_room ≤ vec_capacity l.settling;
      reported : lane_room ≤ vec_capacity l.reported;
    } };
}

impl LogicalZone {
    // Long to prove: each way out while what was taken is alive has searches of its own.
    /// A logical zone at the start of a session, by its number among the logical ones: it drew nothing and has set nothing,
    /// and has these trees. All its room is taken here.
    pub fn new(alloc: Global, zone: u8, tree: MapTree) -> Result<LogicalZone, AllocError>
        ensures { IfOk result (λ logical. logical ≡ record {
          zone = zone;
          notified = false;
          next = 0;
          places = [];
          held = [];
          waiting = [];
          retired = [];
          tree = tree;
          making = [];
          lacking = [];
          unlinkable = [];
          settling = [];
          reported = [];
          slots = [];
        }) }
    {
        let places = Register::new(alloc)?;
        let locks = Locks::new(alloc, LOCK_ROOM)?;
        let retired = Register::new(alloc)?;
        let making = PageList::new(alloc)?;
        let lacking = Fifo::new(alloc)?;
        let unlinkable = PageList::new(alloc)?;
        let settling = Vec::with_capacity(alloc, LANE_ROOM as usize)?;
        let reported = Vec::with_capacity(alloc, LANE_ROOM as usize)?;
        let slots = Slots::new(alloc)?;
        Ok(LogicalZone {
            zone,
            notified: false,
            places,
            locks,
            retired,
            tree,
            making,
            lacking,
            unlinkable,
            settling,
            reported,
            slots,
        })
    }

    /// Its number among the logical zones.
    pub fn zone(&self) -> u8
        ensures { result ≡ self.now.zone }
    {
        self.zone
    }

    /// The places that it drew, the oldest first.
    pub fn places(&self) -> &[Placed]
        ensures { self.now.places ≡ reverse result.now }
    {
        self.places.as_slice()
    }

    /// The last write that set the slot of an address in this session.
    pub fn latest(&self, at: Lba) -> Option<Remapping>
        ensures { result ≡ rules.latest_at self.now at.0 }
    {
        self.slots.latest(at)
    }

    /// The highest page of the path of an address that isn't there; `None` where each is.
    pub fn missing(&self, at: Lba) -> Option<PageId>
        requires { HasPath self.now.tree at.0 }
        ensures { result ≡ missing_at self.now.tree at.0 }
    {
        self.tree.missing(at)
    }

    /// The block of the leaf of an address; `None` where that isn't there.
    pub fn leaf(&self, at: Lba) -> Option<Pbn>
        requires { HasPath self.now.tree at.0 }
        ensures { result ≡ leaf_at self.now.tree at.0 }
    {
        self.tree.leaf(at)
    }

    /// Whether a page is being made.
    pub fn is_being_made(&self, page: PageId) -> bool
        ensures { result ≡ is_listed page self.now.making }
    {
        self.making.has(page)
    }

    /// Whether a page is never linked.
    pub fn is_unlinkable(&self, page: PageId) -> bool
        ensures { result ≡ is_listed page self.now.unlinkable }
    {
        self.unlinkable.has(page)
    }

    /// A page is being made from now on.
    pub fn make(&mut self, page: PageId)
        requires { length self.old.making ≤ most_items }
        ensures { self.new ≡ record self.old { making = self.old.making ++ page ∷ [] } }
    {
        self.making.push(page);
    }

    /// A request waits for a page that is being made.
    pub fn lack(&mut self, vio: BoxedVio)
        requires { length self.old.lacking < LANE_ROOM }
        ensures { self.new ≡ record self.old { lacking = self.old.lacking ++ vio ∷ [] } }
    {
        self.lacking.push(vio);
    }

    /// The first that waits for a page comes out.
    pub fn next_lacking(&mut self) -> Option<BoxedVio>
        ensures some { IfSome result (λ vio. (self.old.lacking ≡ vio ∷ self.new.lacking)
            × (self.new ≡ record self.old { lacking = self.new.lacking })) }
        ensures none { IfNone result ((self.old.lacking ≡ []) × (self.new ≡ self.old)) }
    {
        self.lacking.pop()
    }

    /// A page is made: it is linked.
    pub fn link(&mut self, page: PageId, at: Pbn)
        requires { MayLink self.old.tree page at }
        ensures { rules.IsLinked page at self.old self.new }
    {
        self.tree.link(page, at);
        self.making.strike(page);
    }

    /// A page isn't made any more, as yet.
    pub fn give_up(&mut self, page: PageId)
        ensures { self.new ≡ record self.old { making = but_page page self.old.making } }
    {
        self.making.strike(page);
    }

    /// A page whose entry was handed in is never linked.
    pub fn drop_page(&mut self, page: PageId)
        requires { length self.old.unlinkable ≤ most_entries }
        ensures { self.new
            ≡ record self.old {
              making = but_page page self.old.making;
              unlinkable = self.old.unlinkable ++ page ∷ [];
            } }
    {
        self.making.strike(page);
        self.unlinkable.push(page);
    }

    /// A request waits for the report of its decrement.
    pub fn await_report(&mut self, vio: BoxedVio)
        requires { length self.old.settling < LANE_ROOM }
        ensures { self.new ≡ record self.old { settling = self.old.settling ++ vio ∷ [] } }
    {
        self.settling.push_reserved(vio);
    }

    /// The request that waits for the report of its decrement comes out.
    pub fn take_settling(&mut self, request: Writer) -> Option<BoxedVio>
        ensures vio { result ≡ rules.settling_of request self.old.settling }
        ensures zone { self.new
            ≡ record self.old { settling = rules.without_settling request self.old.settling } }
    {
        let place = settling_at(&self.settling, request)?;
        Some(self.settling.remove(place))
    }

    /// The report of a decrement came before its request.
    pub fn keep_report(&mut self, entry: Remapping)
        requires { length self.old.reported < LANE_ROOM }
        ensures { self.new ≡ record self.old { reported = self.old.reported ++ entry ∷ [] } }
    {
        self.reported.push_reserved(entry);
    }

    /// Whether the report of the decrement of a request came before it; it is kept no longer.
    pub fn take_report(&mut self, request: Writer) -> bool
        ensures told { result ≡ rules.is_reported request self.old.reported }
        ensures zone { self.new
            ≡ record self.old { reported = rules.without_report request self.old.reported } }
    {
        match reported_at(&self.reported, request) {
            Some(place) => {
                let _ = self.reported.remove(place);
                true
            }
            None => false,
        }
    }

    /// Whether the lock of an address is never released.
    pub fn is_retired(&self, at: Lba) -> bool
        ensures { result ≡ rules.is_among at.0 self.now.retired }
    {
        is_among(at, self.retired.as_slice())
    }

    /// The stop notice has come.
    pub fn notify(&mut self)
        ensures { self.new ≡ record self.old { notified = true } }
    {
        self.notified = true;
    }

    /// A write sets the slot of its address.
    pub fn set(&mut self, write: Remapping)
        requires { length self.old.slots ≤ most_requests }
        ensures { self.new ≡ record self.old { slots = write ∷ self.old.slots } }
    {
        self.slots.push(write);
    }

    // It asks for the lock, which is free by the zone's invariant, and lets it go at once.
    /// A request draws its place, and takes no lock: that of its address is never released.
    pub fn draw(&mut self, vio: BoxedVio) -> BoxedVio
        requires within { IsLogicalWithin (2 ^ 64 - 2) self.old }
        requires retired { rules.is_among vio.at.0 self.old.retired ≡ true }
        ensures zone { self.new ≡ rules.drawn_by self.old vio }
        ensures vio { result ≡ rules.placed self.old vio }
    {
        let at = vio.get().at;
        let place = self.locks.next();
        self.places.push(placed(self.zone, &vio, place));
        draw_free(&mut self.locks, at, vio.draw(place))
    }

    /// A request draws its place, and asks for the lock of its address. It comes back exactly where nobody held it: now it
    /// has it. Else it waits, behind all others.
    pub fn ask(&mut self, vio: BoxedVio) -> Option<BoxedVio>
        requires within { IsLogicalWithin (2 ^ 64 - 2) self.old }
        requires alive { rules.is_among vio.at.0 self.old.retired ≡ false }
        ensures taken { IfSome result (λ back.
            (back ≡ turned phase.Wait (rules.placed self.old vio))
            × (rules.is_held vio.at.0 self.old.held ≡ false)
            ×
            (self.new
            ≡ record
            (rules.drawn_by self.old vio)
            { held = rules.lock_of (rules.placed self.old vio) ∷ self.old.held })) }
        ensures waits { IfNone result ((rules.is_held vio.at.0 self.old.held ≡ true)
            ×
            (self.new
            ≡ record
            (rules.drawn_by self.old vio)
            { waiting = self.old.waiting ++ turned phase.Wait (rules.placed self.old vio) ∷ [] })) }
    {
        let at = vio.get().at;
        let place = self.locks.next();
        self.places.push(placed(self.zone, &vio, place));
        self.locks.ask(at, vio.draw(place).turn(Phase::Wait)).1
    }

    /// The holder of an address lets its lock go. It goes to the first that waits for it, which comes out; where nobody
    /// waits, it is free.
    pub fn release(&mut self, at: Lba) -> Option<BoxedVio>
        ensures next { result ≡ rules.first_for at.0 self.old.waiting }
        ensures zone { self.new ≡ rules.released at.0 self.old }
    {
        self.locks.release(at)
    }

    /// The lock of an address that nobody holds and nobody waits for is never taken any more.
    pub fn retire(&mut self, at: Lba)
        requires room { length self.old.retired ≤ most_requests }
        requires free { IsFree self.old.held self.old.waiting at.0 }
        ensures { self.new ≡ record self.old { retired = at ∷ self.old.retired } }
    {
        self.retired.push(at);
    }
}

// The place that a request draws.
fn placed(zone: u8, vio: &BoxedVio, place: u64) -> Placed
    ensures { result ≡ record { request = vio.now.request; zone = zone; place = place } }
{
    Placed {
        request: vio.get().request,
        zone: u32::from(zone),
        place,
    }
}

// A place is drawn for an address that nobody holds and nobody waits for: its lock is taken, and let go again.
fn draw_free(locks: &mut Locks<BoxedVio>, at: Lba, vio: BoxedVio) -> BoxedVio
    requires room { HasRoom locks.old }
    requires own { AreOwn locks.old.waiting }
    requires free { IsFree (reverse locks.old.held) (vios locks.old.waiting) at.0 }
    ensures locks { locks.new ≡ record locks.old { next = locks.old.next + 1 } }
    ensures vio { result ≡ vio }
{
    match locks.ask(at, vio).1 {
        Some(back) => {
            match locks.release(at) {
                Some(_) => unreachable!(),
                None => (),
            }
            back
        }
        None => unreachable!(),
    }
}

// Whether an address is among these, the oldest of which stands first.
fn is_among(at: Lba, retired: &[Lba]) -> bool
    ensures { result ≡ rules.is_among at.0 (reverse retired.now) }
{
    let mut found = false;
    for other in retired {
        found = *other == at || found;
    }
    found
}

// Where the request stands among those that wait for a report.
fn settling_at(settling: &[BoxedVio], request: Writer) -> Option<usize>
    ensures { result ≡ position (λ v. same_writer v.request request) settling.now }
{
    settling.iter().position(|vio| vio.get().request == request)
}

// Where the report of its decrement stands among those that came.
fn reported_at(reported: &[Remapping], request: Writer) -> Option<usize>
    ensures { result ≡ position (λ e. same_writer e.request request) reported.now }
{
    reported.iter().position(|entry| entry.request == request)
}
