ghost use Rattle.std.specs.Prelude.{◌≡◌, ◌≢◌, ◌+◌, ◌<◌, ◌∷◌, ◌++◌, [], ℕ, List, Some, None, false, slice_index};
ghost use Rattle.flush_gate.specs.Flushes.{AreOlderDone};
ghost use Rattle.flush_gate.specs.declared.waiters.Waiting.{Waiting};
ghost use Rattle.hash_locks.specs.LockedNames.{HasRoom as HasRoomForOne, Lock, lock_of};
ghost use Rattle.hash_locks.specs.declared.role.Role.TheVariants.{Alone};
ghost use Rattle.logical_locks.specs.Holders.{HasRoom, lock_of as lock_for, without};
ghost use Rattle.logical_locks.specs.declared.waiter.Waiter.{Waiter};

use blk_base::{HasBlock, Lba, Writer};
use block_names::Name;
use flush_gate::Gate;
use hash_locks::{HashLocks, Role};
use logical_locks::Locks;
use zone_queues::Lane;

// The oldest item is taken first.
fn the_oldest_item_first<V: Drop>(lane: &mut Lane<V>) -> Option<V>
    ghost list: { (first : V) × (rest : List V) × Unit {0} }
    requires { lane.old.items ≡ list.0 ∷ list.1 }
    ensures oldest { result ≡ Some list.0 }
    ensures rest { lane.new.items ≡ list.1 }
{
    lane.take()
}

// Whoever asks draws a place, and the next one draws another.
fn each_draws_a_place_of_its_own<V: Drop>(locks: &mut Locks<V>, at: Lba, vio: V) -> (u64, Option<V>)
    requires { HasRoom locks.old }
    ensures place { result.0 ≡ locks.old.next }
    ensures next { locks.new.next ≡ locks.old.next + 1 }
{
    locks.ask(at, vio)
}

// Of those who wait for an address the first holds it next.
fn the_first_that_waits_holds_next<V: Drop>(locks: &mut Locks<V>, at: Lba) -> Option<V>
    ghost list: { (first : Waiter V) × (rest : List (Waiter V)) × Unit {0} }
    requires waiting { locks.old.waiting ≡ list.0 ∷ list.1 }
    requires at { list.0.at ≡ at }
    ensures next { result ≡ Some list.0.vio }
    ensures held { locks.new.held ≡ without at locks.old.held ++ lock_for list.0 ∷ [] }
    ensures rest { locks.new.waiting ≡ list.1 }
{
    locks.release(at)
}

// Who comes with a locked name and other bytes goes alone, and nothing changes.
fn other_bytes_go_alone<V: HasBlock + Drop>(
    locks: &mut HashLocks<V>,
    name: &Name,
    vio: V,
) -> Role<V>
    ghost lock: { Lock }
    requires room { HasRoomForOne locks.old }
    requires locked { lock_of name.now locks.old.held ≡ Some lock }
    requires other { lock.bytes ≢ V.bytes_of vio }
    ensures alone { result ≡ Alone vio }
    ensures same { locks.new ≡ locks.old }
{
    locks.arrive(name, vio)
}

// A flush waits for a write of any older generation, also of the last one before it.
fn a_flush_waits_for_each_older_write(gate: &mut Gate) -> Option<Writer>
    ghost list: { (oldest : Waiting) × (later : List Waiting) × (older : ℕ) × Unit {0} }
    requires waiting { gate.old.waiting ≡ list.0 ∷ list.1 }
    requires older { list.2 < list.0.generation }
    requires under_way { 0 < slice_index gate.old.under_way list.2 }
    ensures none { result ≡ None }
    ensures same { gate.new ≡ gate.old }
{
    gate.complete()
}

// A flush is complete once the older writes are done, whatever newer ones are under way.
fn a_flush_waits_for_no_newer_write(gate: &mut Gate) -> Option<Writer>
    ghost list: { (oldest : Waiting) × (later : List Waiting) × Unit {0} }
    requires waiting { gate.old.waiting ≡ list.0 ∷ list.1 }
    requires done { AreOlderDone gate.old list.0.generation }
    ensures oldest { result ≡ Some list.0.request }
    ensures later { gate.new.waiting ≡ list.1 }
{
    gate.complete()
}

// Not all older writes are done while one is under way, also of the generation right before.
fn no_older_write_is_passed_over(gate: &Gate, generation: u64) -> bool
    ghost older: { ℕ }
    requires older { older < generation }
    requires under_way { 0 < slice_index gate.now.under_way older }
    ensures { result ≡ false }
{
    gate.older_done(generation)
}
