ghost use Rattle.std.specs.Prelude.{List, ℕ, ◌≡◌, ◌+◌, ◌<◌, ◌≤◌, length};
ghost use Rattle.hash_locks.specs.LockedNames.{nothing};

use blk_base::{Block, HasBlock};
use block_names::Name;
use hash_locks::{HashLocks, Role, locks_stay_in_order};
use std::alloc::{AllocError, Global};
use std::test::Fail;

// A mark and a block.
#[derive(Drop)]
struct Marked {
    mark: u8,
    block: Block,
}

impl HasBlock for Marked {
    ghost bytes_of = { λ m. m.block };

    fn block(&self) -> &Block {
        &self.block
    }
}

// The role as a letter, with the mark of the value that came back.
fn told(role: Role<Box<Marked>>) -> (char, u8) {
    match role {
        Role::Agent(back) => ('a', back.mark),
        Role::Waits => ('w', 0),
        Role::Alone(back) => ('n', back.mark),
    }
}

// A block arrives with this mark and this last byte.
fn arrive(
    locks: &mut HashLocks<Box<Marked>>,
    alloc: Global,
    name: &Name,
    mark: u8,
    last: u8,
) -> Result<(char, u8), AllocError>
    requires { length locks.old.held + length locks.old.waiting < locks.old.room }
    ensures grows { length locks.new.held + length locks.new.waiting ≤ length locks.old.held + length locks.old.waiting + 1 }
    ensures room { locks.new.room ≡ locks.old.room }
{
    let mut block = Block::zero();
    block.bytes[4095] = last;
    let marked = Box::new(alloc, Marked { mark, block })?;
    Ok(told(locks.arrive(name, marked)))
}

// Blocks arrive under one name that differ in their last byte alone, and two equal ones under another name.
fn arrive_all(
    locks: &mut HashLocks<Box<Marked>>,
    alloc: Global,
    one: &Name,
    other: &Name,
) -> Result<[(char, u8); 6], AllocError>
    requires { locks.old ≡ nothing _ 6 }
{
    Ok([
        arrive(locks, alloc, one, 1, 7)?,
        arrive(locks, alloc, one, 2, 7)?,
        arrive(locks, alloc, one, 3, 8)?,
        arrive(locks, alloc, other, 4, 8)?,
        arrive(locks, alloc, one, 5, 7)?,
        arrive(locks, alloc, other, 6, 8)?,
    ])
}

// The mark of the next that shares the agent's block.
fn settle(locks: &mut HashLocks<Box<Marked>>, name: &Name) -> Option<u8> {
    Some(locks.settle(name)?.mark)
}

// The mark of the next agent.
fn roll_over(locks: &mut HashLocks<Box<Marked>>, name: &Name) -> Option<u8> {
    Some(locks.roll_over(name)?.mark)
}

// The mark of whoever has waited longest.
fn next_waiter(locks: &mut HashLocks<Box<Marked>>) -> Option<u8> {
    Some(locks.next_waiter()?.mark)
}

fn leave_all(locks: &mut HashLocks<Box<Marked>>, name: &Name) -> [Option<u8>; 7] {
    [
        settle(locks, name),
        roll_over(locks, name),
        settle(locks, name),
        roll_over(locks, name),
        roll_over(locks, name),
        next_waiter(locks),
        next_waiter(locks),
    ]
}

#[test]
fn agents_waiters_and_others(rt: HostRuntime) -> Result<(), Fail> {
    let one = Name::new([1; 16]);
    let other = Name::new([2; 16]);
    let mut locks = HashLocks::new(rt.alloc(), 6)?;
    let arrived = arrive_all(&mut locks, rt.alloc(), &one, &other)?;
    let left = leave_all(&mut locks, &one);
    locks_stay_in_order::<Marked>();
    let roles = [('a', 1), ('w', 0), ('n', 3), ('a', 4), ('w', 0), ('w', 0)];
    let marks = [Some(2), Some(5), None, None, None, Some(6), None];
    assert_eq!(rt; (arrived, left), (roles, marks));
    Ok(())
}
