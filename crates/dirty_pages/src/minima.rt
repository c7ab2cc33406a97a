ghost use Rattle.std.specs.Prelude.{◌≡◌, ◌<◌, ◌*◌, ◌^◌, ℕ, length, drop, replicate, slice_set, IfOk, IfSome, IfNone};
ghost use Rattle.dirty_pages.specs.Minima.{key_at, IsLeast, IsTreeBut, IsTree};

use crate::numbered::{Numbered, lesser, node_of, number_in};
use blk_base::repeated;
use std::alloc::{AllocError, Global};
use std::marker::Model;

/// A number for each slot, or none, of which the least is known at once. A change takes as many steps as the logarithm
/// of the number of slots.
#[derive(Drop)]
pub struct Minima {
    // The root is at 1, the children of node k are at 2k and 2k + 1, and the numbers of the slots are the last ones.
    nodes: Vec<Option<Numbered>>,
    leaves: usize,
}

impl Model for Minima {
    ghost use Rattle.std.specs.Prelude.{◌≡◌, ◌<◌, ◌*◌, ◌^◌, ℕ, List, Option, length};
    ghost use Rattle.dirty_pages.specs.Minima.{AreNamed, IsTree, numbers_in};

    ghost Value = { List (Option ℕ) };

    ghost view = { λ m. numbers_in m.leaves m.nodes.items };

    ghost invariant = { λ m. record {
      size : length m.nodes.items ≡ 2 * m.leaves;
      bound : m.leaves < 2 ^ 32;
      named : AreNamed m.leaves m.nodes.items;
      tree : IsTree m.leaves m.nodes.items;
    } };
}

impl Minima {
    /// No slot has a number.
    pub fn new(alloc: Global, slots: u32) -> Result<Minima, AllocError>
        ensures { IfOk result (λ minima. minima ≡ replicate slots None) }
    {
        let leaves = slots as usize;
        Ok(Minima {
            nodes: repeated(alloc, None, 2 * leaves)?,
            leaves,
        })
    }

    /// Gives a slot this number, or none.
    pub fn set(&mut self, slot: usize, number: Option<u64>)
        requires { slot < length self.old }
        ensures { self.new ≡ slice_set self.old slot number }
    {
        let leaf = self.leaves + slot;
        if number_in(self.nodes[leaf]) == number {
            return;
        }
        self.nodes[leaf] = node_of(slot, number);
        settle(&mut self.nodes, self.leaves, leaf / 2);
    }

    /// The slot that has the least number, with that number; of several the first one. `None` exactly where no slot has one.
    pub fn least(&self) -> Option<(usize, u64)>
        ensures some { IfSome result (λ (slot, number). IsLeast self.now slot number) }
        ensures none { IfNone result ((slot : ℕ) → key_at self.now slot ≡ None) }
    {
        if self.leaves == 0 {
            return None;
        }
        let first = self.nodes[1]?;
        Some((first.slot as usize, first.number))
    }
}

// Gives each inner node from this one up to the root that of its children which comes first.
fn settle(nodes: &mut [Option<Numbered>], leaves: usize, from: usize)
    requires size { length nodes.old ≡ 2 * leaves }
    requires bound { leaves < 2 ^ 32 }
    requires inside { from < leaves }
    requires tree { IsTreeBut leaves from nodes.old }
    ensures tree { IsTree leaves nodes.new }
    ensures kept { drop leaves nodes.new ≡ drop leaves nodes.old }
{
    let mut at = from;
    while at > 0 {
        nodes[at] = lesser(nodes[2 * at], nodes[2 * at + 1]);
        at /= 2;
    }
}
