ghost use Rattle.std.specs.Prelude.{◌≡◌, ◌≤◌, false, length, vec_len, IsTrue, IfSome, IfNone};
ghost use Rattle.zone_counts.specs.Zone.{NoneBefore, NoneFree, ClaimsLowest, Serves};

use slab_counts::{Claim, SlabCounts};
use slab_tickets::Tickets;

/// Claims the lowest free block of the slabs; none of those before the cursor has one. The cursor moves to where it was found.
pub(crate) fn claim_lowest(slabs: &mut Vec<SlabCounts>, cursor: &mut usize) -> Option<Claim>
    requires below { NoneBefore slabs.old.items cursor.old }
    ensures some { IfSome result (ClaimsLowest slabs.old.items slabs.new.items) }
    ensures none { IfNone result (NoneFree slabs.old.items) }
    ensures same { IfNone result (slabs.new.items ≡ slabs.old.items) }
    ensures below { NoneBefore slabs.new.items cursor.new }
{
    while *cursor < slabs.len() {
        let slab = &mut slabs[*cursor];
        let claim = slab.claim_free();
        if claim.is_some() {
            return claim;
        }
        *cursor += 1;
    }
    None
}

/// Whether some slab has a free block; none of those before the cursor does. The cursor moves to where it was found.
pub(crate) fn has_free(slabs: &mut Vec<SlabCounts>, cursor: &mut usize) -> bool
    requires below { NoneBefore slabs.old.items cursor.old }
    ensures yes { IsTrue result → ¬ NoneFree slabs.old.items }
    ensures no { (result ≡ false) → NoneFree slabs.old.items }
    ensures same { slabs.new.items ≡ slabs.old.items }
    ensures below { NoneBefore slabs.new.items cursor.new }
{
    while *cursor < slabs.len() {
        let slab = &mut slabs[*cursor];
        if slab.has_free() {
            return true;
        }
        *cursor += 1;
    }
    false
}

/// Gives the lowest free block to the oldest ticket without one, where there are both.
pub(crate) fn serve(slabs: &mut Vec<SlabCounts>, cursor: &mut usize, tickets: &mut Tickets)
    requires below { NoneBefore slabs.old.items cursor.old }
    ensures serves { Serves slabs.old.items tickets.old slabs.new.items tickets.new }
    ensures below { NoneBefore slabs.new.items cursor.new }
{
    if !tickets.waits() {
        return;
    }
    if let Some(claim) = claim_lowest(slabs, cursor) {
        tickets.give(claim);
    }
}
