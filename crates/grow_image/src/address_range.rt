ghost use Rattle.std.specs.Prelude.{◌≡◌, ◌+◌, ◌*◌, ◌<◌, ◌^◌, ℕ, IfSome, IfNone};
ghost use Rattle.std.specs.Bool.{OnTrue, OnFalse};
ghost use Rattle.blk_base.specs.declared.sizes.TheConstants.{PAGE_SLOTS as SLOTS, TREES as ALL_TREES};
ghost use Rattle.blk_base.specs.Pages.{page_below, leaf_of};
ghost use Rattle.grow_image.specs.NewAddresses.{IsWithin, address_in};

use blk_base::{Lba, PAGE_SLOTS, PageId, TREES};

/// The addresses from one on to below another.
#[derive(Clone, Copy, PartialEq, Eq)]
pub(crate) struct AddressRange {
    pub(crate) first: u32,
    pub(crate) end: u32,
}

// The first address of a leaf with this number of its tree.
fn first_address(tree: u8, index: u64) -> u64
    requires { index < 2 ^ 48 }
    ensures { result ≡ (index * ALL_TREES + tree) * SLOTS }
{
    (index * u64::from(TREES) + u64::from(tree)) * u64::from(PAGE_SLOTS)
}

impl AddressRange {
    // The address of a slot of a leaf, if it is one of these.
    pub(crate) fn address_of(self, leaf: PageId, slot: u16) -> Option<Lba>
        requires { slot < SLOTS }
        ensures some { IfSome result (λ at.
            (at.0 ≡ address_in leaf slot) × IsWithin self at.0) }
        ensures none { IfNone result (IsWithin self (address_in leaf slot) → ⊥) }
    {
        let address = first_address(leaf.tree, u64::from(leaf.index)) + u64::from(slot);
        if address < u64::from(self.first) || u64::from(self.end) <= address {
            return None;
        }
        Some(Lba(address as u32))
    }

    // Whether the leaf to which a slot leads has some of these.
    pub(crate) fn has_some_below(self, page: PageId, slot: u16) -> bool
        requires { slot < SLOTS }
        ensures yes { OnTrue result (page.index * SLOTS + slot < 2 ^ 32) }
        ensures no { OnFalse result
            ((address : ℕ) → IsWithin self address → leaf_of address ≡ page_below page slot → ⊥) }
    {
        let index = u64::from(page.index) * u64::from(PAGE_SLOTS) + u64::from(slot);
        let first = first_address(page.tree, index);
        first < u64::from(self.end) && u64::from(self.first) < first + u64::from(PAGE_SLOTS)
    }
}
