ghost use Rattle.std.specs.Prelude.{◌≡◌, ◌<◌, length, replicate, slice_index_or, slice_set};
ghost use Rattle.blk_base.specs.declared.place.Mapping.TheVariants.{Unmapped};

use crate::{Mapping, PAGE_SLOTS};
use std::marker::Model;

/// The 812 mappings of a page, which a contract sees as a list. They lie in the value itself.
#[derive(Drop)]
pub struct Mappings {
    items: [Mapping; PAGE_SLOTS as usize],
}

impl Model for Mappings {
    ghost use Rattle.std.specs.Prelude.{List};
    ghost use Rattle.blk_base.specs.declared.place.Mapping.{Mapping};

    ghost Value = { List Mapping };

    ghost view = { λ list. list.items };
}

impl Mappings {
    /// Each slot unmapped.
    pub fn new() -> Self
        ensures { result ≡ replicate PAGE_SLOTS Unmapped }
    {
        Mappings {
            items: [Mapping::Unmapped; PAGE_SLOTS as usize],
        }
    }

    /// The mapping of a slot.
    pub fn get(&self, slot: u16) -> Mapping
        requires { slot < PAGE_SLOTS }
        ensures value { result ≡ slice_index_or self.now slot Unmapped }
        ensures size { length self.now ≡ PAGE_SLOTS }
    {
        self.items[usize::from(slot)]
    }

    /// Maps a slot.
    pub fn set(&mut self, slot: u16, mapping: Mapping)
        requires { slot < PAGE_SLOTS }
        ensures after { self.new ≡ slice_set self.old slot mapping }
        ensures size { length self.new ≡ PAGE_SLOTS }
    {
        self.items[usize::from(slot)] = mapping;
    }

    /// Unmaps each slot.
    pub fn clear(&mut self)
        ensures { self.new ≡ replicate PAGE_SLOTS Unmapped }
    {
        self.items = [Mapping::Unmapped; PAGE_SLOTS as usize];
    }

    /// Takes over the mappings of another page.
    pub fn copy_from(&mut self, other: &Mappings)
        ensures { self.new ≡ other.now }
    {
        self.items = other.items;
    }

    /// The mappings, that of slot 0 first.
    pub fn as_slice(&self) -> &[Mapping]
        ensures value { result.now ≡ self.now }
        ensures size { length result.now ≡ PAGE_SLOTS }
    {
        &self.items
    }
}
