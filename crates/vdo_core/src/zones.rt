ghost use Rattle.std.specs.Prelude.{◌≡◌, IfOk};

use core_model::Zone;
use std::alloc::{AllocError, Global};
use std::marker::Model;
use step_parts::Posts;

/// The zones of a core, by their numbers, with the room for what a step posts.
#[derive(Drop)]
pub struct Zones {
    pub(crate) zones: Vec<Zone>,
    pub(crate) posts: Posts,
}

impl Model for Zones {
    ghost use Rattle.std.specs.Prelude.{List};
    ghost use Rattle.core_model.specs.declared.zones.Zone.{Zone};

    ghost Value = { List Zone };

    ghost view = { λ z. z.zones.items };
}

impl Zones {
    /// A core of these zones. It fails where no memory is found for the room.
    pub fn from_vec(alloc: Global, zones: Vec<Zone>) -> Result<Zones, AllocError>
        ensures { IfOk result (λ core. core ≡ zones.items) }
    {
        let posts = Posts::new(alloc)?;
        Ok(Zones { zones, posts })
    }

    /// The zones, from number 0.
    pub fn as_slice(&self) -> &[Zone]
        ensures { result.now ≡ self.now }
    {
        &self.zones
    }

    /// The zones.
    pub(crate) fn into_vec(self) -> Vec<Zone>
        ensures { result.items ≡ self }
    {
        self.zones
    }
}
