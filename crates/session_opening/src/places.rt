ghost use Rattle.std.specs.Prelude.{◌∷◌, List, reverse, IfOk, OnOk};
ghost use Rattle.replay_map.specs.declared.links.Link.{Link as Page};
ghost use Rattle.session_opening.specs.Places.{ArePlaces};

use blk_base::{PageId, Pbn};
use replay_map::Link;
use std::alloc::{AllocError, Global};
use std::collections::BTreeMap;

/// Where linked pages stand.
#[derive(Drop)]
pub(crate) struct Places {
    /// The block of each.
    pub(crate) blocks: BTreeMap<PageId, Pbn>,
    /// Those that are no leaves, each once.
    pub(crate) inner: Vec<Link>,
}

// Where these pages stand. It goes over them once.
pub(crate) fn places_of(alloc: Global, links: &[Link]) -> Result<Places, AllocError>
    ensures { IfOk result (ArePlaces (reverse links.now)) }
{
    let mut places = Places {
        blocks: BTreeMap::new(alloc),
        inner: Vec::new(alloc),
    };
    for link in links {
        add(&mut places, *link)?;
    }
    Ok(places)
}

// Adds one more.
// Long to prove: each way out while what was taken is alive has searches of its own.
fn add(places: &mut Places, link: Link) -> Result<(), AllocError>
    ensures { OnOk result
        ((older : List Page) → ArePlaces older places.old → ArePlaces (link ∷ older) places.new) }
{
    let is_new = places.blocks.insert(link.page, link.at)?.is_none();
    if is_new && link.page.level > 0 {
        places.inner.push(link)?;
    }
    Ok(())
}
