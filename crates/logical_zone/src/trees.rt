ghost use Rattle.std.specs.Prelude.{◌<◌, ◌≤◌, [], IfOk};
ghost use Rattle.blk_base.specs.Limits.{IsGeometry};
ghost use Rattle.block_map_tree.specs.OpenedTree.{IsOpened, all_trees};
ghost use Rattle.core_model.specs.PageLinks.{opened_page};
ghost use Rattle.core_model.specs.PageTrees.{IsMapTree};
ghost use Rattle.core_model.specs.SessionLimits.{most_zones};

use blk_base::Opened;
use block_map_tree::TreeNodes;
use core_model::MapTree;
use std::alloc::{AllocError, Global};

/// The trees of a zone at the start of a session, with the pages that the opened image links.
pub(crate) fn opened_trees(
    alloc: Global,
    opened: &Opened,
    zone: u8,
    zones: u8,
) -> Result<MapTree, AllocError>
    requires geometry { IsGeometry opened.now.head.geometry }
    requires zone { zone < zones }
    requires zones { zones ≤ most_zones }
    requires pages { IsOpened (all_trees opened.now.head.geometry) opened.now.pages.items }
    ensures { IfOk result (λ tree.
        IsMapTree opened.now.head.geometry zone zones (opened_page opened.now.pages.items) []
        tree) }
{
    let nodes = TreeNodes::from_opened(alloc, opened, u32::from(zone), u32::from(zones))?;
    Ok(MapTree::new(opened.head.geometry.height, nodes))
}
