ghost use Rattle.std.specs.Prelude.{◌≡◌, ◌<◌, ◌≤◌, IfOk};
ghost use Rattle.blk_base.specs.Limits.{IsGeometry};
ghost use Rattle.block_map_tree.specs.OpenedTree.{IsOpened, all_trees};
ghost use Rattle.core_model.specs.declared.zones.ZoneData.TheVariants as at;
ghost use Rattle.data_vio.specs.Zones.{logical_number};
ghost use Rattle.core_model.specs.PageLinks.{opened_page};
ghost use Rattle.core_model.specs.SessionLimits.{most_zones};
ghost use Rattle.core_model.specs.Sessions.{Session};
ghost use Rattle.core_model.specs.Start.{IsFirstData};

use crate::trees::opened_trees;
use blk_base::Opened;
use core_model::LogicalZone;
use data_vio::Sizes;
use std::alloc::{AllocError, Global};

/// A logical zone at the start of a session over an image that was opened, by its number among the logical ones, of which there
/// are 4 at most: it drew nothing and has set nothing, and has the pages of its trees that the image links. All its room is taken
/// here.
pub fn first(
    alloc: Global,
    sizes: &Sizes,
    opened: &Opened,
    zone: u8,
) -> Result<LogicalZone, AllocError>
    requires geometry { IsGeometry opened.now.head.geometry }
    requires same { sizes.now.geometry ≡ opened.now.head.geometry }
    requires zone { zone < sizes.now.zones }
    requires zones { sizes.now.zones ≤ most_zones }
    requires pages { IsOpened (all_trees opened.now.head.geometry) opened.now.pages.items }
    ensures { IfOk result (λ first.
        (s : Session) → s.sizes ≡ sizes.now → s.links ≡ opened_page opened.now.pages.items →
        IsFirstData s (logical_number zone) (at.Logical first)) }
{
    let tree = opened_trees(alloc, opened, zone, sizes.zones)?;
    LogicalZone::new(alloc, zone, tree)
}
