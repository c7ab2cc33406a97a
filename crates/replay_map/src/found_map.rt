ghost use Rattle.std.specs.Prelude.{◌≤◌, IfOk, IfErr};
ghost use Rattle.blk_base.specs.Regions.{needed_blocks};
ghost use Rattle.disk_model.specs.Since.{IsUntouched};
ghost use Rattle.replay_map.specs.FoundPages.{FindFails, IsMapFound};
ghost use Rattle.replay_map.specs.Forms.{HasForm};
ghost use Rattle.replay_map.specs.Reads.{IsShown, LeadToData};

use crate::Changes;
use crate::found::Found;
use crate::shared_pages::least_shared;
use crate::tree_walk::walk_trees;
use blk_base::Layout;
use disk_model::Disk;
use image_model::ImageFault;
use std::alloc::Global;

// What all pages give together: they are read tree by tree, and then no address may be mapped to one.
pub(crate) fn find_map<D: Disk>(
    alloc: Global,
    layout: &Layout,
    changes: &Changes,
    device: &mut D,
) -> Result<Found, ImageFault>
    requires room { needed_blocks layout.now.geometry ≤ (D.seen device.old).size }
    requires data { LeadToData layout.now.geometry changes.now }
    ensures map { IfOk result (λ found.
        IsShown D.trust layout.now.geometry changes.now (D.seen device.old)
        (D.seen device.new)
        (λ image. IsMapFound image found)) }
    ensures form { IfOk result (λ found.
        HasForm layout.now.geometry found.links.items found.slots.items) }
    ensures fault { IfErr result
        (FindFails D.trust layout.now.geometry changes.now (D.seen device.old)
        (D.seen device.new)) }
    ensures untouched { IsUntouched D.trust.tells (D.seen device.old) (D.seen device.new) }
{
    let mut found = Found {
        links: Vec::new(alloc),
        slots: Vec::new(alloc),
        mapped: Vec::new(alloc),
    };
    walk_trees(alloc, layout, changes, device, &mut found)?;
    match least_shared(alloc, found.links.as_slice(), found.mapped.as_slice()) {
        Ok(None) => Ok(found),
        Ok(Some(at)) => Err(ImageFault::SharedPage { at }),
        Err(_) => Err(ImageFault::Memory),
    }
}
