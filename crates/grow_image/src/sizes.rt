ghost use Rattle.std.specs.Prelude.{◌≡◌, IfOk, IfErr};
ghost use Rattle.grow_image.specs.Sizes.{CanGrow, PlanFails, grown_sizes};

use crate::GrowFault;
use blk_base::{Geometry, Layout};
use image_layout::{Field, plan};

// The layout of the image with so many addresses and slabs, on a device that has `blocks` blocks.
// Long to prove: each refusal is told apart from all before it.
pub(crate) fn plan_growth(
    sizes: &Geometry,
    logical: u32,
    slabs: u32,
    blocks: u32,
) -> Result<Layout, GrowFault>
    ensures planned { IfOk result (λ layout.
        layout.geometry ≡ grown_sizes sizes.now logical slabs) }
    ensures can { IfOk result (λ layout. CanGrow sizes.now logical slabs blocks) }
    ensures fault { IfErr result (PlanFails sizes.now logical slabs blocks) }
{
    if logical < sizes.logical {
        return Err(GrowFault::Smaller(Field::Logical));
    }
    if slabs < sizes.slabs {
        return Err(GrowFault::Smaller(Field::Slabs));
    }
    let wanted = Geometry {
        logical,
        slabs,
        slab_blocks: sizes.slab_blocks,
        journal: sizes.journal,
        index: sizes.index,
        slab_journal: sizes.slab_journal,
        height: sizes.height,
        nonce: sizes.nonce,
    };
    let layout = plan(&wanted, blocks)?;
    Ok(layout)
}
