ghost use Rattle.std.specs.Prelude.{◌≡◌, IfOk, IfErr, IsTrue, Ok};
ghost use Rattle.disk_model.specs.Seen.{Stays};
ghost use Rattle.image_format.specs.Formats.{LeavesEmpty, StopsAreRight};
ghost use Rattle.image_layout.specs.PossibleSizes.{plan_of};
ghost use Rattle.vdo_cli.specs.NewImages.{MakingFails};

use crate::Fault;
use blk_base::{Geometry, Layout};
use disk_model::Disk;
use image_format::{FormatFault, format};

/// Makes an empty image of these sizes on the device, and gives its layout.
pub(crate) fn make_image<D: Disk>(sizes: &Geometry, device: &mut D) -> Result<Layout, Fault>
    ensures made { IfOk result (λ image. image.geometry ≡ sizes.now) }
    ensures planned { IfOk result (λ image. plan_of sizes.now (D.seen device.old).size ≡ Ok tt) }
    ensures empty { IfOk result (λ image.
        IsTrue D.trust.tells → LeavesEmpty sizes.now (D.seen device.old) (D.seen device.new)) }
    ensures fault { IfErr result
        (MakingFails D.trust.tells sizes.now (D.seen device.old) (D.seen device.new)) }
    ensures stays { Stays (D.seen device.old) (D.seen device.new) }
    ensures stops { IsTrue D.trust.tells
        → StopsAreRight sizes.now (D.seen device.old) (D.seen device.new) }
{
    match format(sizes, device) {
        Ok(layout) => Ok(layout),
        Err(FormatFault::Layout(why)) => Err(Fault::Layout(why)),
        Err(FormatFault::Device) => Err(Fault::Device),
    }
}
