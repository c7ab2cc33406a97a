ghost use Rattle.std.specs.Prelude.{◌≡◌};
ghost use Rattle.grow_image.specs.declared.fault.GrowFault.TheVariants.{Layout};

use blk_base::Lba;
use image_layout::{Field, LayoutFault};
use image_model::ImageFault;
use thiserror::Error;

/// Why an image didn't grow. They stand in the order in which they are found.
#[derive(Clone, Copy, Debug, PartialEq, Eq, Error)]
pub enum GrowFault {
    /// The image can't be opened, as [`open_clean`](rebuild::open_clean) says; or a call of the device failed, or memory ran
    /// out, behind that.
    #[error(transparent)]
    Image(ImageFault),
    /// The image has more of this: of addresses (`Logical`), or else of slabs (`Slabs`).
    #[error("smaller {0}")]
    Smaller(Field),
    /// The device can't have an image of these sizes.
    #[error(transparent)]
    Layout(LayoutFault),
    /// An address that the image doesn't have yet is mapped, if only to zeros; the least one.
    #[error("mapped {}", at.0)]
    Mapped { at: Lba },
}

impl From<LayoutFault> for GrowFault {
    ghost from_gives = { λ fault made. made ≡ Layout fault };

    fn from(fault: LayoutFault) -> GrowFault {
        GrowFault::Layout(fault)
    }
}
