ghost use Rattle.std.specs.Prelude.{◌≡◌};
ghost use Rattle.image_format.specs.declared.fault.FormatFault.TheVariants.{Layout, Device};

use disk_model::Failed;
use image_layout::LayoutFault;
use thiserror::Error;

/// Why no empty image was made.
#[derive(Clone, Copy, Debug, PartialEq, Eq, Error)]
pub enum FormatFault {
    /// The device can't have an image of these sizes.
    #[error(transparent)]
    Layout(LayoutFault),
    /// A call of the device failed.
    #[error("device fault")]
    Device,
}

impl From<LayoutFault> for FormatFault {
    ghost from_gives = { λ fault made. made ≡ Layout fault };

    fn from(fault: LayoutFault) -> FormatFault {
        FormatFault::Layout(fault)
    }
}

impl From<Failed> for FormatFault {
    ghost from_gives = { λ _ made. made ≡ Device };

    fn from(_: Failed) -> FormatFault {
        FormatFault::Device
    }
}
