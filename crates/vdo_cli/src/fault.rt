use grow_image::GrowFault;
use image_layout::LayoutFault;
use image_model::ImageFault;
use stream_text::ScriptFault;
use thiserror::Error;

// Long to prove: each fault is shown to have its own text.
/// Why a run ended with a status other than 0, 1 and, after requests were served, 3 and 4.
#[derive(Debug, Drop, Error)]
pub enum Fault {
    /// The words are no command. Status 2.
    #[error("usage")]
    Usage,
    /// A line of the script has a fault. Status 2.
    #[error("{0}")]
    Script(ScriptFault),
    /// The device failed: a call before the script was read, or while an image was looked at, made, recovered, rebuilt or
    /// grown. Status 3.
    #[error("device fault")]
    Device,
    /// An image of the wanted sizes can't be had on the device, or that is too large for a crash. Status 8.
    #[error("layout: {0}")]
    Layout(LayoutFault),
    /// The device has no image, or one with this fault. Status 4.
    #[error("bad image: {0}")]
    Image(ImageFault),
    /// Memory ran out before the first request was served, or while an image was looked at, or before the first write of a
    /// recovery, a rebuild or a growth. Status 5.
    #[error("no memory")]
    Memory,
    /// The image has more addresses or slabs than it is to have, status 8; or an address that it is to have is mapped already,
    /// status 4.
    #[error("grow: {0}")]
    Grow(GrowFault),
    /// An audit found so many blocks whose stored count isn't the number of their mappings. Status 6.
    #[error("audit differs {0}")]
    Differs(u32),
    /// The script's source failed. Status 7.
    #[error("read fault")]
    Read,
    /// The sink failed. Status 7.
    #[error("sink fault")]
    Sink,
}
