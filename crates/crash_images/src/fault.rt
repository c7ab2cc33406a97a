use blk_base::Pbn;
use page_codec::PageFault;

/// Why a value wasn't read.
#[derive(Clone, Copy, PartialEq, Eq)]
pub enum ValueFault {
    /// A read of the device failed.
    Device,
    /// The leaf of the address stands at this block, whose bytes say no mapping for the address.
    Page { at: Pbn, fault: PageFault },
    /// There is no memory for the values.
    Memory,
}
