use blk_base::{Pbn, Point};
use image_layout::{Field, SuperFault};
use image_model::ImageFault;
use page_codec::PageFault;

/// A fault of an image, as a row names it: by the block, and then by the slot, the point, or the stored count and the number
/// of mappings.
#[derive(Clone, Copy)]
pub enum Fault {
    NoImage,
    Version(u32),
    Super(Field),
    Window(u64),
    Header(u32),
    Compressed(u32, u16),
    OutOfRange(u32, u16),
    Counter(u32, u64),
    Shared(u32),
    Counts(u32, u32, u64),
    Unclean,
}

fn page(at: u32, fault: PageFault) -> ImageFault {
    ImageFault::Page { at: Pbn(at), fault }
}

pub fn image_fault(fault: Fault) -> ImageFault {
    match fault {
        Fault::NoImage => ImageFault::Super(SuperFault::NotAnImage),
        Fault::Version(found) => ImageFault::Super(SuperFault::Version(found)),
        Fault::Super(field) => ImageFault::Super(SuperFault::BadField(field)),
        Fault::Window(sequence) => ImageFault::Window { sequence },
        Fault::Header(at) => page(at, PageFault::Header),
        Fault::Compressed(at, slot) => page(at, PageFault::Compressed(slot)),
        Fault::OutOfRange(at, slot) => page(at, PageFault::OutOfRange(slot)),
        Fault::Counter(at, point) => ImageFault::Counter {
            at: Pbn(at),
            point: Point(point),
        },
        Fault::Shared(at) => ImageFault::SharedPage { at: Pbn(at) },
        Fault::Counts(at, stored, mapped) => ImageFault::Counts {
            at: Pbn(at),
            stored,
            mapped,
        },
        Fault::Unclean => ImageFault::Unclean,
    }
}
