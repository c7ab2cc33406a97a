use blk_base::{Pbn, Point};
use image_format::FormatFault;
use image_layout::{Field, LayoutFault, SuperFault};
use image_model::ImageFault;
use page_codec::PageFault;
use test_images::not_shown;

static LAYOUT: [(LayoutFault, &str); 5] = [
    (
        LayoutFault::TooSmall {
            needed: 154,
            has: 153,
        },
        "needs 154 blocks, has 153",
    ),
    (LayoutFault::LogicalTooLarge, "logical too large"),
    (LayoutFault::Size(Field::Slabs), "size slabs"),
    (LayoutFault::Size(Field::SlabBlocks), "size slab-blocks"),
    (
        LayoutFault::TooLargeToCrash { has: 65_537 },
        "too large to crash",
    ),
];

static FORMAT: [(FormatFault, &str); 2] = [
    (
        FormatFault::Layout(LayoutFault::LogicalTooLarge),
        "logical too large",
    ),
    (FormatFault::Device, "device fault"),
];

static IMAGE: [(ImageFault, &str); 13] = [
    (ImageFault::Super(SuperFault::NotAnImage), "not an image"),
    (ImageFault::Super(SuperFault::Version(7)), "version 7"),
    (
        ImageFault::Super(SuperFault::BadField(Field::Journal)),
        "field journal",
    ),
    (ImageFault::Window { sequence: 9 }, "window 9"),
    (
        ImageFault::Page {
            at: Pbn(85),
            fault: PageFault::Header,
        },
        "page 85 header",
    ),
    (
        ImageFault::Page {
            at: Pbn(85),
            fault: PageFault::Compressed(3),
        },
        "page 85 slot 3 compressed",
    ),
    (
        ImageFault::Page {
            at: Pbn(85),
            fault: PageFault::OutOfRange(3),
        },
        "page 85 slot 3 out of range",
    ),
    (
        ImageFault::Counter {
            at: Pbn(86),
            point: Point(1024),
        },
        "counter 86",
    ),
    (ImageFault::SharedPage { at: Pbn(85) }, "shared page 85"),
    (
        ImageFault::Counts {
            at: Pbn(86),
            stored: 2,
            mapped: 1,
        },
        "block 86 stored 2 mapped 1",
    ),
    (ImageFault::Device, "device fault"),
    (ImageFault::Unclean, "unclean"),
    (ImageFault::Memory, "no memory"),
];

#[test]
fn faults_are_printed(rt: HostRuntime) {
    assert_eq!(rt; not_shown(rt.alloc(), &LAYOUT), None);
    assert_eq!(rt; not_shown(rt.alloc(), &FORMAT), None);
    assert_eq!(rt; not_shown(rt.alloc(), &IMAGE), None);
}
