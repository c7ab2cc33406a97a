ghost use Rattle.image_model.specs.declared.fault.ImageFault.TheVariants.{Super as SuperFaulty, Page as PageFaulty, Counts as CountsFaulty};
ghost use Rattle.disk_model.specs.Streams.{Puts};
ghost use Rattle.command_text.specs.Faults.{image_fault_line};

use crate::pieces::{Piece, put_lines};
use blk_base::Pbn;
use disk_model::{Failed, Sink};
use image_layout::SuperFault;
use image_model::ImageFault;
use page_codec::PageFault;

// Puts the line of a superblock that is refused.
// Long to prove: each arm is shown to put its own text.
fn put_super_fault<K: Sink>(fault: SuperFault, out: &mut K) -> Result<(), Failed>
    ensures { Puts K.tells
        (image_fault_line (SuperFaulty fault))
        (K.seen out.old) (K.seen out.new) result }
{
    match fault {
        SuperFault::NotAnImage => out.put(b"bad image: not an image\n"),
        SuperFault::Version(found) => put_lines(
            &[
                Piece::Word(b"bad image: version "),
                Piece::U32(found),
                Piece::Word(b"\n"),
            ],
            out,
        ),
        SuperFault::BadField(field) => put_lines(
            &[
                Piece::Word(b"bad image: field "),
                Piece::Word(field.name().as_bytes()),
                Piece::Word(b"\n"),
            ],
            out,
        ),
    }
}

// Puts the line of a page of the block map that can't be read.
fn put_page_fault<K: Sink>(at: Pbn, fault: PageFault, out: &mut K) -> Result<(), Failed>
    ensures { Puts K.tells
        (image_fault_line (PageFaulty at fault))
        (K.seen out.old) (K.seen out.new) result }
{
    match fault {
        PageFault::Header => put_lines(
            &[
                Piece::Word(b"bad image: page "),
                Piece::U32(at.0),
                Piece::Word(b" header\n"),
            ],
            out,
        ),
        PageFault::Compressed(slot) => put_lines(
            &[
                Piece::Word(b"bad image: page "),
                Piece::U32(at.0),
                Piece::Word(b" slot "),
                Piece::U32(u32::from(slot)),
                Piece::Word(b" compressed\n"),
            ],
            out,
        ),
        PageFault::OutOfRange(slot) => put_lines(
            &[
                Piece::Word(b"bad image: page "),
                Piece::U32(at.0),
                Piece::Word(b" slot "),
                Piece::U32(u32::from(slot)),
                Piece::Word(b" out of range\n"),
            ],
            out,
        ),
    }
}

// Puts the line of a data block's counts.
fn put_counts_fault<K: Sink>(at: Pbn, stored: u32, mapped: u64, out: &mut K) -> Result<(), Failed>
    ensures { Puts K.tells
        (image_fault_line (CountsFaulty at stored mapped))
        (K.seen out.old) (K.seen out.new) result }
{
    put_lines(
        &[
            Piece::Word(b"bad image: block "),
            Piece::U32(at.0),
            Piece::Word(b" stored "),
            Piece::U32(stored),
            Piece::Word(b" mapped "),
            Piece::U64(mapped),
            Piece::Word(b"\n"),
        ],
        out,
    )
}

/// Puts why the blocks of a device are no image: `bad image: ` with `not an image`, `version 7`, `field journal`, `window 9`,
/// `page 85 header`, `page 85 slot 3 compressed`, `page 85 slot 3 out of range`, `counter 86`, `shared page 85`,
/// `block 86 stored 2 mapped 1` or `unclean`; or else `device fault`, or `no memory`. It fails where the sink fails; then a
/// first part of the line was put.
pub fn put_image_fault<K: Sink>(fault: ImageFault, out: &mut K) -> Result<(), Failed>
    ensures { Puts K.tells (image_fault_line fault) (K.seen out.old) (K.seen out.new) result }
{
    match fault {
        ImageFault::Super(why) => put_super_fault(why, out),
        ImageFault::Window { sequence } => put_lines(
            &[
                Piece::Word(b"bad image: window "),
                Piece::U64(sequence),
                Piece::Word(b"\n"),
            ],
            out,
        ),
        ImageFault::Page { at, fault } => put_page_fault(at, fault, out),
        ImageFault::Counter { at, .. } => put_lines(
            &[
                Piece::Word(b"bad image: counter "),
                Piece::U32(at.0),
                Piece::Word(b"\n"),
            ],
            out,
        ),
        ImageFault::SharedPage { at } => put_lines(
            &[
                Piece::Word(b"bad image: shared page "),
                Piece::U32(at.0),
                Piece::Word(b"\n"),
            ],
            out,
        ),
        ImageFault::Counts { at, stored, mapped } => put_counts_fault(at, stored, mapped, out),
        ImageFault::Unclean => out.put(b"bad image: unclean\n"),
        ImageFault::Device => out.put(b"device fault\n"),
        ImageFault::Memory => out.put(b"no memory\n"),
    }
}
