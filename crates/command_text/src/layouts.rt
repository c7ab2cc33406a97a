ghost use Rattle.disk_model.specs.Streams.{Puts};
ghost use Rattle.command_text.specs.Formats.{layout_line};

use crate::pieces::{Piece, put_lines};
use disk_model::{Failed, Sink};
use image_layout::LayoutFault;

// Long to prove: each arm is shown to put its own text.
/// Puts why an image of some sizes can't be had: `layout: needs 154 blocks, has 153`, `layout: logical too large`,
/// `layout: size height` or `layout: too large to crash`. It fails where the sink fails; then a first part of the line was
/// put.
pub fn put_layout_fault<K: Sink>(fault: LayoutFault, out: &mut K) -> Result<(), Failed>
    ensures { Puts K.tells (layout_line fault) (K.seen out.old) (K.seen out.new) result }
{
    match fault {
        LayoutFault::TooSmall { needed, has } => put_lines(
            &[
                Piece::Word(b"layout: needs "),
                Piece::U32(needed),
                Piece::Word(b" blocks, has "),
                Piece::U32(has),
                Piece::Word(b"\n"),
            ],
            out,
        ),
        LayoutFault::LogicalTooLarge => out.put(b"layout: logical too large\n"),
        LayoutFault::Size(field) => put_lines(
            &[
                Piece::Word(b"layout: size "),
                Piece::Word(field.name().as_bytes()),
                Piece::Word(b"\n"),
            ],
            out,
        ),
        LayoutFault::TooLargeToCrash { .. } => out.put(b"layout: too large to crash\n"),
    }
}
