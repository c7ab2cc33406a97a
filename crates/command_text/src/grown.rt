ghost use Rattle.disk_model.specs.Streams.{Puts};
ghost use Rattle.command_text.specs.Formats.{grown_text};
ghost use Rattle.command_text.specs.Growths.{grow_fault_line};

use crate::faults::put_image_fault;
use crate::formats::slabs_word;
use crate::layouts::put_layout_fault;
use crate::pieces::{Line, Piece, put_lines};
use disk_model::{Failed, Sink};
use grow_image::{GrowFault, Grown};

/// Puts `grown 223 blocks, 2 slabs of 64, logical 2000`; of one slab it is `1 slab of 64`. It fails where the sink fails;
/// then a first part of the line was put.
pub fn put_grown<K: Sink>(grown: Grown, out: &mut K) -> Result<(), Failed>
    ensures { Puts K.tells (grown_text grown) (K.seen out.old) (K.seen out.new) result }
{
    put_lines(
        &[
            Piece::Word(b"grown "),
            Piece::U32(grown.blocks),
            Piece::Word(b" blocks, "),
            Piece::U32(grown.slabs),
            Piece::Word(slabs_word(grown.slabs)),
            Piece::U32(grown.slab_blocks),
            Piece::Word(b", logical "),
            Piece::U32(grown.logical),
            Piece::Word(b"\n"),
        ],
        out,
    )
}

impl Line for Grown {
    ghost text = { grown_text };

    fn put_to<K: Sink>(&self, out: &mut K) -> Result<(), Failed> {
        put_grown(*self, out)
    }
}

/// Puts why an image didn't grow: `grow: smaller logical`, `grow: smaller slabs` or `grow: mapped 1000`; a fault of the
/// image and one of the layout have the lines that they have elsewhere. It fails where the sink fails; then a first part of
/// the line was put.
pub fn put_grow_fault<K: Sink>(fault: GrowFault, out: &mut K) -> Result<(), Failed>
    ensures { Puts K.tells (grow_fault_line fault) (K.seen out.old) (K.seen out.new) result }
{
    match fault {
        GrowFault::Image(why) => put_image_fault(why, out),
        GrowFault::Layout(why) => put_layout_fault(why, out),
        GrowFault::Smaller(field) => put_lines(
            &[
                Piece::Word(b"grow: smaller "),
                Piece::Word(field.name().as_bytes()),
                Piece::Word(b"\n"),
            ],
            out,
        ),
        GrowFault::Mapped { at } => put_lines(
            &[
                Piece::Word(b"grow: mapped "),
                Piece::U32(at.0),
                Piece::Word(b"\n"),
            ],
            out,
        ),
    }
}
