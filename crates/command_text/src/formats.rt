ghost use Rattle.std.specs.Prelude.{◌≡◌};
ghost use Rattle.disk_model.specs.Streams.{Puts};
ghost use Rattle.command_text.specs.Formats.{slabs_text, formatted_text};

use crate::pieces::{Line, Piece, put_lines};
use blk_base::Layout;
use disk_model::{Failed, Sink};

// Only slabs are counted in words: `recovered 1 entries` and `index 1 chapters` stand as they are.
pub(crate) fn slabs_word(slabs: u32) -> &'static [u8]
    ensures { result.now ≡ slabs_text slabs }
{
    if slabs == 1 {
        b" slab of "
    } else {
        b" slabs of "
    }
}

/// Puts how many blocks an image takes that was formatted, its slabs with their data blocks, and its logical size:
/// `formatted 154 blocks, 1 slab of 64, logical 1000`; with any other number of slabs it is `2 slabs of 64`. It fails
/// where the sink fails; then a first part of the line was put.
pub fn put_formatted<K: Sink>(image: &Layout, out: &mut K) -> Result<(), Failed>
    ensures { Puts K.tells
        (formatted_text image.now.geometry)
        (K.seen out.old) (K.seen out.new) result }
{
    let blocks = image.needed();
    let sizes = image.geometry;
    let slabs_of = slabs_word(sizes.slabs);
    put_lines(
        &[
            Piece::Word(b"formatted "),
            Piece::U32(blocks),
            Piece::Word(b" blocks, "),
            Piece::U32(sizes.slabs),
            Piece::Word(slabs_of),
            Piece::U32(sizes.slab_blocks),
            Piece::Word(b", logical "),
            Piece::U32(sizes.logical),
            Piece::Word(b"\n"),
        ],
        out,
    )
}

impl Line for Layout {
    ghost text = { λ image. formatted_text image.geometry };

    fn put_to<K: Sink>(&self, out: &mut K) -> Result<(), Failed> {
        put_formatted(self, out)
    }
}
