ghost use Rattle.disk_model.specs.Streams.{Puts};
ghost use Rattle.command_text.specs.Statuses.{mode_text, sizes_text, status_text};

use crate::pieces::{Line, Piece, put_lines};
use disk_model::{Failed, Sink};
use image_status::ImageStatus;

// Puts whether the last session was closed, and where it wasn't, how many entries there are to recover.
fn put_mode<K: Sink>(clean: bool, entries: u32, out: &mut K) -> Result<(), Failed>
    ensures { Puts K.tells (mode_text clean entries) (K.seen out.old) (K.seen out.new) result }
{
    if clean {
        return out.put(b"mode clean\nrecovery none\n");
    }
    put_lines(
        &[
            Piece::Word(b"mode unclean\nrecovery "),
            Piece::U32(entries),
            Piece::Word(b" entries\n"),
        ],
        out,
    )
}

fn put_sizes<K: Sink>(image: &ImageStatus, out: &mut K) -> Result<(), Failed>
    ensures { Puts K.tells (sizes_text image.now) (K.seen out.old) (K.seen out.new) result }
{
    put_lines(
        &[
            Piece::Word(b"index "),
            Piece::U32(image.chapters),
            Piece::Word(b" chapters\ncompression refused\n"),
            Piece::Word(b"used "),
            Piece::U32(image.used),
            Piece::Word(b" of "),
            Piece::U32(image.total),
            Piece::Word(b"\n"),
            Piece::Word(b"logical "),
            Piece::U32(image.logical),
            Piece::Word(b"\n"),
        ],
        out,
    )
}

/// Puts `mode clean` or `mode unclean`, `recovery none` or `recovery 30 entries`, `index 0 chapters`, `compression refused`,
/// `used 0 of 64` and `logical 1000`, a line each. It fails where the sink fails; then a first part of the text was put.
pub fn put_status<K: Sink>(image: &ImageStatus, out: &mut K) -> Result<(), Failed>
    ensures { Puts K.tells (status_text image.now) (K.seen out.old) (K.seen out.new) result }
{
    put_mode(image.clean, image.entries, out)?;
    put_sizes(image, out)
}

impl Line for ImageStatus {
    ghost text = { status_text };

    fn put_to<K: Sink>(&self, out: &mut K) -> Result<(), Failed> {
        put_status(self, out)
    }
}
