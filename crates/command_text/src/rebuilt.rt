ghost use Rattle.disk_model.specs.Streams.{Puts};
ghost use Rattle.command_text.specs.Rebuilt.{rebuilt_text};

use crate::pieces::{Line, Piece, put_lines};
use disk_model::{Failed, Sink};
use force_rebuild::Forced;

/// Puts `rebuilt, used 2 of 64`. It fails where the sink fails; then a first part of the line was put.
pub fn put_rebuilt<K: Sink>(forced: Forced, out: &mut K) -> Result<(), Failed>
    ensures { Puts K.tells (rebuilt_text forced) (K.seen out.old) (K.seen out.new) result }
{
    put_lines(
        &[
            Piece::Word(b"rebuilt, used "),
            Piece::U32(forced.used),
            Piece::Word(b" of "),
            Piece::U32(forced.total),
            Piece::Word(b"\n"),
        ],
        out,
    )
}

impl Line for Forced {
    ghost text = { rebuilt_text };

    fn put_to<K: Sink>(&self, out: &mut K) -> Result<(), Failed> {
        put_rebuilt(*self, out)
    }
}
