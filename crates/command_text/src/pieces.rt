ghost use Rattle.std.specs.Prelude.{ℕ, List, map};
ghost use Rattle.std.specs.List.{concat};
ghost use Rattle.disk_model.specs.Streams.{Puts};
ghost use Rattle.command_text.specs.Pieces.{piece_text};

use disk_model::{Failed, Sink};
use itoa::Integer;
use stream_text::put_runs;

/// What has a text of its own.
pub trait Line {
    /// Its text.
    ghost text: { Self → List ℕ };

    /// Puts the text. It fails where the sink fails; then a first part of the text was put.
    fn put_to<K: Sink>(&self, out: &mut K) -> Result<(), Failed>
        ensures { Puts K.tells (text self.now) (K.seen out.old) (K.seen out.new) result };
}

/// Puts the texts of some things, one behind the other.
pub fn put_lines<L: Line, K: Sink>(lines: &[L], out: &mut K) -> Result<(), Failed>
    ensures { Puts K.tells
        (concat (map L.text lines.now))
        (K.seen out.old) (K.seen out.new) result }
{
    for line in lines {
        line.put_to(out)?;
    }
    Ok(())
}

fn put_number<I: Integer, K: Sink>(number: I, out: &mut K) -> Result<(), Failed>
    ensures { Puts K.tells (I.text number) (K.seen out.old) (K.seen out.new) result }
{
    let mut digits = itoa::Buffer::new();
    out.put(digits.format(number).as_bytes())
}

/// A part of a line.
#[derive(Clone, Copy)]
pub enum Piece<'a> {
    Word(&'a [u8]),
    U8(u8),
    U32(u32),
    U64(u64),
    U128(u128),
    Usize(usize),
    /// Bytes as their longest runs.
    Runs(&'a [u8]),
}

impl Line for Piece<'_> {
    ghost text = { piece_text };

    fn put_to<K: Sink>(&self, out: &mut K) -> Result<(), Failed> {
        match *self {
            Piece::Word(text) => out.put(text),
            Piece::U8(number) => put_number(number, out),
            Piece::U32(number) => put_number(number, out),
            Piece::U64(number) => put_number(number, out),
            Piece::U128(number) => put_number(number, out),
            Piece::Usize(number) => put_number(number, out),
            Piece::Runs(bytes) => put_runs(bytes, out),
        }
    }
}
