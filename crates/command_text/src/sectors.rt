ghost use Rattle.std.specs.Prelude.{◌++◌, codes};
ghost use Rattle.disk_model.specs.Streams.{Puts};
ghost use Rattle.command_text.specs.Sectors.{placed_text, asked_text, answer_text, line_text, lines_text, sectors_text};

use crate::parts::{Space, put_space};
use crate::pieces::{Line, Piece, put_lines};
use blk_base::{Lba, Writer};
use disk_model::{Failed, Sink};
use stream_text::put_runs;

/// What a request for one sector asks for.
#[derive(Clone, Copy, Debug, PartialEq, Eq)]
pub enum SectorAsked {
    /// The bytes of a sector, 0 to 7, of the block at an address.
    Read { at: Lba, sector: u8 },
    /// Other bytes there.
    Write { at: Lba, sector: u8 },
    Flush,
}

/// How it was answered.
#[derive(Clone, Copy, Debug)]
pub enum SectorAnswer<'a> {
    Ok,
    /// The 512 bytes of the sector.
    Bytes(&'a [u8]),
    Range,
    NoSpace,
    ReadFault,
    Stopped,
    Damaged,
}

/// A request for one sector that was answered.
#[derive(Clone, Copy, Debug)]
pub struct SectorLine<'a> {
    pub request: Writer,
    pub asked: SectorAsked,
    pub answer: SectorAnswer<'a>,
}

fn put_placed<K: Sink>(
    request: Writer,
    command: &[u8],
    at: Lba,
    sector: u8,
    out: &mut K,
) -> Result<(), Failed>
    ensures { Puts K.tells
        (placed_text request command.now at sector)
        (K.seen out.old) (K.seen out.new) result }
{
    put_lines(
        &[
            Piece::U8(request.stream),
            Piece::Word(b" "),
            Piece::U32(request.number),
            Piece::Word(command),
            Piece::U32(at.0),
            Piece::Word(b" "),
            Piece::U8(sector),
            Piece::Word(b" "),
        ],
        out,
    )
}

// Puts the name of a request and what it asks for, and a space.
fn put_asked<K: Sink>(request: Writer, asked: SectorAsked, out: &mut K) -> Result<(), Failed>
    ensures { Puts K.tells (asked_text request asked) (K.seen out.old) (K.seen out.new) result }
{
    match asked {
        SectorAsked::Read { at, sector } => put_placed(request, b" read ", at, sector, out),
        SectorAsked::Write { at, sector } => put_placed(request, b" write ", at, sector, out),
        SectorAsked::Flush => put_lines(
            &[
                Piece::U8(request.stream),
                Piece::Word(b" "),
                Piece::U32(request.number),
                Piece::Word(b" flush "),
            ],
            out,
        ),
    }
}

fn put_answer<K: Sink>(answer: SectorAnswer<'_>, out: &mut K) -> Result<(), Failed>
    ensures { Puts K.tells (answer_text answer.entry) (K.seen out.old) (K.seen out.new) result }
{
    let word: &[u8] = match answer {
        SectorAnswer::Bytes(bytes) => return put_runs(bytes, out),
        SectorAnswer::Ok => b"ok",
        SectorAnswer::Range => b"range",
        SectorAnswer::NoSpace => b"no space",
        SectorAnswer::ReadFault => b"read fault",
        SectorAnswer::Stopped => b"stopped",
        SectorAnswer::Damaged => b"damaged",
    };
    out.put(word)
}

// Puts an answer, and the end of the line.
fn put_answered<K: Sink>(answer: SectorAnswer<'_>, out: &mut K) -> Result<(), Failed>
    ensures { Puts K.tells
        (answer_text answer.entry ++ codes "\n")
        (K.seen out.old) (K.seen out.new) result }
{
    put_answer(answer, out)?;
    out.put(b"\n")
}

impl Line for SectorLine<'_> {
    ghost text = { line_text };

    fn put_to<K: Sink>(&self, out: &mut K) -> Result<(), Failed> {
        put_asked(self.request, self.asked, out)?;
        put_answered(self.answer, out)
    }
}

/// Puts the line of each answered request, `0 1 read 5 2 512*61` or `0 2 flush ok`, in the order in which they are given. It
/// takes no memory. It fails where the sink fails; then a first part of the text was put.
pub fn put_sector_lines<K: Sink>(lines: &[SectorLine<'_>], out: &mut K) -> Result<(), Failed>
    ensures { Puts K.tells (lines_text lines.now) (K.seen out.old) (K.seen out.new) result }
{
    put_lines(lines, out)
}

/// Puts the line of each answered request, and `used 2 of 64`. It fails where the sink fails; then a first part of the text was
/// put.
pub fn put_sectors<K: Sink>(
    lines: &[SectorLine<'_>],
    space: Space,
    out: &mut K,
) -> Result<(), Failed>
    ensures { Puts K.tells (sectors_text lines.now space) (K.seen out.old) (K.seen out.new) result }
{
    put_sector_lines(lines, out)?;
    put_space(space, out)
}
