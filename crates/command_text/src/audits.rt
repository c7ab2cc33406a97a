ghost use Rattle.disk_model.specs.Streams.{Puts};
ghost use Rattle.command_text.specs.Audits.{difference_text, differs_text, report_text, verdict_text};

use crate::parts::Space;
use crate::pieces::{Line, Piece, put_lines};
use audit::{Difference, Report};
use disk_model::{Failed, Sink};

impl Line for Difference {
    ghost text = { difference_text };

    fn put_to<K: Sink>(&self, out: &mut K) -> Result<(), Failed> {
        put_lines(
            &[
                Piece::Word(b"block "),
                Piece::U32(self.at.0),
                Piece::Word(b" stored "),
                Piece::U32(self.stored),
                Piece::Word(b" mapped "),
                Piece::U64(self.mapped),
                Piece::Word(b"\n"),
            ],
            out,
        )
    }
}

/// Puts `audit differs 1`: how many blocks differ. It fails where the sink fails; then a first part of the line was put.
pub fn put_differs<K: Sink>(count: u64, out: &mut K) -> Result<(), Failed>
    ensures { Puts K.tells (differs_text count) (K.seen out.old) (K.seen out.new) result }
{
    put_lines(
        &[
            Piece::Word(b"audit differs "),
            Piece::U64(count),
            Piece::Word(b"\n"),
        ],
        out,
    )
}

fn put_verdict<K: Sink>(differences: &[Difference], space: Space, out: &mut K) -> Result<(), Failed>
    ensures { Puts K.tells
        (verdict_text differences.now space)
        (K.seen out.old) (K.seen out.new) result }
{
    if differences.is_empty() {
        put_lines(
            &[
                Piece::Word(b"audit clean, "),
                Piece::Word(b"used "),
                Piece::U32(space.used),
                Piece::Word(b" of "),
                Piece::U32(space.total),
                Piece::Word(b"\n"),
            ],
            out,
        )
    } else {
        put_differs(differences.len() as u64, out)
    }
}

/// Puts a line `block 86 stored 2 mapped 1` for each block that differs, and then `audit differs 1`; or, where none does,
/// `audit clean, used 2 of 64`. It fails where the sink fails; then a first part of the text was put.
pub fn put_audit<K: Sink>(report: &Report, out: &mut K) -> Result<(), Failed>
    ensures { Puts K.tells (report_text report.now) (K.seen out.old) (K.seen out.new) result }
{
    let differences = report.differs.as_slice();
    let space = Space {
        used: report.used,
        total: report.total,
    };
    put_lines(differences, out)?;
    put_verdict(differences, space, out)
}

impl Line for Report {
    ghost text = { report_text };

    fn put_to<K: Sink>(&self, out: &mut K) -> Result<(), Failed> {
        put_audit(self, out)
    }
}
