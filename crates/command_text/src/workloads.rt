ghost use Rattle.disk_model.specs.Streams.{Puts};
ghost use Rattle.command_text.specs.Workloads.{tally_text, tally_and_space_text, summary_text};

use crate::parts::{Space, put_known, put_recovered};
use crate::pieces::{Piece, put_lines};
use crate::tallies::Tally;
use disk_model::{Failed, Sink};

/// How a workload ended.
#[derive(Clone, Copy, Debug, PartialEq, Eq)]
pub struct Summary {
    /// How many entries of the journal were recovered before, if the image wasn't clean.
    pub recovered: Option<u32>,
    /// How many requests there were.
    pub requests: u32,
    pub tally: Tally,
    /// How many data blocks are used, where that is known.
    pub space: Option<Space>,
}

fn put_tally<K: Sink>(requests: u32, tally: Tally, out: &mut K) -> Result<(), Failed>
    ensures { Puts K.tells (tally_text requests tally) (K.seen out.old) (K.seen out.new) result }
{
    put_lines(
        &[
            Piece::Word(b"requests "),
            Piece::U32(requests),
            Piece::Word(b"\nok "),
            Piece::U64(tally.ok),
            Piece::Word(b"\nno space "),
            Piece::U64(tally.no_space),
            Piece::Word(b"\nread sum "),
            Piece::U128(tally.read_sum),
            Piece::Word(b"\n"),
        ],
        out,
    )
}

fn put_tally_and_space<K: Sink>(summary: &Summary, out: &mut K) -> Result<(), Failed>
    ensures { Puts K.tells (tally_and_space_text summary.now) (K.seen out.old) (K.seen out.new)
        result }
{
    put_tally(summary.requests, summary.tally, out)?;
    put_known(summary.space, out)
}

/// Puts `recovered 30 entries` where the image wasn't clean, and `requests 1000`, `ok 990`, `no space 10`, `read sum 7` and,
/// where that is known, `used 2 of 64`, a line each. It takes no memory. It fails where the sink fails; then a first part of the text was
/// put.
pub fn put_summary<K: Sink>(summary: &Summary, out: &mut K) -> Result<(), Failed>
    ensures { Puts K.tells (summary_text summary.now) (K.seen out.old) (K.seen out.new) result }
{
    put_recovered(summary.recovered, out)?;
    put_tally_and_space(summary, out)
}
