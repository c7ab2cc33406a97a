ghost use Rattle.disk_model.specs.Streams.{Puts};
ghost use Rattle.command_text.specs.Crashes.{stop_text, head_text, value_text, values_text, crash_text};

use crate::audits::put_audit;
use crate::parts::put_recovery;
use crate::pieces::{Line, Piece, put_lines};
use audit::Report;
use blk_base::{Block, Lba};
use disk_model::{Failed, Sink};
use rebuild::Recovered;

/// How a run on a device with a fuse ended.
#[derive(Clone, Copy, Debug, PartialEq, Eq)]
pub enum CrashStop {
    /// A call failed by the fuse.
    Stopped,
    /// None did.
    Ended,
}

/// The bytes at an address.
#[derive(Drop)]
pub struct AddressValue {
    pub at: Lba,
    pub block: Block,
}

impl Line for AddressValue {
    ghost text = { value_text };

    fn put_to<K: Sink>(&self, out: &mut K) -> Result<(), Failed> {
        put_lines(
            &[
                Piece::U32(self.at.0),
                Piece::Word(b" "),
                Piece::Runs(&self.block.bytes),
                Piece::Word(b"\n"),
            ],
            out,
        )
    }
}

/// What is left after a crash: how the run ended, and of the image that was picked its recovery, its values and its audit.
#[derive(Clone, Copy)]
pub struct Crash<'a> {
    pub stop: CrashStop,
    pub recovery: Recovered,
    /// The values of the addresses of the script below the logical size, rising.
    pub values: &'a [AddressValue],
    pub audit: &'a Report,
}

/// Puts `stopped` or `ended`, the first line of a crash; it is followed by the line of the fault where the picked image has one.
/// It fails where the sink fails; then a first part of the line was put.
pub fn put_crash_stop<K: Sink>(stop: CrashStop, out: &mut K) -> Result<(), Failed>
    ensures { Puts K.tells (stop_text stop) (K.seen out.old) (K.seen out.new) result }
{
    match stop {
        CrashStop::Stopped => out.put(b"stopped\n"),
        CrashStop::Ended => out.put(b"ended\n"),
    }
}

fn put_head<K: Sink>(stop: CrashStop, recovery: Recovered, out: &mut K) -> Result<(), Failed>
    ensures { Puts K.tells (head_text stop recovery) (K.seen out.old) (K.seen out.new) result }
{
    put_crash_stop(stop, out)?;
    put_recovery(recovery, out)
}

fn put_values<K: Sink>(values: &[AddressValue], audit: &Report, out: &mut K) -> Result<(), Failed>
    ensures { Puts K.tells
        (values_text values.now audit.now)
        (K.seen out.old) (K.seen out.new) result }
{
    put_lines(values, out)?;
    put_audit(audit, out)
}

/// Puts `stopped` or `ended`, the line of the recovery, a line `5 4096*61` for each value, and the lines of the audit. It takes no
/// memory. It fails where the sink fails; then a first part of the text was put.
pub fn put_crash<K: Sink>(crash: &Crash<'_>, out: &mut K) -> Result<(), Failed>
    ensures { Puts K.tells (crash_text crash.now) (K.seen out.old) (K.seen out.new) result }
{
    put_head(crash.stop, crash.recovery, out)?;
    put_values(crash.values, crash.audit, out)
}
