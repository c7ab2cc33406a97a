ghost use Rattle.std.specs.Prelude.{◌≡◌, ◌++◌, codes, decimal, reverse};
ghost use Rattle.disk_model.specs.Streams.{Puts};
ghost use Rattle.vdo_cli.specs.declared.fault.Fault.{Fault};
ghost use Rattle.vdo_cli.specs.Growths.{grow_told_as};
ghost use Rattle.vdo_cli.specs.Inspections.{told_as};
ghost use Rattle.vdo_cli.specs.Texts as texts;
ghost use Rattle.vdo_cli.specs.Texts.{fault_text, fault_status, grow_status, line_fault_text, lost_line, full_line, refusal_text, some_lost, some_full};

use crate::Fault;
use blk_base::Answer;
use command_text::{
    DamagedPlace, Piece, RunNotes, Space, put_differs, put_grow_fault, put_image_fault,
    put_layout_fault, put_lines, put_recovered,
};
use disk_model::{Failed, Sink};
use grow_image::GrowFault;
use image_model::ImageFault;
use stream_text::LineFault;
use vdo_model::{Damage, DeskLine, RunReport};

// What the line of a script's fault ends with.
fn script_fault_end(fault: LineFault) -> &'static [u8]
    ensures { result.now ≡ codes ": " ++ line_fault_text fault ++ codes "\n" }
{
    match fault {
        LineFault::TooLong => b": too long\n",
        LineFault::Word => b": word\n",
        LineFault::Number => b": number\n",
        LineFault::Stream => b": stream\n",
        LineFault::Range => b": range\n",
        LineFault::BlockLength => b": block length\n",
        LineFault::TooMany => b": too many\n",
    }
}

// Puts the line of a script that is refused at this line.
fn put_script_line<K: Sink>(line: u64, end: &[u8], out: &mut K) -> Result<(), Failed>
    ensures { Puts K.tells
        (codes "script line " ++ decimal line ++ end.now)
        (K.seen out.old) (K.seen out.new) result }
{
    put_lines(
        &[
            Piece::Word(b"script line "),
            Piece::U64(line),
            Piece::Word(end),
        ],
        out,
    )
}

/// Puts the line of a fault. Where the sink is the fault, nothing is put.
pub fn put_fault<K: Sink>(fault: &Fault, out: &mut K) -> Result<(), Failed>
    ensures { Puts K.tells (fault_text fault.now) (K.seen out.old) (K.seen out.new) result }
{
    let line: &[u8] = match fault {
        Fault::Script(why) => return put_script_line(why.line, script_fault_end(why.fault), out),
        Fault::Image(why) => return put_image_fault(*why, out),
        Fault::Differs(count) => return put_differs(*count as u64, out),
        Fault::Layout(why) => return put_layout_fault(*why, out),
        Fault::Grow(why) => return put_grow_fault(*why, out),
        Fault::Usage => b"usage\n",
        Fault::Device => b"device fault\n",
        Fault::Memory => b"no memory\n",
        Fault::Read => b"read fault\n",
        Fault::Sink => b"",
    };
    out.put(line)
}

/// Puts how many entries were recovered, where there was a recovery, and the line of a fault.
pub(crate) fn put_refusal<K: Sink>(
    recovered: Option<u32>,
    fault: &Fault,
    out: &mut K,
) -> Result<(), Failed>
    ensures { Puts K.tells (refusal_text recovered fault.now) (K.seen out.old) (K.seen out.new)
        result }
{
    put_recovered(recovered, out)?;
    put_fault(fault, out)
}

/// The fault of a run for that of an image.
pub(crate) fn fault_of(why: ImageFault) -> Fault
    ensures { result ≡ told_as why }
{
    match why {
        ImageFault::Device => Fault::Device,
        ImageFault::Memory => Fault::Memory,
        other => Fault::Image(other),
    }
}

/// Why a command found nothing.
pub(crate) trait Cause {
    /// The fault of a run for it.
    ghost told: { Self → Fault };

    /// That fault.
    fn to_fault(self) -> Fault
        ensures { result ≡ told self };
}

impl Cause for ImageFault {
    ghost told = { told_as };

    fn to_fault(self) -> Fault {
        fault_of(self)
    }
}

impl Cause for GrowFault {
    ghost told = { grow_told_as };

    fn to_fault(self) -> Fault {
        match self {
            GrowFault::Image(fault) => fault_of(fault),
            GrowFault::Layout(fault) => Fault::Layout(fault),
            GrowFault::Smaller(_) | GrowFault::Mapped { .. } => Fault::Grow(self),
        }
    }
}

// The status of an image that didn't grow.
fn growth_status(why: &GrowFault) -> u8
    ensures { result ≡ grow_status why.now }
{
    match why {
        GrowFault::Image(_) | GrowFault::Mapped { .. } => 4,
        GrowFault::Smaller(_) | GrowFault::Layout(_) => 8,
    }
}

/// The status of a fault.
pub(crate) fn status_of(fault: &Fault) -> u8
    ensures { result ≡ fault_status fault.now }
{
    match fault {
        Fault::Usage | Fault::Script(_) => 2,
        Fault::Device => 3,
        Fault::Image(_) => 4,
        Fault::Memory => 5,
        Fault::Differs(_) => 6,
        Fault::Read | Fault::Sink => 7,
        Fault::Layout(_) => 8,
        Fault::Grow(why) => growth_status(why),
    }
}

// Whether a line answers Stopped, a read fault or damage.
fn is_lost(line: &DeskLine) -> bool
    ensures { result ≡ lost_line line.now }
{
    matches!(
        line,
        DeskLine::Answer {
            answer: Answer::Stopped | Answer::ReadFault | Answer::Damaged,
            ..
        }
    )
}

// Whether a line answers that there was no room.
fn is_full(line: &DeskLine) -> bool
    ensures { result ≡ full_line line.now }
{
    matches!(
        line,
        DeskLine::Answer {
            answer: Answer::Full | Answer::NoSpace,
            ..
        }
    )
}

// Whether a request was answered Stopped, with a read fault or with damage.
fn has_lost(desk: &[DeskLine]) -> bool
    ensures { result ≡ some_lost (reverse desk.now) }
{
    desk.iter().any(|line| is_lost(line))
}

/// Whether a request was answered that there was no room.
pub(crate) fn has_full(desk: &[DeskLine]) -> bool
    ensures { result ≡ some_full (reverse desk.now) }
{
    desk.iter().any(|line| is_full(line))
}

/// The status of a session that met damage, or of which the device failed, whatever becomes of its text.
pub(crate) fn struck_status(report: &RunReport) -> Option<u8>
    ensures { result ≡ texts.struck_status report.now }
{
    match report.damage {
        Some(_) => Some(4),
        None => {
            if has_lost(report.desk.as_slice()) {
                Some(3)
            } else {
                None
            }
        }
    }
}

// The place of a damage, as it is put.
fn damaged_place(damage: Damage) -> DamagedPlace
    ensures { result ≡ texts.damaged_place damage }
{
    match damage {
        Damage::Page { at, .. } => DamagedPlace::Page(at),
        Damage::Stray { at, .. } => DamagedPlace::Count(at),
    }
}

/// What is put beside the answers of a session: how many entries were recovered before, its damage, and how much of the space is
/// used.
pub(crate) fn session_notes(recovered: Option<u32>, report: &RunReport) -> RunNotes
    ensures { result ≡ texts.session_notes recovered report.now }
{
    let damage = match report.damage {
        Some(damage) => Some(damaged_place(damage)),
        None => None,
    };
    RunNotes {
        recovered,
        damage,
        space: Some(Space {
            used: report.used,
            total: report.total,
        }),
    }
}
