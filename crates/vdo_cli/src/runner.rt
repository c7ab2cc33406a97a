ghost use Rattle.std.specs.Prelude.{ℕ, ◌≡◌, ◌<◌, ◌^◌, Bool, IfOk, List, Some, None, IsTrue, length};
ghost use Rattle.command_text.specs.Workloads.{summary_text};
ghost use Rattle.disk_model.specs.Streams.{Puts, SinkSeen};
ghost use Rattle.stream_text.specs.AnswerRooms.{HasRoomFor};
ghost use Rattle.vdo_cli.specs.Closings.{Closes};
ghost use Rattle.vdo_cli.specs.Commands.{IsChangeWithin, IsServedWithin, IsSetup, IsWorkload, served_of};
ghost use Rattle.vdo_cli.specs.Crashes.{HasCopyOf, IsOnDevice};
ghost use Rattle.vdo_cli.specs.Inspections.{TellsReport, told_as};
ghost use Rattle.vdo_cli.specs.NewImages.{MakesImage};
ghost use Rattle.vdo_cli.specs.Openings as openings;
ghost use Rattle.vdo_cli.specs.Outsides.{Refuses, RefusesAfter, Tells, no_report, outcome, outcome_with, outside, setting};
ghost use Rattle.vdo_cli.specs.Results.{TellsResult};
ghost use Rattle.vdo_cli.specs.Runs.{EndsAs, EndsChange, EndsFlushed, EndsSo, RunsScript};
ghost use Rattle.vdo_cli.specs.Texts.{session_text};
ghost use Rattle.vdo_cli.specs.Workloads as workloads;
ghost use Rattle.vdo_cli.specs.Workloads.{EndsWorkload};

use crate::crash_end::run_crash;
use crate::endings::{
    Cause, fault_of, has_full, put_fault, put_refusal, session_notes, status_of, struck_status,
};
use crate::new_image::make_image;
use crate::ready::recovered_of;
use crate::seeded::{Worked, summary_of, work};
use crate::session::{Played, SessionFault, play};
use crate::words::{Change, Course, Served};
use crate::{Fault, Words};
use audit::{Report, audit};
use blk_base::Geometry;
use command_text::{Line, put_audit, put_run, put_summary};
use disk_model::{Disk, Failed, MemDisk, Sink, Source, ZoneGate};
use force_rebuild::force;
use grow_image::grow;
use image_model::ImageFault;
use image_status::read_status;
use rebuild::recover;
use std::alloc::Global;
use std::sync::Wait;
use std::thread::Threads;
use vdo_model::{ReportList, Requests, RunReport};
use vdo_words::WorkloadOptions;

/// A run that ended: its status, why no other one, what became of the requests (nothing where no session was begun), and
/// the device; and the copy of it as the run left it, where a stop was tried on one. The report is then that of the run there.
#[derive(Drop)]
pub struct Ended<D> {
    pub status: u8,
    pub fault: Option<Fault>,
    pub report: RunReport,
    pub device: D,
    pub copy: Option<MemDisk>,
}

// A command that ended on the device itself.
#[derive(Drop)]
pub(crate) struct Finished<D> {
    status: u8,
    fault: Option<Fault>,
    report: RunReport,
    device: D,
}

/// A command that made no copy.
pub(crate) fn without_copy<D: Disk>(finished: Finished<D>) -> Ended<D>
    ensures status { result.status ≡ finished.status }
    ensures fault { result.fault ≡ finished.fault }
    ensures report { result.report ≡ finished.report }
    ensures device { result.device ≡ finished.device }
    ensures copy { result.copy ≡ None }
{
    Ended {
        status: finished.status,
        fault: finished.fault,
        report: finished.report,
        device: finished.device,
        copy: None,
    }
}

// The report where no session was begun.
// Long to prove: what it promises is put together of the views of its parts.
fn empty_report(alloc: Global) -> RunReport
    ensures { result ≡ no_report }
{
    RunReport {
        requests: Requests::new(alloc),
        desk: ReportList::new(alloc),
        marks: ReportList::new(alloc),
        receipts: ReportList::new(alloc),
        places: ReportList::new(alloc),
        histories: ReportList::new(alloc),
        damage: None,
        used: 0,
        total: 0,
    }
}

// A command that ended so, without a session.
fn end_with<D: Disk>(alloc: Global, status: u8, fault: Option<Fault>, device: D) -> Finished<D>
    ensures status { result.status ≡ status }
    ensures fault { result.fault ≡ fault }
    ensures report { result.report ≡ no_report }
    ensures device { result.device ≡ device }
{
    Finished {
        status,
        fault,
        report: empty_report(alloc),
        device,
    }
}

/// Puts a fault's line.
pub(crate) fn refuse<D: Disk, K: Sink>(
    alloc: Global,
    fault: Fault,
    device: D,
    out: &mut K,
) -> Finished<D>
    ensures device { result.device ≡ device }
    ensures fault { result.fault ≡ Some fault }
    ensures refuses { Refuses K.tells fault result.status result.report
        (K.seen out.old) (K.seen out.new) }
{
    // The status is the fault's, whatever becomes of its line.
    let _put = put_fault(&fault, out);
    end_with(alloc, status_of(&fault), Some(fault), device)
}

// Puts a fault's line where no session was begun, behind how many entries were recovered.
fn refuse_after<D: Disk, K: Sink>(
    alloc: Global,
    not: SessionFault,
    device: D,
    out: &mut K,
) -> Finished<D>
    ensures device { result.device ≡ device }
    ensures fault { result.fault ≡ Some not.fault }
    ensures refuses { RefusesAfter K.tells not.recovered not.fault result.status result.report
        (K.seen out.old) (K.seen out.new) }
{
    let SessionFault { recovered, fault } = not;
    // The status is the fault's, whatever becomes of its line.
    let _put = put_refusal(recovered, &fault, out);
    end_with(alloc, status_of(&fault), Some(fault), device)
}

// How a session ends whose text was put so.
fn end_session<D: Disk>(report: RunReport, put: Result<(), Failed>, device: D) -> Finished<D>
    ensures device { result.device ≡ device }
    ensures report { result.report ≡ report }
    ensures closes { (tells : Bool) (text : List ℕ) (before after : SinkSeen)
        → Puts tells text before after put →
        Closes tells text report result.status result.fault before after }
{
    let struck = struck_status(&report);
    let full = has_full(report.desk.as_slice());
    let (status, fault) = match (struck, put) {
        (Some(struck), _) => (struck, None),
        (None, Err(_)) => (7, Some(Fault::Sink)),
        (None, Ok(())) => (if full { 1 } else { 0 }, None),
    };
    Finished {
        status,
        fault,
        report,
        device,
    }
}

// Puts the text of a session.
fn close<D: Disk, K: Sink>(played: Played, device: D, out: &mut K) -> Finished<D>
    requires { HasRoomFor played.room played.report.requests }
    ensures device { result.device ≡ device }
    ensures report { result.report ≡ played.report }
    ensures closes { Closes K.tells
        (session_text (openings.recovered_of played.found) played.report) played.report
        result.status result.fault (K.seen out.old) (K.seen out.new) }
{
    let Played {
        found,
        report,
        room,
    } = played;
    let notes = session_notes(recovered_of(found), &report);
    let mut room = room;
    let put = put_run(&report.requests, &report, &notes, &mut room, out);
    end_session(report, put, device)
}

// Puts the summary of a workload.
fn sum_up<D: Disk, K: Sink>(
    options: &WorkloadOptions,
    worked: Worked,
    device: D,
    out: &mut K,
) -> Finished<D>
    ensures device { result.device ≡ device }
    ensures report { result.report ≡ worked.report }
    ensures closes { Closes K.tells
        (summary_text
        (workloads.summary_of (openings.recovered_of worked.found) options.now worked.report))
        worked.report result.status result.fault (K.seen out.old) (K.seen out.new) }
{
    let Worked { found, report } = worked;
    let summary = summary_of(recovered_of(found), options, &report);
    let put = put_summary(&summary, out);
    end_session(report, put, device)
}

// Puts what was found.
fn tell<L: Line, D: Disk, K: Sink>(alloc: Global, found: &L, device: D, out: &mut K) -> Finished<D>
    ensures device { result.device ≡ device }
    ensures report { result.report ≡ no_report }
    ensures tells { Tells K.tells (L.text found.now) result.status result.fault
        (K.seen out.old) (K.seen out.new) }
{
    match found.put_to(out) {
        Ok(()) => end_with(alloc, 0, None, device),
        Err(_) => end_with(alloc, 7, Some(Fault::Sink), device),
    }
}

// Puts the report of an audit. Where blocks differ the status is theirs, whatever becomes of the text.
fn tell_report<D: Disk, K: Sink>(
    alloc: Global,
    report: &Report,
    device: D,
    out: &mut K,
) -> Finished<D>
    requires { length report.now.differs.items < 2 ^ 32 }
    ensures device { result.device ≡ device }
    ensures report { result.report ≡ no_report }
    ensures tells { TellsReport K.tells report.now result.status result.fault
        (K.seen out.old) (K.seen out.new) }
{
    let differ = report.differs.len() as u32;
    if differ == 0 {
        return tell(alloc, report, device, out);
    }
    let _put = put_audit(report, out);
    end_with(alloc, 6, Some(Fault::Differs(differ)), device)
}

// Tells what a command found, or why it found nothing.
fn end<L: Line + Drop, W: Cause, D: Disk, K: Sink>(
    alloc: Global,
    work: Result<L, W>,
    device: D,
    out: &mut K,
) -> Finished<D>
    ensures device { result.device ≡ device }
    ensures ends { TellsResult K.tells (λ found. Tells K.tells (L.text found)) W.told work
        (K.seen out.old) (K.seen out.new) (outcome result.status result.report result.fault) }
{
    match work {
        Ok(found) => tell(alloc, &found, device, out),
        Err(why) => refuse(alloc, why.to_fault(), device, out),
    }
}

// Tells what an audit found, or why nothing.
fn end_audit<D: Disk, K: Sink>(
    alloc: Global,
    work: Result<Report, ImageFault>,
    device: D,
    out: &mut K,
) -> Finished<D>
    requires { IfOk work (λ report. length report.differs.items < 2 ^ 32) }
    ensures device { result.device ≡ device }
    ensures ends { TellsResult K.tells (TellsReport K.tells) told_as work
        (K.seen out.old) (K.seen out.new) (outcome result.status result.report result.fault) }
{
    match work {
        Ok(report) => tell_report(alloc, &report, device, out),
        Err(why) => refuse(alloc, fault_of(why), device, out),
    }
}

// Serves a script so.
fn run_script<R: Wait, D: Disk, S: Source, K: Sink>(
    rt: &R,
    alloc: Global,
    course: Course,
    device: D,
    script: &mut S,
    out: &mut K,
) -> Finished<D>
    requires { IsSetup course.setup }
    ensures { RunsScript (setting D.trust S.tells K.tells) course
        (outside (D.seen device) (S.seen script.old) (K.seen out.old))
        (outside (D.seen result.device) (S.seen script.new) (K.seen out.new))
        (outcome result.status result.report result.fault) }
{
    let mut device = device;
    match play(rt, alloc, course, &mut device, script) {
        Ok(played) => close(played, device, out),
        Err(not) => refuse_after(alloc, not, device, out),
    }
}

// Serves the requests of a seed.
fn run_workload<R: Wait, D: Disk, S: Source, K: Sink>(
    rt: &R,
    alloc: Global,
    options: &WorkloadOptions,
    device: D,
    script: &S,
    out: &mut K,
) -> Finished<D>
    requires { IsWorkload options.now }
    ensures { EndsWorkload (setting D.trust S.tells K.tells) options.now
        (outside (D.seen device) (S.seen script.now) (K.seen out.old))
        (outside (D.seen result.device) (S.seen script.now) (K.seen out.new))
        (outcome result.status result.report result.fault) }
{
    let mut device = device;
    match work(rt, alloc, options, &mut device) {
        Ok(worked) => sum_up(options, worked, device, out),
        Err(not) => refuse_after(alloc, not, device, out),
    }
}

// Makes an empty image of these sizes.
fn format<D: Disk, S: Source, K: Sink>(
    alloc: Global,
    sizes: &Geometry,
    device: D,
    script: &S,
    out: &mut K,
) -> Finished<D>
    ensures { MakesImage (setting D.trust S.tells K.tells) sizes.now
        (outside (D.seen device) (S.seen script.now) (K.seen out.old))
        (outside (D.seen result.device) (S.seen script.now) (K.seen out.new))
        (outcome result.status result.report result.fault) }
{
    let mut device = device;
    match make_image(sizes, &mut device) {
        Ok(layout) => tell(alloc, &layout, device, out),
        Err(fault) => refuse(alloc, fault, device, out),
    }
}

// Changes an image, on a device that was flushed before.
fn change<R: Wait, D: Disk, S: Source, K: Sink>(
    rt: &R,
    alloc: Global,
    asked: Change,
    device: D,
    script: &mut S,
    out: &mut K,
) -> Finished<D>
    requires within { IsChangeWithin asked }
    ensures { EndsChange (setting D.trust S.tells K.tells) asked
        (outside (D.seen device) (S.seen script.old) (K.seen out.old))
        (outside (D.seen result.device) (S.seen script.new) (K.seen out.new))
        (outcome result.status result.report result.fault) }
{
    let mut device = device;
    match asked {
        Change::Script(course) => run_script(rt, alloc, course, device, script, out),
        Change::Workload(options) => run_workload(rt, alloc, &options, device, script, out),
        Change::Recover => end(alloc, recover(alloc, &mut device), device, out),
        Change::ForceRebuild => end(alloc, force(alloc, &mut device), device, out),
        Change::Grow(options) => {
            let grown = grow(alloc, &mut device, options.logical, options.slabs);
            end(alloc, grown, device, out)
        }
    }
}

// Flushes the device, and then changes its image. What a program before this one wrote may be in the system's memory alone:
// what is read here must not be lost behind what is written by it.
fn flush_and_change<R: Wait, D: Disk, S: Source, K: Sink>(
    rt: &R,
    alloc: Global,
    asked: Change,
    device: D,
    script: &mut S,
    out: &mut K,
) -> Finished<D>
    requires within { IsChangeWithin asked }
    ensures { EndsFlushed (setting D.trust S.tells K.tells) asked
        (outside (D.seen device) (S.seen script.old) (K.seen out.old))
        (outside (D.seen result.device) (S.seen script.new) (K.seen out.new))
        (outcome result.status result.report result.fault) }
{
    let mut device = device;
    match device.flush() {
        Ok(()) => change(rt, alloc, asked, device, script, out),
        Err(_) => refuse(alloc, Fault::Device, device, out),
    }
}

// Does what is served on the device itself.
// Long to prove: each command ends by a clause of its own.
fn serve_on_device<R: Wait, D: Disk, S: Source, K: Sink>(
    rt: &R,
    alloc: Global,
    served: Option<Served>,
    device: D,
    script: &mut S,
    out: &mut K,
) -> Finished<D>
    requires within { IsServedWithin served }
    requires here { IsOnDevice served }
    ensures { EndsAs (setting D.trust S.tells K.tells) served
        (outside (D.seen device) (S.seen script.old) (K.seen out.old))
        (outside (D.seen result.device) (S.seen script.new) (K.seen out.new))
        (outcome result.status result.report result.fault) }
{
    let mut device = device;
    match served {
        Some(Served::Change(asked)) => flush_and_change(rt, alloc, asked, device, script, out),
        Some(Served::Format(sizes)) => format(alloc, &sizes, device, script, out),
        Some(Served::Audit) => end_audit(alloc, audit(alloc, &mut device), device, out),
        Some(Served::Status) => end(alloc, read_status(alloc, &mut device), device, out),
        Some(Served::Crash(_)) => unreachable!(),
        None => refuse(alloc, Fault::Usage, device, out),
    }
}

/// Does what the words say. `run`, or `run --schedule N`: the requests of the script, each stream's in its order, are
/// served on the device's image by the zones of a core, whose steps and moves come in the order of the schedule N (0
/// where none is given). `--depth` says how many requests of a stream are under way at most (1 to 16), `--logical-zones` and
/// `--physical-zones` into how many zones the core is divided (1 to 4 each); 1 where none is given, and none of them is on the
/// image. An image whose last session wasn't closed is recovered first, and how many entries of its journal were used is put.
/// Then come the answers, one line for each, and the damage, if a leaf was found that doesn't decode. What earlier
/// runs wrote is there again. `workload`: the requests of a seed are served so in place of a script's, which isn't looked at, and how
/// many were answered how is put. `crash`, with `--after` and `--image`: the script is run on a copy of the device in memory, of which
/// so many calls go on and each later one fails, and the image of this number is looked at that a stop may leave there: whether a call
/// failed is put, then how many entries of its journal were used, the value of each address of the script, and its audit; the device is
/// read and no more, and the copy comes back with its log. `format`, with the sizes of an image as its options: an empty image
/// is made on the device, and a line says so. `recover`: an image whose last session wasn't closed is closed, and how many
/// entries of its journal were used is told; a sound one says the same then; nothing is written where it was closed.
/// `force-rebuild`: each data block gets the number of its mappings as its stored count, whatever the image's counters and
/// slabs' journals hold, the image is closed, and how many blocks are used is told; each address keeps its value, where
/// nothing in the recovery journal is from a later time.
/// `grow`, with `--logical` and `--slabs`: an image whose last session was closed gets so many addresses and slabs; each old
/// address keeps its value, each new one has zeros, and how large the image is then is told.
/// `audit`: each data block whose stored count isn't the number of its mappings is told, or how many are used where
/// none differs; nothing is written. `status`: what the image says of itself is told, and nothing is written.
///
/// `run`, `workload`, `recover`, `force-rebuild` and `grow` flush the device before they read it: what an earlier call wrote may be
/// pending there. Where that flush fails, nothing else is done.
///
/// On an honest device of which that flush leaves one image, and that is sound, a stop at any later moment of the run of a script leaves
/// a sound image, on which the next run may begin: each stored count is the number of mappings, also where no session was begun.
/// Until the session begins each address has the value that it had. From then on, as long as 2^20 sequences were left, it has that
/// value or the one of one of its writes: of none older than the last one that was answered before a flush was begun which was
/// answered too (docs/DESIGN.md, "A stop"); and no damage is found. The report's marks say which calls of the device made the
/// flushes last. Where the device or the image ends the call before a session, nothing was taken of the script.
///
/// A stop while an image is made leaves what the old image said, or no image, or an empty one. One while a sound image is
/// recovered leaves a sound one that says the same. One while an image is rebuilt leaves one with the same map, which can be
/// rebuilt again. One while a sound image grows leaves it as it was, or grown.
///
/// | Status | Comes where |
/// |---|---|
/// | 0 | each request was answered Ok, or with bytes; or what a stop leaves was told; or the image was made; or recovered, or was closed; or rebuilt, or grown; or no block differs, or the status was told |
/// | 1 | a request was answered Full, as no journal block was left for its entry or that of a page, or NoSpace, as at one moment no data block was free |
/// | 2 | the words are no command that is served (`Usage`) or a line of the script has a fault (`Script`) |
/// | 3 | the device failed: in the first flush, or before the script was read, or while it was copied, or while an image was made, recovered, rebuilt, grown or looked at (`Device`), or a request was answered Stopped or with a read fault |
/// | 4 | the device has no image, or the image that was picked is none, or it has a fault in its window, a page or a count (`Image`); or it isn't closed, or has a mapping in an address that it is to get (`Image`, `Grow`); or a session found damage |
/// | 5 | memory ran out before the first request was served, or at any moment of a crash, or while an image was looked at, or before the first write of a recovery, a rebuild or a growth (`Memory`) |
/// | 6 | an audit found blocks that differ, also that of a picked image (`Differs`) |
/// | 7 | the source or the sink failed (`Read`, `Sink`) |
/// | 8 | an image of these sizes can't be had on the device, or it has too many blocks for a crash (`Layout`), or the image is larger (`Grow`) |
///
/// The first that applies is taken in this order: words, flush, superblock, image, script; and of a session 4, 3, 7, 1, 0.
pub fn run<R: Threads + Wait + Sync, D: Disk + Send + Drop, S: Source, K: Sink, G: ZoneGate + Sync>(
    rt: &R,
    words: &Words,
    device: D,
    script: &mut S,
    out: &mut K,
    gate: &G,
) -> Ended<D>
    ensures ends { EndsSo (setting D.trust S.tells K.tells) words.now
        (outside (D.seen device) (S.seen script.old) (K.seen out.old))
        (outside (D.seen result.device) (S.seen script.new) (K.seen out.new))
        (outcome_with result.status result.report result.fault result.copy) }
    ensures copy { HasCopyOf (served_of words.now) result.copy }
{
    let alloc = words.allocator();
    match words.served() {
        Some(Served::Crash(options)) => run_crash(rt, alloc, &options, device, script, out),
        served => without_copy(serve_on_device(rt, alloc, served, device, script, out)),
    }
}
