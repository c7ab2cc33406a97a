ghost use Rattle.std.specs.Prelude.{◌≡◌, ◌<◌, ◌^◌, IfOk, IfErr, length};
ghost use Rattle.disk_model.specs.Log.{Blocks};
ghost use Rattle.disk_model.specs.Memory.{fresh};
ghost use Rattle.disk_model.specs.Since.{IsUntouched};
ghost use Rattle.crash_images.specs.Shows.{IsPickShown, PickFails};
ghost use Rattle.stream_text.specs.ReadingBytes.{IsWholeScript};
ghost use Rattle.vdo_cli.specs.Commands as commands;
ghost use Rattle.vdo_cli.specs.Commands.{IsSetup};
ghost use Rattle.vdo_cli.specs.Crashes as crashes;
ghost use Rattle.vdo_cli.specs.Crashes.{CopyFails, CrashFails, IsServedOrNot, IsTried, IsWholeCopy, RunsFlushed, RunsOnCopy};
ghost use Rattle.vdo_cli.specs.Outsides.{input_setting, inputs};

use crate::Fault;
use crate::ready::{OpeningFault, get_ready};
use crate::session::{read_requests, serve};
use crate::words::{Course, course_of};
use crash_images::{CutDisk, Shown, copy_of, show_pick};
use disk_model::{BlocksFault, Disk, MemDisk, Source};
use image_layout::LayoutFault;
use image_model::ImageFault;
use std::alloc::{AllocError, Global};
use std::sync::Wait;
use vdo_model::{ReportList, Requests, RunReport};
use vdo_words::CrashOptions;

/// A device with more blocks isn't copied.
const MOST_BLOCKS: u32 = 65_536;

/// What requests that were run on a copy left of it.
#[derive(Drop)]
pub(crate) struct Tried {
    pub(crate) copy: MemDisk,
    pub(crate) report: RunReport,
}

/// A run on a copy, and what the image shows that was picked behind it, or why it shows nothing.
#[derive(Drop)]
pub(crate) struct Crashed {
    pub(crate) tried: Tried,
    pub(crate) shown: Result<Shown, ImageFault>,
}

// The device in memory, if it has few enough blocks.
fn copy_whole<D: Disk>(alloc: Global, device: &mut D) -> Result<MemDisk, Fault>
    ensures copy { IfOk result
        (IsWholeCopy D.trust (D.seen device.old) (D.seen device.new)) }
    ensures fault { IfErr result
        (CopyFails D.trust (D.seen device.old) (D.seen device.new)) }
    ensures untouched { IsUntouched D.trust.tells (D.seen device.old) (D.seen device.new) }
{
    let has = device.blocks();
    if has > MOST_BLOCKS {
        return Err(Fault::Layout(LayoutFault::TooLargeToCrash { has }));
    }
    match copy_of(alloc, device) {
        Ok(copy) => Ok(copy),
        Err(BlocksFault::Device) => Err(Fault::Device),
        Err(BlocksFault::Memory) => Err(Fault::Memory),
    }
}

// The report of requests of which none was begun.
fn unserved(alloc: Global, requests: Requests) -> RunReport
    ensures { result ≡ crashes.unserved requests }
{
    RunReport {
        requests,
        desk: ReportList::new(alloc),
        marks: ReportList::new(alloc),
        receipts: ReportList::new(alloc),
        places: ReportList::new(alloc),
        histories: ReportList::new(alloc),
        damage: None,
        used: 0,
        total: 0,
    }
}

// Serves requests on the image of a device that was flushed, recovered where its last session wasn't closed; none where it is
// refused. It fails where memory runs out.
fn serve_flushed<R: Wait, D: Disk>(
    rt: &R,
    alloc: Global,
    course: Course,
    requests: Requests,
    device: &mut D,
) -> Result<RunReport, AllocError>
    requires whole { IsWholeScript requests }
    requires setup { IsSetup course.setup }
    ensures runs { IfOk result (λ report. IsServedOrNot D.trust
        course report (D.seen device.old) (D.seen device.new)) }
    ensures requests { IfOk result (λ report. report.requests ≡ requests) }
{
    match get_ready(alloc, device) {
        Ok(ready) => serve(rt, alloc, course, &ready, requests, device),
        Err(
            OpeningFault {
                why: ImageFault::Memory,
                ..
            },
        ) => Err(AllocError),
        Err(_) => Ok(unserved(alloc, requests)),
    }
}

// Flushes a device, as each run does, and then serves requests on its image; none where the flush fails. It fails where memory
// runs out.
fn serve_on<R: Wait, D: Disk>(
    rt: &R,
    alloc: Global,
    course: Course,
    requests: Requests,
    device: &mut D,
) -> Result<RunReport, AllocError>
    requires whole { IsWholeScript requests }
    requires setup { IsSetup course.setup }
    ensures runs { IfOk result (λ report. RunsFlushed D.trust
        course report (D.seen device.old) (D.seen device.new)) }
    ensures requests { IfOk result (λ report. report.requests ≡ requests) }
{
    match device.flush() {
        Ok(()) => serve_flushed(rt, alloc, course, requests, device),
        Err(_) => Ok(unserved(alloc, requests)),
    }
}

// Runs requests on a copy, which is cut off behind so many calls. It fails where memory runs out, also for a place in its log.
fn run_on_copy<R: Wait>(
    rt: &R,
    alloc: Global,
    options: &CrashOptions,
    requests: Requests,
    copy: MemDisk,
) -> Result<Tried, AllocError>
    requires whole { IsWholeScript requests }
    requires setup { IsSetup (commands.setup_of options.now.core) }
    requires fresh { (blocks : Blocks) × (copy ≡ fresh blocks) }
    ensures tried { IfOk result (λ tried. IsTried options.now tried.report copy tried.copy) }
    ensures requests { IfOk result (λ tried. tried.report.requests ≡ requests) }
{
    let mut cut = CutDisk::over(copy, options.after);
    let course = course_of(options.schedule, &options.core);
    let report = serve_on(rt, alloc, course, requests, &mut cut)?;
    // Asked for the proof alone: the copy wasn't put in place by another one.
    if cut.passes() != options.after {
        return Err(AllocError);
    }
    let copy = cut.into_disk();
    if copy.unkept() > 0 {
        return Err(AllocError);
    }
    Ok(Tried { copy, report })
}

// Long to prove: each clause is shown on each way out.
/// Copies the device, runs the script on the copy, which is cut off behind so many calls, and looks at the image that a number
/// picks of those that a stop may leave there. The device is read and no more.
pub(crate) fn crash<R: Wait, D: Disk, S: Source>(
    rt: &R,
    alloc: Global,
    options: &CrashOptions,
    device: &mut D,
    script: &mut S,
) -> Result<Crashed, Fault>
    requires setup { IsSetup (commands.setup_of options.now.core) }
    ensures run { IfOk result (λ crashed. RunsOnCopy (input_setting D.trust S.tells)
        options.now crashed.tried.report
        (inputs (D.seen device.old) (S.seen script.old))
        (inputs (D.seen device.new) (S.seen script.new)) crashed.tried.copy) }
    ensures shown { IfOk result (λ crashed. IfOk crashed.shown
        (IsPickShown crashed.tried.copy options.now.image crashed.tried.report.requests)) }
    ensures few { IfOk result (λ crashed. IfOk crashed.shown
        (λ shown. length shown.audit.differs.items < 2 ^ 32)) }
    ensures refused { IfOk result (λ crashed. IfErr crashed.shown
        (PickFails crashed.tried.copy options.now.image)) }
    ensures fault { IfErr result (CrashFails (input_setting D.trust S.tells)
        (inputs (D.seen device.old) (S.seen script.old))
        (inputs (D.seen device.new) (S.seen script.new))) }
    ensures untouched { IsUntouched D.trust.tells (D.seen device.old) (D.seen device.new) }
{
    let copy = copy_whole(alloc, device)?;
    let requests = read_requests(alloc, script)?;
    let Ok(tried) = run_on_copy(rt, alloc, options, requests, copy) else {
        return Err(Fault::Memory);
    };
    let shown = show_pick(alloc, &tried.copy, options.image, &tried.report.requests);
    Ok(Crashed { tried, shown })
}
