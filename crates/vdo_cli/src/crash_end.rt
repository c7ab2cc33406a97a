ghost use Rattle.std.specs.Prelude.{◌≡◌, ◌<◌, ◌^◌, Some, length, reverse};
ghost use Rattle.crash_images.specs.Cuts as cuts;
ghost use Rattle.disk_model.specs.Streams.{Puts};
ghost use Rattle.vdo_cli.specs.Commands.{IsSetup, setup_of};
ghost use Rattle.vdo_cli.specs.Crashes.{EndsCrash, TellsAudit, not_shown_text, shown_text};
ghost use Rattle.vdo_cli.specs.Inspections.{told_as};
ghost use Rattle.vdo_cli.specs.Outsides.{PutsOrFails, outcome_with, outside, setting};
ghost use Rattle.vdo_cli.specs.Texts.{fault_status};

use crate::Fault;
use crate::crash::{Crashed, Tried, crash};
use crate::endings::{fault_of, put_fault, status_of};
use crate::runner::{Ended, refuse, without_copy};
use command_text::{Crash, CrashStop, put_crash, put_crash_stop};
use crash_images::Shown;
use disk_model::{Call, Disk, Failed, Sink, Source};
use image_model::ImageFault;
use std::alloc::Global;
use std::sync::Wait;
use vdo_words::CrashOptions;

// How a run ended on a device of which so many calls go on.
fn stop_of(calls: &[Call], after: u64) -> CrashStop
    ensures { result ≡ cuts.stop_of after (reverse calls.now) }
{
    if calls.len() as u64 > after {
        CrashStop::Stopped
    } else {
        CrashStop::Ended
    }
}

// Puts what a picked image shows. Where blocks differ the status is theirs, whatever becomes of the text.
fn tell_shown<K: Sink>(stop: CrashStop, shown: &Shown, out: &mut K) -> (u8, Option<Fault>)
    requires { length shown.now.audit.differs.items < 2 ^ 32 }
    ensures { TellsAudit K.tells (shown_text stop shown.now) shown.now.audit result.0 result.1
        (K.seen out.old) (K.seen out.new) }
{
    let crash = Crash {
        stop,
        recovery: shown.recovery,
        values: &shown.values,
        audit: &shown.audit,
    };
    let put = put_crash(&crash, out);
    let differ = shown.audit.differs.len() as u32;
    if differ > 0 {
        return (6, Some(Fault::Differs(differ)));
    }
    match put {
        Ok(()) => (0, None),
        Err(_) => (7, Some(Fault::Sink)),
    }
}

// Puts how a run ended, and the line of a picked image's fault.
fn put_not_shown<K: Sink>(stop: CrashStop, fault: &Fault, out: &mut K) -> Result<(), Failed>
    ensures { Puts K.tells (not_shown_text stop fault.now) (K.seen out.old) (K.seen out.new)
        result }
{
    put_crash_stop(stop, out)?;
    put_fault(fault, out)
}

// A run on a copy that ended so.
fn end_run<D: Disk>(status: u8, fault: Option<Fault>, tried: Tried, device: D) -> Ended<D>
    ensures status { result.status ≡ status }
    ensures fault { result.fault ≡ fault }
    ensures report { result.report ≡ tried.report }
    ensures device { result.device ≡ device }
    ensures copy { result.copy ≡ Some tried.copy }
{
    Ended {
        status,
        fault,
        report: tried.report,
        device,
        copy: Some(tried.copy),
    }
}

// Puts what the picked image shows.
fn tell_crash<D: Disk, K: Sink>(
    after: u64,
    tried: Tried,
    shown: &Shown,
    device: D,
    out: &mut K,
) -> Ended<D>
    requires { length shown.now.audit.differs.items < 2 ^ 32 }
    ensures report { result.report ≡ tried.report }
    ensures device { result.device ≡ device }
    ensures copy { result.copy ≡ Some tried.copy }
    ensures told { TellsAudit K.tells
        (shown_text (cuts.stop_of after tried.copy.log) shown.now) shown.now.audit
        result.status result.fault (K.seen out.old) (K.seen out.new) }
{
    let stop = stop_of(tried.copy.calls(), after);
    let (status, fault) = tell_shown(stop, shown, out);
    end_run(status, fault, tried, device)
}

// Puts the fault of the picked image.
fn refuse_crash<D: Disk, K: Sink>(
    after: u64,
    tried: Tried,
    why: ImageFault,
    device: D,
    out: &mut K,
) -> Ended<D>
    ensures status { result.status ≡ fault_status (told_as why) }
    ensures fault { result.fault ≡ Some (told_as why) }
    ensures report { result.report ≡ tried.report }
    ensures device { result.device ≡ device }
    ensures copy { result.copy ≡ Some tried.copy }
    ensures puts { PutsOrFails K.tells
        (not_shown_text (cuts.stop_of after tried.copy.log) (told_as why))
        (K.seen out.old) (K.seen out.new) }
{
    let stop = stop_of(tried.copy.calls(), after);
    let fault = fault_of(why);
    // The status is the fault's, whatever becomes of its line.
    let _put = put_not_shown(stop, &fault, out);
    end_run(status_of(&fault), Some(fault), tried, device)
}

// Long to prove: each clause is shown on each way out.
/// Tries a stop of a script on a copy of the device.
pub(crate) fn run_crash<R: Wait, D: Disk, S: Source, K: Sink>(
    rt: &R,
    alloc: Global,
    options: &CrashOptions,
    device: D,
    script: &mut S,
    out: &mut K,
) -> Ended<D>
    requires { IsSetup (setup_of options.now.core) }
    ensures { EndsCrash (setting D.trust S.tells K.tells) options.now
        (outside (D.seen device) (S.seen script.old) (K.seen out.old))
        (outside (D.seen result.device) (S.seen script.new) (K.seen out.new))
        (outcome_with result.status result.report result.fault result.copy) }
{
    let mut device = device;
    let Crashed { tried, shown } = match crash(rt, alloc, options, &mut device, script) {
        Ok(crashed) => crashed,
        Err(fault) => return without_copy(refuse(alloc, fault, device, out)),
    };
    match shown {
        Ok(shown) => tell_crash(options.after, tried, &shown, device, out),
        Err(why) => refuse_crash(options.after, tried, why, device, out),
    }
}
