//! What the program's one call tells of an image, and what it leaves of the device.

ghost use Rattle.std.specs.Prelude.{ℕ, ◌≡◌, ◌≢◌, ◌⊎◌, ◌++◌, [], ◌∷◌, true, IsTrue, List, None, Ok, Some, codes};
ghost use Rattle.audit.specs.Reports.{HasNoFault};
ghost use Rattle.audit.specs.declared.forms.Report.{Report};
ghost use Rattle.blk_base.specs.declared.geometry.Super.{Super};
ghost use Rattle.blk_base.specs.declared.journal_entry.CommittedEntry.{CommittedEntry};
ghost use Rattle.blk_base.specs.declared.opened.Opened.{Opened};
ghost use Rattle.command_text.specs.Audits.{report_text};
ghost use Rattle.core_model.specs.Trace.{Trace};
ghost use Rattle.crash_images.specs.Cuts.{stop_of};
ghost use Rattle.crash_images.specs.Shows.{IsPickShown};
ghost use Rattle.crash_images.specs.declared.shown.Shown.{Shown as Shows};
ghost use Rattle.disk_model.specs.declared.call.Call.{Call};
ghost use Rattle.disk_model.specs.declared.call.Call.TheVariants.{Flush};
ghost use Rattle.disk_model.specs.Causes.{Rose};
ghost use Rattle.disk_model.specs.Log.{Blocks};
ghost use Rattle.disk_model.specs.Memory.{Memory, seen_of};
ghost use Rattle.disk_model.specs.Seen.{Seen};
ghost use Rattle.disk_model.specs.Since.{OnlyReads, SinceThen};
ghost use Rattle.image_model.specs.Sound.{IsSound, Opens, image_of};
ghost use Rattle.image_model.specs.declared.fault.ImageFault.TheVariants.{Unclean};
ghost use Rattle.rebuild.specs.Openings.{IsCleanImage};
ghost use Rattle.rebuild.specs.Recoveries.{IsUnclean};
ghost use Rattle.stream_text.specs.WholeScript.{whole_script};
ghost use Rattle.stream_text.specs.Workloads.{workload_of};
ghost use Rattle.vdo_cli.specs.Commands.{options_of};
ghost use Rattle.vdo_cli.specs.Complete.{NoneRose};
ghost use Rattle.vdo_cli.specs.Crashes.{RunsFlushed, of_memory, shown_text};
ghost use Rattle.vdo_cli.specs.Flushes.{Settles};
ghost use Rattle.vdo_cli.specs.Outsides.{outside};
ghost use Rattle.vdo_cli.specs.Sessions.{IsDriven, task};
ghost use Rattle.vdo_cli.specs.declared.fault.Fault.TheVariants as fault;
ghost use Rattle.vdo_core.specs.declared.cores.Setup.{Setup};
ghost use Rattle.vdo_model.specs.DeskLog.{IsDeskLog};
ghost use Rattle.vdo_model.specs.Places.{ArePlaces};
ghost use Rattle.vdo_model.specs.Scripts.{Script};
ghost use Rattle.vdo_words.specs.Commands.{command_of};
ghost use Rattle.vdo_words.specs.declared.commands.Command.TheVariants.{Audit, Crash, ForceRebuild, Grow, Recover, Run, Workload};
ghost use Rattle.vdo_words.specs.declared.commands.CrashOptions.{CrashOptions};
ghost use Rattle.vdo_words.specs.declared.commands.Drive.TheVariants.{Schedule};
ghost use Rattle.vdo_words.specs.declared.commands.GrowOptions.{GrowOptions};
ghost use Rattle.vdo_words.specs.declared.commands.WorkloadOptions.{WorkloadOptions};

use disk_model::{Disk, Sink, Source, ZoneGate};
use std::sync::Wait;
use std::thread::Threads;
use vdo_cli::{Ended, Words, a_run_without_faults_is_complete, run};

// Where the sink didn't fail, the run of a script doesn't say that it did.
fn no_fault_of_the_sink_is_made_up<
    R: Threads + Wait + Sync,
    D: Disk + Send + Drop,
    S: Source,
    K: Sink,
    G: ZoneGate + Sync,
>(rt: &R, words: &Words, device: D, script: &mut S, out: &mut K, gate: &G) -> Ended<D>
    ensures { (schedule : ℕ) (setup : Setup) → command_of words.now
        ≡ Some (Run (record { drive = Schedule schedule; core = options_of setup })) →
        (Rose (K.seen out.old).faults (K.seen out.new).faults → ⊥) →
        result.fault ≢ Some fault.Sink }
{
    run(rt, words, device, script, out, gate)
}

// A script is served on each sound image, also on one whose last session wasn't closed: where nothing failed, a fault is
// want of memory.
fn a_sound_image_is_served<
    R: Threads + Wait + Sync,
    D: Disk + Send + Drop,
    S: Source,
    K: Sink,
    G: ZoneGate + Sync,
>(rt: &R, words: &Words, device: D, script: &mut S, out: &mut K, gate: &G) -> Ended<D>
    ensures { (schedule : ℕ) (setup : Setup) (asked : Script) (image : Blocks) → IsSound image →
        Settles D.trust (D.seen device) image → IsTrue S.tells →
        command_of words.now
        ≡ Some (Run (record { drive = Schedule schedule; core = options_of setup })) →
        whole_script (S.seen script.old).left ≡ Ok asked →
        NoneRose (outside (D.seen device) (S.seen script.old) (K.seen out.old))
        (outside (D.seen result.device) (S.seen script.new) (K.seen out.new))
        → (result.fault ≡ None) ⊎ (result.fault ≡ Some fault.Memory) }
{
    a_run_without_faults_is_complete();
    run(rt, words, device, script, out, gate)
}

// An image that isn't closed and has a fault isn't served; and it is refused for that fault, not since it isn't closed.
fn an_unsound_image_is_refused_for_its_fault<
    R: Threads + Wait + Sync,
    D: Disk + Send + Drop,
    S: Source,
    K: Sink,
    G: ZoneGate + Sync,
>(rt: &R, words: &Words, device: D, script: &mut S, out: &mut K, gate: &G) -> Ended<D>
    ensures { (schedule : ℕ) (setup : Setup) (image : Blocks) → Settles D.trust (D.seen device) image →
        IsUnclean image →
        ((head : Super) (last : ℕ) (window : List CommittedEntry) → Opens image head last window →
        HasNoFault (image_of head image window) → ⊥)
        → command_of words.now
        ≡ Some (Run (record { drive = Schedule schedule; core = options_of setup })) →
        (result.fault ≢ None) × (result.fault ≢ Some (fault.Image Unclean)) }
{
    run(rt, words, device, script, out, gate)
}

// Each call that changes an image begins with a flush: a run, a workload, a recovery, a forced rebuild and a growth.
fn a_change_begins_with_a_flush<
    R: Threads + Wait + Sync,
    D: Disk + Send + Drop,
    S: Source,
    K: Sink,
    G: ZoneGate + Sync,
>(rt: &R, words: &Words, device: D, script: &mut S, out: &mut K, gate: &G) -> Ended<D>
    ensures script { (schedule : ℕ) (setup : Setup) → command_of words.now ≡ Some (Run (record { drive = Schedule schedule; core = options_of setup })) →
        result.fault ≡ None → IsTrue D.trust.tells
        → (calls : List Call)
        × ((D.seen result.device).log ≡ calls ++ Flush true ∷ (D.seen device).log) }
    ensures workload { (options : WorkloadOptions) (setup : Setup) → command_of words.now ≡ Some (Workload (record options { core = options_of setup })) →
        result.fault ≡ None → IsTrue D.trust.tells
        → (calls : List Call)
        × ((D.seen result.device).log ≡ calls ++ Flush true ∷ (D.seen device).log) }
    ensures recovery { command_of words.now ≡ Some Recover →
        result.fault ≡ None → IsTrue D.trust.tells
        → (calls : List Call)
        × ((D.seen result.device).log ≡ calls ++ Flush true ∷ (D.seen device).log) }
    ensures rebuild { command_of words.now ≡ Some ForceRebuild →
        result.fault ≡ None → IsTrue D.trust.tells
        → (calls : List Call)
        × ((D.seen result.device).log ≡ calls ++ Flush true ∷ (D.seen device).log) }
    ensures growth { (options : GrowOptions) → command_of words.now ≡ Some (Grow options) →
        result.fault ≡ None → IsTrue D.trust.tells
        → (calls : List Call)
        × ((D.seen result.device).log ≡ calls ++ Flush true ∷ (D.seen device).log) }
{
    run(rt, words, device, script, out, gate)
}

// The events of a session are those that the number of its schedule chooses, of a core that is set up as the words say.
fn the_schedule_of_the_number_drives<
    R: Threads + Wait + Sync,
    D: Disk + Send + Drop,
    S: Source,
    K: Sink,
    G: ZoneGate + Sync,
>(rt: &R, words: &Words, device: D, script: &mut S, out: &mut K, gate: &G) -> Ended<D>
    ensures { (schedule : ℕ) (setup : Setup) → command_of words.now
        ≡ Some (Run (record { drive = Schedule schedule; core = options_of setup })) →
        result.fault ≡ None
        → (start : Opened) × (opened : Seen) × (trace : Trace)
        × IsDriven D.trust schedule (task setup start result.report.requests) trace opened
        (D.seen result.device) }
{
    run(rt, words, device, script, out, gate)
}

// Of each stream no more requests are under way than the depth of the words, and the places are those of their logical zones.
fn the_depth_and_the_zones_of_the_words_are_those_of_the_run<
    R: Threads + Wait + Sync,
    D: Disk + Send + Drop,
    S: Source,
    K: Sink,
    G: ZoneGate + Sync,
>(rt: &R, words: &Words, device: D, script: &mut S, out: &mut K, gate: &G) -> Ended<D>
    ensures script { (schedule : ℕ) (setup : Setup) → command_of words.now
        ≡ Some (Run (record { drive = Schedule schedule; core = options_of setup })) →
        result.fault ≡ None
        → (logical : ℕ) × IsDeskLog setup.depth result.report.requests result.report.desk
        × ArePlaces setup.logical_zones logical result.report.requests result.report.desk
        result.report.places }
    ensures workload { (options : WorkloadOptions) (setup : Setup) → command_of words.now
        ≡ Some (Workload (record options { core = options_of setup })) →
        result.fault ≡ None
        → (logical : ℕ) × IsDeskLog setup.depth result.report.requests result.report.desk
        × ArePlaces setup.logical_zones logical result.report.requests result.report.desk
        result.report.places }
{
    run(rt, words, device, script, out, gate)
}

// A crash serves the script on its copy by a core that is set up as the words say, and by their schedule.
fn a_crash_has_the_setup_of_the_words<
    R: Threads + Wait + Sync,
    D: Disk + Send + Drop,
    S: Source,
    K: Sink,
    G: ZoneGate + Sync,
>(rt: &R, words: &Words, device: D, script: &mut S, out: &mut K, gate: &G) -> Ended<D>
    ensures { (options : CrashOptions) (setup : Setup) → command_of words.now
        ≡ Some (Crash (record options { core = options_of setup })) →
        result.fault ≡ None
        → (first : Memory) × (copy : Memory) × (result.copy ≡ Some copy)
        × RunsFlushed of_memory (record { schedule = options.schedule; setup = setup })
        result.report (seen_of first) (seen_of copy) }
{
    run(rt, words, device, script, out, gate)
}

// The requests of a workload are those of its own seed.
fn the_seed_that_is_asked_is_drawn<
    R: Threads + Wait + Sync,
    D: Disk + Send + Drop,
    S: Source,
    K: Sink,
    G: ZoneGate + Sync,
>(rt: &R, words: &Words, device: D, script: &mut S, out: &mut K, gate: &G) -> Ended<D>
    ensures { (options : WorkloadOptions) (setup : Setup) → command_of words.now
        ≡ Some (Workload (record options { core = options_of setup })) →
        result.fault ≡ None
        → (logical : ℕ)
        × (result.report.requests
        ≡ workload_of options.seed options.streams logical options.requests) }
{
    run(rt, words, device, script, out, gate)
}

// An image whose last session was closed has no entries to recover, and so it is told.
fn a_closed_image_has_no_entries<
    R: Threads + Wait + Sync,
    D: Disk + Send + Drop,
    S: Source,
    K: Sink,
    G: ZoneGate + Sync,
>(rt: &R, words: &Words, device: D, script: &mut S, out: &mut K, gate: &G) -> Ended<D>
    ensures { (image : Blocks) → Settles D.trust (D.seen device) image → IsCleanImage image →
        IsTrue K.tells → command_of words.now ≡ Some Recover → result.fault ≡ None →
        (K.seen out.new).held ≡ (K.seen out.old).held ++ codes "clean\n" }
{
    run(rt, words, device, script, out, gate)
}

// An audit that ends well found no block that differs.
fn no_block_differs_where_an_audit_ends_well<
    R: Threads + Wait + Sync,
    D: Disk + Send + Drop,
    S: Source,
    K: Sink,
    G: ZoneGate + Sync,
>(rt: &R, words: &Words, device: D, script: &mut S, out: &mut K, gate: &G) -> Ended<D>
    ensures { command_of words.now ≡ Some Audit → IsTrue K.tells → result.fault ≡ None
        → (report : Report) × (report.differs.items ≡ [])
        × ((K.seen out.new).held ≡ (K.seen out.old).held ++ report_text report) }
{
    run(rt, words, device, script, out, gate)
}

// A crash reads the device, and does nothing else there: it neither writes nor flushes.
fn a_crash_reads_and_no_more<
    R: Threads + Wait + Sync,
    D: Disk + Send + Drop,
    S: Source,
    K: Sink,
    G: ZoneGate + Sync,
>(rt: &R, words: &Words, device: D, script: &mut S, out: &mut K, gate: &G) -> Ended<D>
    ensures { (options : CrashOptions) (setup : Setup) → command_of words.now
        ≡ Some (Crash (record options { core = options_of setup })) →
        IsTrue D.trust.tells
        → SinceThen OnlyReads (D.seen device).log (D.seen result.device).log }
{
    run(rt, words, device, script, out, gate)
}

// A crash shows the image that was asked for, and tells it.
fn the_image_that_is_asked_is_shown<
    R: Threads + Wait + Sync,
    D: Disk + Send + Drop,
    S: Source,
    K: Sink,
    G: ZoneGate + Sync,
>(rt: &R, words: &Words, device: D, script: &mut S, out: &mut K, gate: &G) -> Ended<D>
    ensures { (options : CrashOptions) (setup : Setup) → command_of words.now
        ≡ Some (Crash (record options { core = options_of setup })) →
        IsTrue K.tells → result.fault ≡ None
        → (copy : Memory) × (shown : Shows) × (result.copy ≡ Some copy)
        × IsPickShown copy options.image result.report.requests shown
        × ((K.seen out.new).held
        ≡ (K.seen out.old).held ++ shown_text (stop_of options.after copy.log) shown) }
{
    run(rt, words, device, script, out, gate)
}
