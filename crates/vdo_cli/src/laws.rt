ghost use Rattle.std.specs.Prelude.{ℕ, ◌≡◌, ◌+◌, ◌++◌, ◌≤◌, ◌^◌, Bool, IsTrue, List, Some, Ok};
ghost use Rattle.disk_model.specs.declared.call.Call.{Call};
ghost use Rattle.disk_model.specs.Images.{IsImage};
ghost use Rattle.disk_model.specs.Log.{Blocks};
ghost use Rattle.disk_model.specs.Seen.{Seen};
ghost use Rattle.disk_model.specs.Trust.{Trust};
ghost use Rattle.image_model.specs.Sound.{IsSound};
ghost use Rattle.rebuild.specs.Recoveries.{IsTold};
ghost use Rattle.core_stops.specs.Sequences.{CanBegin};
ghost use Rattle.stream_text.specs.WholeScript.{whole_script};
ghost use Rattle.vdo_model.specs.Scripts.{Script};
ghost use Rattle.vdo_cli.specs.declared.words.Change.TheVariants as change;
ghost use Rattle.vdo_cli.specs.declared.words.Course.{Course};
ghost use Rattle.vdo_cli.specs.declared.words.Served.TheVariants as served;
ghost use Rattle.vdo_cli.specs.Commands.{served_of};
ghost use Rattle.vdo_cli.specs.Complete.{IsComplete, NoneRose};
ghost use Rattle.vdo_cli.specs.Flushes.{IsFlushed, Settles};
ghost use Rattle.vdo_cli.specs.Onward.{GoesOn, IsJustMade, LeavesReady, LeavesRunnable, MayBegin};
ghost use Rattle.vdo_cli.specs.Outsides.{Outcome, Outside, Setting};
ghost use Rattle.vdo_cli.specs.Runs.{EndsFlushed, EndsSo};
ghost use Rattle.vdo_cli.specs.Workloads.{requests_for};
ghost use Rattle.vdo_words.specs.declared.commands.WorkloadOptions.{WorkloadOptions};

/// A device goes on over a run, however that ended, and so over two runs of which the second begins with the device that
/// the first gave back. It does nothing.
pub fn runs_go_on()
    ensures one { (setting : Setting) (words : List (List ℕ))
        (before after : Outside) (outcome : Outcome)
        → EndsSo setting words before after outcome
        → GoesOn setting.device.tells before.device after.device }
    ensures two { (tells : Bool) (first middle last : Seen)
        → GoesOn tells first middle → GoesOn tells middle last → GoesOn tells first last }
{}

/// On each image that a stop may leave at any moment of a run, of a script or of a workload, the next call may begin, on a device that is
/// made of it: it is sound, of the sizes that there were, and with 2^18 sequences less left than before. It does nothing.
pub fn what_a_run_leaves_can_be_run()
    ensures script { (setting : Setting) (course : Course) (left : ℕ) (before after : Outside)
        (outcome : Outcome)
        → MayBegin setting.device (2 ^ 18 + left) before.device → 2 ^ 20 ≤ 2 ^ 18 + left
        → EndsFlushed setting (change.Script course) before after outcome →
        LeavesRunnable setting.device left before.device after.device }
    ensures workload { (setting : Setting) (options : WorkloadOptions) (left : ℕ)
        (before after : Outside) (outcome : Outcome)
        → MayBegin setting.device (2 ^ 18 + left) before.device → 2 ^ 20 ≤ 2 ^ 18 + left
        → EndsFlushed setting (change.Workload options) before after outcome →
        LeavesRunnable setting.device left before.device after.device }
{}

/// The next call may begin on the device itself, whose log goes on: at whichever call the program was ended, and though nothing of
/// what it wrote is flushed, as long as none of its writes failed. So a call that was killed can be made again. It does nothing.
pub fn a_run_behind_a_run()
    ensures script { (setting : Setting) (course : Course) (left : ℕ) (before after : Outside)
        (outcome : Outcome)
        → MayBegin setting.device (2 ^ 18 + left) before.device → 2 ^ 20 ≤ 2 ^ 18 + left
        → EndsFlushed setting (change.Script course) before after outcome →
        LeavesReady setting.device left before.device after.device }
    ensures workload { (setting : Setting) (options : WorkloadOptions) (left : ℕ)
        (before after : Outside) (outcome : Outcome)
        → MayBegin setting.device (2 ^ 18 + left) before.device → 2 ^ 20 ≤ 2 ^ 18 + left
        → EndsFlushed setting (change.Workload options) before after outcome →
        LeavesReady setting.device left before.device after.device }

    // So it has the one image from which the clauses of that call begin: its flush leaves that, and it is one of those that a
    // stop might have left before.
    ensures begins { (trust : Trust) (left : ℕ) (now flushed : Seen)
        → (begin : MayBegin trust left now) → IsFlushed trust.tells now flushed →
        IsTold trust flushed begin.image × CanBegin left begin.image }
{}

/// The division into zones isn't on the device: on each image that a stop may leave at any moment of a run, a run with any other
/// setup is begun, on a device that is made of it. Where no call of the outside fails it serves each request of a script whose lines
/// have no fault, if it doesn't run out of memory before. It does nothing.
pub fn any_setup_serves_what_another_left()
    ensures { (setting : Setting) (words : List (List ℕ)) (one two : Course) (left : ℕ)
        (script : Script) (before middle again after : Outside) (first second : Outcome)
        → MayBegin setting.device (2 ^ 18 + left) before.device → 2 ^ 20 ≤ 2 ^ 18 + left
        → EndsFlushed setting (change.Script one) before middle first →
        (later prefix : List Call) → middle.device.log ≡ later ++ (prefix ++ before.device.log) →
        (image : Blocks) → IsImage before.device.opening (prefix ++ before.device.log) image →
        IsJustMade image again.device → IsTrue setting.source_tells
        → served_of words ≡ Some (served.Change (change.Script two)) →
        whole_script again.source.left ≡ Ok script
        → NoneRose again after → EndsSo setting words again after second →
        IsComplete script second }
{}

/// Where no call of the outside failed, a run of a script whose lines have no fault, or of a workload, on an honest device of which a flush leaves a sound image,
/// serves each request, if it doesn't run out of memory before. It does nothing.
pub fn a_run_without_faults_is_complete()
    ensures script { (setting : Setting) (words : List (List ℕ)) (course : Course) (script : Script)
        (before after : Outside) (outcome : Outcome) (image : Blocks) → IsSound image
        → Settles setting.device before.device image →
        IsTrue setting.source_tells
        → served_of words ≡ Some (served.Change (change.Script course)) →
        whole_script before.source.left ≡ Ok script
        → NoneRose before after → EndsSo setting words before after outcome →
        IsComplete script outcome }
    ensures workload { (setting : Setting) (words : List (List ℕ)) (options : WorkloadOptions)
        (before after : Outside) (outcome : Outcome) (image : Blocks) (sound : IsSound image)
        → Settles setting.device before.device image →
        served_of words ≡ Some (served.Change (change.Workload options))
        → NoneRose before after → EndsSo setting words before after outcome →
        IsComplete (requests_for options sound.head.geometry.logical) outcome }
{}
