ghost use Rattle.std.specs.Prelude.{ℕ, ◌≡◌, ◌≤◌, IsTrue, List, Some, Ok};
ghost use Rattle.disk_model.specs.Log.{Blocks};
ghost use Rattle.disk_model.specs.Memory.{Memory};
ghost use Rattle.image_model.specs.Sound.{IsSound};
ghost use Rattle.rebuild.specs.Recoveries.{IsTold};
ghost use Rattle.stream_text.specs.WholeScript.{whole_script};
ghost use Rattle.vdo_model.specs.Scripts.{Script};
ghost use Rattle.vdo_words.specs.declared.commands.CrashOptions.{CrashOptions};
ghost use Rattle.vdo_cli.specs.declared.words.Served.TheVariants as served;
ghost use Rattle.vdo_cli.specs.Commands.{served_of};
ghost use Rattle.vdo_cli.specs.Complete.{NoneRose};
ghost use Rattle.vdo_cli.specs.Crashes.{IsCrashComplete, IsCrashTold, ShowsSound};
ghost use Rattle.vdo_cli.specs.Openings.{HasSequencesLeft};
ghost use Rattle.vdo_cli.specs.Outsides.{Outcome, Outside, Setting};
ghost use Rattle.vdo_cli.specs.Runs.{EndsSo};

/// Of an honest device with a sound image, what a crash shows is a sound image, which a stop may leave at a moment of the run on
/// the copy: each address of the script has the value that is told, and no block differs. It does nothing.
pub fn a_crash_shows_a_sound_image()
    ensures { (setting : Setting) (options : CrashOptions) (before after : Outside)
        (outcome : Outcome) (copy : Memory) (image : Blocks) (sound : IsSound image)
        → IsTold setting.device before.device image →
        HasSequencesLeft image sound
        → (told : IsCrashTold setting options before after outcome copy) →
        ShowsSound sound.head.geometry outcome.report.requests copy told.shows.picked told.shown }
{}

/// Where no call of the outside failed, a crash of a script whose lines have no fault, on an honest device of at most 65,536 blocks
/// with a sound image, tells what it shows, with status 0, if it doesn't run out of memory. It does nothing.
pub fn a_crash_without_faults_is_complete()
    ensures { (setting : Setting) (words : List (List ℕ)) (options : CrashOptions)
        (script : Script) (before after : Outside) (outcome : Outcome) (image : Blocks)
        (sound : IsSound image)
        → IsTold setting.device before.device image →
        HasSequencesLeft image sound → before.device.size ≤ 65536 → IsTrue setting.source_tells
        → served_of words ≡ Some (served.Crash options) →
        whole_script before.source.left ≡ Ok script
        → NoneRose before after → EndsSo setting words before after outcome →
        IsCrashComplete script outcome }
{}
