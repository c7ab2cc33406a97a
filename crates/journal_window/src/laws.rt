ghost use Rattle.std.specs.Prelude.{◌≡◌, ◌≤◌, ◌⊎◌, IsTrue, Ok};
ghost use Rattle.blk_base.specs.Regions.{needed_blocks};
ghost use Rattle.blk_base.specs.declared.geometry.Super.{Super};
ghost use Rattle.disk_model.specs.Log.{Blocks};
ghost use Rattle.disk_model.specs.Seen.{Seen};
ghost use Rattle.disk_model.specs.Trust.{Trust};
ghost use Rattle.image_layout.specs.Opened.{super_of_image};
ghost use Rattle.image_model.specs.Faults.{IsImageFault};
ghost use Rattle.image_model.specs.Looked.{HasOneImageButIndex};
ghost use Rattle.image_model.specs.Sound.{Opens};
ghost use Rattle.image_model.specs.declared.fault.ImageFault.{ImageFault};
ghost use Rattle.image_model.specs.declared.fault.ImageFault.TheVariants.{Memory};
ghost use Rattle.journal_window.specs.Reads.{IsWindowRead, Fails};
ghost use Rattle.journal_window.specs.States.{WindowState};
ghost use Rattle.journal_window.specs.Windows.{IsWindowOf, IsRefused};

/// A journal has one window, or one reason why it has none, and not both; want of memory aside.
pub fn a_journal_has_one_answer()
    ensures windows { (head : Super) (journal : Blocks) (window window' : WindowState)
        → IsWindowOf head journal window → IsWindowOf head journal window' → window ≡ window' }
    ensures refusals { (head : Super) (journal : Blocks) (why why' : ImageFault)
        → IsRefused head journal why → IsRefused head journal why' →
        (why ≡ why') ⊎ (why ≡ Memory) ⊎ (why' ≡ Memory) }
    ensures apart { (head : Super) (journal : Blocks) (window : WindowState) (why : ImageFault)
        → IsWindowOf head journal window → IsRefused head journal why → why ≡ Memory }
{}

/// Where a device is honest and nothing is pending on it but in the index, what was read of its journal is what its one
/// image has: the window with which it is opened, or its fault. It does nothing.
pub fn reads_show_the_window()
    ensures window { (trust : Trust) (before now : Seen) (image : Blocks) (head : Super)
        (window : WindowState)
        → IsTrue trust.tells → IsTrue trust.honest
        → HasOneImageButIndex before.opening before.log image
        → needed_blocks head.geometry ≤ before.size
        → super_of_image image ≡ Ok head → IsWindowRead trust before now head window
        → Opens image head window.last window.entries }
    ensures fault { (trust : Trust) (before now : Seen) (image : Blocks) (head : Super)
        (why : ImageFault)
        → IsTrue trust.tells → IsTrue trust.honest
        → HasOneImageButIndex before.opening before.log image
        → needed_blocks head.geometry ≤ before.size
        → super_of_image image ≡ Ok head → Fails trust before now head why
        → IsImageFault image why }
{}
