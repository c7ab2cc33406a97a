ghost use Rattle.std.specs.Prelude.{ℕ, ◌↔◌, List, Result, Ok};
ghost use Rattle.audit.specs.Reports.{Differs, HasNoFault};
ghost use Rattle.audit.specs.declared.forms.Difference.{Difference};
ghost use Rattle.blk_base.specs.declared.geometry.Super.{Super as Superblock};
ghost use Rattle.blk_base.specs.declared.journal_entry.CommittedEntry.{CommittedEntry};
ghost use Rattle.disk_model.specs.Log.{Blocks};
ghost use Rattle.disk_model.specs.Seen.{Seen};
ghost use Rattle.disk_model.specs.Trust.{Trust};
ghost use Rattle.image_model.specs.Maps.{Image};
ghost use Rattle.image_model.specs.Sound.{IsSound, Opens, image_of};
ghost use Rattle.image_model.specs.declared.fault.ImageFault.{ImageFault};
ghost use Rattle.recovery_laws.specs.Kept.{SayTheSame};
ghost use Rattle.recovery_laws.specs.Recoverable.{IsJournalOfItsTime, IsRecoverable};
ghost use Rattle.rebuild.specs.Again.{FindsClosed, HasClosedImage};
ghost use Rattle.rebuild.specs.Recoveries.{IsRecovery, IsTold};
ghost use Rattle.rebuild.specs.declared.forms.Recovered.{Recovered};

/// Of an honest device on which nothing was pending, and whose image was sound: once it was recovered, nothing is
/// pending, and its one image is sound and closed. A second recovery answers `Clean` and writes nothing; or it answers
/// `Device`, and the last call failed.
pub fn recovered_once_for_all()
    ensures closed { (trust : Trust) (before now : Seen) (blocks : Blocks)
        (recovered : Recovered) → IsTold trust before blocks → IsSound blocks
        → IsRecovery trust before now (Ok recovered) → HasClosedImage trust now }
    ensures again { (trust : Trust) (before middle now : Seen) (blocks : Blocks)
        (recovered : Recovered) (result : Result Recovered ImageFault)
        → IsTold trust before blocks → IsSound blocks →
        IsRecovery trust before middle (Ok recovered) →
        IsRecovery trust middle now result
        → FindsClosed trust.tells middle now result }
{}

/// A wrong count stays as it is: of two images that say the same, as one before and behind a recovery, an audit lists the
/// same blocks, with the same numbers. An image can be recovered where it opens, has no fault, and has nothing in its
/// recovery journal from a later time: its counts needn't be right.
pub fn a_wrong_count_stays()
    ensures listed { (old new : Image) (difference : Difference) → SayTheSame old new →
        Differs old difference ↔ Differs new difference }
    ensures recoverable { (blocks : Blocks) (head : Superblock) (last : ℕ)
        (window : List CommittedEntry) → Opens blocks head last window
        → HasNoFault (image_of head blocks window) → IsJournalOfItsTime head.geometry blocks last
        → IsRecoverable blocks }
{}
