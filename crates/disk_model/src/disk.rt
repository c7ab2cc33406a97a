ghost use Rattle.std.specs.Prelude.{◌≡◌, ◌≤◌, ◌<◌, ◌∷◌, true, false, length, IsTrue, OnOk, OnErr};
ghost use Rattle.disk_model.specs.declared.call.Call.TheVariants.{Read, Write, Flush};
ghost use Rattle.disk_model.specs.Causes.{Rose, HasCause};
ghost use Rattle.disk_model.specs.Images.{IsMixOf};
ghost use Rattle.disk_model.specs.Log.{settled};
ghost use Rattle.disk_model.specs.Seen.{Seen, Stays};
ghost use Rattle.disk_model.specs.LogSteps.{FailedInLog};
ghost use Rattle.disk_model.specs.Trust.{Trust};

use crate::Failed;
use blk_base::{Block, Pbn};

/// A device of blocks. One that tells says what its blocks were when its log began, and which calls were made since.
/// One that tells and is honest gives in each successful read, sector by sector, the content of the last successful
/// write there or of a failed write since.
pub trait Disk {
    /// Whether devices of this type tell their opening blocks and their log, and whether those that tell are honest.
    ghost trust: { Trust };

    /// What contracts see of a device: its opening blocks and size, its log, and its counts.
    ghost seen: { Self → Seen };

    /// How many blocks it has.
    fn blocks(&self) -> u32
        ensures { result ≡ (seen self.now).size };

    /// Reads a block. After `Failed`, which comes only where the count of faults rose, `into` has any content.
    fn read(&mut self, at: Pbn, into: &mut Block) -> Result<(), Failed>
        requires { at.0 < (seen self.old).size }
        ensures stays { Stays (seen self.old) (seen self.new) }
        ensures given { IsTrue trust.tells → IsTrue trust.honest
            →
            OnOk result
            (IsMixOf (settled (seen self.old).opening (seen self.old).log at.0) into.new) }
        ensures whole { OnOk result (length into.new ≡ 4096) }
        ensures ok { IsTrue trust.tells →
            OnOk result ((seen self.new).log ≡ Read at into.new true ∷ (seen self.old).log) }
        ensures err { IsTrue trust.tells →
            OnErr result
            (FailedInLog (seen self.old).log (seen self.new).log (Read at into.new false)
            (Rose (seen self.old).unkept (seen self.new).unkept)) }
        ensures cause { HasCause (seen self.old).faults (seen self.new).faults result }
        ensures unkept { (seen self.old).unkept ≤ (seen self.new).unkept }
        ensures all_kept { OnOk result ((seen self.new).unkept ≡ (seen self.old).unkept) };

    /// Writes a block. Of an honest device it lasts from the next successful flush on. After `Failed`, which comes only
    /// where the count of faults rose, each of its sectors may be the one before or the one written.
    fn write(&mut self, at: Pbn, from: &Block) -> Result<(), Failed>
        requires { at.0 < (seen self.old).size }
        ensures stays { Stays (seen self.old) (seen self.new) }
        ensures ok { IsTrue trust.tells →
            OnOk result ((seen self.new).log ≡ Write at from.now true ∷ (seen self.old).log) }
        ensures err { IsTrue trust.tells →
            OnErr result
            (FailedInLog (seen self.old).log (seen self.new).log (Write at from.now false)
            (Rose (seen self.old).unkept (seen self.new).unkept)) }
        ensures cause { HasCause (seen self.old).faults (seen self.new).faults result }
        ensures unkept { (seen self.old).unkept ≤ (seen self.new).unkept }
        ensures all_kept { OnOk result ((seen self.new).unkept ≡ (seen self.old).unkept) };

    /// Makes the writes so far last. After `Failed`, which comes only where the count of faults rose, no more of them
    /// need last than before.
    fn flush(&mut self) -> Result<(), Failed>
        ensures stays { Stays (seen self.old) (seen self.new) }
        ensures ok { IsTrue trust.tells →
            OnOk result ((seen self.new).log ≡ Flush true ∷ (seen self.old).log) }
        ensures err { IsTrue trust.tells →
            OnErr result (FailedInLog (seen self.old).log (seen self.new).log (Flush false)
            (Rose (seen self.old).unkept (seen self.new).unkept)) }
        ensures cause { HasCause (seen self.old).faults (seen self.new).faults result }
        ensures unkept { (seen self.old).unkept ≤ (seen self.new).unkept }
        ensures all_kept { OnOk result ((seen self.new).unkept ≡ (seen self.old).unkept) };

    /// A device that tells has as many opening blocks as it has blocks.
    ghost told: { (device : Self) → IsTrue trust.tells →
        length (seen device).opening ≡ (seen device).size };
}
