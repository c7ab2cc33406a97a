ghost use Rattle.std.specs.Prelude.{◌≡◌, ◌<◌, ◌≤◌, ◌+◌, ◌*◌, ◌∷◌, [], ℕ, List};
ghost use Rattle.blk_base.specs.declared.geometry.Geometry.{Geometry};
ghost use Rattle.blk_base.specs.declared.point.Point.{Point};
ghost use Rattle.journal_codec.specs.declared.forms.JournalBlock.{JournalBlock};
ghost use Rattle.recovery_journal.specs.Kept.{IsKept};
ghost use Rattle.recovery_journal.specs.Log.{Log, Advances, IsBehind, Seals as SealsBlock, head_of, opening, placed};
ghost use Rattle.part_laws.specs.Watermarks.{Setup, watermark};
ghost use Rattle.part_laws.specs.Parts.{HasEntry, Logged};
ghost use Rattle.part_laws.specs.RightTraces.{RightTrace, RiseMayFollow};
ghost use Rattle.part_laws.specs.Stillness.{HasAsked, IsStill};
ghost use Rattle.part_laws.specs.Trace.{Happening, Seals, Trace, risen};
ghost use Rattle.part_laws.specs.ReapedEntries.{HasPoint, IsOther, Reaps, watermark_in};

/// A journal whose watermarks are those of the trace, and which leaves out what is below all of them, has a head to which the
/// trace's may rise. It stays such a journal over each happening, where it seals the same entries, and as a zone's watermark rises.
pub fn the_journal_reaps_what_is_handled()
    ensures opening { (s : Setup) (g : Geometry) → Reaps s (opening g s.start s.zones) [] }
    ensures head { (s : Setup) (log : Log) (t : Trace) → RightTrace s t → IsKept log →
        Reaps s log t → risen s.start t ≤ head_of log
        → RiseMayFollow s (head_of log) t }
    ensures happens { (s : Setup) (log : Log) (h : Happening) (t : Trace) → IsOther h →
        RightTrace s (h ∷ t) → Reaps s log t → Reaps s log (h ∷ t) }
    ensures seals { (s : Setup) (old new : Log) (block : JournalBlock) (es : List Logged)
        (t : Trace) → RightTrace s (Seals es ∷ t) → SealsBlock old new block
        → ((e : Logged) → HasEntry e es → HasPoint e.at (placed old.sequence 0 old.filling)) →
        Reaps s old t → Reaps s new (Seals es ∷ t) }
    ensures advances { (s : Setup) (old new : Log) (z : ℕ) (point : Point) (t : Trace) →
        z < s.zones → Advances old new z point → point.0 ≤ watermark s z t
        → Reaps s old t → Reaps s new t }
    ensures behind { (log : Log) (point lower : Point) → lower.0 ≤ point.0 → IsBehind log point →
        IsBehind log lower }
{}

/// Once all is still, a journal that has the watermarks of the trace has passed the need: the block being filled has its slot, if the
/// need was for that.
pub fn the_journal_goes_on_when_all_is_still()
    ensures { (s : Setup) (log : Log) (t : Trace) → RightTrace s t → IsStill s t → IsKept log →
        Reaps s log t
        → ((z : ℕ) → z < s.zones → watermark s z t ≤ watermark_in log.watermarks z) → 2 ≤ log.size →
        HasAsked s log.size t
        → log.sequence + 2 ≤ head_of log + log.size }
{}
