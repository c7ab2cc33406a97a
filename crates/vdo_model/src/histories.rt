ghost use Rattle.std.specs.Prelude.{◌≡◌, ◌<◌, ◌≤◌, ◌+◌, ◌++◌, ◌∷◌, ℕ, suc, Bool, List, length};
ghost use Rattle.disk_model.specs.declared.call.Call.{Call};
ghost use Rattle.vdo_model.specs.LastParts.{last_part};
ghost use Rattle.vdo_model.specs.declared.report.DeskLine.{DeskLine};
ghost use Rattle.vdo_model.specs.declared.report.FlushMark.{FlushMark};
ghost use Rattle.vdo_model.specs.declared.report.HistoryEntry.{HistoryEntry};
ghost use Rattle.vdo_model.specs.FlushMarks.{successes};
ghost use Rattle.vdo_model.specs.Stops.{MayLast, covered, length_at};

/// What a stop may show of a history. Its last settled entry, and its last one that is settled or unsettled, may last,
/// and no flush covers a later one. The length of a log at a mark is that of the mark's call, whatever came later.
pub fn the_histories_after_a_stop()
    ensures lasts { (unsettled : Bool) (history : List HistoryEntry) →
        MayLast (last_part unsettled history) }
    ensures part { (unsettled : Bool) (history : List HistoryEntry)
        → (newer : List HistoryEntry) × (history ≡ newer ++ last_part unsettled history) }
    ensures covered { (unsettled : Bool) (desk : List DeskLine) (mark : FlushMark)
        (history : List HistoryEntry)
        → length (covered desk mark history) ≤ length (last_part unsettled history) }
    ensures within { (log : List Call) (n : ℕ) → length_at log n ≤ length log }
    ensures later { (later older : List Call) (n : ℕ) → n ≤ successes older →
        length_at (later ++ older) n ≡ length_at older n }
    ensures after { (later older : List Call) (n : ℕ) → successes older < n →
        n ≤ successes (later ++ older) → length older < length_at (later ++ older) n }
    ensures next { (call : Call) (older : List Call) (n : ℕ) → n ≡ successes older + 1 →
        length_at (call ∷ older) n ≡ suc (length older) }
{}
