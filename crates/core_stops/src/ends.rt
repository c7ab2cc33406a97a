ghost use Rattle.std.specs.Prelude.{ℕ, ◌≡◌, ◌+◌, ◌^◌, ◌++◌, false, true, List};
ghost use Rattle.core_model.specs.Legal.{Legal};
ghost use Rattle.core_model.specs.Reports.{opening_values, report_of};
ghost use Rattle.core_model.specs.Sessions.{Session, IsFair, IsSession};
ghost use Rattle.core_model.specs.Steps.{Core};
ghost use Rattle.core_model.specs.Trace.{calls};
ghost use Rattle.core_stops.specs.Ends.{EndsRight, MayRemain};
ghost use Rattle.core_stops.specs.Sequences.{ShowsValues};
ghost use Rattle.session_stops.specs.Beginnings.{IsToServe};
ghost use Rattle.vdo_model.specs.LastParts.{last_part};
ghost use Rattle.vdo_model.specs.Scripts.{Script};
ghost use Rattle.vdo_model.specs.Stops.{last_value};
ghost use Rattle.vdo_model.specs.declared.report.HistoryEntry.{HistoryEntry};

/// Where a session on a sound, closed image is fair, whatever a stop leaves behind a flush that comes right after it is a sound
/// image of the same sizes, in which each address has a value no older than its last settled one; and the first sequence of the
/// next session is at most 2^18 behind that of this one. Where no unsettled entry stands above the last settled one, it is that
/// one's. It does nothing.
pub fn an_end_is_more_than_a_stop()
    ensures session { (s : Session) (core : Core) (to : IsToServe s.image) → IsSession s →
        Legal s core → IsFair s core.trace → to.sound.head.geometry ≡ s.sizes.geometry →
        to.sound.head.start ≡ s.sizes.start
        →
        EndsRight (ShowsValues s.sizes.geometry (s.sizes.start + 2 ^ 18)) s.blocks
        (calls core.trace ++ s.before) s.sizes.geometry.logical (opening_values s)
        (report_of s core.trace) }
    ensures exact { (script : Script) (history : List HistoryEntry) (opening value : List ℕ) →
        MayRemain script history opening value →
        last_part true history ≡ last_part false history →
        value ≡ last_value script opening (last_part false history) }
{}
