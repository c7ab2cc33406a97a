ghost use Rattle.std.specs.Prelude.{◌≡◌, ◌+◌, ◌^◌, ℕ};
ghost use Rattle.core_model.specs.Legal.{Legal};
ghost use Rattle.core_model.specs.Reports.{opening_values, report_of};
ghost use Rattle.core_model.specs.Sessions.{Session, IsFair, IsSession};
ghost use Rattle.core_model.specs.Steps.{Core};
ghost use Rattle.core_model.specs.Trace.{calls};
ghost use Rattle.core_stops.specs.Sequences.{ShowsValues};
ghost use Rattle.session_stops.specs.Beginnings.{IsToServe};
ghost use Rattle.vdo_model.specs.Stops.{RightAfterStops};

/// Where a session on a sound, closed image is fair, whatever a stop leaves before or within any call of the device is a sound
/// image of the same sizes, in which each address has a value no older than its last flushed one; and the first sequence of the
/// next session is at most 2^18 behind that of this one. It does nothing.
pub fn each_stop_of_a_session_leaves_a_sound_image()
    ensures { (s : Session) (core : Core) (to : IsToServe s.image) → IsSession s → Legal s core →
        IsFair s core.trace → to.sound.head.geometry ≡ s.sizes.geometry →
        to.sound.head.start ≡ s.sizes.start
        →
        RightAfterStops (ShowsValues s.sizes.geometry (s.sizes.start + 2 ^ 18)) s.blocks s.before
        s.sizes.geometry.logical (opening_values s) (report_of s core.trace) (calls core.trace) }
{}
