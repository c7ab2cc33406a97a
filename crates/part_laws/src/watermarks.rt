ghost use Rattle.std.specs.Prelude.{◌≡◌, ◌<◌, ◌≤◌, ◌+◌, ◌*◌, ◌∷◌, ◌++◌, [], ℕ, List};
ghost use Rattle.handed_parts.specs.Parts.{Handed, watermark_of, opening};
ghost use Rattle.part_laws.specs.Flows.{Flows};
ghost use Rattle.part_laws.specs.KeptParts.{IsKeptOf, IsInside, keeping};
ghost use Rattle.part_laws.specs.Watermarks.{Setup, front, watermark, head_of};
ghost use Rattle.part_laws.specs.Parts.{Logged, Told, Has, points_for};
ghost use Rattle.part_laws.specs.RightTraces.{HearMayFollow, MayFollow, RightTrace, RiseMayFollow};
ghost use Rattle.part_laws.specs.Stillness.{HasAsked, IsStill, need_for};
ghost use Rattle.part_laws.specs.Trace.{Trace, Happening, Needs, Tells, Hears, IsSealed, IsSet, IsDurable, heard, needed, risen, sequence, told, waiting};

/// Each entry of a sealed block below a zone's watermark has each of its parts for that zone set there and durable, and below the
/// head it has all of them so.
pub fn what_is_below_the_head_is_durable()
    ensures watermark { (s : Setup) (t : Trace) (e : Logged) (z p : ℕ) → RightTrace s t
        → IsSealed t e →
        e.at < watermark s z t
        → Has p (points_for z e.parts) → IsSet t z p × IsDurable t z p }
    ensures head { (s : Setup) (t : Trace) (e : Logged) (z p : ℕ) → RightTrace s t → IsSealed t e →
        e.at < risen s.start t * 512
        → Has p (points_for z e.parts) → IsSet t z p × IsDurable t z p }
{}

/// The head that the watermarks leave is one to which it may rise.
pub fn the_head_may_rise_to_the_least_watermark()
    ensures { (s : Setup) (t : Trace) (head : ℕ) → RightTrace s t → risen s.start t ≤ head →
        head ≤ head_of s t → RiseMayFollow s head t }
{}

/// No watermark falls, and so the head that the watermarks leave doesn't.
pub fn the_head_never_falls()
    ensures risen { (s : Setup) (h : Happening) (t : Trace) → RightTrace s (h ∷ t) →
        risen s.start t ≤ risen s.start (h ∷ t) }
    ensures watermark { (s : Setup) (h : Happening) (t : Trace) (z : ℕ) → RightTrace s (h ∷ t) →
        watermark s z t ≤ watermark s z (h ∷ t) }
    ensures head { (s : Setup) (h : Happening) (t : Trace) → RightTrace s (h ∷ t) →
        head_of s t ≤ head_of s (h ∷ t) }
{}

/// What a zone tells comes by a lane to the journal's inbox. The first there is the next that the journal may hear; and so it
/// goes on as it hears, as a lane moves and as the zone tells more.
pub fn the_journal_hears_in_order()
    ensures next { (z : ℕ) (t : Trace) (x : Told) (inbox lane : List Told) →
        Flows z t (x ∷ inbox) lane → HearMayFollow z x t }
    ensures heard { (z : ℕ) (t : Trace) (x : Told) (inbox lane : List Told) →
        Flows z t (x ∷ inbox) lane → Flows z (Hears z x ∷ t) inbox lane }
    ensures moved { (z : ℕ) (t : Trace) (inbox moved lane : List Told) →
        Flows z t inbox (moved ++ lane) → Flows z t (inbox ++ moved) lane }
    ensures told { (z : ℕ) (t : Trace) (x : Told) (inbox lane : List Told) → Flows z t inbox lane →
        Flows z (Tells z x ∷ t) inbox (lane ++ x ∷ []) }
    ensures still { (z : ℕ) (t : Trace) → Flows z t [] [] → told z t ≡ heard z t }
{}

/// Once nothing is under way, each entry at or below the need is below each watermark, and the head has passed the need: so the
/// block being filled has its slot in a ring of so many blocks, once the need for that was posted, and no entry waits for ever.
pub fn no_entry_waits_for_ever()
    ensures entries { (s : Setup) (t : Trace) (e : Logged) (z : ℕ) → RightTrace s t → IsStill s t →
        IsSealed t e → z < s.zones → 0 < needed t
        → e.at ≤ needed t → e.at < watermark s z t }
    ensures head { (s : Setup) (t : Trace) (h : ℕ) → RightTrace s t → IsStill s t →
        h * 512 ≤ needed t + 1 → h ≤ sequence s.start t → h ≤ head_of s t }
    ensures slot { (s : Setup) (t : Trace) (size : ℕ) → RightTrace s t → IsStill s t → 2 ≤ size →
        HasAsked s size t
        → sequence s.start t + 2 ≤ head_of s t + size }
    ensures asks { (s : Setup) (size : ℕ) (t : Trace) → size < sequence s.start t + 2
        →
        MayFollow s (Needs (need_for (sequence s.start t) size)) t
        × HasAsked s size (Needs (need_for (sequence s.start t) size) ∷ t) }
{}

/// What the journal's zone keeps of what it handed out is what the trace says, over each happening; and so its watermarks are those
/// of the trace.
pub fn the_watermarks_kept_are_those_of_the_trace()
    ensures opening { (zones room : ℕ) → IsKeptOf zones (opening zones room) [] }
    ensures keeps { (zones : ℕ) (h : Happening) (handed : Handed) (t : Trace) → IsInside zones h →
        IsKeptOf zones handed t → IsKeptOf zones (keeping h handed) (h ∷ t) }
    ensures watermark { (s : Setup) (handed : Handed) (t : Trace) (z : ℕ)
        → IsKeptOf s.zones handed t →
        z < s.zones → watermark_of handed z (front s t) ≡ watermark s z t }
{}

/// What was handed out and not heard is of a block from the head on: so room for the parts of a full ring suffices.
pub fn what_waits_is_in_the_ring()
    ensures { (s : Setup) (t : Trace) (z p : ℕ) → RightTrace s t → z < s.zones → Has p (waiting z t)
        → (head_of s t * 512 ≤ p) × (p < sequence s.start t * 512) }
{}
