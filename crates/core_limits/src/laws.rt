//! How much a legal core holds at most, in each of its zones.

ghost use Rattle.std.specs.Prelude.{◌≡◌, ◌<◌, ◌≤◌, ◌+◌, ◌*◌, ◌^◌, ◌↔◌, ℕ, length, Some, List, slice_get};
ghost use Rattle.std.specs.List.{AllByRecursion};
ghost use Rattle.blk_base.specs.declared.request.Writer.{Writer};
ghost use Rattle.plain_laws.specs.Sums.{total};
ghost use Rattle.vdo_model.specs.DeskLog.{AllAnswered, IsDeskLog, IsNextLine};
ghost use Rattle.vdo_model.specs.Scripts.{Script};
ghost use Rattle.vdo_model.specs.declared.report.DeskLine.{DeskLine};
ghost use Rattle.vdo_model.specs.declared.report.DeskLine.TheVariants as line;
ghost use Rattle.core_model.specs.declared.zones.ZoneData.TheVariants.{Desk, Device, Journal, Logical};
ghost use Rattle.core_model.specs.DeskData.{Desk as DeskData};
ghost use Rattle.core_model.specs.declared.zones.DeviceZone.{DeviceZone};
ghost use Rattle.core_model.specs.JournalData.{JournalZone};
ghost use Rattle.core_model.specs.LogicalData.{LogicalZone};
ghost use Rattle.core_model.specs.declared.zones.Zone.{Zone};
ghost use Rattle.data_vio.specs.declared.items.Item.{Item};
ghost use Rattle.core_model.specs.Legal.{Legal, share};
ghost use Rattle.core_model.specs.DeskLimits.{IsDeskWithin};
ghost use Rattle.core_model.specs.Limits.{IsWithin};
ghost use Rattle.core_model.specs.SessionLimits.{IsShort, most_depth, most_entries, most_requests, most_under_way_in, requests_in};
ghost use Rattle.core_model.specs.Tokens.{is_answer, is_begin, kept_by, queued};
ghost use Rattle.core_model.specs.Sessions.{Session, IsSession};
ghost use Rattle.core_model.specs.Steps.{Core, IsStill};
ghost use Rattle.core_model.specs.Trace.{calls, lines, places};

/// In a legal core each lane and each list of requests that a zone keeps is within its share: as many as there may be
/// requests under way, and stop notices.
pub fn a_legal_core_has_room()
    ensures inbox { (s : Session) (core : Core) (n : ℕ) (z : Zone) → Legal s core →
        slice_get core.zones n ≡ Some z → length z.ports.inbox ≤ share s }
    ensures lanes { (s : Session) (core : Core) (n : ℕ) (z : Zone) (to : ℕ) (lane : List Item) →
        Legal s core → slice_get core.zones n ≡ Some z
        → slice_get z.ports.outboxes to ≡ Some lane → length lane ≤ share s }
    ensures kept { (s : Session) (core : Core) (n : ℕ) (z : Zone) → Legal s core →
        slice_get core.zones n ≡ Some z → queued (λ it. 1) z.keeps ≤ share s }
{}

/// In a desk log that is well formed each request of the script is begun once at most, and answered once at most; and as many
/// requests are under way as its streams may have at most. Where another may be begun, there is room for it in both counts,
/// also where no more of a stream are counted than it has.
pub fn a_desk_log_is_bounded()
    ensures under_way { (depth : ℕ) (script : Script) (log : List DeskLine) →
        IsDeskLog depth script log
        → total is_begin log ≤ length script * depth + total is_answer log }
    ensures fewer { (depth : ℕ) (script : Script) (log : List DeskLine) (w : Writer) →
        IsDeskLog depth script log → IsNextLine depth script (line.Begin w) log
        → total is_begin log < length script * depth + total is_answer log }
    ensures fewer_of_each { (depth : ℕ) (script : Script) (log : List DeskLine) (w : Writer) →
        depth ≤ most_depth → IsDeskLog depth script log → IsNextLine depth script (line.Begin w) log
        → total is_begin log < most_under_way_in script + total is_answer log }
    ensures answered { (depth : ℕ) (script : Script) (log : List DeskLine) →
        IsDeskLog depth script log → total is_answer log ≤ total is_begin log }
    ensures lines { (depth : ℕ) (script : Script) (log : List DeskLine) →
        IsDeskLog depth script log → length log ≤ 2 * requests_in script }
    ensures more_lines { (depth : ℕ) (script : Script) (log : List DeskLine) (w : Writer) →
        IsDeskLog depth script log → IsNextLine depth script (line.Begin w) log
        → length log + 2 ≤ 2 * requests_in script }
{}

/// A desk log that is well formed has two lines for each request of its script exactly where each request is answered.
pub fn a_desk_log_is_full_when_all_are_answered()
    ensures { (depth : ℕ) (script : Script) (log : List DeskLine) → IsDeskLog depth script log →
        (length log ≡ 2 * requests_in script) ↔ AllAnswered script log }
{}

/// A legal core in which nothing is left to do is done: where each zone has an empty inbox, all that was posted has moved,
/// and no stream may begin a request, each request is answered. So no request waits for what never comes. A stream may have
/// a request under way.
pub fn a_legal_core_that_is_still_is_done()
    ensures { (s : Session) (core : Core) → 1 ≤ s.sizes.depth → Legal s core →
        IsStill s.sizes core.zones → AllAnswered s.script (lines core.trace) }
{}

/// In a legal core of a session that is no larger than it may be, the lists of each zone are no longer than said: those of
/// the desk, the places of a logical zone, the inbox, each outbox, and the requests that a zone keeps.
pub fn a_legal_core_is_within_limits()
    ensures desk { (s : Session) (core : Core) (n : ℕ) (z : Zone) (desk : DeskData) → IsSession s →
        Legal s core → slice_get core.zones n ≡ Some z
        → z.keeps ≡ Desk desk → IsDeskWithin desk }
    ensures places { (s : Session) (core : Core) (n : ℕ) (z : Zone) (l : LogicalZone) →
        IsSession s → Legal s core → slice_get core.zones n ≡ Some z
        → z.keeps ≡ Logical l → length l.places ≤ most_requests }
    ensures inbox { (s : Session) (core : Core) (n : ℕ) (z : Zone) → IsSession s → Legal s core →
        slice_get core.zones n ≡ Some z → IsShort z.ports.inbox }
    ensures lanes { (s : Session) (core : Core) (n : ℕ) (z : Zone) → IsSession s → Legal s core →
        slice_get core.zones n ≡ Some z
        → AllByRecursion (λ lane. IsShort lane) z.ports.outboxes }
    ensures waiting { (s : Session) (core : Core) (n : ℕ) (z : Zone) → IsSession s → Legal s core →
        slice_get core.zones n ≡ Some z → IsShort (kept_by z.keeps) }
{}

/// In a legal core a logical zone drew no more places than it made steps, and the device's zone made no more calls. A logical
/// zone has a lock for each request under way at most. The journal has no more entries than there are requests, and so no zone
/// has more slots that were set, or more addresses that are never released; and the sequence of the block being filled can be spelled.
pub fn a_legal_core_counts_within_limits()
    ensures next { (s : Session) (core : Core) (n : ℕ) (z : Zone) (l : LogicalZone) → Legal s core →
        slice_get core.zones n ≡ Some z → z.keeps ≡ Logical l → l.next ≤ z.steps }
    ensures calls { (s : Session) (core : Core) (n : ℕ) (z : Zone) (d : DeviceZone) → Legal s core →
        slice_get core.zones n ≡ Some z → z.keeps ≡ Device d → d.calls ≤ z.steps }
    ensures held { (s : Session) (core : Core) (n : ℕ) (z : Zone) (l : LogicalZone) → Legal s core →
        slice_get core.zones n ≡ Some z → z.keeps ≡ Logical l → length l.held ≤ share s }
    ensures entered { (s : Session) (core : Core) (n : ℕ) (z : Zone) (j : JournalZone) →
        IsSession s → Legal s core → slice_get core.zones n ≡ Some z → z.keeps ≡ Journal j
        → length j.entered ≤ most_entries }
    ensures sequence { (s : Session) (core : Core) (n : ℕ) (z : Zone) (j : JournalZone) →
        IsSession s → Legal s core → slice_get core.zones n ≡ Some z → z.keeps ≡ Journal j
        → j.log.sequence < 2 ^ 55 }
    ensures committed { (s : Session) (core : Core) (n : ℕ) (z : Zone) (j : JournalZone) →
        IsSession s → Legal s core → slice_get core.zones n ≡ Some z → z.keeps ≡ Journal j
        → length j.committed ≤ most_entries }
    ensures slots { (s : Session) (core : Core) (n : ℕ) (z : Zone) (l : LogicalZone) → IsSession s →
        Legal s core → slice_get core.zones n ≡ Some z → z.keeps ≡ Logical l
        → length l.slots ≤ most_requests }
    ensures retired { (s : Session) (core : Core) (n : ℕ) (z : Zone) (l : LogicalZone) →
        IsSession s → Legal s core → slice_get core.zones n ≡ Some z → z.keeps ≡ Logical l
        → length l.retired ≤ most_requests }
{}

/// In a legal core each zone keeps within its room: room for that, taken at the start, suffices for the whole session.
pub fn a_legal_core_keeps_within_its_room()
    ensures { (s : Session) (core : Core) (n : ℕ) (z : Zone) → IsSession s → Legal s core →
        slice_get core.zones n ≡ Some z → IsWithin z }
{}
