//! The laws of the core that other crates stand on.

ghost use Rattle.std.specs.Prelude.{◌≡◌, ◌≢◌, ◌<◌, ◌≤◌, ◌+◌, ◌⊎◌, ◌↔◌, ℕ, true, false, length, map, min, reverse, take, None, Some, IsSome, List, [], ◌∷◌, slice_get, slice_set, ◌++◌};
ghost use Rattle.std.specs.List.{AllByRecursion};
ghost use Rattle.blk_base.specs.declared.place.ZoneId.TheVariants as id;
ghost use Rattle.blk_base.specs.declared.request.Answer.{Answer};
ghost use Rattle.blk_base.specs.declared.request.Answer.TheVariants.{Damaged, Range, Stopped};
ghost use Rattle.blk_base.specs.declared.request.Request.{Request};
ghost use Rattle.blk_base.specs.declared.request.Writer.{Writer};
ghost use Rattle.blk_base.specs.declared.sizes.TheConstants.{JOURNAL_ENTRIES};
ghost use Rattle.disk_model.specs.Log.{is_ok};
ghost use Rattle.disk_model.specs.declared.call.Call.{Call};
ghost use Rattle.vdo_model.specs.DeskLog.{IsDeskLog, AllAnswered, answer_of};
ghost use Rattle.vdo_model.specs.FlushMarks.{AreFlushMarks};
ghost use Rattle.vdo_model.specs.Places.{AreDrawn, IsAnsweredAtOnce, place_of};
ghost use Rattle.vdo_model.specs.RightReads.{ReadsRight};
ghost use Rattle.vdo_model.specs.RightRuns.{RunRight};
ghost use Rattle.vdo_model.specs.Scripts.{address_of, request_at};
ghost use Rattle.vdo_model.specs.QuietWrites.{QuietRight};
ghost use Rattle.vdo_model.specs.Stops.{RightAfterStops};
ghost use Rattle.vdo_model.specs.ZoneOrder.{places_in};
ghost use Rattle.core_model.specs.declared.zones.ZoneData.TheVariants.{Desk, Device, Journal, Logical};
ghost use Rattle.core_model.specs.DeskData.{Desk as DeskData};
ghost use Rattle.core_model.specs.declared.zones.DeviceZone.{DeviceZone};
ghost use Rattle.core_model.specs.JournalData.{JournalZone};
ghost use Rattle.core_model.specs.JournalRules.{all_again};
ghost use Rattle.core_model.specs.LogicalData.{LogicalZone};
ghost use Rattle.blk_base.specs.Pages.{above, leaf_of};
ghost use Rattle.core_model.specs.PageLinks.{IsThere, page_in};
ghost use Rattle.data_vio.specs.declared.logged.NewPage.{NewPage};
ghost use Rattle.data_vio.specs.declared.logged.Logged.TheVariants.{Makes, Remaps};
ghost use Rattle.data_vio.specs.declared.logged.Remapping.{Remapping};
ghost use Rattle.core_model.specs.declared.zones.Zone.{Zone};
ghost use Rattle.core_model.specs.declared.zones.ZoneData.{ZoneData};
ghost use Rattle.data_vio.specs.declared.items.Item.{Item};
ghost use Rattle.data_vio.specs.declared.items.Item.TheVariants.{Block};
ghost use Rattle.data_vio.specs.declared.items.SealedBlock.{SealedBlock};
ghost use Rattle.data_vio.specs.declared.sizes.Sizes.{Sizes};
ghost use Rattle.core_model.specs.Legal.{Legal};
ghost use Rattle.core_model.specs.Reports.{IsMappedIn, ShowsValues, opening_values, progress_of, report_of};
ghost use Rattle.core_model.specs.RightTraces.{IsHeldBack, IsUnused, IsWrite, StopsAtFailure};
ghost use Rattle.core_model.specs.Sessions.{Session, IsFair, IsSession, OnBlock, mapping_by, opened_image, said_by};
ghost use Rattle.blk_base.specs.declared.journal_entry.CommittedEntry.{CommittedEntry};
ghost use Rattle.count_laws.specs.Turns.{AreInTurn};
ghost use Rattle.core_model.specs.Start.{IsFirst};
ghost use Rattle.core_model.specs.Steps.{Act, CallsDevice, Core, HasAct, Leads, MayBegin, MoveOf, StepOf, ZoneStep};
ghost use Rattle.core_model.specs.Superblocks.{WritesNoOther, superblock_stage};
ghost use Rattle.core_model.specs.declared.zones.SuperblockStage.TheVariants.{Durable};
ghost use Rattle.core_model.specs.Trace.{Enters, Seals, Trace, aborted, calls, damage_in, durable, entry_of, is_read, journaled, lines, marks, moments, places, receipts};
ghost use Rattle.core_model.specs.Views.{AreEmptyLanes, PostsBatch, ReceivesBatch, TakesBatch, View, core_of, zones_seen};
ghost use Rattle.data_vio.specs.Vios.{Post};
ghost use Rattle.data_vio.specs.Zones.{zone_number};
ghost use Rattle.recovery_journal.specs.Log.{head_of};

/// A core is legal when a session begins, and every list of events keeps it so.
pub fn every_event_keeps_a_core_legal()
    ensures first { (s : Session) (core : Core) → IsSession s → IsFirst s core → Legal s core }
    ensures step { (s : Session) (old new : Core) → IsSession s → StepOf s.sizes old new →
        Legal s old → Legal s new }
    ensures moved { (s : Session) (old new : Core) → MoveOf old new → Legal s old → Legal s new }
    ensures leads { (s : Session) (first core : Core) → IsSession s → Leads s.sizes first core →
        Legal s first → Legal s core }
{}

// Long to prove: the laws that it cites are checked with it.
/// In a legal core a rule applies to the item in front of each inbox, and to a stream that may begin its next request; and
/// what a rule posts goes to a zone: so nothing is ever stray.
pub fn a_legal_core_goes_on()
    ensures rule { (s : Session) (core : Core) (n : ℕ) (z : Zone) (front : Item)
        (rest : List Item) → IsSession s → Legal s core
        → slice_get core.zones n ≡ Some z → z.ports.inbox ≡ front ∷ rest →
        HasAct s.sizes z.keeps (front ∷ []) }
    ensures begins { (s : Session) (core : Core) (n : ℕ) (z : Zone) → IsSession s → Legal s core
        → slice_get core.zones n ≡ Some z → MayBegin s.sizes z.keeps → HasAct s.sizes z.keeps [] }
    ensures lanes { (s : Session) (core : Core) (n : ℕ) (z : Zone) (front rest : List Item)
        (new : ZoneData) (made : Trace) (posts : List Post) → IsSession s → Legal s core
        → slice_get core.zones n ≡ Some z → z.ports.inbox ≡ front ++ rest →
        (front ≡ [] → rest ≡ []) → Act s.sizes z.keeps front new made posts
        →
        AllByRecursion
        (λ (post : Post). zone_number s.sizes post.0 < length z.ports.outboxes) posts }
{}

/// What was begun and answered in a legal core is in order, and so are the places; the desk and the logical zones have
/// them. A block request is answered `Range` exactly where its address isn't below the logical size. A request is answered as stopped only where the device's zone has stopped the session, since a write or flush
/// failed. Where each request of the script is answered, that is a right run.
pub fn a_legal_core_is_in_order()
    ensures desk_log { (s : Session) (core : Core) → Legal s core →
        IsDeskLog s.sizes.depth s.script (lines core.trace) }
    ensures drawn { (s : Session) (core : Core) → Legal s core
        →
        AreDrawn s.sizes.zones s.sizes.geometry.logical s.script (lines core.trace)
        (places core.trace) }
    ensures placed { (s : Session) (core : Core) (w : Writer) (r : Request) (a : ℕ) → Legal s core →
        request_at s.script w ≡ Some r → address_of r ≡ Some a
        → a < s.sizes.geometry.logical → IsSome (answer_of (lines core.trace) w)
        → IsSome (place_of (places core.trace) w) ⊎ IsAnsweredAtOnce (lines core.trace) w Stopped }
    ensures at_desk { (s : Session) (core : Core) (n : ℕ) (z : Zone) (desk : DeskData) →
        Legal s core → slice_get core.zones n ≡ Some z → z.keeps ≡ Desk desk
        → (desk.log ≡ lines core.trace) × (desk.marks ≡ marks core.trace)
        × (desk.receipts ≡ receipts core.trace) }
    ensures at_zone { (s : Session) (core : Core) (n : ℕ) (z : Zone) (l : LogicalZone) →
        Legal s core → slice_get core.zones n ≡ Some z → z.keeps ≡ Logical l
        → l.places ≡ places_in l.zone (places core.trace) }
    ensures range { (s : Session) (core : Core) (w : Writer) (r : Request) (a : ℕ)
        (answer : Answer) → Legal s core → request_at s.script w ≡ Some r → address_of r ≡ Some a
        → answer_of (lines core.trace) w ≡ Some answer →
        (answer ≡ Range) ↔ (s.sizes.geometry.logical ≤ a) }
    ensures stopped { (s : Session) (core : Core) (w : Writer) (n : ℕ) (z : Zone) (d : DeviceZone) →
        Legal s core → answer_of (lines core.trace) w ≡ Some Stopped
        → slice_get core.zones n ≡ Some z → z.keeps ≡ Device d → d.stopped ≡ true }
    ensures run { (s : Session) (core : Core) → IsSession s → Legal s core →
        AllAnswered s.script (lines core.trace)
        →
        RunRight s.sizes.zones s.sizes.depth s.sizes.geometry.logical
        (progress_of core.trace) s.script (lines core.trace)
        (report_of s core.trace).places (report_of s core.trace).histories }
{}

/// Whatever the device does, no write or flush of it follows one that failed, as it happened and in its log; and a write
/// that a legal core aborted, for which reads of its address may be answered as stopped, was handed in and its slot is
/// never set.
pub fn a_legal_core_stops_at_a_failure()
    ensures happened { (s : Session) (core : Core) → Legal s core → StopsAtFailure core.trace }
    ensures logged { (s : Session) (core : Core) (newer older : List Call) (call : Call) →
        Legal s core → calls core.trace ≡ newer ++ call ∷ older
        → is_read call ≡ false →
        AllByRecursion (λ (c : Call). is_read c ≡ false → is_ok c ≡ true) older }
    ensures aborted { (s : Session) (core : Core) → Legal s core →
        AllByRecursion (IsHeldBack core.trace) (aborted core.trace) }
{}

/// An entry that is handed in to the journal says what it replaces, where the session is fair: what its address is mapped to by the
/// committed entries on top of the opened image; and it maps the address to what the request of the script asks: a write's to a block, or to zeros where
/// its bytes are zeros, a discard's to nothing.
pub fn an_entry_says_what_it_replaces()
    ensures old { (s : Session) (core : Core) (newer older : Trace) (e : Remapping) → Legal s core →
        core.trace ≡ newer ++ Enters (Remaps e) ∷ older
        → IsFair s older → e.old ≡ mapping_by s (durable older) e.at.0 }
    ensures new { (s : Session) (core : Core) (newer older : Trace) (e : Remapping) → Legal s core →
        core.trace ≡ newer ++ Enters (Remaps e) ∷ older
        → IsWrite s older e }
{}

/// The entries that a legal core hands in come in turn: each maps an address whose leaf is linked, by the opened image or by older
/// entries, to a block that nobody maps, where the session is fair; or it links a page that no older one puts anywhere, below one
/// that is linked by these or is a root, at such a block.
pub fn entries_come_in_turn()
    ensures leaf { (s : Session) (core : Core) (newer older : Trace) (e : Remapping)
        → Legal s core →
        core.trace ≡ newer ++ Enters (Remaps e) ∷ older
        →
        IsThere s.sizes.geometry.height s.links (journaled older) (leaf_of e.at.0) }
    ensures block { (s : Session) (core : Core) (newer older : Trace) (e : Remapping)
        → Legal s core →
        core.trace ≡ newer ++ Enters (Remaps e) ∷ older
        → IsFair s older → OnBlock (IsUnused s older) e.new }
    ensures once { (s : Session) (core : Core) (newer older : Trace) (p : NewPage) → Legal s core →
        core.trace ≡ newer ++ Enters (Makes p) ∷ older
        → page_in s.links (journaled older) p.page ≡ None }
    ensures above { (s : Session) (core : Core) (newer older : Trace) (p : NewPage) → Legal s core →
        core.trace ≡ newer ++ Enters (Makes p) ∷ older
        → IsThere s.sizes.geometry.height s.links (journaled older) (above p.page) }
    ensures page_block { (s : Session) (core : Core) (newer older : Trace) (p : NewPage) →
        Legal s core → core.trace ≡ newer ++ Enters (Makes p) ∷ older
        → IsFair s older → IsUnused s older p.at }

    // So all of them do, over the image that was opened.
    ensures in_turn { (s : Session) (core : Core) (entries : List CommittedEntry) → IsSession s →
        Legal s core → IsFair s core.trace
        → map entry_of (journaled core.trace) ≡ said_by entries →
        AreInTurn (opened_image s) entries }
{}

/// In a legal core the log of the journal has handed out the entries that are committed, in the order in which they stand
/// in its blocks. Its head is the first sequence, as no zone lets go of an entry.
pub fn the_log_hands_out_what_is_committed()
    ensures handed { (s : Session) (core : Core) (n : ℕ) (z : Zone) (j : JournalZone) →
        Legal s core → slice_get core.zones n ≡ Some z → z.keeps ≡ Journal j
        → take j.log.handed (said_by j.log.entries) ≡ reverse (map entry_of (durable core.trace)) }
    ensures head { (s : Session) (core : Core) (n : ℕ) (z : Zone) (j : JournalZone) → Legal s core →
        slice_get core.zones n ≡ Some z → z.keeps ≡ Journal j
        → head_of j.log ≡ s.sizes.start }
{}

/// Where the session is fair, each read that a legal core answered gave the last settled write before its place.
pub fn a_legal_core_reads_right()
    ensures { (s : Session) (core : Core) → IsSession s → Legal s core → IsFair s core.trace
        →
        ReadsRight (opening_values s) s.script (lines core.trace) (report_of s core.trace).places
        (report_of s core.trace).histories }
{}

// Long to prove: the laws that it cites are checked with it.
/// A request that a legal core answered as damaged found damage. Where the session is fair there is none: the image was opened
/// without a fault, so each leaf that is read decodes.
pub fn a_fair_session_finds_no_damage()
    ensures found { (s : Session) (core : Core) (w : Writer) (r : Request) → Legal s core →
        request_at s.script w ≡ Some r → answer_of (lines core.trace) w ≡ Some Damaged
        → IsSome (damage_in core.trace) }
    ensures none { (s : Session) (core : Core) → IsSession s → Legal s core → IsFair s core.trace →
        damage_in core.trace ≡ None }
{}

/// Each flush that a legal core answered Ok has its mark, whatever the device does; and where the session is fair, a stop before
/// or within any call of the device leaves each address a value no older than its last flushed one.
pub fn a_legal_core_is_right_after_a_stop()
    ensures marked { (s : Session) (core : Core) → IsSession s → Legal s core →
        AreFlushMarks s.script (moments core.trace) (marks core.trace) }
    ensures stops { (s : Session) (core : Core) → IsSession s → Legal s core → IsFair s core.trace
        →
        RightAfterStops (ShowsValues s) s.blocks s.before s.sizes.geometry.logical
        (opening_values s) (report_of s core.trace) (calls core.trace) }
{}

/// A write found no space with nothing else under way, right behind a flush or as the first request of all. Where the session is
/// fair, all data blocks but a few are mapped by each image that a stop behind that flush could leave, or in which the session
/// began: at most `height - 1`, which the write may have claimed for the pages of its path.
pub fn a_quiet_write_finds_no_space_in_a_full_image()
    ensures { (s : Session) (first last : Core) → IsSession s → IsFirst s first →
        Leads s.sizes first last → IsFair s last.trace →
        QuietRight (IsMappedIn s.sizes.geometry s.sizes.start) s.sizes.geometry s.blocks s.before
        (report_of s last.trace) (calls last.trace) }
{}

/// Whatever the device does, until the superblock that says that the session isn't closed was written and flushed, a legal
/// core wrote nothing else.
pub fn a_legal_core_writes_its_superblock_first()
    ensures { (s : Session) (core : Core) → Legal s core → superblock_stage core.trace ≢ Durable →
        AllByRecursion (WritesNoOther s.sizes) (calls core.trace) }
{}

/// What a zone does with an item, and the desk with none, is fixed, and in the device's zone by how the device answered: two
/// acts on the same keep, make and post the same. So all freedom lies in the order of the events, and in the device.
pub fn an_act_has_one_result()
    ensures { (sizes : Sizes) (keeps : ZoneData) (front : List Item) (new new' : ZoneData)
        (made made' : Trace) (posts posts' : List Post)
        → Act sizes keeps front new made posts → Act sizes keeps front new' made' posts' →
        (CallsDevice keeps → made ≡ made')
        → (new ≡ new') × (made ≡ made') × (posts ≡ posts') }
{}

/// Each block that the journal seals has all requests that wait there, in the block being filled and for the next one, in their
/// order, up to 192 of them: so what came in while a block was under way shares the next one.
pub fn a_sealed_block_has_all_that_wait()
    ensures { (sizes : Sizes) (old : JournalZone) (b : SealedBlock) (new : ZoneData)
        (posts : List Post) → Act sizes (Journal old) (Block b ∷ []) new (Seals ∷ []) posts →
        (block : SealedBlock)
        × (posts ≡ (id.Device, Block block) ∷ all_again old.waiting)
        × (block.vios ≡ old.filling)
        × (length block.vios ≡ min JOURNAL_ENTRIES (length old.filling + length old.waiting)) }
{}

/// A step of one zone's view is a step of the core that the views and the lanes stand for, whatever the others are by then.
pub fn a_view_steps_as_its_zone()
    ensures { (sizes : Sizes) (views : List Zone) (lanes : List (List (List Item))) (n : ℕ)
        (old new : Zone) (made t : Trace) → slice_get views n ≡ Some old
        → ZoneStep sizes old new made →
        StepOf sizes (core_of views lanes t) (core_of (slice_set views n new) lanes (made ++ t)) }
{}

/// The views of threads and the lanes between them stand for one core. Posting a batch to a lane and receiving it leave that
/// core as it is, and taking it is a move; where every lane is empty at the start, they stand for the first core.
pub fn the_views_stand_for_a_core()
    ensures posts { (from to : ℕ) (views views' : List View)
        (lanes lanes' : List (List (List Item))) (t : Trace) →
        PostsBatch from to views views' lanes lanes'
        → core_of (zones_seen views') lanes' t ≡ core_of (zones_seen views) lanes t }
    ensures receives { (from to : ℕ) (views views' : List View) (lanes : List (List (List Item)))
        (t : Trace) → ReceivesBatch from to views views' lanes
        → core_of (zones_seen views') lanes t ≡ core_of (zones_seen views) lanes t }
    ensures takes { (from to : ℕ) (views views' : List View)
        (lanes lanes' : List (List (List Item))) (t : Trace) →
        TakesBatch from to views views' lanes lanes'
        → MoveOf (core_of (zones_seen views) lanes t) (core_of (zones_seen views') lanes' t) }
    ensures first { (s : Session) (core : Core) (views : List View)
        (lanes : List (List (List Item))) → IsFirst s core → zones_seen views ≡ core.zones →
        AreEmptyLanes lanes
        → core_of (zones_seen views) lanes [] ≡ core }
{}
