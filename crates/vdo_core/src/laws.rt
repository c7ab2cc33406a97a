ghost use Rattle.std.specs.Prelude.{◌≡◌, ◌↔◌, ◌≤◌, ℕ, Some, List, slice_get};
ghost use Rattle.data_vio.specs.declared.items.Item.{Item};
ghost use Rattle.core_model.specs.declared.zones.Zone.{Zone};
ghost use Rattle.core_model.specs.Legal.{Legal};
ghost use Rattle.core_model.specs.Sessions.{Session, IsSession};
ghost use Rattle.core_model.specs.Steps.{Core};
ghost use Rattle.core_model.specs.Trace.{Trace, lines};
ghost use Rattle.core_model.specs.Views.{core_of};
ghost use Rattle.vdo_core.specs.Conditions.{CanStep};
ghost use Rattle.vdo_core.specs.Done.{IsDone};
ghost use Rattle.vdo_core.specs.Plays.{HasNoWork, HaveStepsLeft};
ghost use Rattle.vdo_core.specs.declared.events.Event.{Event};
ghost use Rattle.vdo_model.specs.DeskLog.{AllAnswered};

// Long to prove: the laws that it cites are checked with it.
/// Each zone of a legal core can step: it keeps within its room, a rule applies to what is in front of its inbox, and what a
/// rule posts has a lane.
pub fn a_legal_core_can_step()
    ensures { (s : Session) (core : Core) (n : ℕ) (z : Zone) → IsSession s → Legal s core →
        slice_get core.zones n ≡ Some z → CanStep s.sizes z }
{}

/// What a step needs is said of the zone alone: a view of threads can step where the core is legal that the views and the
/// lanes stand for.
pub fn a_view_can_step_as_its_zone()
    ensures { (s : Session) (views : List Zone) (lanes : List (List (List Item))) (t : Trace)
        (n : ℕ) (z : Zone) → IsSession s → Legal s (core_of views lanes t)
        → slice_get views n ≡ Some z → CanStep s.sizes z }
{}

/// A legal core is done exactly where each request of the script is answered.
pub fn a_legal_core_is_done_when_all_are_answered()
    ensures { (s : Session) (core : Core) → Legal s core →
        IsDone core.zones ↔ AllAnswered s.script (lines core.trace) }
{}

/// A legal core of which no event has work is done, unless a zone made all the steps that it may: so no request waits for what
/// never comes. A stream may have a request under way.
pub fn a_legal_core_without_work_is_done()
    ensures { (s : Session) (core : Core) → 1 ≤ s.sizes.depth → Legal s core →
        HaveStepsLeft core.zones
        → ((e : Event) → HasNoWork s.sizes core.zones e) → IsDone core.zones }
{}
