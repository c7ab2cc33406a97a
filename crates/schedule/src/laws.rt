ghost use Rattle.std.specs.Prelude.{ℕ, ◌≡◌, List, ◌++◌};
ghost use Rattle.disk_model.specs.Trust.{Trust};
ghost use Rattle.data_vio.specs.declared.sizes.Sizes.{Sizes};
ghost use Rattle.core_model.specs.declared.zones.Zone.{Zone};
ghost use Rattle.core_model.specs.Steps.{Leads};
ghost use Rattle.core_model.specs.Trace.{Trace};
ghost use Rattle.step_parts.specs.DeviceLog.{HasCalled};
ghost use Rattle.vdo_core.specs.Plays.{Plays, Vdo, core_with};
ghost use Rattle.vdo_core.specs.declared.events.Event.{Event};
ghost use Rattle.schedule.specs.Turns.{Drives, Driving, IsTurn, PlaysUntilDone};

/// What the turns of a schedule make of a core, their events do, one after another, and what happens is the same; and it
/// leads there, whatever happened before, with the calls of the device that it has.
pub fn a_schedule_plays_events()
    ensures plays { (trust : Trust) (sizes : Sizes) (events : List Event)
        (old new : Driving) (made : Trace) → Drives trust sizes events old new made →
        Plays trust sizes events old.vdo new.vdo made }
    ensures leads { (trust : Trust) (sizes : Sizes) (events : List Event)
        (old new : Driving) (made : Trace) → Drives trust sizes events old new made →
        ((t : Trace) →
        Leads sizes (core_with old.vdo.zones t) (core_with new.vdo.zones (made ++ t)))
        × HasCalled trust old.vdo.seen new.vdo.seen made }
{}

/// What is played until a core is done is a first part of the events, and what happens is the same; and it leads there.
pub fn a_played_list_is_a_first_part()
    ensures plays { (trust : Trust) (sizes : Sizes) (events : List Event) (old new : Vdo)
        (made : Trace) → PlaysUntilDone trust sizes events old new made →
        (played left : List Event) × (events ≡ played ++ left)
        × Plays trust sizes played old new made }
    ensures leads { (trust : Trust) (sizes : Sizes) (events : List Event) (old new : Vdo)
        (made : Trace) → PlaysUntilDone trust sizes events old new made →
        ((t : Trace) → Leads sizes (core_with old.zones t) (core_with new.zones (made ++ t)))
        × HasCalled trust old.seen new.seen made }
{}

/// A turn of a core at a state of the row takes one event, and no other.
pub fn a_turn_takes_one_event()
    ensures { (sizes : Sizes) (zones : List Zone) (state : ℕ) (e e' : Event) →
        IsTurn sizes zones state e → IsTurn sizes zones state e' → e ≡ e' }
{}
