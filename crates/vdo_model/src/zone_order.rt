ghost use Rattle.std.specs.Prelude.{◌≡◌, ◌≤◌, ℕ, List};
ghost use Rattle.vdo_model.specs.declared.report.DeskLine.{DeskLine};
ghost use Rattle.vdo_model.specs.declared.report.Placed.{Placed};
ghost use Rattle.vdo_model.specs.Histories.{Progress, histories_of, history_of};
ghost use Rattle.vdo_model.specs.Places.{AreDrawn, ArePlaces};
ghost use Rattle.vdo_model.specs.RightReads.{ReadsRight};
ghost use Rattle.vdo_model.specs.Scripts.{Script};
ghost use Rattle.vdo_model.specs.ZoneOrder.{HaveSameZones, by_zone};

/// What is right of places, histories and reads doesn't depend on the order in which the zones are listed: it is the same
/// of two lists that have the same places in each zone, as the list in the order in which they were drawn and the zones'
/// own lists, one behind the other, are.
pub fn zones_may_be_listed_in_any_order()
    ensures listed { (zones logical : ℕ) (script : Script) (desk : List DeskLine)
        (places : List Placed)
        → 1 ≤ zones → AreDrawn zones logical script desk places →
        HaveSameZones places (by_zone zones places) }
    ensures drawn { (zones logical : ℕ) (script : Script) (desk : List DeskLine)
        (places others : List Placed)
        → HaveSameZones places others → AreDrawn zones logical script desk places →
        AreDrawn zones logical script desk others }
    ensures places { (zones logical : ℕ) (script : Script) (desk : List DeskLine)
        (places others : List Placed)
        → HaveSameZones places others → ArePlaces zones logical script desk places →
        ArePlaces zones logical script desk others }
    ensures histories { (zones logical : ℕ) (script : Script) (desk : List DeskLine)
        (progress : Progress) (places others : List Placed) (a : ℕ)
        → HaveSameZones places others → AreDrawn zones logical script desk places
        →
        history_of (histories_of script desk progress places) a
        ≡ history_of (histories_of script desk progress others) a }
    ensures reads { (zones logical : ℕ) (script : Script) (desk : List DeskLine)
        (progress : Progress) (opening : ℕ → List ℕ) (places others : List Placed)
        → HaveSameZones places others → AreDrawn zones logical script desk places
        → ReadsRight opening script desk places (histories_of script desk progress places)
        → ReadsRight opening script desk others (histories_of script desk progress others) }
{}
