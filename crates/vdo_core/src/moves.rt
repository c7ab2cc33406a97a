ghost use Rattle.std.specs.Prelude.{◌≡◌, ◌≢◌, ◌<◌, ◌≤◌, Some, IsTrue, List, false, length, slice_get};
ghost use Rattle.data_vio.specs.declared.items.Item.{Item};
ghost use Rattle.core_model.specs.declared.zones.Zone.{Zone};
ghost use Rattle.core_model.specs.Limits.{IsWithin};
ghost use Rattle.core_model.specs.SessionLimits.{IsShort};
ghost use Rattle.plain_laws.specs.Sums.{Each};
ghost use Rattle.vdo_core.specs.Moves.{MovesNothing, MovesSome, has_items};
ghost use Rattle.vdo_core.specs.Plays.{ComesTo, MovesAll};
ghost use Rattle.vdo_core.specs.declared.numbers.TheConstants.{MOST_ZONES};

use crate::stepped::Stepped;
use crate::zones::Zones;
use core_model::Zone;

/// Whether an outbox has items.
pub(crate) fn has_posted(zone: &Zone, to: u32) -> bool
    ensures { result ≡ has_items (slice_get zone.now.ports.outboxes to) }
{
    to < zone.ports.count() && zone.ports.has_posts(to)
}

// The whole outbox of one zone becomes the tail of the inbox of another.
// Long to prove: two zones are borrowed of one list, in both orders.
fn carry(zones: &mut Vec<Zone>, from: u32, to: u32)
    requires apart { from ≢ to }
    requires source { from < length zones.old.items }
    requires target { to < length zones.old.items }
    requires outbox { (source : Zone) → slice_get zones.old.items from ≡ Some source →
        to < length source.ports.outboxes }
    requires sent { (source : Zone) (lane : List Item) →
        slice_get zones.old.items from ≡ Some source →
        slice_get source.ports.outboxes to ≡ Some lane → IsShort lane }
    requires there { (target : Zone) → slice_get zones.old.items to ≡ Some target →
        IsShort target.ports.inbox }
    ensures { MovesAll from to zones.old.items zones.new.items }
{
    if from < to {
        let (front, back) = zones.split_at_mut(to as usize);
        let source = &mut front[from as usize];
        let target = &mut back[0];
        source.ports.hand_over(to, &mut target.ports);
    } else {
        let (front, back) = zones.split_at_mut(from as usize);
        let source = &mut back[0];
        let target = &mut front[to as usize];
        source.ports.hand_over(to, &mut target.ports);
    }
}

/// Whether one zone has posted something to another.
pub(crate) fn can_move(zones: &Zones, from: u32, to: u32) -> bool
    requires { length zones.now ≤ MOST_ZONES }
    ensures yes { IsTrue result → MovesSome zones.now from to }
    ensures no { (result ≡ false) → MovesNothing zones.now from to }
{
    let count = zones.zones.len() as u32;
    if from == to || from >= count || to >= count {
        return false;
    }
    has_posted(&zones.zones[from as usize], to)
}

/// What one zone posted to another moves from the outbox to the tail of the inbox, all of it. It asks for no memory.
pub(crate) fn move_items(zones: &mut Zones, from: u32, to: u32) -> Stepped
    requires within { Each (λ n z. IsWithin z) zones.old }
    requires few { length zones.old ≤ MOST_ZONES }
    ensures { ComesTo (MovesAll from to zones.old zones.new) (MovesNothing zones.old from to)
        (zones.new ≡ zones.old) result }
{
    if !can_move(zones, from, to) {
        return Stepped::Idle;
    }
    carry(&mut zones.zones, from, to);
    Stepped::Did
}
