ghost use Rattle.std.specs.Prelude.{◌≡◌, ◌<◌, ◌≤◌, ◌-◌, ◌^◌, IsTrue, false, [], ◌∷◌};
ghost use Rattle.disk_model.specs.Seen.{Stays};
ghost use Rattle.core_model.specs.Limits.{IsDataWithin};
ghost use Rattle.core_model.specs.Steps.{CallsDevice, HasAct, MayBegin};
ghost use Rattle.step_parts.specs.Acts.{Acts, ActsAlone};
ghost use Rattle.step_parts.specs.ZoneSizes.{AreFew, HasPhysical};
ghost use Rattle.device_zone.specs.DeviceCalls.{Fits};
ghost use Rattle.vdo_core.specs.Conditions.{CanBeginAt};

use core_model::ZoneData;
use data_vio::{Item, Sizes};
use disk_model::Disk;
use step_parts::Posts;

// Long to prove: what each kind of zone does is said again of any zone.
/// What a zone that isn't the device's does with the item in front of its inbox, by what it keeps.
pub(crate) fn act_alone(sizes: &Sizes, keeps: &mut ZoneData, item: Item, posts: &mut Posts)
    requires other { CallsDevice keeps.old → ⊥ }
    requires zones { 0 < sizes.now.zones }
    requires few { AreFew sizes.now }
    requires physical { HasPhysical sizes.now }
    requires within { IsDataWithin (2 ^ 64 - 2) keeps.old }
    requires rule { HasAct sizes.now keeps.old (item ∷ []) }
    requires none { posts.old ≡ [] }
    ensures { ActsAlone sizes.now keeps.old (item ∷ []) keeps.new posts.new }
{
    match keeps {
        ZoneData::Desk(desk) => desk_zone::act(sizes, desk, item, posts),
        ZoneData::Logical(zone) => logical_zone::act(sizes, zone, item, posts),
        ZoneData::Physical(zone) => physical_zone::act(sizes, zone, item, posts),
        ZoneData::Journal(zone) => journal_zone::act(sizes, zone, item, posts),
        ZoneData::Device(_) => unreachable!(),
    }
}

// Long to prove: what the kind of zone does is said again of any zone.
/// What the device's zone does with the item in front of its inbox.
pub(crate) fn act_at_device<D: Disk>(
    sizes: &Sizes,
    keeps: &mut ZoneData,
    item: Item,
    disk: &mut D,
    posts: &mut Posts,
)
    requires own { CallsDevice keeps.old }
    requires few { AreFew sizes.now }
    requires physical { HasPhysical sizes.now }
    requires within { IsDataWithin (2 ^ 64 - 2) keeps.old }
    requires rule { HasAct sizes.now keeps.old (item ∷ []) }
    requires fits { Fits sizes.now (D.seen disk.old) }
    requires none { posts.old ≡ [] }
    ensures stays { Stays (D.seen disk.old) (D.seen disk.new) }
    ensures acts { Acts D.trust sizes.now keeps.old (item ∷ []) keeps.new posts.new
        (D.seen disk.old) (D.seen disk.new) }
{
    match keeps {
        ZoneData::Device(zone) => device_zone::act(sizes, zone, item, disk, posts),
        _ => unreachable!(),
    }
}

/// With no item the desk begins a request, where one may begin; it says whether one may.
// Apart from its caller, which would else have the frame of a begin at each of its steps.
#[inline(never)]
pub(crate) fn begin(sizes: &Sizes, keeps: &mut ZoneData, posts: &mut Posts) -> bool
    requires can { CanBeginAt sizes.now keeps.old }
    requires none { posts.old ≡ [] }
    ensures begun { IsTrue result → ActsAlone sizes.now keeps.old [] keeps.new posts.new }
    ensures might { IsTrue result → MayBegin sizes.now keeps.old }
    ensures same { (result ≡ false) → (keeps.new ≡ keeps.old) × (posts.new ≡ []) }
    ensures none { (result ≡ false) → MayBegin sizes.now keeps.old → ⊥ }
{
    match keeps {
        ZoneData::Desk(desk) => desk_zone::begin_next(sizes, desk, posts),
        _ => false,
    }
}
