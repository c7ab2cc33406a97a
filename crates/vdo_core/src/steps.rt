ghost use Rattle.std.specs.Prelude.{◌≡◌, ◌+◌, ◌<◌, ◌≤◌, ◌↔◌, [], IsTrue, true, false};
ghost use Rattle.std.specs.List.{AllByRecursion};
ghost use Rattle.disk_model.specs.Seen.{Seen, Stays};
ghost use Rattle.disk_model.specs.Trust.{Trust};
ghost use Rattle.core_model.specs.Steps.{CallsDevice, IsIdle, delivered, step_limit};
ghost use Rattle.device_zone.specs.DeviceCalls.{Fits};
ghost use Rattle.vdo_core.specs.Conditions.{CanStep, HasLane};
ghost use Rattle.vdo_core.specs.Lanes.{HasRoomFor, most_posts};
ghost use Rattle.vdo_core.specs.Plays.{ComesTo, ZoneSteps};
ghost use Rattle.vdo_core.specs.declared.stepped.Stepped.TheVariants.{Did};
ghost use Rattle.vdo_core.specs.StepTools.{AreToolsOf, OnDevice, Uses};

use crate::dispatch::{act_alone, act_at_device, begin};
use crate::lanes::deliver;
use crate::stepped::Stepped;
use crate::tools::Tools;
use core_model::{Zone, ZoneData};
use data_vio::Sizes;
use disk_model::Disk;
use step_parts::Posts;

/// Whether a zone may step once more: it made fewer than 2^64 - 1 steps.
pub(crate) fn has_steps_left(zone: &Zone) -> bool
    ensures yes { result ≡ true → zone.now.steps < step_limit }
    ensures no { result ≡ false → step_limit ≤ zone.now.steps }
{
    zone.steps < u64::MAX
}

// The zone made a step more, and what it posts goes to its lanes.
fn end(sizes: &Sizes, zone: &mut Zone, posts: &mut Posts) -> Stepped
    requires counts { zone.old.steps < step_limit }
    requires room { HasRoomFor most_posts zone.old }
    requires lanes { AllByRecursion (HasLane sizes.now zone.old) posts.old }
    ensures zone { zone.new
        ≡ delivered sizes.now posts.old (record zone.old { steps = zone.old.steps + 1 }) }
    ensures did { result ≡ Did }
{
    zone.steps += 1;
    deliver(sizes, zone, posts);
    Stepped::Did
}

// One step of a zone that isn't the device's.
fn step_alone(sizes: &Sizes, zone: &mut Zone, posts: &mut Posts) -> Stepped
    requires can { CanStep sizes.now zone.old }
    requires other { CallsDevice zone.old.keeps → ⊥ }
    requires none { posts.old ≡ [] }
    ensures { ComesTo
        ((trust : Trust) (seen : Seen) →
        ZoneSteps trust sizes.now zone.old zone.new seen seen) (IsIdle sizes.now zone.old)
        (zone.new ≡ zone.old) result }
{
    if !has_steps_left(zone) {
        return Stepped::Idle;
    }
    match zone.ports.take() {
        Some(item) => {
            act_alone(sizes, &mut zone.keeps, item, posts);
            end(sizes, zone, posts)
        }
        None => {
            if !begin(sizes, &mut zone.keeps, posts) {
                return Stepped::Idle;
            }
            end(sizes, zone, posts)
        }
    }
}

// One step of the device's zone.
fn step_device<D: Disk>(sizes: &Sizes, zone: &mut Zone, posts: &mut Posts, disk: &mut D) -> Stepped
    requires can { CanStep sizes.now zone.old }
    requires own { CallsDevice zone.old.keeps }
    requires fits { Fits sizes.now (D.seen disk.old) }
    requires none { posts.old ≡ [] }
    ensures stays { Stays (D.seen disk.old) (D.seen disk.new) }
    ensures steps { ComesTo
        (ZoneSteps D.trust sizes.now zone.old zone.new (D.seen disk.old) (D.seen disk.new))
        (IsIdle sizes.now zone.old)
        ((zone.new ≡ zone.old) × (D.seen disk.new ≡ D.seen disk.old)) result }
{
    if !has_steps_left(zone) {
        return Stepped::Idle;
    }
    match zone.ports.take() {
        Some(item) => {
            act_at_device(sizes, &mut zone.keeps, item, disk, posts);
            end(sizes, zone, posts)
        }
        None => Stepped::Idle,
    }
}

/// One step of a zone with its tools: it takes the item in front of its inbox, or, where it is the desk and has none, begins
/// the next request of the lowest stream that may begin one. It is idle exactly where there is neither, or it made
/// 2^64 - 1 steps. Where the device tells, the calls that it made stand in its log; and its count of faults rose with each
/// call that failed. What it posts goes by way of `posts`, which is empty before.
///
/// It asks for no memory. Each zone of a legal core can step (`a_legal_core_can_step`).
pub fn step_zone<D: Disk>(
    sizes: &Sizes,
    zone: &mut Zone,
    posts: &mut Posts,
    tools: Tools<'_, D>,
) -> Stepped
    requires can { CanStep sizes.now zone.old }
    requires tools { AreToolsOf zone.old.keeps tools }
    requires fits { OnDevice (λ disk. Fits sizes.now (D.seen disk)) tools }
    requires none { posts.old ≡ [] }
    ensures stays { Uses D.seen Stays tools.entry tools.exit }
    ensures steps { ComesTo
        (Uses D.seen
        (ZoneSteps D.trust sizes.now zone.old zone.new) tools.entry tools.exit)
        (IsIdle sizes.now zone.old)
        ((zone.new ≡ zone.old)
        × Uses D.seen (λ before after. after ≡ before) tools.entry tools.exit) result }
{
    match tools {
        Tools::Device(disk) => step_device(sizes, zone, posts, disk),
        Tools::Other => step_alone(sizes, zone, posts),
    }
}

// Whether a zone is the device's.
// Long to prove: each kind of zone is told apart.
fn is_device(zone: &Zone) -> bool
    ensures { IsTrue result ↔ CallsDevice zone.now.keeps }
{
    match zone.keeps {
        ZoneData::Device(_) => true,
        _ => false,
    }
}

/// One step of a zone, which is given the tool of its kind.
pub(crate) fn step_with<'a, D: Disk>(
    sizes: &Sizes,
    zone: &mut Zone,
    posts: &mut Posts,
    disk: &'a mut D,
) -> Stepped
    requires can { CanStep sizes.now zone.old }
    requires fits { Fits sizes.now (D.seen disk.old) }
    requires none { posts.old ≡ [] }
    ensures stays { Stays (D.seen disk.old) (D.seen disk.new) }
    ensures steps { ComesTo
        (ZoneSteps D.trust sizes.now zone.old zone.new (D.seen disk.old) (D.seen disk.new))
        (IsIdle sizes.now zone.old)
        ((zone.new ≡ zone.old) × (D.seen disk.new ≡ D.seen disk.old)) result }
{
    if is_device(zone) {
        let tools: Tools<'_, D> = Tools::Device(disk);
        return step_zone(sizes, zone, posts, tools);
    }
    let tools: Tools<'a, D> = Tools::Other;
    step_zone(sizes, zone, posts, tools)
}
