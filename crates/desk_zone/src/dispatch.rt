ghost use Rattle.std.specs.Prelude.{◌≡◌, [], ◌∷◌};
ghost use Rattle.core_model.specs.declared.zones.ZoneData.TheVariants as at;
ghost use Rattle.core_model.specs.DeskLimits.{IsDeskWithin};
ghost use Rattle.core_model.specs.Steps.{HasAct};
ghost use Rattle.step_parts.specs.Acts.{ActsAlone};

use crate::replies::{hear_stop, serve_desk};
use core_model::Desk;
use data_vio::{Item, Sizes};
use step_parts::Posts;

/// What the desk does with the item in front of its inbox, to which a rule applies: it posts this.
pub fn act(sizes: &Sizes, desk: &mut Desk, item: Item, posts: &mut Posts)
    requires within { IsDeskWithin desk.old }
    requires rule { HasAct sizes.now (at.Desk desk.old) (item ∷ []) }
    requires none { posts.old ≡ [] }
    ensures { ActsAlone sizes.now (at.Desk desk.old) (item ∷ []) (at.Desk desk.new) posts.new }
{
    match item {
        Item::Request(vio) => serve_desk(sizes, desk, vio),
        Item::StopNotice => hear_stop(desk, posts),
        Item::Decrement(_) | Item::Report(_) | Item::Damage(_) | Item::Block(_) => unreachable!(),
    }
}
