ghost use Rattle.std.specs.Prelude.{◌≡◌, [], IsSome, Some, true};
ghost use Rattle.blk_base.specs.declared.request.Answer.{Answer};
ghost use Rattle.blk_base.specs.declared.request.Answer.TheVariants.{NoSpace, Ok};
ghost use Rattle.data_vio.specs.declared.items.Asks.TheVariants.{Flush};
ghost use Rattle.data_vio.specs.declared.items.Phase.TheVariants.{Reply};
ghost use Rattle.core_model.specs.DeskRules as rules;
ghost use Rattle.core_model.specs.DeskLimits.{IsDeskWithin};
ghost use Rattle.core_model.specs.Trace.{Trace};

use blk_base::{Answer, ZoneId};
use core_model::Desk;
use data_vio::{Asks, BoxedVio, Item, Sizes};
use step_parts::Posts;

/// Whether the stop notice of every zone has come to the desk.
pub(crate) fn is_notified(sizes: &Sizes, desk: &Desk) -> bool
    ensures { result ≡ rules.is_notified sizes.now desk.now }
{
    u32::from(sizes.physical) + u32::from(sizes.zones) < desk.notices()
}

// Whether an answer is that of a flush that returned.
fn is_marked(asks: Asks, answer: &Answer) -> bool
    ensures is { result ≡ rules.is_marked asks answer.now }
    ensures so { result ≡ true → (asks ≡ Flush) × (answer.now ≡ Ok) }
{
    matches!((asks, answer), (Asks::Flush, Answer::Ok))
}

// Whether an answer is that no block is free.
fn is_no_space(answer: &Answer) -> bool
    ensures is { result ≡ rules.is_no_space answer.now }
    ensures so { result ≡ true → answer.now ≡ NoSpace }
{
    matches!(answer, Answer::NoSpace)
}

// Whether an answer waits until the stop notice of every zone has come.
fn is_stopped(answer: &Answer) -> bool
    ensures { result ≡ rules.is_stopped answer.now }
{
    matches!(answer, Answer::Stopped | Answer::Damaged)
}

// A request that need not wait is answered.
fn reply(sizes: &Sizes, desk: &mut Desk, vio: BoxedVio)
    requires phase { vio.phase ≡ Reply }
    requires answered { IsSome vio.answer }
    requires within { IsDeskWithin desk.old }
    requires notified { (given : Answer) → vio.answer ≡ Some given → rules.is_stopped given ≡ true →
        rules.is_notified sizes.now desk.old ≡ true }
    ensures { (made : Trace) × rules.DeskServes sizes.now desk.old vio desk.new made [] }
{
    let asks = vio.get().asks;
    let Some(given) = &vio.get().answer else {
        unreachable!();
    };
    if is_marked(asks, given) {
        desk.mark(vio);
    } else if is_no_space(given) {
        desk.lack(vio);
    } else {
        desk.answer(vio);
    }
}

/// A request that comes back is answered, or waits until the stop notice of every zone has come.
pub(crate) fn serve_desk(sizes: &Sizes, desk: &mut Desk, vio: BoxedVio)
    requires within { IsDeskWithin desk.old }
    requires phase { vio.phase ≡ Reply }
    requires answered { IsSome vio.answer }
    ensures { (made : Trace) × rules.DeskServes sizes.now desk.old vio desk.new made [] }
{
    let Some(given) = &vio.get().answer else {
        unreachable!();
    };
    if is_stopped(given) && !is_notified(sizes, desk) {
        desk.park(vio);
    } else {
        reply(sizes, desk, vio);
    }
}

/// The stop notice of a zone comes: those that wait for it look again.
pub(crate) fn hear_stop(desk: &mut Desk, posts: &mut Posts)
    requires within { IsDeskWithin desk.old }
    requires none { posts.old ≡ [] }
    ensures desk { desk.new ≡ rules.with_notice desk.old }
    ensures posts { posts.new ≡ rules.woken desk.old.parked }
{
    desk.hear();
    while let Some(vio) = desk.unpark() {
        posts.push(ZoneId::Desk, Item::Request(vio));
    }
}
