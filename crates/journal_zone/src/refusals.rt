ghost use Rattle.std.specs.Prelude.{◌≡◌, ◌+◌, ◌<◌, ◌≤◌, [], ◌∷◌, ◌++◌, length};
ghost use Rattle.core_model.specs.JournalRules as rules;
ghost use Rattle.step_parts.specs.ZoneSizes.{HasPhysical};
ghost use Rattle.journal_zone.specs.Refusals.{answer_for};

use blk_base::{Answer, ZoneId};
use core_model::JournalZone;
use data_vio::{BoxedVio, Item, POST_ROOM, Phase, Sizes};
use step_parts::{Posts, counts_of};

/// Why an entry isn't handed in.
#[derive(Clone, Copy)]
pub enum Refusal {
    Full,
    Stopped,
}

// What its request is answered with.
fn answered(refusal: Refusal) -> Answer
    ensures { result ≡ answer_for refusal }
{
    match refusal {
        Refusal::Full => Answer::Full,
        Refusal::Stopped => Answer::Stopped,
    }
}

/// A request is aborted, by way of the physical zone.
pub(crate) fn refuse(sizes: &Sizes, refusal: Refusal, vio: BoxedVio, posts: &mut Posts)
    requires physical { HasPhysical sizes.now }
    requires room { length posts.old < POST_ROOM }
    ensures { posts.new ≡ posts.old ++ rules.refused sizes.now (answer_for refusal) vio ∷ [] }
{
    let to = counts_of(sizes, vio.get());
    let refused = vio.end(Phase::AbortClaim, answered(refusal));
    posts.push(to, Item::Request(refused));
}

/// Those that wait are aborted, since the session is stopped.
pub(crate) fn refuse_waiting(sizes: &Sizes, zone: &mut JournalZone, posts: &mut Posts)
    requires physical { HasPhysical sizes.now }
    requires room { length posts.old + length zone.old.waiting ≤ POST_ROOM }
    ensures zone { zone.new ≡ record zone.old { waiting = [] } }
    ensures posts { posts.new
        ≡ posts.old ++ rules.all_refused sizes.now (answer_for Refusal.Stopped) zone.old.waiting }
{
    while let Some(vio) = zone.pop_waiting() {
        refuse(sizes, Refusal::Stopped, vio, posts);
    }
}

/// Those that waited come again.
pub(crate) fn send_again(zone: &mut JournalZone, posts: &mut Posts)
    requires { length posts.old + length zone.old.waiting ≤ POST_ROOM }
    ensures zone { zone.new ≡ record zone.old { waiting = [] } }
    ensures posts { posts.new ≡ posts.old ++ rules.all_again zone.old.waiting }
{
    while let Some(vio) = zone.pop_waiting() {
        posts.push(ZoneId::Journal, Item::Request(vio));
    }
}
