ghost use Rattle.std.specs.Prelude.{◌≡◌, ◌+◌, ◌<◌, ◌≤◌, [], ◌∷◌, ◌++◌, length};
ghost use Rattle.core_model.specs.JournalRules as rules;
ghost use Rattle.step_parts.specs.ZoneSizes.{HasPhysical};

use blk_base::Answer;
use core_model::JournalZone;
use data_vio::{BLOCK_ENTRIES, BoxedVio, Fifo, Item, POST_ROOM, Phase, Sizes};
use step_parts::{Posts, counts_of};

// A request whose entry was handed in is aborted, by way of the physical zone.
fn drop_entry(sizes: &Sizes, vio: BoxedVio, posts: &mut Posts)
    requires physical { HasPhysical sizes.now }
    requires room { length posts.old < POST_ROOM }
    ensures { posts.new ≡ posts.old ++ rules.dropped sizes.now vio ∷ [] }
{
    let to = counts_of(sizes, vio.get());
    let dropped = vio.end(Phase::AbortEnteredClaim, Answer::Stopped);
    posts.push(to, Item::Request(dropped));
}

/// So are those of a block that failed.
pub(crate) fn drop_block(sizes: &Sizes, vios: &mut Fifo<BoxedVio, BLOCK_ENTRIES>, posts: &mut Posts)
    requires physical { HasPhysical sizes.now }
    requires room { length posts.old + length vios.old ≤ POST_ROOM }
    ensures vios { vios.new ≡ [] }
    ensures posts { posts.new ≡ posts.old ++ rules.all_dropped sizes.now vios.old }
    ensures count { length posts.new ≡ length posts.old + length vios.old }
{
    while let Some(vio) = vios.pop() {
        drop_entry(sizes, vio, posts);
    }
}

/// And those of the block being filled.
pub(crate) fn drop_filling(sizes: &Sizes, zone: &mut JournalZone, posts: &mut Posts)
    requires physical { HasPhysical sizes.now }
    requires room { length posts.old + length zone.old.filling ≤ POST_ROOM }
    ensures zone { zone.new ≡ record zone.old { filling = [] } }
    ensures posts { posts.new ≡ posts.old ++ rules.all_dropped sizes.now zone.old.filling }
    ensures count { length posts.new ≡ length posts.old + length zone.old.filling }
{
    while let Some(vio) = zone.pop_filling() {
        drop_entry(sizes, vio, posts);
    }
}
