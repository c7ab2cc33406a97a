ghost use Rattle.std.specs.Prelude.{◌≡◌};
ghost use Rattle.journal_codec.specs.BlockBytes.{block_bytes};

use crate::JournalBlock;
use crate::format::JournalHead;
use blk_base::Block;
use sector_records::put_block;

/// Writes the block's bytes, as the tables of this crate say.
#[tactic(auto, unfolding(crate::specs::BlockBytes::block_bytes))]
pub fn encode(block: &JournalBlock, into: &mut Block)
    ensures { into.new
        ≡ block_bytes block.now.nonce block.now.sequence block.now.head block.now.entries }
{
    let head = JournalHead {
        nonce: block.nonce,
        sequence: block.sequence,
        head: block.head,
    };
    put_block(into, &head, block.entries.as_slice());
}
