ghost use Rattle.std.specs.Prelude.{◌≡◌};
ghost use Rattle.slab_codec.specs.BlockBytes.{block_bytes};

use crate::SlabJournalBlock;
use crate::format::SlabHead;
use blk_base::Block;
use sector_records::put_block;

/// Writes the block's bytes, as the tables of this crate say.
#[tactic(auto, unfolding(crate::specs::BlockBytes::block_bytes))]
pub fn encode_slab(block: &SlabJournalBlock, into: &mut Block)
    ensures { into.new
        ≡ block_bytes block.now.nonce block.now.sequence block.now.slab block.now.entries }
{
    let head = SlabHead {
        nonce: block.nonce,
        sequence: block.sequence,
        slab: block.slab,
    };
    put_block(into, &head, block.entries.as_slice());
}
