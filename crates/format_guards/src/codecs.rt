//! Guards of sectors of records, and of the recovery journal's blocks.
ghost use Rattle.std.specs.Prelude.{◌≡◌, ◌∷◌, ◌++◌, ◌≤◌, ◌<◌, ◌*◌, ◌+◌, ℕ, All, List, IfSome, false, true, length};
ghost use Rattle.blk_base.specs.Sectors.{sector};
ghost use Rattle.blk_base.specs.declared.journal_entry.Entry.{Entry};
ghost use Rattle.journal_codec.specs.Grammar.{IsSector};

use blk_base::Block;
use journal_codec::{Prefix, block_prefix, bytes_have_one_reading, sector};
use sector_records::{Format, Records, put_sector, read_records};

// The records of a sector are read as they were written.
fn records_are_read_as_written<F: Format, const N: usize>(
    head: &F,
    number: u16,
    records: &[F::Record],
) -> Records<F::Record, N>
    requires few { length records.now ≤ F.PER_SECTOR }
    requires room { length records.now ≤ N }
    requires spelled { All F.is_spelled records.now }
    ensures { result ≡ records.now }
{
    let mut bytes = [0; 512];
    put_sector(&mut bytes, head, number, records);
    read_records::<F, N>(&bytes, records.len() as u16)
}

// Behind a torn sector nothing is read: its block isn't whole, and has the entries of the sectors before it alone.
fn a_torn_sector_ends_a_block(block: &Block, nonce: u64, i: u16) -> Option<Prefix>
    requires place { (0 < i) × (i < 8) }
    requires torn { (sequence head : ℕ) (entries : List Entry) →
        IsSector nonce i (sector i block.now) sequence head entries → ⊥ }
    ensures { IfSome result
        (λ prefix. (prefix.whole ≡ false) × (length prefix.entries ≤ 24 * i)) }
{
    block_prefix(block, nonce)
}

// So does a valid sector of another sequence.
fn a_sector_of_another_sequence_ends_a_block(block: &Block, nonce: u64, i: u16) -> bool
    requires { (0 < i) × (i < 8) }
    ensures { result ≡ true }
{
    bytes_have_one_reading();
    let Some(other) = sector(block, i, nonce) else {
        return true;
    };
    match block_prefix(block, nonce) {
        Some(prefix) => {
            prefix.sequence == other.sequence
                || (!prefix.whole && prefix.entries.len() <= 24 * usize::from(i))
        }
        None => true,
    }
}
