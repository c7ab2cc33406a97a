ghost use Rattle.std.specs.Prelude.{◌≡◌, ◌+◌, ◌*◌, ◌<◌, ◌≤◌, ◌++◌, ◌↔◌, ℕ, List, All, IsTrue, IfSome, IfNone, length, drop, flat_map};
ghost use Rattle.blk_base.specs.Sectors.{sector};
ghost use Rattle.sector_records.specs.SectorBytes.{sector_form};

use crate::{Format, Records, put_sector};
use blk_base::Block;

/// The bytes of a sector of a block; `None` where `i` isn't below 8.
pub fn bytes_of_sector(block: &Block, i: u16) -> Option<&[u8]>
    ensures bytes { IfSome result (λ bytes. bytes.now ≡ sector i block.now) }
    ensures size { IfSome result (λ bytes. length bytes.now ≡ 512) }
    ensures none { IfNone result (length (sector i block.now) < 512) }
{
    let start = 512 * usize::from(i);
    block.bytes.get(start..start + 512)
}

// Long to prove: the width and the records are of any format.
/// The records that a sector's bytes spell, if it has this many and each is of a kind that is spelled.
pub fn read_records<F: Format, const N: usize>(sector: &[u8], count: u16) -> Records<F::Record, N>
    requires size { length sector.now ≡ 512 }
    requires few { count ≤ F.PER_SECTOR }
    requires room { count ≤ N }
    ensures count { length result ≡ count }
    ensures read { (records : List F.Record) (rest : List ℕ) → All F.is_spelled records →
        length records ≡ count
        → drop 32 sector.now ≡ flat_map F.record_bytes records ++ rest → result ≡ records }
{
    let mut records = Records::new();
    for k in 0..count {
        let start = 32 + F::WIDTH * usize::from(k);
        records.push(F::read_record(&sector[start..start + F::WIDTH]));
    }
    records
}

/// Whether these are the bytes of a sector with these records.
pub fn is_sector<F: Format>(bytes: &[u8], head: &F, number: u16, records: &[F::Record]) -> bool
    requires size { length bytes.now ≡ 512 }
    requires few { length records.now ≤ F.PER_SECTOR }
    ensures { IsTrue result
        ↔
        (bytes.now
        ≡ sector_form F.record_bytes
        (F.head_bytes head.now number (length records.now)) records.now) }
{
    let mut spelled = [0; 512];
    put_sector(&mut spelled, head, number, records);
    bytes == spelled.as_slice()
}
