ghost use Rattle.std.specs.Prelude.{◌≡◌, ◌+◌, ◌*◌, ◌<◌, ◌≤◌, length, take};
ghost use Rattle.sector_records.specs.SectorBytes.{sector_form, records_in, sector_of, eight_sectors};

use crate::Format;
use blk_base::Block;
use byte_fields::put_zeros;
use std::cmp;

/// Writes a block: these records in its eight sectors.
pub fn put_block<F: Format>(block: &mut Block, head: &F, records: &[F::Record])
    ensures { block.new
        ≡ eight_sectors
        (sector_of F.record_bytes (F.head_bytes head.now) F.PER_SECTOR records.now) }
{
    put_sectors(&mut block.bytes, head, records);
}

fn put_sectors<F: Format>(bytes: &mut [u8], head: &F, records: &[F::Record])
    requires { length bytes.old ≡ 4096 }
    ensures { bytes.new
        ≡ eight_sectors
        (sector_of F.record_bytes (F.head_bytes head.now) F.PER_SECTOR records.now) }
{
    for number in 0..8 {
        let start = 512 * number as usize;
        put_sector(
            &mut bytes[start..start + 512],
            head,
            number,
            part::<F>(records, number),
        );
    }
}

// The records of one sector.
fn part<F: Format>(records: &[F::Record], number: u16) -> &[F::Record]
    ensures part { result.now ≡ records_in F.PER_SECTOR number records.now }
    ensures few { length result.now ≤ F.PER_SECTOR }
{
    let first = cmp::min(F::PER_SECTOR * usize::from(number), records.len());
    let rest = &records[first..];
    &rest[..cmp::min(F::PER_SECTOR, rest.len())]
}

/// Writes a sector with these records.
pub fn put_sector<F: Format>(sector: &mut [u8], head: &F, number: u16, records: &[F::Record])
    requires size { length sector.old ≡ 512 }
    requires few { length records.now ≤ F.PER_SECTOR }
    ensures { sector.new
        ≡ sector_form F.record_bytes
        (F.head_bytes head.now number (length records.now)) records.now }
{
    head.put_head(number, records.len() as u16, sector);
    put_records::<F>(sector, records);
}

// Writes the records of a sector, and zeros behind them.
// Long to prove: the width and the records are of any format.
fn put_records<F: Format>(sector: &mut [u8], records: &[F::Record])
    requires size { length sector.old ≡ 512 }
    requires few { length records.now ≤ F.PER_SECTOR }
    ensures { sector.new ≡ sector_form F.record_bytes (take 32 sector.old) records.now }
{
    let mut end = 32;
    for one in records {
        F::put_record(*one, &mut sector[end..end + F::WIDTH]);
        end += F::WIDTH;
    }
    put_zeros(sector, end, 512 - end);
}
