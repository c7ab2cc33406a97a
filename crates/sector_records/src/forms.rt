ghost use Rattle.std.specs.Prelude.{◌≡◌, ◌+◌, ◌*◌, ◌<◌, ◌≤◌, ◌^◌, ℕ, List, length, take};

/// A format of blocks. A value of it is what the heads of one block's sectors have in common.
pub trait Format {
    /// What its sectors hold.
    type Record: Copy + Default;

    /// How many bytes a record has.
    const WIDTH: usize;

    ghost WIDTH: { ℕ };

    /// How many records a sector has at most.
    const PER_SECTOR: usize;

    ghost PER_SECTOR: { ℕ };

    /// The bytes of the head of the sector with this number, which has so many records.
    ghost head_bytes: { Self → ℕ → ℕ → List ℕ };

    /// The bytes of a record.
    ghost record_bytes: { Self.Record → List ℕ };

    /// A record whose bytes spell no other.
    ghost is_spelled: { Self.Record → Type 0 };

    /// Writes the head, the first 32 bytes of a sector.
    fn put_head(&self, number: u16, count: u16, sector: &mut [u8])
        requires { length sector.old ≡ 512 }
        ensures { take 32 sector.new ≡ head_bytes self.now number count };

    /// Writes the bytes of a record.
    fn put_record(item: Self::Record, into: &mut [u8])
        requires { length into.old ≡ WIDTH }
        ensures { into.new ≡ record_bytes item };

    /// The record that these bytes spell, if they spell one.
    fn read_record(from: &[u8]) -> Self::Record
        requires { length from.now ≡ WIDTH }
        ensures { (item : Self.Record) → is_spelled item → from.now ≡ record_bytes item →
            result ≡ item };

    ghost head_width: { (head : Self) (number count : ℕ) →
        length (head_bytes head number count) ≡ 32 };

    ghost record_width: { (item : Self.Record) → length (record_bytes item) ≡ WIDTH };

    ghost fits: { 32 + WIDTH * PER_SECTOR ≤ 512 };

    ghost few: { PER_SECTOR < 2 ^ 16 };
}
