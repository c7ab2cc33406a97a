ghost use Rattle.std.specs.Prelude.{◌≡◌, reverse};
ghost use Rattle.image_layout.specs.Values.{mapping_of};

use blk_base::{Entry, Lba, Mapping};

/// Where the entries, the oldest first, map an address.
pub fn mapping_at(entries: &[Entry], at: Lba) -> Mapping
    ensures { result ≡ mapping_of (reverse entries.now) at.0 }
{
    let mut mapping = Mapping::Unmapped;
    for entry in entries {
        if let Entry::Remap {
            at: mapped,
            new,
            ..
        } = entry
            && *mapped == at
        {
            mapping = *new;
        }
    }
    mapping
}
