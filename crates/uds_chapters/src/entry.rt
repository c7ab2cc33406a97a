use blk_base::Pbn;
use block_names::Name;

/// Where a block with a name was stored last.
#[derive(Clone, Copy, Debug, PartialEq, Eq)]
pub struct Record {
    pub name: Name,
    pub at: Pbn,
}

/// A record that fills a place of a list which has none yet.
impl Default for Record {
    fn default() -> Record {
        Record {
            name: Name::new([0; 16]),
            at: Pbn(0),
        }
    }
}
