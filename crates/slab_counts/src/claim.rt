ghost use Rattle.std.specs.Prelude.{◌≡◌};

use blk_base::Pbn;
use std::marker::Model;

// Only `SlabCounts` makes one. Contracts see its block alone.
/// A claim on a data block, which contracts see as the block. Only `SlabCounts` makes one, and there is no other copy.
///
/// A claim whose value is let go stays counted: it is dropped by `SlabCounts::drop_claim`.
#[derive(Debug, Drop)]
pub struct Claim {
    at: Pbn,
}

impl Model for Claim {
    ghost use Rattle.blk_base.specs.declared.place.Pbn.{Pbn};

    ghost Value = { Pbn };

    ghost view = { λ claim. claim.at };
}

impl Claim {
    pub(crate) fn on(at: Pbn) -> Claim
        ensures { result ≡ at }
    {
        Claim { at }
    }

    /// The block.
    pub fn block(&self) -> Pbn
        ensures { result ≡ self.now }
    {
        self.at
    }
}
