ghost use Rattle.std.specs.Prelude.{◌≡◌, ◌+◌, ◌<◌, ◌≤◌, ◌^◌, IfOk};
ghost use Rattle.blk_base.specs.Limits.{IsGeometry};
ghost use Rattle.core_model.specs.declared.zones.ZoneData.TheVariants as at;
ghost use Rattle.data_vio.specs.Zones.{journal_number};
ghost use Rattle.core_model.specs.Sessions.{Session};
ghost use Rattle.core_model.specs.Start.{IsFirstData};

use core_model::JournalZone;
use data_vio::Sizes;
use std::alloc::{AllocError, Global};

/// The journal's zone at the start of a session of these sizes: nothing was handed in. All its room is taken here.
pub fn first(alloc: Global, sizes: &Sizes) -> Result<JournalZone, AllocError>
    requires geometry { IsGeometry sizes.now.geometry }
    requires start { (1 ≤ sizes.now.start) × (sizes.now.start < 2 ^ 54) }
    requires physical { 0 < sizes.now.physical }
    ensures { IfOk result (λ first.
        (s : Session) → s.sizes ≡ sizes.now →
        IsFirstData s (journal_number s.sizes) (at.Journal first)) }
{
    JournalZone::new(alloc, sizes)
}
