ghost use Rattle.core_model.specs.declared.zones.ZoneData.TheVariants as at;
ghost use Rattle.data_vio.specs.Zones.{device_number};
ghost use Rattle.core_model.specs.Sessions.{Session};
ghost use Rattle.core_model.specs.Start.{IsFirstData};

use core_model::{DeviceZone, SuperblockStage};

/// The device's zone at the start of a session: it made no call, and the superblock is as it was opened.
pub fn first() -> DeviceZone
    ensures { (s : Session) → IsFirstData s (device_number s.sizes) (at.Device result) }
{
    DeviceZone {
        stopped: false,
        calls: 0,
        superblock: SuperblockStage::AsOpened,
        damage: None,
    }
}
