use crate::{Desk, JournalZone, LogicalZone, Ports};
use data_vio::{REQUEST_ROOM, Register, Remapping};
use vdo_model::Damage;
use zone_counts::ZoneCounts;

/// The data blocks.
#[derive(Drop)]
pub struct PhysicalZone {
    /// The stop notice has come.
    pub notified: bool,
    /// The entries whose decrement found the counter of its block at 0, the newest first; the device's zone was told of the first.
    pub strays: Register<Remapping, REQUEST_ROOM>,
    /// The counters of its blocks, and the claims on them.
    pub counts: ZoneCounts,
}

/// How far the superblock of a session has come, which says that the session isn't closed.
#[derive(Clone, Copy, PartialEq, Eq)]
pub enum SuperblockStage {
    /// Block 0 is as it was opened, or its write failed.
    AsOpened,
    /// It is written, and not flushed.
    Written,
    /// It is flushed.
    Durable,
}

/// The device.
#[derive(Drop)]
pub struct DeviceZone {
    pub stopped: bool,
    /// How many calls succeeded.
    pub calls: u64,
    /// Nothing else is written before this is durable.
    pub superblock: SuperblockStage,
    /// What was found damaged first: a leaf that doesn't decode, or what a zone told of.
    pub damage: Option<Damage>,
}

/// What a zone of each kind keeps.
#[derive(Drop)]
pub enum ZoneData {
    Desk(Desk),
    Logical(LogicalZone),
    Physical(PhysicalZone),
    Journal(JournalZone),
    Device(DeviceZone),
}

/// A zone: its number among all zones, how many steps it made, what it keeps, and its ports.
#[derive(Drop)]
pub struct Zone {
    pub number: u32,
    pub steps: u64,
    pub keeps: ZoneData,
    pub ports: Ports,
}
